//! What comes into a new volume, as far as the host tells it.
ghost use Rattle.std.specs.Prelude.{IfErr, IfOk};
ghost use Rattle.hfs_put_sources.specs.Faults.{FailLater, IsListingFault};
ghost use Rattle.hfs_put_sources.specs.Trees.{OfEachTree};
ghost use Rattle.hfs_word_make.specs.Listed.{IsNewListed};
ghost use Rattle.hfs_word_make.specs.Orders.{sources_of};
ghost use Rattle.hfs_word_put.specs.Listed.{IsUnlisted};

use crate::list_new;
use crate::order::MakeOrder;
use hfs_put_sources::{BagFacts, HostFault, HostTree, ManifestDigests};
use hfs_word_put::{Listed, PutFault};
use std::alloc::Global;

/// Reads what the tags of bags tell, and lists what comes.
#[tactic(auto, using(hfs_put_sources::proofs::SourceFaults::listing_before))]
fn read_list<T: HostTree>(
    alloc: Global,
    tree: &mut T,
    order: &MakeOrder<'_>,
) -> Result<Listed, HostFault>
    ensures listed { IfOk result (λ listed. OfEachTree (T.Holds tree.new)
        (IsNewListed order.entry.now listed.items.items listed.digests)) }
    ensures held { OfEachTree (T.Holds tree.new) (T.Holds tree.old) }
    ensures failed { IfErr result (IsListingFault (T.Fails tree.old) (T.Holds tree.new)
        (sources_of order.entry.now)) }
    ensures later { FailLater (T.Fails tree.new) (T.Fails tree.old) }
{
    let facts = BagFacts::read(alloc, tree, order.sources)?;
    let digests = ManifestDigests::read(alloc, tree, order.sources)?;
    let items = list_new(alloc, tree, &facts, order.how, order.sources)?;
    Ok(Listed { items, digests })
}

/// Lists what comes into a new volume, with what bags tell of it. Faults: the first that can't be read; a folder in which a name is
/// not UTF-8; want of memory.
pub fn list_all_new<T: HostTree>(
    alloc: Global,
    tree: &mut T,
    order: &MakeOrder<'_>,
) -> Result<Listed, PutFault<'static>>
    ensures listed { IfOk result (λ listed. OfEachTree (T.Holds tree.new)
        (IsNewListed order.entry.now listed.items.items listed.digests)) }
    ensures held { OfEachTree (T.Holds tree.new) (T.Holds tree.old) }
    ensures later { FailLater (T.Fails tree.new) (T.Fails tree.old) }
    ensures fault { IfErr result (IsUnlisted (IsListingFault (T.Fails tree.old)
        (T.Holds tree.new) (sources_of order.entry.now))) }
{
    match read_list(alloc, tree, order) {
        Ok(listed) => Ok(listed),
        Err(fault) => Err(PutFault::of_host(alloc, fault)),
    }
}
