//! What is put, as the host describes it.
ghost use Rattle.std.specs.Prelude.{◌≡◌, None, IfErr, IfOk, OnOk};
ghost use Rattle.hfs_put_sources.specs.Digests.{first_wrong};
ghost use Rattle.hfs_put_sources.specs.Faults.{FailLater, IsListingFault};
ghost use Rattle.hfs_put_sources.specs.Later.{told_at};
ghost use Rattle.hfs_put_sources.specs.Trees.{OfEachTree};
ghost use Rattle.hfs_word_put.specs.Faults.{SparesImage};
ghost use Rattle.hfs_word_put.specs.Listed.{IsListed, IsUnlisted, IsUnverified};
ghost use Rattle.hfs_word_put.specs.Orders.{sources_of};

use crate::fault::PutFault;
use crate::lines::refusal_line;
use crate::order::PutOrder;
use crate::reason::PutReason;
use hfs_put_sources::{
    BagFacts, HostFault, HostTree, ManifestDigests, SourceItem, first_wrong_file, list_sources,
};
use std::alloc::Global;

/// What is put.
#[derive(Drop)]
pub struct Listed {
    /// The items, in the order of the walk.
    pub items: Vec<SourceItem>,
    /// The digests that bags give for their files.
    pub digests: ManifestDigests,
}

/// Reads the tags of bags, and lists what is put.
#[tactic(auto, using(hfs_put_sources::proofs::SourceFaults::listing_before))]
fn read_list<T: HostTree>(
    alloc: Global,
    tree: &mut T,
    order: &PutOrder<'_>,
) -> Result<Listed, HostFault>
    ensures listed { IfOk result (λ listed. OfEachTree (T.Holds tree.new)
        (IsListed order.entry.now listed.items.items listed.digests)) }
    ensures held { OfEachTree (T.Holds tree.new) (T.Holds tree.old) }
    ensures failed { IfErr result (IsListingFault (T.Fails tree.old) (T.Holds tree.new)
        (sources_of order.entry.now)) }
    ensures later { FailLater (T.Fails tree.new) (T.Fails tree.old) }
{
    let facts = BagFacts::read(alloc, tree, order.sources)?;
    let digests = ManifestDigests::read(alloc, tree, order.sources)?;
    let items = list_sources(alloc, tree, &facts, order.how, order.sources)?;
    Ok(Listed { items, digests })
}

/// Lists what is put, with what bags say about it. Faults: the first source that can't be read; a folder with a name that is not
/// UTF-8; out of memory.
pub fn list_all<T: HostTree>(
    alloc: Global,
    tree: &mut T,
    order: &PutOrder<'_>,
) -> Result<Listed, PutFault<'static>>
    ensures listed { IfOk result (λ listed. OfEachTree (T.Holds tree.new)
        (IsListed order.entry.now listed.items.items listed.digests)) }
    ensures held { OfEachTree (T.Holds tree.new) (T.Holds tree.old) }
    ensures later { FailLater (T.Fails tree.new) (T.Fails tree.old) }
    ensures fault { IfErr result (IsUnlisted (IsListingFault (T.Fails tree.old)
        (T.Holds tree.new) (sources_of order.entry.now))) }
    ensures spares { IfErr result SparesImage }
{
    match read_list(alloc, tree, order) {
        Ok(listed) => Ok(listed),
        Err(fault) => Err(PutFault::of_host(alloc, fault)),
    }
}

/// Checks that each file has the digest that its bag gives, which takes reading the files of bags. Faults: the first file that
/// has another digest, or can't be read; out of memory.
pub fn need_digests<T: HostTree>(
    alloc: Global,
    tree: &mut T,
    digests: &ManifestDigests,
    items: &[SourceItem],
) -> Result<(), PutFault<'static>>
    ensures right { OnOk result (OfEachTree (T.Holds tree.new)
        (λ host. first_wrong host (told_at digests.now) items.now ≡ None)) }
    ensures held { OfEachTree (T.Holds tree.new) (T.Holds tree.old) }
    ensures later { FailLater (T.Fails tree.new) (T.Fails tree.old) }
    ensures fault { IfErr result (IsUnverified (T.Fails tree.old) (T.Holds tree.new)
        digests.now items.now) }
    ensures spares { IfErr result SparesImage }
{
    match first_wrong_file(alloc, tree, digests, items) {
        Ok(None) => Ok(()),
        Ok(Some(path)) => {
            let lines = refusal_line(alloc, path, PutReason::Digest);
            Err(PutFault::of_lines(lines))
        }
        Err(fault) => Err(PutFault::of_host(alloc, fault)),
    }
}
