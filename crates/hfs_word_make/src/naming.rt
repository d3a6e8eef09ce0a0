//! The name and the size that a new volume gets.
ghost use Rattle.std.specs.Prelude.{◌⊎◌, IfErr, IfOk, MatchResult};
ghost use Rattle.hfs_word_make.specs.SourceNames.{IsReadAs};
ghost use Rattle.hfs_put_sources.specs.Faults.{FailLater, IsListingFault};
ghost use Rattle.hfs_put_sources.specs.Trees.{OfEachTree};
ghost use Rattle.hfs_word_make.specs.Names.{IsAskedSize, IsBadSized, IsNamed, IsUnnamed, letters_of};
ghost use Rattle.hfs_word_make.specs.Orders.{sources_of};
ghost use Rattle.hfs_word_put.specs.Faults.{IsHostFault};

use crate::found_name;
use crate::order::MakeOrder;
use crate::refusing::of_make;
use hfs_format::{MakeFault, NameSource, VolumeName, VolumeSize, read_name, read_size};
use hfs_put_sources::{HostFault, HostTree};
use hfs_word_put::PutFault;
use std::alloc::Global;

/// The name as it is read: the one that is given, or else the one by what comes.
fn read_made_name<T: HostTree>(
    alloc: Global,
    tree: &mut T,
    order: &MakeOrder<'_>,
) -> Result<Result<VolumeName, MakeFault>, HostFault>
    ensures name { IfOk result (λ read. OfEachTree (T.Holds tree.new)
        (λ host. IsReadAs (letters_of order.entry.now host) read)) }
    ensures held { OfEachTree (T.Holds tree.new) (T.Holds tree.old) }
    ensures failed { IfErr result (IsListingFault (T.Fails tree.old) (T.Holds tree.new)
        (sources_of order.entry.now)) }
    ensures later { FailLater (T.Fails tree.new) (T.Fails tree.old) }
{
    match order.name {
        Some(name) => Ok(read_name(NameSource::Typed(name))),
        None => found_name(alloc, tree, order.sources),
    }
}

/// What it means that the sources can't be read by which the volume gets its name: a bad size goes before that.
fn unread_name(alloc: Global, order: &MakeOrder<'_>, fault: HostFault) -> PutFault<'static>
    ensures { IsHostFault fault result ⊎ IsBadSized order.entry.now.size result }
{
    match made_size(order) {
        Ok(_) => PutFault::of_host(alloc, fault),
        Err(refused) => refused,
    }
}

/// The name that the new volume gets. Faults: `BadName`, also where there is none; what can't be read of what comes, but `BadSize` goes
/// before that.
pub(crate) fn made_name<T: HostTree>(
    alloc: Global,
    tree: &mut T,
    order: &MakeOrder<'_>,
) -> Result<VolumeName, PutFault<'static>>
    ensures name { IfOk result (λ name. OfEachTree (T.Holds tree.new)
        (IsNamed order.entry.now name)) }
    ensures held { OfEachTree (T.Holds tree.new) (T.Holds tree.old) }
    ensures later { FailLater (T.Fails tree.new) (T.Fails tree.old) }
    ensures fault { IfErr result (IsUnnamed (T.Fails tree.old) (T.Holds tree.new) order.entry.now) }
{
    match read_made_name(alloc, tree, order) {
        Ok(Ok(name)) => Ok(name),
        Ok(Err(fault)) => Err(of_make(fault)),
        Err(fault) => Err(unread_name(alloc, order, fault)),
    }
}

/// The size that is asked for, where one is. Fault: `BadSize`.
pub(crate) fn made_size(order: &MakeOrder<'_>) -> Result<Option<VolumeSize>, PutFault<'static>>
    ensures { MatchResult result (IsAskedSize order.entry.now.size)
        (IsBadSized order.entry.now.size) }
{
    let Some(text) = order.size else {
        return Ok(None);
    };
    match read_size(text) {
        Ok(size) => Ok(Some(size)),
        Err(fault) => Err(of_make(fault)),
    }
}
