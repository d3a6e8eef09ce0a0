//! What is taken of the forks of items.
ghost use Rattle.std.specs.Prelude.{◌≡◌, ◌≤◌, ◌-◌, nat_le, if◌then◌else◌, IfOk};
ghost use Rattle.hfs_remains_forks.specs.Forks.{both_forks};
ghost use Rattle.hfs_remains_forks.specs.Verdicts as spec;

use crate::chains::Chains;
use crate::forks::Fork;
use hfs_fields::Mdb;
use hfs_remains::FoundRecord;
use std::alloc::{AllocError, Global};

/// A fork, and whether it is taken.
#[derive(Clone, Copy)]
pub struct Share {
    pub fork: Fork,
    pub taken: bool,
}

/// The forks of a file.
#[derive(Clone, Copy)]
pub struct FileShares {
    /// Whether the file's record is old.
    pub old: bool,
    pub data: Share,
    pub resource: Share,
}

/// Takes this many bytes, if there is room for all of them, and returns whether there was.
fn take_bytes(room: &mut u64, bytes: u32) -> bool
    ensures taken { result ≡ nat_le bytes room.old }
    ensures room { room.new ≡ if nat_le bytes room.old then room.old - bytes else room.old }
{
    let taken = u64::from(bytes) <= *room;
    if taken {
        *room -= u64::from(bytes);
    }
    taken
}

/// Takes a fork, if there is room for all of it.
fn take_fork(chains: &Chains<'_>, mdb: &Mdb, room: &mut u64, fork: Fork) -> Share
    requires { 512 ≤ mdb.now.allocation_block_size }
    ensures share { result ≡ spec.share_of chains.now mdb.now room.old fork }
    ensures room { room.new ≡ spec.room_behind chains.now mdb.now room.old fork }
{
    let bytes = fork.length(chains, mdb);
    let taken = take_bytes(room, bytes);
    Share { fork, taken }
}

/// Takes those forks of an item, data before resources, for all of which there is room; None for a folder.
fn take_item(
    chains: &Chains<'_>,
    mdb: &Mdb,
    room: &mut u64,
    item: &FoundRecord,
) -> Option<FileShares>
    requires { 512 ≤ mdb.now.allocation_block_size }
    ensures shares { result ≡ spec.item_shares chains.now mdb.now room.old item.now.old
        (both_forks item.now.entry.1) }
    ensures room { room.new ≡ spec.room_behind_item chains.now mdb.now room.old
        (both_forks item.now.entry.1) }
{
    let (data, resource) = Fork::both(item.entry.body())?;
    let data = take_fork(chains, mdb, room, data);
    let resource = take_fork(chains, mdb, room, resource);
    Some(FileShares {
        old: item.old,
        data,
        resource,
    })
}

/// What is taken of each item's forks, in the order of the items, when `limit` bytes may be taken in all: a fork that would
/// exceed it is left out, and those after it are still looked at. Fails only when out of memory.
pub(crate) fn shares_of(
    alloc: Global,
    chains: &Chains<'_>,
    mdb: &Mdb,
    limit: u64,
    items: &[FoundRecord],
) -> Result<Vec<Option<FileShares>>, AllocError>
    requires { 512 ≤ mdb.now.allocation_block_size }
    ensures { IfOk result (λ shares. shares.items ≡ spec.shares_of chains.now mdb.now limit
        items.now) }
{
    let mut room = limit;
    let mut shares = Vec::new(alloc);
    for item in items {
        shares.push(take_item(chains, mdb, &mut room, item))?;
    }
    Ok(shares)
}
