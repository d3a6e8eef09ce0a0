//! A part of a file's fork.

ghost use Rattle.std.specs.Prelude.{◌≡◌, ◌+◌, ◌%◌, IfOk};
ghost use Rattle.hfs_model.specs.declared.codes.TheConstants.{END_OF_FILE};
ghost use Rattle.hfs_model.specs.Reading.{part_of};
ghost use Rattle.hfs_space.specs.Forks.{HasArea};
ghost use Rattle.hfs_space.specs.TreeKeys.{IsExtentsTree};
ghost use Rattle.hfs_volume.specs.Mounted.{fork_record};
ghost use Rattle.hfs_volume.specs.ForkParts.{IsForkOf, bytes_of_fork, part_reply};

use hfs_blocks::Blocks;
use hfs_btree::Nodes;
use hfs_fields::{FileRecord, ForkRecord, Mdb};
use hfs_model::{END_OF_FILE, Fork, OwnedBytes, Reply, Value};
use hfs_space::{ForkKind, fork_extents, read_fork};
use std::alloc::{AllocError, Global};

/// The reply with these bytes, which were read from `offset` on in a fork of `length` bytes: -39 if `count` bytes would end past
/// the fork.
fn part_reply(bytes: Vec<u8>, length: u32, offset: u32, count: u32) -> Reply
    ensures { result ≡ part_reply bytes.items length offset count }
{
    let code = if u64::from(length) < u64::from(offset) + u64::from(count) {
        END_OF_FILE
    } else {
        0
    };
    Reply {
        code,
        value: Value::Bytes(OwnedBytes::new(bytes)),
    }
}

/// One of a file's forks: the file's ID, which of its forks, and what the file's record says about it.
#[derive(Clone, Copy)]
pub(crate) struct FileFork {
    pub file: u32,
    pub kind: ForkKind,
    pub record: ForkRecord,
}

/// At most `count` bytes of a file's fork, starting at an offset, with -39 if the fork ends before `count` of them. Reads only
/// the blocks that have one of these bytes. Fails only when out of memory.
pub(crate) fn read_part<B: Blocks, N: Nodes>(
    alloc: Global,
    blocks: &B,
    mdb: &Mdb,
    tree: &N,
    fork: &FileFork,
    offset: u32,
    count: u32,
) -> Result<Reply, AllocError>
    requires area { HasArea mdb.now (B.total blocks.now) }
    requires whole_size { mdb.now.allocation_block_size % 512 ≡ 0 }
    requires tree { IsExtentsTree (N.nodes tree.now) }
    requires fork { IsForkOf mdb.now (N.nodes tree.now)
        fork.now.file fork.now.kind fork.now.record }
    ensures { IfOk result (λ reply. reply ≡ part_of
        (bytes_of_fork (B.blocks blocks.now) mdb.now (N.nodes tree.now)
        fork.now.file fork.now.kind fork.now.record)
        offset count) }
{
    let record = &fork.record;
    let extents = fork_extents(alloc, tree, fork.file, fork.kind, &record.extents)?;
    let bytes = read_fork(alloc, blocks, mdb, &extents, record.length, offset, count)?;
    Ok(part_reply(bytes, record.length, offset, count))
}

/// What a file's record says about one of its forks.
pub(crate) fn fork_record(file: &FileRecord, fork: Fork) -> (ForkKind, ForkRecord)
    ensures { result ≡ fork_record fork file.now }
{
    match fork {
        Fork::DataFork => (ForkKind::Data, file.data),
        Fork::ResFork => (ForkKind::Resource, file.resource),
    }
}
