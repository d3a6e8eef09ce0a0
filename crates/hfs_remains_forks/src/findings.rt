//! What is found of a fork.
ghost use Rattle.std.specs.Prelude.{◌≡◌, ◌≤◌, length, nat_lt, if◌then◌else◌, None, Some, IfOk};
ghost use Rattle.hfs_remains.specs.TreeFiles.{FileBlocks};
ghost use Rattle.hfs_remains_places.specs.declared.verdict.Verdict.TheVariants.{Taken};
ghost use Rattle.hfs_remains_forks.specs.Forks.{fork_length, fork_places};
ghost use Rattle.hfs_remains_forks.specs.Owners.{CountOwners};
ghost use Rattle.hfs_remains_forks.specs.Verdicts as spec;

use crate::chains::Chains;
use crate::forks::{Fork, missing_in};
use crate::owners::has_shared;
use crate::shares::Share;
use hfs_fields::Mdb;
use hfs_remains_places::{Finding, Verdict};
use std::alloc::{AllocError, Global};

/// A fork of an item, as far as it is taken.
#[derive(Drop)]
pub struct FoundFork {
    /// How many bytes are taken of it; 0 if it is left out.
    pub length: u32,
    /// The allocation blocks that hold these, in order, with None in place of each that is missing, which gives zeros.
    pub places: Vec<Option<u16>>,
    /// The verdict on it.
    pub verdict: Verdict,
}

/// How long a fork is that wants more bytes; None if it has as many as it wants.
fn cut_of(wanted: u32, length: u32) -> Option<u32>
    ensures { result ≡ if nat_lt length wanted then Some length else None }
{
    if length < wanted { Some(length) } else { None }
}

/// A fork that is taken, on a volume of `total` logical blocks, given how many owners each allocation block has.
fn taken_fork(
    alloc: Global,
    total: u32,
    mdb: &Mdb,
    chains: &Chains<'_>,
    owners: &[u8],
    fork: &Fork,
) -> Result<FoundFork, AllocError>
    requires size { 512 ≤ mdb.now.allocation_block_size }
    requires all { length owners.now ≡ mdb.now.allocation_blocks }
    ensures length { IfOk result (λ found. found.length ≡ fork_length chains.now mdb.now
        fork.now) }
    ensures places { IfOk result (λ found. found.places.items ≡ fork_places total chains.now mdb.now
        fork.now) }
    ensures verdict { (used : FileBlocks) → CountOwners used owners.now → IfOk result
        (λ found. found.verdict ≡ Taken (spec.finding_of total chains.now mdb.now used
        fork.now)) }
{
    let length = fork.length(chains, mdb);
    let places = fork.places(alloc, total, chains, mdb)?;
    let finding = Finding {
        cut: cut_of(fork.len, length),
        missing: missing_in(mdb, &places, length),
        shared: has_shared(owners, &places),
    };
    Ok(FoundFork {
        length,
        places,
        verdict: Verdict::Taken(finding),
    })
}

/// What is found of a fork, on a volume of `total` logical blocks, given how many owners each allocation block has.
pub(crate) fn find_fork(
    alloc: Global,
    total: u32,
    mdb: &Mdb,
    chains: &Chains<'_>,
    owners: &[u8],
    share: &Share,
) -> Result<FoundFork, AllocError>
    requires size { 512 ≤ mdb.now.allocation_block_size }
    requires all { length owners.now ≡ mdb.now.allocation_blocks }
    ensures { (used : FileBlocks) → CountOwners used owners.now → IfOk result (spec.IsFound total
        chains.now mdb.now used share.now) }
{
    if share.taken {
        let found = taken_fork(alloc, total, mdb, chains, owners, &share.fork)?;
        return Ok(found);
    }
    Ok(FoundFork {
        length: 0,
        places: Vec::new(alloc),
        verdict: Verdict::Left,
    })
}
