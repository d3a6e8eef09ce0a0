//! Which records of the extents tree continue a fork.
ghost use Rattle.std.specs.Prelude.{◌≡◌, ℕ, ◌+◌, ◌<◌, ◌≤◌, ◌++◌, false, List, length, slice_index_or, OnOk};
ghost use Rattle.hfs_fields.specs.declared.key.ExtKey.{ExtKey};
ghost use Rattle.hfs_fields.specs.Keys.{ext_cmp};
ghost use Rattle.hfs_btree.specs.Pairs.{Rises};
ghost use Rattle.hfs_space.specs.Extents.{goes_on, fork_byte, fork_extents};
ghost use Rattle.hfs_space.specs.Runs as spec;

use crate::extents::block_total;
use crate::fork_kind::{ForkKind, fork_byte};
use crate::overflow::{OverflowRecord, blocks_in, push_record};
use hfs_fields::Extent;
use std::alloc::AllocError;

/// Whether a record is one of this fork's.
fn is_of_fork(r: &OverflowRecord, file: u32, fork: u8) -> bool
    ensures { result ≡ spec.is_of_fork file fork r.now }
{
    let key = r.key();
    key.file == file && key.fork == fork
}

/// Whether a record comes before those of this fork.
fn is_before_fork(r: &OverflowRecord, file: u32, fork: u8) -> bool
    ensures { result ≡ spec.is_before_fork file fork r.now }
{
    let key = r.key();
    key.file < file || (key.file == file && key.fork < fork)
}

/// Whether a record continues this fork from this block of it on.
fn goes_on(r: &OverflowRecord, file: u32, fork: u8, block: u32) -> bool
    ensures { result ≡ goes_on file fork block r.now }
{
    let key = r.key();
    key.file == file
        && key.fork == fork
        && u32::from(key.block) == block
        && block < 65_536
        && 0 < blocks_in(r)
}

/// How many records come before those of this fork.
fn first_of_fork(overflow: &[OverflowRecord], file: u32, fork: u8) -> usize
    requires { Rises ext_cmp overflow.now }
    ensures bound { result ≤ length overflow.now }
    ensures before { spec.StandBefore overflow.now file fork result }
    ensures behind { spec.StandBehind overflow.now file fork result }
{
    overflow.partition_point(|r| is_before_fork(r, file, fork))
}

/// Marks the records that continue the fork whose record has these first extents. The work is a search, and going through the
/// fork's own records.
pub(crate) fn mark_run(
    overflow: &[OverflowRecord],
    file: u32,
    kind: ForkKind,
    first: &[Extent; 3],
    marks: &mut [bool],
)
    requires rises { Rises ext_cmp overflow.now }
    requires length { length marks.old ≡ length overflow.now }
    ensures { spec.AddsRun overflow.now file kind first.now marks.old marks.new }
{
    let fork = fork_byte(kind);
    let mut block = block_total(first);
    for i in first_of_fork(overflow, file, fork)..overflow.len() {
        let r = &overflow[i];
        if !is_of_fork(r, file, fork) {
            return;
        }
        if goes_on(r, file, fork, block) {
            marks[i] = true;
            block += blocks_in(r);
        }
    }
}

/// Adds all extents of the fork whose record has these first ones. The work is a search, and going through the fork's own
/// records.
pub(crate) fn push_fork(
    overflow: &[OverflowRecord],
    file: u32,
    kind: ForkKind,
    first: &[Extent; 3],
    extents: &mut Vec<Extent>,
) -> Result<(), AllocError>
    requires { Rises ext_cmp overflow.now }
    ensures { OnOk result (spec.AddsFork overflow.now file kind first.now extents.old extents.new) }
{
    extents.extend_from_slice(first)?;
    let fork = fork_byte(kind);
    let mut block = block_total(first);
    for i in first_of_fork(overflow, file, fork)..overflow.len() {
        let r = &overflow[i];
        if !is_of_fork(r, file, fork) {
            return Ok(());
        }
        if goes_on(r, file, fork, block) {
            push_record(r, extents)?;
            block += blocks_in(r);
        }
    }
    Ok(())
}
