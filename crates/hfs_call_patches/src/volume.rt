//! A volume that a call changes, and what is made of a fork in it.

ghost use Rattle.std.specs.Prelude.{◌≡◌, Some};
ghost use Rattle.hfs_model.specs.declared.reply.Value.TheVariants as value;

use crate::choosing::FoundFile;
use crate::{Change, ForkBlocks};
use hfs_blocks::{Blocks, Patch, Run};
use hfs_fields::Mdb;
use hfs_model::{Fork, Value, Want};
use hfs_space::ZeroRuns;

/// A sound volume's blocks, with what mounting found out about them.
#[derive(Drop)]
pub struct MountedBlocks<'a, B: Blocks> {
    pub blocks: &'a B,
    /// The master directory block.
    pub mdb: &'a Mdb,
    /// The blocks of the extents tree's nodes.
    pub extents: &'a [Run],
    /// The blocks of the catalog's nodes.
    pub catalog: &'a [Run],
}

/// What a file's fork gets: this length, zeros from `from` on where it had no bytes, and the given bytes from `offset` on.
#[derive(Clone, Copy)]
pub(crate) struct Resizing<'a> {
    pub found: &'a FoundFile,
    pub fork: Fork,
    pub length: u32,
    pub from: u32,
    pub offset: u32,
    pub bytes: &'a [u8],
    pub moment: u32,
}

/// A patch in the making, and the blocks that it lies over.
#[derive(Drop)]
pub(crate) struct Overlay<'a, B: Blocks> {
    pub below: &'a B,
    pub patch: Patch,
}

/// Why SetEof or WriteFork changes nothing.
#[derive(Clone, Copy)]
pub enum ForkRefusal {
    /// A code other than 0 and -34.
    Code(i16),
    /// Too few blocks or nodes for a call that would otherwise succeed: -34.
    Want(Want),
}

/// The patch that a fork's edits make, and the volume's counts after them.
#[derive(Drop)]
pub(crate) struct Settled {
    pub patch: Patch,
    pub counts: Mdb,
}

/// The change, with the runs of the blocks that were written, and those of zeros.
pub(crate) fn fork_change(zeros: ZeroRuns, runs: Vec<Run>, settled: Settled) -> Change
    ensures patch { result.patch ≡ settled.patch }
    ensures counts { result.counts ≡ settled.counts }
    ensures written { result.written ≡ Some (record { runs = runs; zeros = zeros }) }
    ensures value { result.value ≡ value.Nothing }
{
    Change {
        patch: settled.patch,
        counts: settled.counts,
        written: Some(ForkBlocks { runs, zeros }),
        value: Value::Nothing,
    }
}
