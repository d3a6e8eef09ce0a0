//! The records of a fork in the extents tree, over a patch of a volume's blocks.

ghost use Rattle.std.specs.Prelude.{◌≡◌, ◌*◌, ◌<◌, ◌≤◌, ◌^◌, length, IfOk};
ghost use Rattle.std.specs.List.{All};
ghost use Rattle.hfs_blocks.specs.Layers.{changes, AreWithin};
ghost use Rattle.hfs_btree.specs.Header.{header_in};
ghost use Rattle.hfs_space.specs.Extents.{AreExtentsWithin, block_total, fork_byte};
ghost use Rattle.hfs_space.specs.TreeKeys.{IsExtentsTree, extents_through};
ghost use Rattle.hfs_record_edits.specs.Whole.{IsWhole};
ghost use Rattle.hfs_record_edits.specs.Growing.{HasRoomFor};
ghost use Rattle.hfs_call_patches.specs.Patches.{patched_nodes};
ghost use Rattle.hfs_call_patches.specs.Overflow.{GivesGrownOver, GivesShortOver, KeepsBesideRuns};

use hfs_blocks::{Blocks, Patch};
use hfs_btree_edits::PatchNodes;
use hfs_fields::Extent;
use hfs_record_edits::{NodesWanted, ShortFork, lengthen_fork, shorten_fork};
use hfs_space::ForkKind;
use std::alloc::{AllocError, Global};

/// A fork to which blocks were added: the first three extents that it now has, and the patch in which the extents tree has the
/// others.
#[derive(Drop)]
pub(crate) struct Lengthened {
    pub first: [Extent; 3],
    pub patch: Patch,
}

/// A fork that lost its last blocks, and the patch in which the extents tree has no record of these.
#[derive(Drop)]
pub(crate) struct Shortened {
    pub fork: ShortFork,
    pub patch: Patch,
}

/// Adds blocks to a fork, in the extents tree that has these nodes. The only error besides too few nodes is running out of memory.
pub(crate) fn lengthen_over<B: Blocks>(
    alloc: Global,
    mut nodes: PatchNodes<'_, B>,
    file: u32,
    fork: ForkKind,
    first: &[Extent; 3],
    pieces: &[Extent],
) -> Result<Result<Lengthened, NodesWanted>, AllocError>
    requires tree { IsExtentsTree
        (patched_nodes (B.blocks nodes.below.now) nodes.patch nodes.runs.now) }
    requires whole { IsWhole file (fork_byte fork) first.now
        (patched_nodes (B.blocks nodes.below.now) nodes.patch nodes.runs.now) }
    requires some { All (λ piece. 0 < piece.count) pieces.now }
    requires inside_volume { AreExtentsWithin 65535 pieces.now }
    requires few { HasRoomFor (extents_through
        (patched_nodes (B.blocks nodes.below.now) nodes.patch nodes.runs.now)
        file fork first.now) pieces.now }
    requires small { 512 * (header_in
        (patched_nodes (B.blocks nodes.below.now) nodes.patch nodes.runs.now)).nodes < 2 ^ 32 }
    requires in_file { (header_in
        (patched_nodes (B.blocks nodes.below.now) nodes.patch nodes.runs.now)).nodes
        ≤ length (patched_nodes (B.blocks nodes.below.now) nodes.patch nodes.runs.now) }
    ensures grown { IfOk result (GivesGrownOver file fork first.now pieces.now
        (B.blocks nodes.entry.below.now) nodes.entry.runs.now nodes.entry.patch) }
    ensures beside { IfOk result (λ answer. IfOk answer (λ grown.
        KeepsBesideRuns nodes.entry.runs.now (B.blocks nodes.entry.below.now)
        nodes.entry.patch grown.patch)) }
    ensures inside { IfOk result (λ answer. IfOk answer (λ grown.
        AreWithin (changes grown.patch) (B.total nodes.entry.below.now))) }
{
    match lengthen_fork(alloc, &mut nodes, file, fork, first, pieces)? {
        Ok(first) => Ok(Ok(Lengthened {
            first,
            patch: nodes.patch,
        })),
        Err(wanted) => Ok(Err(wanted)),
    }
}

/// Cuts a fork to its first `count` blocks, in the extents tree that has these nodes. Fails only when out of memory.
pub(crate) fn shorten_over<B: Blocks>(
    alloc: Global,
    mut nodes: PatchNodes<'_, B>,
    file: u32,
    fork: ForkKind,
    first: &[Extent; 3],
    count: u16,
) -> Result<Shortened, AllocError>
    requires tree { IsExtentsTree
        (patched_nodes (B.blocks nodes.below.now) nodes.patch nodes.runs.now) }
    requires whole { IsWhole file (fork_byte fork) first.now
        (patched_nodes (B.blocks nodes.below.now) nodes.patch nodes.runs.now) }
    requires in_volume { AreExtentsWithin 65535 (extents_through
        (patched_nodes (B.blocks nodes.below.now) nodes.patch nodes.runs.now)
        file fork first.now) }
    requires few { block_total (extents_through
        (patched_nodes (B.blocks nodes.below.now) nodes.patch nodes.runs.now)
        file fork first.now) ≤ 65535 }
    ensures short { IfOk result (GivesShortOver file fork first.now count
        (B.blocks nodes.entry.below.now) nodes.entry.runs.now nodes.entry.patch) }
    ensures beside { IfOk result (λ short.
        KeepsBesideRuns nodes.entry.runs.now (B.blocks nodes.entry.below.now)
        nodes.entry.patch short.patch) }
    ensures inside { IfOk result (λ short.
        AreWithin (changes short.patch) (B.total nodes.entry.below.now)) }
{
    let fork = shorten_fork(alloc, &mut nodes, file, fork, first, count)?;
    Ok(Shortened {
        fork,
        patch: nodes.patch,
    })
}
