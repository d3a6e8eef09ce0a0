//! All extents of a file.

ghost use Rattle.hfs_space.specs.Owners.{extents_of_file};
ghost use Rattle.hfs_space.specs.Results.{GivesItems};
ghost use Rattle.hfs_space.specs.TreeKeys.{IsExtentsTree, overflow_of};

use hfs_btree::Nodes;
use hfs_fields::{Extent, FileRecord};
use hfs_space::{ForkKind, fork_extents};
use std::alloc::{AllocError, Global};

/// All extents of a file: those of its data fork and then those of its resource fork, each including those in the extents tree.
/// Fails only when out of memory.
///
/// Source: Inside Macintosh: Files, chapter 2, 'Extents overflow file'.
#[tactic(auto, using(crate::proofs::BothForks::both_forks))]
pub fn file_extents<N: Nodes>(
    alloc: Global,
    tree: &N,
    file: &FileRecord,
) -> Result<Vec<Extent>, AllocError>
    requires { IsExtentsTree (N.nodes tree.now) }
    ensures { GivesItems (extents_of_file (overflow_of (N.nodes tree.now)) file.now) result }
{
    let mut extents = fork_extents(alloc, tree, file.id, ForkKind::Data, &file.data.extents)?;
    let resource = fork_extents(
        alloc,
        tree,
        file.id,
        ForkKind::Resource,
        &file.resource.extents,
    )?;
    extents.extend_from_slice(&resource)?;
    Ok(extents)
}
