//! A file's record in the catalog, over a patch of a volume's blocks.

ghost use Rattle.std.specs.Prelude.{IfOk};
ghost use Rattle.hfs_fields.specs.RecordForms.{IsFileRecordValue};
ghost use Rattle.hfs_blocks.specs.Layers.{changes, AreWithin};
ghost use Rattle.hfs_btree_edits.specs.Entries.{IsPlaceOf};
ghost use Rattle.hfs_catalog.specs.Tree.{IsCatalogTree, cat_keys};
ghost use Rattle.hfs_call_patches.specs.Patches.{patched_nodes};
ghost use Rattle.hfs_call_patches.specs.Overflow.{KeepsBesideRuns};
ghost use Rattle.hfs_call_patches.specs.Recorded.{IsFileAt, SetsFileOver};

use crate::choosing::FoundFile;
use hfs_blocks::{Blocks, Patch};
use hfs_btree_edits::PatchNodes;
use hfs_catalog::ItemRecord;
use hfs_fields::FileRecord;
use hfs_record_edits::set_record_at;
use std::alloc::{AllocError, Global};

/// The patch that puts a file's record in place of the one that was found, in the catalog that has these nodes. Fails only when
/// out of memory.
pub(crate) fn set_file_over<B: Blocks>(
    alloc: Global,
    mut nodes: PatchNodes<'_, B>,
    found: &FoundFile,
    file: &FileRecord,
) -> Result<Patch, AllocError>
    requires tree { IsCatalogTree
        (patched_nodes (B.blocks nodes.below.now) nodes.patch nodes.runs.now) }
    requires there { IsFileAt (patched_nodes (B.blocks nodes.below.now) nodes.patch nodes.runs.now)
        found.now.key file.now }
    requires place { IsPlaceOf cat_keys
        (patched_nodes (B.blocks nodes.below.now) nodes.patch nodes.runs.now)
        found.now.key found.now.place }
    ensures set { IfOk result (SetsFileOver found.now.key file.now
        (B.blocks nodes.entry.below.now) nodes.entry.runs.now nodes.entry.patch) }
    ensures value { IfOk result (λ new. IsFileRecordValue file.now) }
    ensures beside { IfOk result (KeepsBesideRuns nodes.entry.runs.now
        (B.blocks nodes.entry.below.now) nodes.entry.patch) }
    ensures inside { IfOk result (λ new. AreWithin (changes new) (B.total nodes.entry.below.now)) }
{
    let item = ItemRecord::File(*file);
    set_record_at(alloc, &mut nodes, &found.key, &item, &found.place)?;
    Ok(nodes.patch)
}
