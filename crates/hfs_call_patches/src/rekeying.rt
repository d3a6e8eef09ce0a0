//! Moving an item to another key, in the catalog over a patch.

ghost use Rattle.std.specs.Prelude.{IfOk};
ghost use Rattle.hfs_blocks.specs.Layers.{over};
ghost use Rattle.hfs_check.specs.Parts.{catalog_nodes};
ghost use Rattle.hfs_check.specs.Sound.{AreBlocksSound};
ghost use Rattle.hfs_call_patches.specs.Rekeyings.{CanRekey};
ghost use Rattle.hfs_call_patches.specs.TreeFiles.{IsCatalogFile};
ghost use Rattle.hfs_call_patches.specs.CatalogPatch.{LiesOver, RekeysOver};

use crate::catalog_patch::open_catalog;
use hfs_blocks::{Blocks, Run};
use hfs_btree_edits::PatchNodes;
use hfs_fields::CatKey;
use hfs_record_edits::rekey;
use std::alloc::{AllocError, Global};

/// An item's ID and key, and the key that it is to get.
#[derive(Clone, Copy)]
pub struct Rekeying {
    pub id: u32,
    pub from: CatKey,
    pub to: CatKey,
}

/// The nodes of a sound volume's catalog, over a patch in which an item is under its other key, and its thread, if it has one,
/// leads there. Fails only when out of memory.
pub(crate) fn open_rekeyed<'a, B: Blocks>(
    alloc: Global,
    below: &'a B,
    runs: &'a [Run],
    item: &Rekeying,
) -> Result<PatchNodes<'a, B>, AllocError>
    requires sound { AreBlocksSound (B.total below.now) (B.blocks below.now) }
    requires file { IsCatalogFile runs.now (B.total below.now) (B.blocks below.now) }
    requires can { CanRekey item.now (catalog_nodes (B.blocks below.now)) }
    ensures rekeyed { IfOk result (λ nodes.
        RekeysOver item.now B.blocks below.now nodes.below.now nodes.runs.now nodes.patch) }
    ensures over { IfOk result (λ nodes.
        LiesOver B.blocks below.now runs.now nodes.below.now nodes.runs.now nodes.patch) }
{
    let mut nodes = open_catalog(alloc, below, runs);
    rekey(alloc, &mut nodes, item.id, &item.from, &item.to)?;
    Ok(nodes)
}
