//! The catalog of a volume over a patch of its blocks: opened to be edited, and closed with the volume's counts.

ghost use Rattle.std.specs.Prelude.{IfOk};
ghost use Rattle.hfs_blocks.specs.Layers.{changes, over, AreWithin};
ghost use Rattle.hfs_check.specs.Sound.{AreBlocksSound};
ghost use Rattle.hfs_call_patches.specs.TreeFiles.{IsCatalogFile};
ghost use Rattle.hfs_call_patches.specs.CatalogPatch.{LiesOver, AreCatalogNodes, KeepsCatalogNames, PutsCatalog};

use crate::counts::put_counts;
use hfs_blocks::{Blocks, Patch, Run};
use hfs_btree_edits::PatchNodes;
use hfs_fields::Mdb;
use std::alloc::{AllocError, Global};

/// The nodes of a sound volume's catalog, over a patch that has no blocks yet.
pub(crate) fn open_catalog<'a, B: Blocks>(
    alloc: Global,
    below: &'a B,
    runs: &'a [Run],
) -> PatchNodes<'a, B>
    requires sound { AreBlocksSound (B.total below.now) (B.blocks below.now) }
    requires file { IsCatalogFile runs.now (B.total below.now) (B.blocks below.now) }
    ensures nodes { AreCatalogNodes B.blocks below.now
        result.below.now result.runs.now result.patch }
    ensures over { LiesOver B.blocks below.now runs.now
        result.below.now result.runs.now result.patch }
{
    PatchNodes {
        below,
        runs,
        patch: Patch::new(alloc),
    }
}

/// The patch of a catalog's nodes, with these counts in the volume's master directory block. Fails only when out of memory.
pub(crate) fn close_catalog<B: Blocks>(
    below: &B,
    runs: &[Run],
    nodes: PatchNodes<'_, B>,
    counts: &Mdb,
) -> Result<Patch, AllocError>
    requires sound { AreBlocksSound (B.total below.now) (B.blocks below.now) }
    requires file { IsCatalogFile runs.now (B.total below.now) (B.blocks below.now) }
    requires over { LiesOver B.blocks below.now runs.now
        nodes.below.now nodes.runs.now nodes.patch }
    requires keeps { KeepsCatalogNames B.blocks below.now
        nodes.below.now nodes.runs.now nodes.patch }
    ensures catalog { IfOk result (PutsCatalog counts.now B.blocks below.now nodes.entry.below.now
        nodes.entry.runs.now nodes.entry.patch) }
    ensures within { IfOk result (λ patch. AreWithin (changes patch) (B.total below.now)) }
{
    let mut patch = nodes.patch;
    put_counts(below, &mut patch, counts)?;
    Ok(patch)
}
