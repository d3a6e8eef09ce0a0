//! Images of new volumes.
ghost use Rattle.std.specs.Prelude.{vec_len, ◌≡◌, ◌+◌, ◌*◌, ◌-◌, ◌<◌, ◌≤◌, ◌⊎◌, Some, IfOk, IfErr};
ghost use Rattle.hfs_format.specs.BitRow.{bit_row};
ghost use Rattle.hfs_format.specs.Plan.{IsLayout, used_blocks, IsFormatFault};
ghost use Rattle.hfs_format.specs.FormatLaws.{planned_volume};
ghost use Rattle.hfs_format.specs.Image as spec;
ghost use Rattle.hfs_check.specs.Sound.{IsSound};
ghost use Rattle.hfs_check.specs.VolumeOf.{volume_of};

use crate::bit_row::push_bits;
use crate::format_fault::FormatFault;
use crate::format_laws::{new_images_are_sound, new_images_hold_new_volumes};
use crate::format_plan::FormatPlan;
use crate::layout::Layout;
use crate::mdb_block::mdb_block;
use crate::root_leaf::root_leaf_block;
use crate::tree_header::{empty_tree, one_leaf_tree, tree_block};
use hfs_fields::FieldRow;
use std::alloc::{AllocError, Global};

/// Block `k` of the bitmap, counted from 0. The files' allocation blocks are the first ones.
fn bitmap_block(volume: &Layout, k: u32) -> [u8; 512]
    requires { k < 100 }
    ensures { result ≡ bit_row (used_blocks volume.now) (512 * k) 512 }
{
    let used = volume.extents.blocks as u32 + volume.catalog.blocks as u32;
    let mut row = FieldRow::new();
    push_bits(&mut row, used, 512 * k, 512);
    row.into_block()
}

/// Node `j` of the catalog file.
fn catalog_block(volume: &Layout, j: u32) -> [u8; 512]
    requires { IsLayout volume.now }
    ensures { result ≡ spec.catalog_block volume.now j }
{
    let tree = one_leaf_tree(37, volume.catalog.nodes, 2);
    if j == tree.root {
        root_leaf_block(volume)
    } else {
        tree_block(&tree, j)
    }
}

/// Logical block `k` of the volume, counted from 0.
#[tactic(auto, unfolding(crate::specs::Image::new_block))]
pub(crate) fn new_block(volume: &Layout, k: u32) -> [u8; 512]
    requires layout { IsLayout volume.now }
    requires within { k < volume.now.blocks }
    ensures { result ≡ spec.new_block volume.now k }
{
    let extents_start = volume.start as u32;
    let catalog_start = extents_start + volume.extents.nodes;
    if k == 2 || k + 2 == volume.blocks {
        mdb_block(volume)
    } else if k < 3 {
        [0; 512]
    } else if k < extents_start {
        bitmap_block(volume, k - 3)
    } else if k < catalog_start {
        tree_block(&empty_tree(7, volume.extents.nodes), k - extents_start)
    } else {
        catalog_block(volume, k - catalog_start)
    }
}

/// The blocks of the volume, one after the other.
#[tactic(auto, unfolding(crate::specs::Image::volume_image))]
fn volume_image(alloc: Global, volume: &Layout) -> Result<Vec<u8>, AllocError>
    requires { IsLayout volume.now }
    ensures bytes { IfOk result (λ image. image.items ≡ spec.volume_image volume.now) }
    ensures len { IfOk result (λ image. vec_len image ≡ 512 * volume.now.blocks) }
{
    let mut image = Vec::with_capacity(alloc, 512 * volume.blocks as usize)?;
    for k in 0..volume.blocks {
        image.extend_from_slice(&new_block(volume, k))?;
    }
    Ok(image)
}

/// The image of a new volume, `512 * plan.blocks` bytes: two empty boot blocks, the master directory block, the bitmap, the
/// extents file with an empty tree, the catalog file with the root folder and its thread, and the alternate master directory
/// block in the last block but one. A tree of more than 2,048 nodes has its map nodes after its header node. All other bytes are
/// 0. All dates are `plan.now`. The image passes every check of a volume, and holds only the root folder.
///
/// Errors: the first of `BadName`, `BadSize`, `BadNodes` and `NoRoom` that applies to the plan, before any memory is asked for;
/// `Memory` only if memory was refused.
///
/// Source: the format of each part is that of Inside Macintosh: Files, chapter 2, "Data Organization on Volumes"; where the parts
/// lie is this project's own choice.
#[tactic(auto, unfolding(crate::specs::Plan::layout_of), using(crate::proofs::PlanFacts::is_layout_laid))]
pub fn format(alloc: Global, plan: FormatPlan) -> Result<Vec<u8>, FormatFault>
    ensures image { IfOk result (spec.IsNewImage plan) }
    ensures len { IfOk result (λ image. vec_len image ≡ 512 * plan.blocks) }
    ensures sound { IfOk result (λ image. IsSound image.items) }
    ensures volume { IfOk result (λ image. volume_of image.items ≡ planned_volume plan) }
    ensures fault { IfErr result (IsFormatFault plan) }
{
    new_images_hold_new_volumes();
    new_images_are_sound();
    let volume = Layout::of(&plan)?;
    match volume_image(alloc, &volume) {
        Ok(image) => Ok(image),
        Err(_) => Err(FormatFault::Memory),
    }
}
