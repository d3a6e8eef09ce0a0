//! The valences of the folders.

ghost use Rattle.std.specs.Prelude.{◌≡◌, ◌+◌, ◌<◌, ◌≤◌, ◌^◌, ◌∷◌, [], true, length, OnOk};
ghost use Rattle.hfs_fields.specs.Keys.{is_cat_leaf};
ghost use Rattle.hfs_btree.specs.Node.{node_of};
ghost use Rattle.hfs_fields.specs.Each.{Each};
ghost use Rattle.hfs_btree.specs.Tree.{records_of};
ghost use Rattle.hfs_blocks.specs.Blocks.{AreRunsWithin};
ghost use Rattle.hfs_catalog.specs.Tree.{cat_keys};
ghost use Rattle.hfs_catalog.specs.Indexes.{count_of};
ghost use Rattle.hfs_repair.specs.Opened.{HasRightCounts};
ghost use Rattle.hfs_repair.specs.Placed.{placed_from, AddsWrong, placed_in_node, placed_in_runs};

use crate::fixed::FixPlace;
use crate::tree_file::TreeFile;
use crate::wrong_number::{WrongNumber, push_short};
use hfs_blocks::{Blocks, block_of};
use hfs_btree::{Nodes, RunNodes, body_of, count_in, forward_in, view};
use hfs_catalog::{Numbers, is_folder};
use hfs_fields::{CatKey, DirRecord, u16_at};
use std::alloc::AllocError;

/// Adds the valence in a record of the catalog that begins at this place of the image, if it is a folder's and wrong.
#[tactic(auto, unfolding(hfs_fields::specs::Records::begins_dir))]
fn push_valence(
    wrong: &mut Vec<WrongNumber>,
    children: &Numbers,
    entry: &[u8],
    start: usize,
) -> Result<(), AllocError>
    requires leaf { is_cat_leaf entry.now ≡ true }
    requires short { length entry.now ≤ 494 }
    requires low { start < 2 ^ 47 }
    ensures { OnOk result (AddsWrong wrong.old.items wrong.new.items
        (placed_from (count_of children.now) (λ _. start) 0 (entry.now ∷ []))) }
{
    let body = body_of::<CatKey>(entry);
    if !is_folder(body) {
        return Ok(());
    }
    let Some(folder) = DirRecord::read(body) else {
        unreachable!()
    };
    let at = start + (entry.len() - body.len()) + 4;
    let place = FixPlace::Valence(folder.id);
    push_short(wrong, place, folder.valence, children.count(folder.id), at)
}

/// Adds those valences of a leaf that are wrong. The leaf begins at this place of the image.
fn push_leaf(
    wrong: &mut Vec<WrongNumber>,
    children: &Numbers,
    bytes: &[u8; 512],
    start: usize,
) -> Result<(), AllocError>
    requires leaf { Each (λ entry. is_cat_leaf entry ≡ true) (records_of (node_of bytes.now)) }
    requires low { start < 2 ^ 46 }
    ensures { OnOk result (AddsWrong wrong.old.items wrong.new.items
        (placed_in_node (count_of children.now) start bytes.now)) }
{
    let Ok(node) = view(bytes) else {
        return Ok(());
    };
    for i in 0..node.len() {
        let offset = u16_at(bytes, 510 - 2 * i) as usize;
        push_valence(wrong, children, node.record(i), start + offset)?;
    }
    Ok(())
}

/// Adds those valences of a catalog that are wrong; `children` counts the children of each folder. Reads each leaf once.
pub(crate) fn push_valences<B: Blocks>(
    wrong: &mut Vec<WrongNumber>,
    children: &Numbers,
    blocks: &B,
    tree: &TreeFile,
) -> Result<(), AllocError>
    requires within { AreRunsWithin tree.now.runs.items (B.total blocks.now) }
    requires right { HasRightCounts cat_keys (B.blocks blocks.now) tree.now }
    ensures { OnOk result (AddsWrong wrong.old.items wrong.new.items
        (placed_in_runs (count_of children.now) (B.blocks blocks.now) tree.now.runs.items)) }
{
    let nodes = RunNodes {
        blocks,
        runs: &tree.runs,
    };
    let mut n = tree.counts.header.first_leaf;
    let mut before = 0;
    let mut bytes = [0; 512];
    while n != 0 {
        nodes.read(n, &mut bytes);
        let block = block_of(&tree.runs, n) as usize;
        push_leaf(wrong, children, &bytes, 512 * block)?;
        before += count_in(&bytes);
        n = forward_in(&bytes);
    }
    Ok(())
}
