//! What is below each node of a tree.
ghost use Rattle.std.specs.Prelude.{◌≡◌, ◌+◌, ℕ, IfOk, OnOk, length};
ghost use Rattle.hfs_remains_places.specs.Paths as paths;
ghost use Rattle.hfs_remains_page.specs.Trees as spec;
ghost use Rattle.hfs_remains_page.specs.Walks.{AreBelow, GainsBelow};

use crate::numbers::folders_of;
use crate::trees::{ADDED, up};
use hfs_remains_places::Thing;
use hfs_rescue_items::Found;
use std::alloc::{AllocError, Global};

/// `count` empty lists.
#[tactic(auto, using(crate::proofs::TreeLemmas::empty_none, crate::proofs::TreeLemmas::empty_more, crate::proofs::TreeLemmas::empty_below))]
fn empty_lists(alloc: Global, count: usize) -> Result<Vec<Vec<usize>>, AllocError>
    ensures long { IfOk result (λ lists. length lists.items ≡ count) }
    ensures below { IfOk result (λ lists. (up : ℕ → ℕ) → AreBelow up 0 lists.items) }
{
    let mut lists = Vec::new(alloc);
    for _k in 0..count {
        lists.push(Vec::new(alloc))?;
    }
    Ok(lists)
}

/// Notes that a thing is directly below a node.
#[tactic(auto, using(crate::proofs::ListLemmas::gained, crate::proofs::TreeLemmas::none_gained))]
fn note(lists: &mut Vec<Vec<usize>>, thing: usize, node: usize) -> Result<(), AllocError>
    ensures { OnOk result (GainsBelow lists.old.items lists.new.items thing node) }
{
    if node >= lists.len() {
        return Ok(());
    }
    lists[node].push(thing)?;
    Ok(())
}

/// What is directly below each node of the tree, in the order of the things.
#[tactic(auto, using(crate::proofs::TreeLemmas::lists_more))]
pub(crate) fn lists_of(
    alloc: Global,
    found: &Found<'_>,
    things: &[Thing],
    root: Option<usize>,
) -> Result<Vec<Vec<usize>>, AllocError>
    requires things { things.now ≡ found.now.places.now }
    requires root { root ≡ paths.root_of things.now }
    ensures long { IfOk result (λ lists. length lists.items ≡ length things.now + 3) }
    ensures below { IfOk result (λ lists. AreBelow (spec.up things.now) (length things.now) lists.items) }
{
    let folders = folders_of(alloc, things)?;
    let mut lists = empty_lists(alloc, things.len() + ADDED)?;
    for i in 0..things.len() {
        let node = up(alloc, found, things, &folders, root, i)?;
        note(&mut lists, i, node)?;
    }
    Ok(lists)
}
