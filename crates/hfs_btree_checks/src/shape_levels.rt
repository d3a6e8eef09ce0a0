//! The check of a tree's levels.

ghost use Rattle.std.specs.Prelude.{◌≡◌, ◌+◌, ◌<◌, None, OnOk, IfOk, IfErr, length, drop};
ghost use Rattle.std.specs.Vec.{vec_len};
ghost use Rattle.hfs_btree.specs.Tree.{first_of, last_of};
ghost use Rattle.hfs_btree_checks.specs.KeySteps.{IsLevelBelow};
ghost use Rattle.hfs_btree_checks.specs.ShapeSteps.{IsFault, IsLevelFault, PassesLevel, count_within, fault_from, leaves_from, records_from};

use crate::fault::TreeFault;
use crate::shape_map::MappedNodes;
use crate::shape_node::{Spot, visit_node};
use hfs_btree::{Key, Nodes};
use std::alloc::Global;

/// What was found in a level whose nodes are all right.
#[derive(Drop)]
struct CheckedLevel {
    /// The level below it; empty below the leaves.
    next: Vec<u32>,
    /// How many records the nodes have, or `usize::MAX` if there are more.
    records: usize,
}

/// The node after place i of a level, or 0.
fn node_after(level: &[u32], i: usize) -> u32
    requires { i < length level.now }
    ensures { result ≡ first_of (drop (i + 1) level.now) }
{
    if i + 1 < level.len() { level[i + 1] } else { 0 }
}

/// Checks one level, `above` levels above the leaves, and returns the next one.
fn check_level<K: Key, N: Nodes>(
    alloc: Global,
    tree: &MappedNodes<'_, N>,
    level: &[u32],
    above: u16,
    met: &mut Vec<bool>,
) -> Result<CheckedLevel, TreeFault>
    requires { vec_len met.old ≡ tree.now.count }
    ensures fault { IfErr result
        (IsLevelFault K.Key (N.nodes tree.now.nodes.now) met.old above level.now) }
    ensures right { OnOk result
        (PassesLevel K.Key (N.nodes tree.now.nodes.now) above level.now met.old met.new) }
    ensures next { IfOk result (λ found.
        IsLevelBelow K.Key (N.nodes tree.now.nodes.now) above level.now found.next) }
    ensures records { IfOk result (λ found.
        found.records ≡ count_within (N.nodes tree.now.nodes.now) level.now) }
    ensures kept { OnOk result (vec_len met.new ≡ vec_len met.old) }
{
    let mut next = Vec::new(alloc);
    let mut records = 0usize;
    let mut left = 0;
    for i in 0..level.len() {
        let n = level[i];
        let right = node_after(level, i);
        let spot = Spot {
            left,
            n,
            right,
            above,
        };
        let count = visit_node::<K, N>(tree, spot, met, &mut next)?;
        records = records.saturating_add(count);
        left = n;
    }
    Ok(CheckedLevel { next, records })
}

/// The first node of a level, or 0.
fn first_node(level: &[u32]) -> u32
    ensures { result ≡ first_of level.now }
{
    if level.is_empty() { 0 } else { level[0] }
}

/// The last node of a level, or 0.
fn last_node(level: &[u32]) -> u32
    ensures { result ≡ last_of level.now }
{
    if level.is_empty() {
        0
    } else {
        level[level.len() - 1]
    }
}

/// The last level of a tree whose levels are all right.
#[derive(Clone, Copy)]
pub(crate) struct Leaves {
    /// Its first node; 0 if there is none.
    pub first: u32,
    /// Its last node; 0 if there is none.
    pub last: u32,
    /// How many records its nodes have, or `usize::MAX` if there are more.
    pub records: usize,
}

/// Checks this many levels, one after the other, from the root's on; `met` has a mark for each node that no level may have.
pub(crate) fn check_levels<K: Key, N: Nodes>(
    alloc: Global,
    tree: &MappedNodes<'_, N>,
    root: u32,
    depth: u16,
    met: &mut Vec<bool>,
) -> Result<Leaves, TreeFault>
    requires { vec_len met.old ≡ tree.now.count }
    ensures fault { IfErr result
        (IsFault (fault_from K.Key (N.nodes tree.now.nodes.now) met.old depth root)) }
    ensures right { OnOk result
        (fault_from K.Key (N.nodes tree.now.nodes.now) met.old depth root ≡ None) }
    ensures first { IfOk result (λ found.
        found.first ≡ first_of (leaves_from K.Key (N.nodes tree.now.nodes.now) depth root)) }
    ensures last { IfOk result (λ found.
        found.last ≡ last_of (leaves_from K.Key (N.nodes tree.now.nodes.now) depth root)) }
    ensures records { IfOk result (λ found.
        found.records ≡ records_from K.Key (N.nodes tree.now.nodes.now) depth root) }
{
    if depth == 0 {
        return Ok(Leaves {
            first: 0,
            last: 0,
            records: 0,
        });
    }
    let mut level = Vec::new(alloc);
    level.push(root)?;
    let mut below = depth;
    while below > 1 {
        below -= 1;
        let found = check_level::<K, N>(alloc, tree, &level, below, met)?;
        let CheckedLevel { next, records: _ } = found;
        level = next;
    }
    let leaves = check_level::<K, N>(alloc, tree, &level, 0, met)?;
    Ok(Leaves {
        first: first_node(&level),
        last: last_node(&level),
        records: leaves.records,
    })
}
