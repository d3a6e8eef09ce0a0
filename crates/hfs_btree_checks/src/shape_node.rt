//! The check of one node of a tree's levels.

ghost use Rattle.std.specs.Prelude.{◌≡◌, ◌++◌, true, OnOk, IfOk, IfErr, map, slice_set};
ghost use Rattle.std.specs.List.{list_all};
ghost use Rattle.std.specs.Vec.{vec_len};
ghost use Rattle.hfs_btree.specs.Tree.{reads_at};
ghost use Rattle.hfs_btree_checks.specs.Shape.{is_kind_at, is_node_at};
ghost use Rattle.hfs_btree_checks.specs.KeySteps.{AddsBelow};
ghost use Rattle.hfs_btree_checks.specs.ShapeSteps.{IsWrongAt, is_new_and_right, spot_of, record_count};

use crate::fault::TreeFault;
use crate::shape_map::MappedNodes;
use hfs_btree::{Key, NodeKind, NodeView, Nodes, child_of, view};
use std::alloc::{AllocError, Global};

/// Whether bytes are a record of a node `above` levels above the leaves.
fn reads<K: Key>(entry: &[u8], above: u16) -> bool
    ensures { result ≡ reads_at K.Key above entry.now }
{
    if above == 0 {
        K::read_leaf(entry).is_some()
    } else {
        K::read_index(entry).is_some()
    }
}

fn all_read<K: Key>(node: &NodeView, above: u16) -> bool
    ensures { result ≡ list_all (reads_at K.Key above) node.now.records }
{
    for i in 0..node.len() {
        let whole = reads::<K>(node.record(i), above);
        if !whole {
            return false;
        }
    }
    true
}

fn is_kind_above(kind: NodeKind, above: u16) -> bool
    ensures { result ≡ is_kind_at above kind }
{
    match kind {
        NodeKind::Leaf => above == 0,
        NodeKind::Index => above > 0,
        NodeKind::Header | NodeKind::Map => false,
    }
}

/// Where a level has node `n`: between these neighbours, 0 at the ends, `above` levels above the leaves.
#[derive(Clone, Copy)]
pub(crate) struct Spot {
    pub left: u32,
    pub n: u32,
    pub right: u32,
    pub above: u16,
}

/// Whether a node is what its place requires.
#[tactic(auto, unfolding(crate::specs::Shape::is_node_at))]
fn is_at_place<K: Key>(node: &NodeView, spot: Spot) -> bool
    ensures { result ≡ is_node_at K.Key (spot_of spot) node.now }
{
    is_kind_above(node.kind(), spot.above)
        && u32::from(node.height()) == u32::from(spot.above) + 1
        && !node.is_empty()
        && node.backward() == spot.left
        && node.forward() == spot.right
        && all_read::<K>(node, spot.above)
}

/// Adds the children that an index node names.
pub(crate) fn push_children<K: Key>(node: &NodeView, next: &mut Vec<u32>) -> Result<(), AllocError>
    requires { list_all K.is_index node.now.records ≡ true }
    ensures { OnOk result (next.new.items ≡ next.old.items ++ map K.child node.now.records) }
{
    for i in 0..node.len() {
        let child = child_of::<K>(node.record(i));
        next.push(child)?;
    }
    Ok(())
}

/// Checks a node of a level at its place; `met` has a mark for each node that was met before. If it is right, marks it as met,
/// appends the children that it names to `next` if it is above the leaves, and returns the number of its records.
#[tactic(auto, unfolding(crate::specs::Shape::is_right))]
pub(crate) fn visit_node<K: Key, N: Nodes>(
    tree: &MappedNodes<'_, N>,
    spot: Spot,
    met: &mut Vec<bool>,
    next: &mut Vec<u32>,
) -> Result<usize, TreeFault>
    requires { vec_len met.old ≡ tree.now.count }
    ensures wrong { IfErr result (IsWrongAt
        (is_new_and_right K.Key (N.nodes tree.now.nodes.now) met.old (spot_of spot)) spot.n) }
    ensures right { OnOk result (is_new_and_right K.Key (N.nodes tree.now.nodes.now) met.old
        (spot_of spot) ≡ true) }
    ensures marked { OnOk result (met.new.items ≡ slice_set met.old.items spot.n true) }
    ensures below { OnOk result
        (AddsBelow K.Key (N.nodes tree.now.nodes.now) spot.above spot.n next.old next.new) }
    ensures records { IfOk result (λ len. len ≡ record_count (N.nodes tree.now.nodes.now) spot.n) }
{
    let Spot { n, above, .. } = spot;
    if n == 0 || n >= tree.count || met[n as usize] || !tree.is_marked(n) {
        return Err(TreeFault::At(n));
    }
    let mut bytes = [0; 512];
    tree.nodes.read(n, &mut bytes);
    let Ok(node) = view(&bytes) else {
        return Err(TreeFault::At(n));
    };
    if !is_at_place::<K>(&node, spot) {
        return Err(TreeFault::At(n));
    }
    if above > 0 {
        push_children::<K>(&node, next)?;
    }
    met[n as usize] = true;
    Ok(node.len())
}
