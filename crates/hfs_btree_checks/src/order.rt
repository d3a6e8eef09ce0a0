//! The check of a tree's order, and of a whole tree.

ghost use Rattle.std.specs.Prelude.{◌*◌, ◌≤◌, OnOk, length};
ghost use Rattle.hfs_btree_checks.specs.Order.{order_fault, tree_fault};
ghost use Rattle.hfs_btree_checks.specs.Laws.{OrderedIffFaultless, SoundIffFaultless};
ghost use Rattle.hfs_btree_checks.specs.ShapeSteps.{FindsFault, FindsPlace};
ghost use Rattle.hfs_btree.specs.Sound.{HasStructure, HasCounts, IsOrdered, IsSound, IsWithinFile};

use crate::fault::TreeFault;
use crate::order_index::index_order_fault;
use crate::order_leaves::leaf_order_fault;
use crate::shape::check_shape;
use hfs_btree::{Key, Nodes};
use std::alloc::Global;

/// The check of `ShapedTree::check_order`.
pub(crate) fn check_order<K: Key, N: Nodes>(nodes: &N) -> Result<(), TreeFault>
    requires structure { HasStructure K.Key (N.nodes nodes.now) }
    requires counts { HasCounts K.Key (N.nodes nodes.now) }
    ensures place { FindsPlace (order_fault K.Key (N.nodes nodes.now)) result }
    ensures ordered { OnOk result (IsOrdered K.Key (N.nodes nodes.now)) }
    ensures law { OrderedIffFaultless K.Key (N.nodes nodes.now) }
{
    if let Some(n) = index_order_fault::<K, N>(nodes) {
        return Err(TreeFault::At(n));
    }
    if let Some(n) = leaf_order_fault::<K, N>(nodes) {
        return Err(TreeFault::At(n));
    }
    Ok(())
}

/// Checks that a tree in a file of `size` bytes is sound: that it has its shape, and that it is in order.
///
/// The rules are those of `check_shape`, and if they all hold those of `ShapedTree::check_order`.
///
/// Errors: `TreeFault::At(n)` if a rule of the shape fails, as `check_shape` says; or if node `n` is the first, level by level,
/// whose keys are not in order. `TreeFault::Memory` if memory was refused.
///
/// Source: Inside Macintosh: Files, chapter 2, 'B*-trees'; docs/CHECKS.md has the rules.
pub fn check_tree<K: Key, N: Nodes>(alloc: Global, nodes: &N, size: u32) -> Result<(), TreeFault>
    requires { size ≤ 512 * length (N.nodes nodes.now) }
    ensures place { FindsFault (tree_fault K.Key size (N.nodes nodes.now)) result }
    ensures sound { OnOk result (IsSound K.Key (N.nodes nodes.now)) }
    ensures within { OnOk result (IsWithinFile size (N.nodes nodes.now)) }
    ensures law { SoundIffFaultless K.Key size (N.nodes nodes.now) }
{
    check_shape::<K, N>(alloc, nodes, size)?;
    check_order::<K, N>(nodes)
}
