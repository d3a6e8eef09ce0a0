//! The check of a tree's keys, each by itself.

ghost use Rattle.std.specs.Prelude.{◌≡◌, true, None, IfOk, OnOk, IfErr};
ghost use Rattle.std.specs.List.{list_all};
ghost use Rattle.hfs_fields.specs.Each.{Each};
ghost use Rattle.hfs_btree.specs.Tree.{reads_at, key_at};
ghost use Rattle.hfs_btree.specs.Sound.{HasStructure};
ghost use Rattle.hfs_btree_checks.specs.Order.{key_fault};
ghost use Rattle.hfs_btree_checks.specs.ShapeSteps.{IsFault, FindsFault};
ghost use Rattle.hfs_btree_checks.specs.KeySteps.{IsKeyNode, level_key_fault, all_pass, TellsPass, AddsBelow, IsLevelBelow};

use crate::fault::TreeFault;
use crate::key_test::KeyTest;
use crate::shape_node::push_children;
use hfs_btree::{Key, NodeView, Nodes, index_key_of, key_of, read_header, view};
use std::alloc::{AllocError, Global};

/// The key of a record of a node `above` levels above the leaves.
fn key_in<K: Key>(entry: &[u8], above: u16) -> K
    requires { reads_at K.Key above entry.now ≡ true }
    ensures { result ≡ key_at K.Key above entry.now }
{
    if above == 0 {
        key_of(entry)
    } else {
        index_key_of(entry)
    }
}

/// Whether each key of a node `above` levels above the leaves passes.
fn all_pass<K: Key, T: KeyTest<K>>(node: &NodeView, above: u16, test: &T) -> bool
    requires { list_all (reads_at K.Key above) node.now.records ≡ true }
    ensures { result ≡ all_pass K.Key (T.passes test.now) above node.now.records }
{
    for i in 0..node.len() {
        let key = key_in(node.record(i), above);
        if !test.passes(&key) {
            return false;
        }
    }
    true
}

/// Whether each key of node `n`, which is `above` levels above the leaves, passes. Appends the children that an index node names
/// to `next`.
fn visit_keys<K: Key, N: Nodes, T: KeyTest<K>>(
    nodes: &N,
    n: u32,
    above: u16,
    test: &T,
    next: &mut Vec<u32>,
) -> Result<bool, AllocError>
    requires { IsKeyNode K.Key (N.nodes nodes.now) above n }
    ensures pass { IfOk result (TellsPass K.Key (N.nodes nodes.now) (T.passes test.now) above n) }
    ensures below { OnOk result (AddsBelow K.Key (N.nodes nodes.now) above n next.old next.new) }
{
    let mut bytes = [0; 512];
    nodes.read(n, &mut bytes);
    let Ok(node) = view(&bytes) else {
        return Ok(true);
    };
    if above > 0 {
        push_children::<K>(&node, next)?;
    }
    Ok(all_pass(&node, above, test))
}

/// Checks the keys of one level, `above` levels above the leaves, and returns the next level.
fn check_level_keys<K: Key, N: Nodes, T: KeyTest<K>>(
    alloc: Global,
    nodes: &N,
    level: &[u32],
    above: u16,
    test: &T,
) -> Result<Vec<u32>, TreeFault>
    requires { Each (IsKeyNode K.Key (N.nodes nodes.now) above) level.now }
    ensures fault { IfErr result
        (IsFault (level_key_fault K.Key (N.nodes nodes.now) (T.passes test.now) above level.now)) }
    ensures right { OnOk result
        (level_key_fault K.Key (N.nodes nodes.now) (T.passes test.now) above level.now ≡ None) }
    ensures next { IfOk result (IsLevelBelow K.Key (N.nodes nodes.now) above level.now) }
{
    let mut next = Vec::new(alloc);
    for i in 0..level.len() {
        let n = level[i];
        let passes = visit_keys::<K, N, T>(nodes, n, above, test, &mut next)?;
        if !passes {
            return Err(TreeFault::At(n));
        }
    }
    Ok(next)
}

/// The check of `ShapedTree::check_keys`.
pub(crate) fn check_keys<K: Key, N: Nodes, T: KeyTest<K>>(
    alloc: Global,
    nodes: &N,
    test: &T,
) -> Result<(), TreeFault>
    requires { HasStructure K.Key (N.nodes nodes.now) }
    ensures { FindsFault (key_fault K.Key (N.nodes nodes.now) (T.passes test.now)) result }
{
    let header = read_header(nodes);
    let mut level = Vec::new(alloc);
    level.push(header.root)?;
    let mut below = header.depth;
    while below > 0 {
        below -= 1;
        level = check_level_keys::<K, N, T>(alloc, nodes, &level, below, test)?;
    }
    Ok(())
}
