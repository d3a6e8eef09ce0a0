//! The keys of a tree's index nodes.

ghost use Rattle.std.specs.Prelude.{◌≡◌, ◌++◌, true, IfOk, OnOk, map};
ghost use Rattle.std.specs.List.{list_all};
ghost use Rattle.hfs_fields.specs.Each.{Each};
ghost use Rattle.hfs_btree.specs.Sound.{HasStructure};
ghost use Rattle.hfs_btree_checks.specs.Order.{index_keys};
ghost use Rattle.hfs_btree_checks.specs.KeySteps.{IsKeyNode, AddsKeys, AddsAllKeys, AddsChildren, IsNextLevel};

use crate::shape_node::push_children;
use hfs_btree::{Key, NodeView, Nodes, index_key_of, read_header, view};
use std::alloc::{AllocError, Global};

/// Adds the keys of an index node.
fn push_keys<K: Key>(node: &NodeView, keys: &mut Vec<K>) -> Result<(), AllocError>
    requires { list_all K.is_index node.now.records ≡ true }
    ensures { OnOk result (keys.new.items ≡ keys.old.items ++ map K.index_key node.now.records) }
{
    for i in 0..node.len() {
        let key = index_key_of(node.record(i));
        keys.push(key)?;
    }
    Ok(())
}

/// Adds the keys of index node `n` to `keys`, and the children that it names to `next`.
fn visit_index_keys<K: Key, N: Nodes>(
    nodes: &N,
    n: u32,
    keys: &mut Vec<K>,
    next: &mut Vec<u32>,
) -> Result<(), AllocError>
    requires { IsKeyNode K.Key (N.nodes nodes.now) 1 n }
    ensures keys { OnOk result (AddsKeys K.Key (N.nodes nodes.now) n keys.old keys.new) }
    ensures below { OnOk result (AddsChildren K.Key (N.nodes nodes.now) n next.old next.new) }
{
    let mut bytes = [0; 512];
    nodes.read(n, &mut bytes);
    let Ok(node) = view(&bytes) else {
        return Ok(());
    };
    push_children::<K>(&node, next)?;
    push_keys(&node, keys)
}

/// Adds the keys of a level of index nodes, and gives the next level.
fn read_level_keys<K: Key, N: Nodes>(
    alloc: Global,
    nodes: &N,
    level: &[u32],
    keys: &mut Vec<K>,
) -> Result<Vec<u32>, AllocError>
    requires { Each (IsKeyNode K.Key (N.nodes nodes.now) 1) level.now }
    ensures keys { OnOk result (AddsAllKeys K.Key (N.nodes nodes.now) level.now keys.old keys.new) }
    ensures next { IfOk result (IsNextLevel K.Key (N.nodes nodes.now) level.now) }
{
    let mut next = Vec::new(alloc);
    for i in 0..level.len() {
        visit_index_keys::<K, N>(nodes, level[i], keys, &mut next)?;
    }
    Ok(next)
}

/// The keys of all index nodes, level by level; none if the tree has no level above its leaves.
///
/// Reads each index node once, and takes memory for the keys and for the node numbers of a level.
pub fn index_keys<K: Key, N: Nodes>(alloc: Global, nodes: &N) -> Result<Vec<K>, AllocError>
    requires { HasStructure K.Key (N.nodes nodes.now) }
    ensures { IfOk result (λ keys. keys.items ≡ index_keys K.Key (N.nodes nodes.now)) }
{
    let header = read_header(nodes);
    let mut keys = Vec::new(alloc);
    let mut level = Vec::new(alloc);
    level.push(header.root)?;
    let mut below = header.depth;
    while below > 1 {
        below -= 1;
        level = read_level_keys::<K, N>(alloc, nodes, &level, &mut keys)?;
    }
    Ok(keys)
}
