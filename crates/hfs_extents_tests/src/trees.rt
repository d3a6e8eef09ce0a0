//! Extents trees that grow from nothing.

ghost use Rattle.hfs_space.specs.TreeKeys.{IsExtentsTree};

use hfs_btree::{Key, Walk, depth, find, free_nodes, read_header};
use hfs_btree_checks::check_tree;
use hfs_fields::ExtKey;
use hfs_fixtures::{NodeTable, is_exact};
use hfs_record_edits::{add, extents_need};
use std::alloc::Global;
use std::test::Fail;

/// A key of a data fork by its numbers.
pub fn key_of(file: u32, block: u16) -> ExtKey {
    ExtKey {
        fork: 0,
        file,
        block,
    }
}

/// The header node of an empty tree of this many nodes, at most 8: all except itself are free.
fn header_node(nodes: u8) -> [u8; 512] {
    let mut bytes = [0; 512];
    bytes[8..12].copy_from_slice(&[1, 0, 0, 3]);
    bytes[14..44].copy_from_slice(&[
        0, 0, 0, 0, 0, 0, 0, 0, 0, 0, 0, 0, 0, 0, 0, 0, 0, 0, 2, 0, 0, 7, 0, 0, 0, 0, 0, 0, 0, 0,
    ]);
    bytes[39] = nodes;
    bytes[43] = nodes.wrapping_sub(1);
    bytes[248] = 0x80;
    bytes[504..512].copy_from_slice(&[1, 248, 0, 248, 0, 120, 0, 14]);
    bytes
}

/// An empty tree of this many nodes, at most 8.
pub fn empty_tree(alloc: Global, count: u8) -> Result<NodeTable, Fail> {
    let mut nodes = Vec::new(alloc);
    nodes.push(header_node(count))?;
    for _ in 1..count {
        nodes.push([0; 512])?;
    }
    let Some(made) = NodeTable::of_nodes(alloc, &nodes)? else {
        return Err(Fail::new("too many nodes"));
    };
    Ok(made)
}

/// Adds a record with this key, and a body of zeros, to a sound tree. An error if one of the conditions isn't met.
fn add_sound(alloc: Global, nodes: &mut NodeTable, key: &ExtKey) -> Result<(), Fail>
    requires { IsExtentsTree nodes.old.nodes.items }
{
    let None = find(alloc, nodes, key)? else {
        return Err(Fail::new("the key is there"));
    };
    let header = read_header(nodes);
    let free = free_nodes::<ExtKey, NodeTable>(nodes);
    if extents_need(1, header.depth, header.records) > u64::from(free) {
        return Err(Fail::new("too few free nodes"));
    }
    if header.nodes as usize > nodes.nodes.len() {
        return Err(Fail::new("too short a file"));
    }
    add(alloc, nodes, key, &[0; 12])?;
    Ok(())
}

/// The same for any nodes: also an error if they are no sound tree.
pub fn put(alloc: Global, nodes: &mut NodeTable, file: u32, block: u16) -> Result<(), Fail> {
    let Ok(_) = check_tree::<ExtKey, NodeTable>(alloc, nodes, nodes.size()) else {
        return Err(Fail::new("not a sound tree"));
    };
    let key = key_of(file, block);
    add_sound(alloc, nodes, &key)
}

/// Adds this many records of a file to the tree, for every third block from block 3 on.
pub fn put_run(alloc: Global, nodes: &mut NodeTable, file: u32, count: u16) -> Result<(), Fail> {
    for i in 0..count {
        put(alloc, nodes, file, i.wrapping_mul(3).wrapping_add(3))?;
    }
    Ok(())
}

/// The levels, free nodes and records of a tree; None if it isn't sound, or an index key isn't its child's first key.
pub fn counts(alloc: Global, nodes: &NodeTable) -> Option<(u16, u32, u32)> {
    let Ok(_) = check_tree::<ExtKey, NodeTable>(alloc, nodes, nodes.size()) else {
        return None;
    };
    if !is_exact::<ExtKey>(nodes) {
        return None;
    }
    let levels = depth::<ExtKey, NodeTable>(nodes);
    let free = free_nodes::<ExtKey, NodeTable>(nodes);
    Some((levels, free, read_header(nodes).records))
}

/// Whether the tree is sound, and its first records have these keys of data forks.
pub fn begins_with(alloc: Global, nodes: &NodeTable, wanted: &[(u32, u16)]) -> Result<bool, Fail> {
    let Ok(_) = check_tree::<ExtKey, NodeTable>(alloc, nodes, nodes.size()) else {
        return Ok(false);
    };
    let mut walk = Walk::<ExtKey, NodeTable>::from(nodes, &key_of(0, 0));
    for (file, block) in wanted {
        let Some(pair) = walk.pair() else {
            return Ok(false);
        };
        if pair.key.fork != 0 || pair.key.file != *file || pair.key.block != *block {
            return Ok(false);
        }
        walk.advance();
    }
    Ok(true)
}
