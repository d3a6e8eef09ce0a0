//! The nodes of a tree that are in use.
ghost use Rattle.std.specs.Prelude.{◌≡◌, ◌++◌, false, length, IfOk, OnOk};
ghost use Rattle.hfs_btree_checks.specs.Shape.{is_map_value};
ghost use Rattle.hfs_btree.specs.Header.{bit_of};
ghost use Rattle.hfs_remains.specs.TreeFiles.{nodes_of};
ghost use Rattle.hfs_remains.specs.InUse.{chain_bytes, is_head, is_marked_by, FindsMapNode, TellsUse};

use crate::nodes::FileNodes;
use hfs_blocks::Blocks;
use hfs_btree::{NodeKind, NodeView, bit_at, view};
use hfs_fields::u32_at;
use std::alloc::{AllocError, Global};
use std::collections::BTreeSet;

/// Whether a node is a header node with three records, the first of at least 18 bytes.
fn is_head(node: &NodeView) -> bool
    ensures { result ≡ is_head node.now }
{
    match node.kind() {
        NodeKind::Header => node.len() == 3 && node.record(0).len() >= 18,
        NodeKind::Index | NodeKind::Map | NodeKind::Leaf => false,
    }
}

/// Whether a node is a map node with a record.
fn is_map(node: &NodeView) -> bool
    ensures { result ≡ is_map_value node.now }
{
    match node.kind() {
        NodeKind::Map => !node.is_empty(),
        NodeKind::Index | NodeKind::Header | NodeKind::Leaf => false,
    }
}

/// Bit `n` of a map; clear past its end.
fn has_bit(map: &[u8], n: u64) -> bool
    ensures { result ≡ bit_of map.now n }
{
    let byte = n / 8;
    if byte < map.len() as u64 {
        bit_at(map, n as usize)
    } else {
        false
    }
}

/// Reads node `n`. If it is a map node, appends its part of the map, and returns the number of the node after it. None if it is
/// no map node.
fn read_map_node<B: Blocks>(
    nodes: &FileNodes<'_, B>,
    n: u32,
    map: &mut Vec<u8>,
) -> Result<Option<u32>, AllocError>
    ensures { IfOk result (FindsMapNode
        (nodes_of (B.blocks nodes.now.blocks.now) nodes.now.mdb.now nodes.now.file.now) n
        map.old.items map.new.items) }
{
    let mut bytes = [0; 512];
    nodes.read_node(u64::from(n), &mut bytes);
    let Ok(node) = view(&bytes) else {
        return Ok(None);
    };
    if !is_map(&node) {
        return Ok(None);
    }
    map.extend_from_slice(node.record(0))?;
    Ok(Some(node.forward()))
}

/// Appends the parts of the map in the map nodes from node `first` on, as long as they are map nodes, each once.
fn read_chain<B: Blocks>(
    alloc: Global,
    nodes: &FileNodes<'_, B>,
    first: u32,
    map: &mut Vec<u8>,
) -> Result<(), AllocError>
    ensures { let store = nodes_of (B.blocks nodes.now.blocks.now) nodes.now.mdb.now
        nodes.now.file.now in
        OnOk result (map.new.items ≡ map.old.items ++ chain_bytes store (λ n. false) (length
        store) first) }
{
    let mut met = BTreeSet::new(alloc);
    let mut n = first;
    let mut most = nodes.count();
    while most > 0 {
        if met.contains(&n) {
            return Ok(());
        }
        most -= 1;
        let Some(next) = read_map_node(nodes, n, map)? else {
            return Ok(());
        };
        met.insert(n)?;
        n = next;
    }
    Ok(())
}

/// The map of a tree's nodes; None if it can't be trusted, because it doesn't mark node 0 and the last leaf.
#[tactic(auto, unfolding(crate::specs::InUse::map_of, crate::specs::InUse::is_map_believed, crate::specs::InUse::is_in_use))]
fn read_map<B: Blocks>(
    alloc: Global,
    nodes: &FileNodes<'_, B>,
) -> Result<Option<Vec<u8>>, AllocError>
    ensures { IfOk result (TellsUse (nodes_of (B.blocks nodes.now.blocks.now) nodes.now.mdb.now
        nodes.now.file.now)) }
{
    let mut bytes = [0; 512];
    nodes.read_node(0, &mut bytes);
    let Ok(head) = view(&bytes) else {
        return Ok(None);
    };
    if !is_head(&head) {
        return Ok(None);
    }
    let last = u32_at(head.record(0), 14);
    let mut map = Vec::from_slice(alloc, head.record(2))?;
    read_chain(alloc, nodes, head.forward(), &mut map)?;
    if has_bit(&map, 0) && has_bit(&map, u64::from(last)) {
        Ok(Some(map))
    } else {
        Ok(None)
    }
}

/// Which nodes of a tree are in use: those that its map marks, or all if the map can't be trusted.
#[derive(Drop)]
pub struct NodesInUse {
    map: Option<Vec<u8>>,
}

impl NodesInUse {
    /// Reads the map of a tree: the third record of node 0, and the first records of the map nodes that follow it, each once. It
    /// is trusted if node 0 is a header node with three records, the first of at least 18 bytes, and the map marks node 0 and the
    /// node that bthLNode names. Fails only when out of memory.
    pub fn of<B: Blocks>(alloc: Global, nodes: &FileNodes<'_, B>) -> Result<NodesInUse, AllocError>
        ensures { IfOk result (λ used. TellsUse (nodes_of (B.blocks nodes.now.blocks.now)
            nodes.now.mdb.now nodes.now.file.now) used.map) }
    {
        let map = read_map(alloc, nodes)?;
        Ok(NodesInUse { map })
    }

    /// Whether node `n` is in use.
    pub fn has(&self, n: u64) -> bool
        ensures { result ≡ is_marked_by self.now.map n }
    {
        match &self.map {
            Some(map) => has_bit(map, n),
            None => true,
        }
    }
}
