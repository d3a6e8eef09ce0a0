//! The check of a tree's map nodes, and the node map that they carry.

ghost use Rattle.std.specs.Prelude.{◌≡◌, ◌*◌, ◌≤◌, ◌++◌, Ok, true, OnOk, IfOk, IfErr, length, slice_set};
ghost use Rattle.std.specs.List.{list_all};
ghost use Rattle.std.specs.Vec.{vec_len};
ghost use Rattle.hfs_btree.specs.Tree.{node_in, forward_of};
ghost use Rattle.hfs_btree.specs.Header.{header_in, map_bytes, is_marked};
ghost use Rattle.hfs_btree_checks.specs.Shape.{is_map_value, has_map};
ghost use Rattle.hfs_btree_checks.specs.ShapeSteps.{IsWrongAt, is_new_map_node, map_part, IsWrongChain, IsNewChain, AddsMapParts, AddsChain, MeetsChain, OwnAreMet};

use crate::fault::TreeFault;
use crate::shape_map::MappedNodes;
use hfs_btree::{NodeKind, NodeView, Nodes, view};
use std::alloc::Global;

/// Checks node `n` of the chain of map nodes; `met` has a mark for each node that was met before. If it is right, marks it as
/// met, appends its part of the node map to `map`, and returns the node after it, or 0.
#[tactic(auto, unfolding(crate::specs::Shape::is_map_node))]
fn visit_map_node<N: Nodes>(
    nodes: &N,
    count: u32,
    n: u32,
    met: &mut Vec<bool>,
    map: &mut Vec<u8>,
) -> Result<u32, TreeFault>
    requires counted { count ≡ (header_in (N.nodes nodes.now)).nodes }
    requires within { count ≤ length (N.nodes nodes.now) }
    requires marks { vec_len met.old ≡ count }
    ensures wrong { IfErr result (IsWrongAt (is_new_map_node (N.nodes nodes.now) met.old n) 0) }
    ensures right { OnOk result (is_new_map_node (N.nodes nodes.now) met.old n ≡ true) }
    ensures next { IfOk result (λ next. next ≡ forward_of (node_in (N.nodes nodes.now) n)) }
    ensures marked { OnOk result (met.new.items ≡ slice_set met.old.items n true) }
    ensures part { OnOk result (map.new.items ≡ map.old.items ++ map_part (N.nodes nodes.now) n) }
{
    if n == 0 || n >= count || met[n as usize] {
        return Err(TreeFault::At(0));
    }
    let mut bytes = [0; 512];
    nodes.read(n, &mut bytes);
    let Ok(node) = view(&bytes) else {
        return Err(TreeFault::At(0));
    };
    if !is_map(&node) {
        return Err(TreeFault::At(0));
    }
    map.extend_from_slice(node.record(0))?;
    met[n as usize] = true;
    Ok(node.forward())
}

/// Whether a node is a map node with a record.
fn is_map(node: &NodeView) -> bool
    ensures { result ≡ is_map_value node.now }
{
    match node.kind() {
        NodeKind::Map => !node.is_empty(),
        NodeKind::Index | NodeKind::Header | NodeKind::Leaf => false,
    }
}

/// Checks the chain of map nodes from node `first` on, or none if that is 0, through at most `most` of them: marks each as met,
/// and appends their parts of the node map to `map` and their numbers to `own`.
fn read_chain<N: Nodes>(
    nodes: &N,
    count: u32,
    first: u32,
    met: &mut Vec<bool>,
    map: &mut Vec<u8>,
    own: &mut Vec<u32>,
) -> Result<(), TreeFault>
    requires counted { count ≡ (header_in (N.nodes nodes.now)).nodes }
    requires within { count ≤ length (N.nodes nodes.now) }
    requires marks { vec_len met.old ≡ count }
    ensures wrong { IfErr result (IsWrongChain (N.nodes nodes.now) count first met.old) }
    ensures right { OnOk result (IsNewChain (N.nodes nodes.now) count first met.old) }
    ensures parts { OnOk result (AddsMapParts (N.nodes nodes.now) count first map.old map.new) }
    ensures numbers { OnOk result (AddsChain (N.nodes nodes.now) count first own.old own.new) }
    ensures marked { OnOk result (MeetsChain (N.nodes nodes.now) count first met.old met.new) }
    ensures kept { OnOk result (vec_len met.new ≡ count) }
{
    let mut n = first;
    let mut most = count;
    while most > 0 {
        if n == 0 {
            return Ok(());
        }
        most -= 1;
        let next = visit_map_node(nodes, count, n, met, map)?;
        own.push(n)?;
        n = next;
    }
    Ok(())
}

/// Whether these nodes are all marked as in use.
fn are_marked<N: Nodes>(tree: &MappedNodes<'_, N>, own: &[u32]) -> bool
    ensures { result ≡ list_all (is_marked (N.nodes tree.now.nodes.now)) own.now }
{
    own.iter().all(|n| tree.is_marked(*n))
}

/// The node map of a tree whose map nodes are right.
#[derive(Drop)]
pub(crate) struct NodeMap {
    /// Its bytes.
    pub bytes: Vec<u8>,
    /// For each of the tree's nodes, whether it is a header or map node.
    pub own: Vec<bool>,
}

/// Checks the map nodes of a tree of `count` nodes with header node `head`, and reads its node map.
pub(crate) fn read_map<N: Nodes>(
    alloc: Global,
    nodes: &N,
    head: &NodeView,
    count: u32,
) -> Result<NodeMap, TreeFault>
    requires head { node_in (N.nodes nodes.now) 0 ≡ Ok head.now }
    requires three { length head.now.records ≡ 3 }
    requires counted { count ≡ (header_in (N.nodes nodes.now)).nodes }
    requires within { count ≤ length (N.nodes nodes.now) }
    requires some { 1 ≤ count }
    ensures wrong { IfErr result (IsWrongAt (has_map (N.nodes nodes.now)) 0) }
    ensures right { OnOk result (has_map (N.nodes nodes.now) ≡ true) }
    ensures bytes { IfOk result (λ map. map.bytes.items ≡ map_bytes (N.nodes nodes.now)) }
    ensures own { IfOk result (λ map. OwnAreMet (N.nodes nodes.now) map.own.items) }
    ensures marks { IfOk result (λ map. vec_len map.own ≡ count) }
    ensures long { IfOk result (λ map. count ≤ 8 * vec_len map.bytes) }
{
    let mut met = vec![in alloc; false; count as usize]?;
    let mut bytes = Vec::from_slice(alloc, head.record(2))?;
    let mut own = Vec::new(alloc);
    own.push(0)?;
    read_chain(nodes, count, head.forward(), &mut met, &mut bytes, &mut own)?;
    if (count as usize).div_ceil(8) > bytes.len() {
        return Err(TreeFault::At(0));
    }
    let tree = MappedNodes {
        nodes,
        count,
        map: &bytes,
    };
    if !are_marked(&tree, &own) {
        return Err(TreeFault::At(0));
    }
    met[0] = true;
    Ok(NodeMap { bytes, own: met })
}
