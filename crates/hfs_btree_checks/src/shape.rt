//! The check of a tree's shape.

ghost use Rattle.std.specs.Prelude.{◌≡◌, ℕ, ◌*◌, ◌≤◌, IfOk, OnOk, length};
ghost use Rattle.std.specs.Vec.{vec_len};
ghost use Rattle.hfs_btree.specs.Header.{header_in};
ghost use Rattle.hfs_btree_checks.specs.Shape.{is_own, names_ends, structure_fault, shape_fault};
ghost use Rattle.hfs_btree.specs.Sound.{HasStructure, IsShaped};
ghost use Rattle.hfs_btree_checks.specs.ShapeSteps.{is_met, FindsFault};
ghost use Rattle.hfs_btree_checks.specs.Laws.{ShapedIffFaultless};
ghost use Rattle.hfs_btree_checks.specs.Counts.{counts_in, levels_ends_fault};

use crate::fault::TreeFault;
use crate::shape_chain::{NodeMap, read_map};
use crate::shape_header::checked_header;
use crate::shape_levels::{Leaves, check_levels};
use crate::shape_map::MappedNodes;
use crate::tree_counts::{TreeCounts, in_field, tells_right};
use hfs_btree::{Header, Key, Nodes, view};
use std::alloc::Global;

/// Whether the header record names the ends of the last level, and no root in an empty tree.
fn has_ends(header: &Header, leaves: &Leaves) -> bool
    ensures { result ≡ names_ends header.now leaves.now.first leaves.now.last }
{
    header.first_leaf == leaves.first
        && header.last_leaf == leaves.last
        && (header.depth > 0 || header.root == 0)
}

/// Checks what comes after the node map, except for the two counts: the levels and their ends. `met` has a mark for each header
/// and map node. Ok gives the two counts.
fn count_mapped<K: Key, N: Nodes>(
    alloc: Global,
    tree: &MappedNodes<'_, N>,
    header: Header,
    mut met: Vec<bool>,
) -> Result<TreeCounts, TreeFault>
    requires head { header ≡ header_in (N.nodes tree.now.nodes.now) }
    requires marks { vec_len met ≡ tree.now.count }
    requires own { (n : ℕ) → is_met met.items n ≡ is_own (N.nodes tree.now.nodes.now) n }
    ensures fault { FindsFault (levels_ends_fault K.Key (N.nodes tree.now.nodes.now)) result }
    ensures counts { IfOk result (λ counts. counts ≡ counts_in K.Key (N.nodes tree.now.nodes.now)) }
{
    let leaves = check_levels::<K, N>(alloc, tree, header.root, header.depth, &mut met)?;
    if has_ends(&header, &leaves) {
        let records = in_field(leaves.records);
        let free_nodes = tree.free_nodes();
        Ok(TreeCounts {
            header,
            records,
            free_nodes,
        })
    } else {
        Err(TreeFault::At(0))
    }
}

/// Counts the leaf records and the free nodes of a tree in a file of `size` bytes that has its shape, except for what its header
/// record says about these two numbers.
///
/// Errors: as for `check_shape`, except for the last rule, which is that of the two numbers.
///
/// Source: Inside Macintosh: Files, chapter 2, 'B*-trees'; docs/CHECKS.md has the rules.
pub fn count_tree<K: Key, N: Nodes>(
    alloc: Global,
    nodes: &N,
    size: u32,
) -> Result<TreeCounts, TreeFault>
    requires { size ≤ 512 * length (N.nodes nodes.now) }
    ensures place { FindsFault (structure_fault K.Key size (N.nodes nodes.now)) result }
    ensures structure { OnOk result (HasStructure K.Key (N.nodes nodes.now)) }
    ensures counts { IfOk result (λ counts. counts ≡ counts_in K.Key (N.nodes nodes.now)) }
{
    if nodes.count() == 0 {
        return Err(TreeFault::At(0));
    }
    let mut bytes = [0; 512];
    nodes.read(0, &mut bytes);
    let Ok(head) = view(&bytes) else {
        return Err(TreeFault::At(0));
    };
    let Some(header) = checked_header::<K>(&head, size) else {
        return Err(TreeFault::At(0));
    };
    let read = read_map(alloc, nodes, &head, header.nodes)?;
    let NodeMap { bytes: map, own } = read;
    let tree = MappedNodes {
        nodes,
        count: header.nodes,
        map: &map,
    };
    count_mapped::<K, N>(alloc, &tree, header, own)
}

/// Checks that a tree in a file of `size` bytes has its shape.
///
/// The rules come in this order: the header node and its record; the map nodes and the node map; the nodes, level by level; the
/// header record's first and last leaf, and its root if the tree is empty; its counts of leaf records and of free nodes. Each
/// node of the levels is read once.
///
/// Errors: `TreeFault::At(n)` if the first rule that fails is that of the levels, and node `n` is the first, level by level, that
/// fails; a node number outside the tree is itself the place. `TreeFault::At(0)` if the first rule that fails is another one.
/// `TreeFault::Memory` if memory was refused.
///
/// Source: Inside Macintosh: Files, chapter 2, 'B*-trees'; docs/CHECKS.md has the rules.
pub fn check_shape<K: Key, N: Nodes>(alloc: Global, nodes: &N, size: u32) -> Result<(), TreeFault>
    requires { size ≤ 512 * length (N.nodes nodes.now) }
    ensures place { FindsFault (shape_fault K.Key size (N.nodes nodes.now)) result }
    ensures shaped { OnOk result (IsShaped K.Key size (N.nodes nodes.now)) }
    ensures law { ShapedIffFaultless K.Key size (N.nodes nodes.now) }
{
    let counts = count_tree::<K, N>(alloc, nodes, size)?;
    if tells_right(&counts) {
        Ok(())
    } else {
        Err(TreeFault::At(0))
    }
}
