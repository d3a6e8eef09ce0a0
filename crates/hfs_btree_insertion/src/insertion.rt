//! Inserting a pair into a tree.

ghost use Rattle.std.specs.Prelude.{◌≡◌, ◌+◌, ◌*◌, ◌^◌, ◌<◌, ◌≤◌, true, [], None, IsTrue, IfOk, IfSome, OnOk, length, slice_index_or};
ghost use Rattle.hfs_btree.specs.Header.{header_in, depth_of, free_nodes, tree_content};
ghost use Rattle.hfs_btree.specs.Pairs.{lookup};
ghost use Rattle.hfs_btree.specs.Sound.{IsSound};
ghost use Rattle.hfs_btree_edits.specs.Edits.{Edits, IsAboveFirst};
ghost use Rattle.hfs_btree_insertion.specs.Growth.{IsLow, IsLeafFull};
ghost use Rattle.hfs_btree_insertion.specs.Begun.{IsBehindLeaf};
ghost use Rattle.hfs_btree_insertion.specs.Lowering.{HasLowered};
ghost use Rattle.hfs_btree_insertion.specs.Room.{HasMadeRoom, IsLowLeaf};
ghost use Rattle.hfs_btree_insertion.specs.Stored.{Inserts};

use crate::leaf_begin::{begin_leaf, comes_last, is_below};
use crate::leaf_put::{put_entry, put_in_leaf};
use crate::level_cut::cut_levels;
use crate::low_leaf::low_leaf;
use crate::lowering::lower_keys;
use crate::new_root::raise;
use crate::way::{full_levels, size_in};
use hfs_btree::{Key, read_header};
use hfs_btree_edits::NodesMut;
use std::alloc::{AllocError, Global};

/// Makes room, on the way to a key, for what is added at the level `least`, of the leaves or of the nodes above them, when a
/// record of `len` bytes is added to the leaf: a node without room is cut in two, and a root that is cut gets a new root above
/// it.
fn make_room<K: Key, S: NodesMut>(
    alloc: Global,
    nodes: &mut S,
    key: &K,
    len: usize,
    least: u16,
) -> Result<(), AllocError>
    requires sound { IsSound K.Key (S.nodes nodes.old) }
    requires above { IsAboveFirst K.compare key.now (tree_content K.Key (S.nodes nodes.old)) }
    requires low { IsLow K.Key (S.nodes nodes.old) key.now }
    requires short { len ≤ 140 }
    requires least { least ≤ 1 }
    requires over { 0 < least → IsLeafFull K.Key (S.nodes nodes.old) key.now len }
    requires shallow { depth_of (S.nodes nodes.old) ≤ 15 }
    requires free { depth_of (S.nodes nodes.old) + 1 ≤ free_nodes (S.nodes nodes.old) }
    requires file { (header_in (S.nodes nodes.old)).nodes ≤ length (S.nodes nodes.old) }
    ensures room { Edits result (HasMadeRoom K.Key key.now len least) S.nodes nodes.old nodes.new }
    ensures kept { OnOk result (S.kept nodes.new ≡ S.kept nodes.old) }
{
    let header = read_header(nodes);
    let full = full_levels(nodes, &header, key, len);
    if full < header.depth {
        return cut_levels(alloc, nodes, key, full, least, len);
    }
    raise::<K, S>(alloc, nodes)?;
    cut_levels(alloc, nodes, key, full, least, len)
}

/// Lowers those index keys on the way to a key that must be lowered, and returns whether a record of `len` bytes with this key
/// comes after all others, and the last leaf has no room for it. If none must be lowered, `low` is the leaf for the key, which
/// was read into `bytes`.
fn lower_way<K: Key, S: NodesMut>(
    alloc: Global,
    nodes: &mut S,
    key: &K,
    len: usize,
    low: Option<u32>,
    bytes: &[u8; 512],
) -> Result<bool, AllocError>
    requires sound { IsSound K.Key (S.nodes nodes.old) }
    requires above { IsAboveFirst K.compare key.now (tree_content K.Key (S.nodes nodes.old)) }
    requires some { 0 < depth_of (S.nodes nodes.old) }
    requires short { len ≤ 140 }
    requires low { IfSome low (IsLowLeaf K.Key (S.nodes nodes.old) key.now) }
    requires read { IfSome low (λ n. bytes.now ≡ slice_index_or (S.nodes nodes.old) n []) }
    ensures lowered { Edits result (HasLowered K.Key key.now 0) S.nodes nodes.old nodes.new }
    ensures last { IfOk result (λ last. last ≡ true
        → IsBehindLeaf K.Key (S.nodes nodes.new) key.now len) }
    ensures kept { OnOk result (S.kept nodes.new ≡ S.kept nodes.old) }
{
    let Some(_leaf) = low else {
        lower_keys(alloc, nodes, key)?;
        return Ok(comes_last(nodes, key, len));
    };
    Ok(is_below(bytes, key, len))
}

/// Inserts the pair into the tree, none of whose keys is equal to its own in the order, and one of which is below it.
///
/// A node without room is cut in two, and a root that is cut gets a new root above it. But if the record comes after all others,
/// the leaves stay as they are, and it begins a new one. Takes free nodes: at most one for each level, and one for a new root. If
/// the leaf has room and no index key must be lowered, which is the usual case, it goes down the tree once.
///
/// Errors: `AllocError` if memory was refused. Then nothing is known of the nodes, which must be thrown away.
///
/// Source: Inside Macintosh: Files, chapter 2, 'B*-trees'.
pub fn insert<K: Key, S: NodesMut>(
    alloc: Global,
    nodes: &mut S,
    key: &K,
    body: &[u8],
) -> Result<(), AllocError>
    requires sound { IsSound K.Key (S.nodes nodes.old) }
    requires allowed { IsTrue (K.is_body_len (length body.now)) }
    requires absent { lookup K.compare key.now (tree_content K.Key (S.nodes nodes.old)) ≡ None }
    requires above { IsAboveFirst K.compare key.now (tree_content K.Key (S.nodes nodes.old)) }
    requires shallow { depth_of (S.nodes nodes.old) ≤ 15 }
    requires free { depth_of (S.nodes nodes.old) + 1 ≤ free_nodes (S.nodes nodes.old) }
    requires small { 512 * (header_in (S.nodes nodes.old)).nodes < 2 ^ 32 }
    requires file { (header_in (S.nodes nodes.old)).nodes ≤ length (S.nodes nodes.old) }
    ensures inserted { OnOk result (Inserts K.Key key.now body.now S.nodes nodes.old nodes.new) }
    ensures kept { OnOk result (S.kept nodes.new ≡ S.kept nodes.old) }
{
    let entry = key.leaf_record(alloc, body)?;
    let len = entry.len();
    let header = read_header(nodes);
    let mut bytes = [0; 512];
    let low = low_leaf(nodes, &header, key, &mut bytes);
    if let Some(n) = low {
        if size_in(&bytes) + len + 2 <= 496 {
            return put_in_leaf(alloc, nodes, key, n, &bytes, entry);
        }
    }
    let last = lower_way(alloc, nodes, key, len, low, &bytes)?;
    if last {
        make_room(alloc, nodes, key, len, 1)?;
        return begin_leaf(alloc, nodes, key, entry);
    }
    make_room(alloc, nodes, key, len, 0)?;
    put_entry(alloc, nodes, key, entry)
}
