//! Adding a record to the extents tree.

ghost use Rattle.std.specs.Prelude.{◌≡◌, ◌+◌, ◌*◌, ◌^◌, ◌<◌, ◌≤◌, true, false, None, IfOk, OnOk, length};
ghost use Rattle.hfs_fields.specs.Keys.{ext_cmp};
ghost use Rattle.hfs_btree.specs.Header.{header_in, depth_of, free_nodes};
ghost use Rattle.hfs_btree.specs.Pairs.{lookup};
ghost use Rattle.hfs_btree_edits.specs.Edits.{Edits};
ghost use Rattle.hfs_space.specs.TreeKeys.{IsExtentsTree, overflow_of};
ghost use Rattle.hfs_record_edits.specs.Need.{HasNodesFor};
ghost use Rattle.hfs_record_edits.specs.Adding.{HasAdded, HasLeast, IsLeastAbove, IsBeyondLeaf};

use crate::beginning::begin;
use crate::edge::put_least;
use crate::lone_leaf::put_in_root;
use hfs_btree::{Header, Key, Nodes, Walk, read_header};
use hfs_btree_edits::NodesMut;
use hfs_btree_insertion::insert;
use hfs_fields::ExtKey;
use std::alloc::{AllocError, Global};

/// Whether the root is a leaf with room for one more record: 22 of them, with their offsets, take 484 of a node's 496 bytes.
fn has_room(header: &Header) -> bool
    ensures one { result ≡ true → header.now.depth ≡ 1 }
    ensures few { result ≡ true → header.now.records < 22 }
    ensures full { result ≡ false → header.now.depth ≡ 1 → 22 ≤ header.now.records }
{
    if header.depth != 1 {
        return false;
    }
    header.records < 22
}

/// The least pair of the tree, if this key is below its own. Fails only when out of memory.
fn least_above<N: Nodes>(
    alloc: Global,
    nodes: &N,
    key: &ExtKey,
) -> Result<Option<(ExtKey, Vec<u8>)>, AllocError>
    requires { IsExtentsTree (N.nodes nodes.now) }
    ensures { IfOk result (IsLeastAbove key.now (overflow_of (N.nodes nodes.now))) }
{
    let walk = Walk::whole(nodes);
    match walk.pair() {
        Some(pair) if key.compare(&pair.key).is_lt() => {
            let body = Vec::from_slice(alloc, pair.body)?;
            Ok(Some((pair.key, body)))
        }
        _ => Ok(None),
    }
}

/// Puts a record below all others into the tree: it takes the place of the least one, which is inserted after it.
fn add_below<S: NodesMut>(
    alloc: Global,
    nodes: &mut S,
    header: &Header,
    key: &ExtKey,
    body: &[u8],
    least: &ExtKey,
    least_body: &[u8],
) -> Result<(), AllocError>
    requires tree { IsExtentsTree (S.nodes nodes.old) }
    requires header { header.now ≡ header_in (S.nodes nodes.old) }
    requires some { 0 < depth_of (S.nodes nodes.old) }
    requires beyond { IsBeyondLeaf (S.nodes nodes.old) }
    requires long { length body.now ≡ 12 }
    requires least { HasLeast key.now (overflow_of (S.nodes nodes.old)) (least.now, least_body.now) }
    requires shallow { depth_of (S.nodes nodes.old) ≤ 15 }
    requires free { depth_of (S.nodes nodes.old) + 1 ≤ free_nodes (S.nodes nodes.old) }
    requires small { 512 * (header_in (S.nodes nodes.old)).nodes < 2 ^ 32 }
    requires file { (header_in (S.nodes nodes.old)).nodes ≤ length (S.nodes nodes.old) }
    ensures added { Edits result (HasAdded key.now body.now) S.nodes nodes.old nodes.new }
    ensures kept { OnOk result (S.kept nodes.new ≡ S.kept nodes.old) }
{
    put_least(alloc, nodes, header, key, body)?;
    insert(alloc, nodes, least, least_body)
}

/// Adds a record to the extents tree, none of whose keys is equal to its own; the tree may be empty, or the key below all others.
///
/// The very first record becomes a leaf, which is the root. A record that fits into a leaf that is the root needs no node. Any
/// other may need one on each level, and one for a new root: as many as `extents_need` says.
///
/// Errors: `AllocError` if memory was refused. Then nothing is known of the nodes, which must be thrown away.
///
/// Source: Inside Macintosh: Files, chapter 2, 'B*-trees' and 'Extents overflow file'.
pub fn add<S: NodesMut>(
    alloc: Global,
    nodes: &mut S,
    key: &ExtKey,
    body: &[u8],
) -> Result<(), AllocError>
    requires tree { IsExtentsTree (S.nodes nodes.old) }
    requires long { length body.now ≡ 12 }
    requires absent { lookup ext_cmp key.now (overflow_of (S.nodes nodes.old)) ≡ None }
    requires room { HasNodesFor 1 (S.nodes nodes.old) }
    requires small { 512 * (header_in (S.nodes nodes.old)).nodes < 2 ^ 32 }
    requires file { (header_in (S.nodes nodes.old)).nodes ≤ length (S.nodes nodes.old) }
    ensures added { Edits result (HasAdded key.now body.now) S.nodes nodes.old nodes.new }
    ensures kept { OnOk result (S.kept nodes.new ≡ S.kept nodes.old) }
{
    let header = read_header(nodes);
    if header.depth == 0 {
        return begin(alloc, nodes, key, body);
    }
    if has_room(&header) {
        let entry = key.leaf_record(alloc, body)?;
        return put_in_root(alloc, nodes, &header, key, entry);
    }
    match least_above(alloc, nodes, key)? {
        Some((least, least_body)) => {
            add_below(alloc, nodes, &header, key, body, &least, &least_body)
        }
        None => insert(alloc, nodes, key, body),
    }
}
