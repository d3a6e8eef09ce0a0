//! Cutting nodes on the way to a key in two.

ghost use Rattle.std.specs.Prelude.{◌≡◌, ℕ, ◌+◌, ◌<◌, ◌≤◌, OnOk, length};
ghost use Rattle.hfs_btree.specs.Header.{header_in, depth_of, free_nodes};
ghost use Rattle.hfs_btree.specs.Sound.{IsSound, IsStray};
ghost use Rattle.hfs_btree_edits.specs.Edits.{Edits};
ghost use Rattle.hfs_btree_insertion.specs.Cut.{IsBranch, IsChildCut};
ghost use Rattle.hfs_btree_insertion.specs.Growth.{len_at, HasRoom, HasRoomOnWay, IsChildCuttable, IsCuttableOnWay, IsLow, HasCutLevel};
ghost use Rattle.hfs_btree_insertion.specs.Steps.{AreCuttable, HasCutDown};

use crate::cut_place::{child_named, cut_place, half_entry};
use crate::halving::halve;
use crate::leaf_put::put_record;
use crate::way::node_at;
use hfs_btree::{Key, place_in_index, read_header};
use hfs_btree_edits::{NodesMut, claim_node};
use std::alloc::{AllocError, Global};

/// How many bytes the record has that is added at a level: in a leaf `len`, above the leaves those of an index record.
fn level_len<K: Key>(len: usize, above: u16) -> usize
    ensures { result ≡ len_at K.Key len above }
{
    if above == 0 {
        len
    } else {
        K::INDEX_KEY_LEN as usize + 5
    }
}

/// A record of an index node: the node, the record's place in it, and how many levels above the leaves the child is that it names.
#[derive(Clone, Copy)]
struct Branch {
    parent: u32,
    place: usize,
    above: u16,
}

/// Cuts the child that a record of an index node names: its second part goes to node `m`, a stray one, and a new record after that
/// one names it. The part on the way to the key has room for a record of `len` bytes.
fn cut_child<K: Key, S: NodesMut>(
    alloc: Global,
    nodes: &mut S,
    key: &K,
    len: usize,
    branch: Branch,
    m: u32,
) -> Result<(), AllocError>
    requires sound { IsSound K.Key (S.nodes nodes.old) }
    requires branch { IsBranch K.Key (S.nodes nodes.old)
        branch.above branch.parent branch.place }
    requires stray { IsStray K.Key (S.nodes nodes.old) m }
    requires within { m < length (S.nodes nodes.old) }
    requires over { IsChildCuttable K.Key (S.nodes nodes.old) branch.parent branch.place }
    requires room { HasRoom (S.nodes nodes.old) (K.INDEX_KEY_LEN + 5) branch.parent }
    requires short { len ≤ 140 }
    ensures cut { Edits result
        (IsChildCut K.Key key.now len branch.above branch.parent branch.place m)
        S.nodes nodes.old nodes.new }
    ensures kept { OnOk result (S.kept nodes.new ≡ S.kept nodes.old) }
{
    let Branch {
        parent,
        place,
        above,
    } = branch;
    let n = child_named::<K, S>(nodes, parent, place);
    let half = cut_place(nodes, n, key, above, len);
    let entry = half_entry::<K, S>(alloc, nodes, n, half, above, m)?;
    put_record(nodes, parent, place + 1, entry)?;
    halve(alloc, nodes, n, m, half, above == 0)
}

/// Cuts the node on the way to a key that is `above` levels above the leaves; the node above it has room for an index record. The
/// part on the way then has room for a record of `len` bytes. Takes one free node.
pub(crate) fn cut_level<K: Key, S: NodesMut>(
    alloc: Global,
    nodes: &mut S,
    key: &K,
    above: u16,
    len: usize,
) -> Result<(), AllocError>
    requires sound { IsSound K.Key (S.nodes nodes.old) }
    requires low { IsLow K.Key (S.nodes nodes.old) key.now }
    requires short { len ≤ 140 }
    requires deep { above + 1 < depth_of (S.nodes nodes.old) }
    requires over { IsCuttableOnWay K.Key (S.nodes nodes.old) key.now above }
    requires room { HasRoomOnWay K.Key (S.nodes nodes.old) key.now (above + 1) }
    requires free { 0 < free_nodes (S.nodes nodes.old) }
    requires file { (header_in (S.nodes nodes.old)).nodes ≤ length (S.nodes nodes.old) }
    ensures cut { Edits result (HasCutLevel K.Key key.now len above) S.nodes nodes.old nodes.new }
    ensures kept { OnOk result (S.kept nodes.new ≡ S.kept nodes.old) }
{
    let m = claim_node::<K, S>(alloc, nodes)?;
    let header = read_header(nodes);
    let mut bytes = [0; 512];
    let parent = node_at(nodes, &header, key, above + 1, &mut bytes);
    let place = place_in_index(&bytes, key);
    let branch = Branch {
        parent,
        place,
        above,
    };
    cut_child(alloc, nodes, key, len, branch, m)
}

/// Cuts the nodes on the way to a key that are below level `full` and not below level `least`, counted from the leaves, from the
/// top down. The last one then has room for what is added to it when a record of `len` bytes is added to the leaf. Takes one free
/// node for each.
pub(crate) fn cut_levels<K: Key, S: NodesMut>(
    alloc: Global,
    nodes: &mut S,
    key: &K,
    full: u16,
    least: u16,
    len: usize,
) -> Result<(), AllocError>
    requires sound { IsSound K.Key (S.nodes nodes.old) }
    requires full { AreCuttable K.Key (S.nodes nodes.old) key.now full }
    requires least { least ≤ full }
    requires short { len ≤ 140 }
    requires low { IsLow K.Key (S.nodes nodes.old) key.now }
    requires free { full ≤ free_nodes (S.nodes nodes.old) }
    requires file { (header_in (S.nodes nodes.old)).nodes ≤ length (S.nodes nodes.old) }
    ensures cut { Edits result (HasCutDown K.Key key.now len least full) S.nodes nodes.old nodes.new }
    ensures kept { OnOk result (S.kept nodes.new ≡ S.kept nodes.old) }
{
    let mut above = full;
    while above > least {
        above -= 1;
        cut_level(alloc, nodes, key, above, level_len::<K>(len, above))?;
    }
    Ok(())
}
