//! Putting a pair in place of another one.

ghost use Rattle.std.specs.Prelude.{◌≡◌, OnOk, IsTrue, length};
ghost use Rattle.hfs_btree.specs.Header.{body_at};
ghost use Rattle.hfs_btree.specs.Sound.{IsSound};
ghost use Rattle.hfs_btree_edits.specs.Edits.{Edits, HasReplaced};
ghost use Rattle.hfs_btree_edits.specs.Entries.{IsPlaceOf};
ghost use Rattle.hfs_btree_edits.specs.Conditions.{IsNoLonger};

use crate::nodes_mut::NodesMut;
use crate::seeking::{RecordPlace, find_place};
use crate::stored::{store_replaced, viewed};
use hfs_btree::Key;
use std::alloc::{AllocError, Global};

/// Puts the pair in place of the one whose key is equal to its own in the order, and whose place was found. The key is spelled as
/// given.
///
/// Writes one leaf, and reads none. After `AllocError` nothing is known of the nodes.
pub fn replace_at<K: Key, N: NodesMut>(
    alloc: Global,
    nodes: &mut N,
    key: &K,
    body: &[u8],
    place: &RecordPlace,
) -> Result<(), AllocError>
    requires sound { IsSound K.Key (N.nodes nodes.old) }
    requires allowed { IsTrue (K.is_body_len (length body.now)) }
    requires there { IsNoLonger body.now (body_at K.Key (N.nodes nodes.old) key.now) }
    requires place { IsPlaceOf K.Key (N.nodes nodes.old) key.now place.now }
    ensures replaced { Edits result
        (HasReplaced K.Key key.now body.now) N.nodes nodes.old nodes.new }
    ensures kept { OnOk result (N.kept nodes.new ≡ N.kept nodes.old) }
{
    let leaf = viewed(nodes, place.leaf, &place.bytes);
    let made = key.leaf_record(alloc, body)?;
    store_replaced(nodes, place.leaf, &leaf, place.at, made)
}

/// Puts the pair in place of the one whose key is equal to its own in the order. The key is spelled as given.
///
/// Reads the header node and one node of each level, and writes one leaf. After `AllocError` nothing is known of the nodes.
pub fn replace<K: Key, N: NodesMut>(
    alloc: Global,
    nodes: &mut N,
    key: &K,
    body: &[u8],
) -> Result<(), AllocError>
    requires sound { IsSound K.Key (N.nodes nodes.old) }
    requires allowed { IsTrue (K.is_body_len (length body.now)) }
    requires there { IsNoLonger body.now (body_at K.Key (N.nodes nodes.old) key.now) }
    ensures replaced { Edits result
        (HasReplaced K.Key key.now body.now) N.nodes nodes.old nodes.new }
    ensures kept { OnOk result (N.kept nodes.new ≡ N.kept nodes.old) }
{
    let place = find_place(nodes, key);
    replace_at(alloc, nodes, key, body, &place)
}
