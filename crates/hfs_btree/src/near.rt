//! Looking up keys that mostly stand in one leaf with the one before.

ghost use Rattle.std.specs.Prelude.{◌≡◌, ◌<◌, true, false, Some, IfOk, IfSome, IsTrue};
ghost use Rattle.hfs_btree.specs.Node.{node_of};
ghost use Rattle.hfs_fields.specs.Each.{Each};
ghost use Rattle.hfs_btree.specs.Tree.{records_of};
ghost use Rattle.hfs_btree.specs.Header.{IsBodyUnder};
ghost use Rattle.hfs_btree.specs.LeafPairs.{leaf_body};
ghost use Rattle.hfs_btree.specs.Near.{IsLastLeaf, HasLeafRecords};
ghost use Rattle.hfs_btree.specs.Sound.{IsSound};

use crate::key::Key;
use crate::nodes::Nodes;
use crate::search::{body_in, descend, read_header};
use std::alloc::{AllocError, Global};

/// The leaf where the last search for a key ended.
#[derive(Clone, Copy)]
pub struct LastLeaf {
    /// Whether a leaf was read.
    pub is_read: bool,
    /// Its bytes.
    pub bytes: [u8; 512],
}

impl LastLeaf {
    /// No leaf was read yet.
    pub fn none() -> LastLeaf
        ensures { result.is_read ≡ false }
    {
        LastLeaf {
            is_read: false,
            bytes: [0; 512],
        }
    }
}

/// The body under the key in the leaf that was read last, if there is one with the key.
fn find_in_last<K: Key>(
    alloc: Global,
    last: &LastLeaf,
    key: &K,
) -> Result<Option<Vec<u8>>, AllocError>
    requires { HasLeafRecords K.Key last.now }
    ensures { IfOk result (λ found. IfSome found (λ body. (last.now.is_read ≡ true)
        × (Some body.items ≡ leaf_body K.Key last.now.bytes key.now))) }
{
    if !last.is_read {
        return Ok(None);
    }
    match body_in(&last.bytes, key) {
        Some(body) => Ok(Some(Vec::from_slice(alloc, body)?)),
        None => Ok(None),
    }
}

/// The body under the key, whose leaf is read.
fn find_anew<K: Key, N: Nodes>(
    alloc: Global,
    nodes: &N,
    key: &K,
    last: &mut LastLeaf,
) -> Result<Option<Vec<u8>>, AllocError>
    requires sound { IsSound K.Key (N.nodes nodes.now) }
    requires last { IsLastLeaf K.Key (N.nodes nodes.now) last.old }
    ensures found { IfOk result (IsBodyUnder K.Key (N.nodes nodes.now) key.now) }
    ensures last { IsLastLeaf K.Key (N.nodes nodes.now) last.new }
{
    let header = read_header(nodes);
    if header.depth == 0 {
        return Ok(None);
    }
    descend(nodes, &header, key, &mut last.bytes);
    last.is_read = true;
    match body_in(&last.bytes, key) {
        Some(body) => Ok(Some(Vec::from_slice(alloc, body)?)),
        None => Ok(None),
    }
}

/// The body under the key, as `find` gives it. It is looked for in the leaf first in which the last one was looked for, so that no
/// node is read for keys that stand in one leaf.
pub fn find_near<K: Key, N: Nodes>(
    alloc: Global,
    nodes: &N,
    key: &K,
    last: &mut LastLeaf,
) -> Result<Option<Vec<u8>>, AllocError>
    requires sound { IsSound K.Key (N.nodes nodes.now) }
    requires last { IsLastLeaf K.Key (N.nodes nodes.now) last.old }
    ensures found { IfOk result (IsBodyUnder K.Key (N.nodes nodes.now) key.now) }
    ensures last { IsLastLeaf K.Key (N.nodes nodes.now) last.new }
{
    if let Some(body) = find_in_last(alloc, last, key)? {
        return Ok(Some(body));
    }
    find_anew(alloc, nodes, key, last)
}
