//! A tree of one leaf that has room for one more record.

ghost use Rattle.std.specs.Prelude.{◌≡◌, ◌+◌, ◌^◌, ◌<◌, ◌≤◌, None, IsTrue, OnOk, length};
ghost use Rattle.hfs_btree.specs.Node.{size_of};
ghost use Rattle.hfs_btree.specs.Header.{header_in, depth_of, tree_content};
ghost use Rattle.hfs_btree.specs.Pairs.{lookup};
ghost use Rattle.hfs_btree.specs.Sound.{IsSound};
ghost use Rattle.hfs_btree.specs.Tree.{records_in};
ghost use Rattle.hfs_btree_edits.specs.Edits.{Edits};
ghost use Rattle.hfs_btree_insertion.specs.Stored.{HasEntryPut};

use hfs_btree::{Header, Key, place_in};
use hfs_btree_edits::{NodesMut, put_header, store_inserted, viewed};
use std::alloc::{AllocError, Global};

/// Puts a leaf's record into the root, which is a leaf with room for it, wherever its key belongs. Takes no node.
pub(crate) fn put_in_root<K: Key, S: NodesMut>(
    alloc: Global,
    nodes: &mut S,
    header: &Header,
    key: &K,
    entry: Vec<u8>,
) -> Result<(), AllocError>
    requires sound { IsSound K.Key (S.nodes nodes.old) }
    requires header { header.now ≡ header_in (S.nodes nodes.old) }
    requires one { depth_of (S.nodes nodes.old) ≡ 1 }
    requires few { (header_in (S.nodes nodes.old)).records + 1 < 2 ^ 32 }
    requires leaf { IsTrue (K.is_leaf entry.items) }
    requires keyed { K.leaf_key entry.items ≡ key.now }
    requires absent { lookup K.compare key.now (tree_content K.Key (S.nodes nodes.old)) ≡ None }
    requires room { size_of (records_in (S.nodes nodes.old) (header_in (S.nodes nodes.old)).root)
        + (length entry.items + 2) ≤ 496 }
    ensures put { Edits result (HasEntryPut K.Key key.now entry.items) S.nodes nodes.old nodes.new }
    ensures kept { OnOk result (S.kept nodes.new ≡ S.kept nodes.old) }
{
    let n = header.root;
    let mut bytes = [0; 512];
    nodes.read(n, &mut bytes);
    let place = place_in(&bytes, key);
    let leaf = viewed(nodes, n, &bytes);
    store_inserted(nodes, n, &leaf, place, entry)?;
    let counted = Header {
        records: header.records + 1,
        ..*header
    };
    put_header(alloc, nodes, &counted)
}
