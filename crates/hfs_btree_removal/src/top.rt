//! Replacing the root by its child.

ghost use Rattle.std.specs.Prelude.{◌≡◌, ◌+◌, ◌≤◌, [], OnOk};
ghost use Rattle.hfs_btree_edits.specs.Edits.{Edits};
ghost use Rattle.hfs_btree_removal.specs.Removal.{KeepsSound, GainsNothing, KeepsContent, FreesOne, root_count, RootBranches};
ghost use Rattle.hfs_btree.specs.Header.{header_in, depth_of, tree_content};
ghost use Rattle.hfs_btree_removal.specs.Removal.{HasLowered};
ghost use Rattle.hfs_btree.specs.Sound.{IsSound};

use crate::down::child_at;
use hfs_btree::{Header, Key, count_in, read_header};
use hfs_btree_edits::{NodesMut, put_header, release};
use std::alloc::{AllocError, Global};

/// Puts the only child of an index root in its place.
fn lower_once<K: Key, S: NodesMut>(
    alloc: Global,
    nodes: &mut S,
    header: &Header,
) -> Result<(), AllocError>
    requires sound { IsSound K.Key (S.nodes nodes.old) }
    requires header { header.now ≡ header_in (S.nodes nodes.old) }
    requires deep { 2 ≤ depth_of (S.nodes nodes.old) }
    requires one { root_count (S.nodes nodes.old) ≡ 1 }
    ensures keeps { Edits result (KeepsSound K.Key) S.nodes nodes.old nodes.new }
    ensures gains { Edits result (GainsNothing K.Key) S.nodes nodes.old nodes.new }
    ensures content { Edits result (KeepsContent K.Key) S.nodes nodes.old nodes.new }
    ensures depth { OnOk result (depth_of (S.nodes nodes.new) + 1 ≡ depth_of (S.nodes nodes.old)) }
    ensures free { Edits result FreesOne S.nodes nodes.old nodes.new }
    ensures kept { OnOk result (S.kept nodes.new ≡ S.kept nodes.old) }
{
    let mut bytes = [0; 512];
    nodes.read(header.root, &mut bytes);
    let child = child_at::<K>(&bytes, 0);
    let lower = Header {
        depth: header.depth - 1,
        root: child,
        ..*header
    };
    put_header(alloc, nodes, &lower)?;
    release::<K, S>(alloc, nodes, header.root)
}

/// Puts the only child of an index root in its place, as long as the root is an index node with one record.
pub(crate) fn lower_root<K: Key, S: NodesMut>(
    alloc: Global,
    nodes: &mut S,
) -> Result<(), AllocError>
    requires { IsSound K.Key (S.nodes nodes.old) }
    ensures lowered { Edits result (HasLowered K.Key) S.nodes nodes.old nodes.new }
    ensures root { OnOk result (RootBranches (S.nodes nodes.new)) }
    ensures kept { OnOk result (S.kept nodes.new ≡ S.kept nodes.old) }
{
    let mut header = read_header(nodes);
    let mut bytes = [0; 512];
    while header.depth > 1 {
        nodes.read(header.root, &mut bytes);
        if count_in(&bytes) != 1 {
            return Ok(());
        }
        lower_once::<K, S>(alloc, nodes, &header)?;
        header = read_header(nodes);
    }
    Ok(())
}

/// Makes a tree of one leaf empty.
pub(crate) fn drop_root<K: Key, S: NodesMut>(
    alloc: Global,
    nodes: &mut S,
    header: &Header,
) -> Result<(), AllocError>
    requires sound { IsSound K.Key (S.nodes nodes.old) }
    requires header { header.now ≡ header_in (S.nodes nodes.old) }
    requires one { depth_of (S.nodes nodes.old) ≡ 1 }
    ensures keeps { Edits result (KeepsSound K.Key) S.nodes nodes.old nodes.new }
    ensures gains { Edits result (GainsNothing K.Key) S.nodes nodes.old nodes.new }
    ensures empty { OnOk result (tree_content K.Key (S.nodes nodes.new) ≡ []) }
    ensures depth { OnOk result (depth_of (S.nodes nodes.new) ≡ 0) }
    ensures free { Edits result FreesOne S.nodes nodes.old nodes.new }
    ensures kept { OnOk result (S.kept nodes.new ≡ S.kept nodes.old) }
{
    let empty = Header {
        depth: 0,
        root: 0,
        records: 0,
        first_leaf: 0,
        last_leaf: 0,
        ..*header
    };
    put_header(alloc, nodes, &empty)?;
    release::<K, S>(alloc, nodes, header.root)
}
