//! Adding, removing or replacing one record of the catalog.
ghost use Rattle.std.specs.Prelude.{◌≡◌, ◌≤◌, None, OnOk, IsTrue, length};
ghost use Rattle.hfs_fields.specs.Keys.{cat_cmp, is_cat_body_len};
ghost use Rattle.hfs_btree.specs.Pairs.{lookup};
ghost use Rattle.hfs_btree_edits.specs.Conditions.{IsNoLonger, IsThere};
ghost use Rattle.hfs_btree_edits.specs.Entries.{IsPlaceOf};
ghost use Rattle.hfs_catalog.specs.Tree.{IsCatalogTree, cat_keys, catalog_of};
ghost use Rattle.hfs_btree_edits.specs.Edits.{Edits};
ghost use Rattle.hfs_record_edits.specs.ItemEdits.{RecordAtWent};
ghost use Rattle.hfs_record_edits.specs.RecordEdits.{RecordCame, RecordSet};
ghost use Rattle.hfs_record_edits.specs.Rooms.{IsInFile, HasRoom};
ghost use Rattle.hfs_record_edits.specs.Roots.{HasRoot};

use hfs_btree_edits::{NodesMut, RecordPlace, replace, replace_at};
use hfs_btree_insertion::insert;
use hfs_btree_removal::remove;
use hfs_fields::CatKey;
use std::alloc::{AllocError, Global};

/// Adds a record under a key that no record has.
pub(crate) fn put<N: NodesMut>(
    alloc: Global,
    nodes: &mut N,
    key: &CatKey,
    body: &[u8],
) -> Result<(), AllocError>
    requires tree { IsCatalogTree (N.nodes nodes.old) }
    requires allowed { IsTrue (is_cat_body_len (length body.now)) }
    requires root { HasRoot (catalog_of (N.nodes nodes.old)) }
    requires parent { 2 ≤ key.now.parent }
    requires absent { lookup cat_cmp key.now (catalog_of (N.nodes nodes.old)) ≡ None }
    requires file { IsInFile (N.nodes nodes.old) }
    requires room { HasRoom (N.nodes nodes.old) }
    ensures came { Edits result (RecordCame (key.now, body.now)) N.nodes nodes.old nodes.new }
    ensures kept { OnOk result (N.kept nodes.new ≡ N.kept nodes.old) }
{
    insert(alloc, nodes, key, body)
}

/// Removes the record under a key.
pub(crate) fn take<N: NodesMut>(
    alloc: Global,
    nodes: &mut N,
    key: &CatKey,
) -> Result<(), AllocError>
    requires tree { IsCatalogTree (N.nodes nodes.old) }
    requires there { IsThere (lookup cat_cmp key.now (catalog_of (N.nodes nodes.old))) }
    ensures went { Edits result (RecordAtWent key.now) N.nodes nodes.old nodes.new }
    ensures kept { OnOk result (N.kept nodes.new ≡ N.kept nodes.old) }
{
    remove(alloc, nodes, key)
}

/// Puts a record in place of the one under its key, whose body is no shorter. The key is spelled as given.
pub(crate) fn set<N: NodesMut>(
    alloc: Global,
    nodes: &mut N,
    key: &CatKey,
    body: &[u8],
) -> Result<(), AllocError>
    requires tree { IsCatalogTree (N.nodes nodes.old) }
    requires allowed { IsTrue (is_cat_body_len (length body.now)) }
    requires there { IsNoLonger body.now (lookup cat_cmp key.now (catalog_of (N.nodes nodes.old))) }
    ensures set { Edits result (RecordSet (key.now, body.now)) N.nodes nodes.old nodes.new }
    ensures kept { OnOk result (N.kept nodes.new ≡ N.kept nodes.old) }
{
    replace(alloc, nodes, key, body)
}

/// Puts a record in place of the one under its key, whose body is no shorter, and whose place was found. The key is spelled as
/// given.
pub(crate) fn set_at<N: NodesMut>(
    alloc: Global,
    nodes: &mut N,
    key: &CatKey,
    body: &[u8],
    place: &RecordPlace,
) -> Result<(), AllocError>
    requires tree { IsCatalogTree (N.nodes nodes.old) }
    requires allowed { IsTrue (is_cat_body_len (length body.now)) }
    requires there { IsNoLonger body.now (lookup cat_cmp key.now (catalog_of (N.nodes nodes.old))) }
    requires place { IsPlaceOf cat_keys (N.nodes nodes.old) key.now place.now }
    ensures set { Edits result (RecordSet (key.now, body.now)) N.nodes nodes.old nodes.new }
    ensures kept { OnOk result (N.kept nodes.new ≡ N.kept nodes.old) }
{
    replace_at(alloc, nodes, key, body, place)
}
