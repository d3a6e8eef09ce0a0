//! Where a new item goes: the folder that Create and DirCreate choose, or the first code that refuses them.

ghost use Rattle.std.specs.Prelude.{◌≡◌, IfOk};
ghost use Rattle.hfs_catalog.specs.Tree.{catalog_of};
ghost use Rattle.hfs_items.specs.Told.{IsCatalog};
ghost use Rattle.hfs_check.specs.Parts.{catalog_nodes};
ghost use Rattle.hfs_call_edits.specs.NewPlaces.{children_in, new_place, place_found, IsFolderFound, ChoosesNewPlace};

use crate::choosing::lock_code;
use crate::editing::Editing;
use crate::placed::placed_folder;
use hfs_blocks::Blocks;
use hfs_btree::Nodes;
use hfs_call_patches::{FoundPlace, NewPlace};
use hfs_catalog::{CatalogItem, ItemRecord, lookup};
use hfs_fields::{Mdb, Name};
use hfs_model::{BAD_NAME, DUPLICATE, FOLDER_FULL, NOT_A_FOLDER};

/// The most children that a folder may have.
const MOST_CHILDREN: u16 = 65_535;

/// The last ID, which no item gets.
const LAST_ID: u32 = 4_294_967_295;

/// How many children a folder has; 0 for a file.
fn child_count(item: &CatalogItem) -> u16
    ensures { result ≡ children_in item.now.body }
{
    match item.body {
        ItemRecord::Folder(folder) => folder.valence,
        ItemRecord::File(_) => 0,
    }
}

/// Where a new item of that name goes in the folder, or the code that refuses it.
fn new_place<N: Nodes>(nodes: &N, mdb: &Mdb, dir: u32, name: &[u8]) -> Result<FoundPlace, i16>
    requires { IsCatalog (N.nodes nodes.now) }
    ensures chosen { place_found result
        ≡ new_place mdb.now (catalog_of (N.nodes nodes.now)) dir name.now }
    ensures folder { IfOk result (IsFolderFound (N.nodes nodes.now)) }
{
    if let Some(code) = lock_code(mdb) {
        return Err(code);
    }
    let Some(name) = Name::new(name) else {
        return Err(BAD_NAME);
    };
    let Some(folder) = placed_folder(nodes, dir) else {
        return Err(NOT_A_FOLDER);
    };
    if lookup(nodes, dir, &name).is_some() {
        return Err(DUPLICATE);
    }
    let children = child_count(&folder.item);
    if children >= MOST_CHILDREN || mdb.next_id == LAST_ID {
        return Err(FOLDER_FULL);
    }
    Ok(FoundPlace {
        place: NewPlace {
            name,
            folder: folder.item.key,
            children,
        },
        folder_at: folder.place,
    })
}

impl<B: Blocks> Editing<'_, B> {
    /// Where a new item of that name goes in the folder, or the code that refuses it.
    pub(crate) fn new_place(&self, dir: u32, name: &[u8]) -> Result<FoundPlace, i16>
        ensures chosen { ChoosesNewPlace (B.blocks self.now) dir name.now (place_found result) }
        ensures folder { IfOk result (IsFolderFound (catalog_nodes (B.blocks self.now))) }
    {
        new_place(&self.nodes(), self.volume.mdb, dir, name)
    }
}
