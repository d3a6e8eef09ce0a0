//! The rows of a volume's catalog.
ghost use Rattle.std.specs.Prelude.{◌≡◌, ◌++◌, IfOk, OnOk};
ghost use Rattle.hfs_blocks.specs.Blocks.{block_at};
ghost use Rattle.hfs_check.specs.Parts.{catalog_in};
ghost use Rattle.hfs_volume.specs.Mounted.{AreForksIn};
ghost use Rattle.hfs_viewers.specs.Changed.{TellsChanges};
ghost use Rattle.hfs_viewers.specs.MountedForks.{OpensForks};
ghost use Rattle.hfs_viewers.specs.Opened.{AreAllRows, AreRight, AreThreadsOf, Enters, HasChildrenOf, HasForksIn, HasSameEntries, HasSameRows, IsRightIn, ShowsFile, ShowsFolder, TakesRecord, image_catalog, table_over};

use crate::kept::{file_kept, folder_kept};
use crate::locks::{is_hardware_locked, is_software_locked};
use crate::mounted_forks::fork_row;
use crate::threads::ThreadIds;
use crate::{Place, Row, RowFile, RowKind, Table};
use hfs_catalog::{CatalogRecord, is_file, is_folder};
use hfs_fields::{CatKey, DirRecord, FileRecord, Mdb};
use hfs_model::Fork;
use hfs_volume::{Base, Volume};
use std::alloc::{AllocError, Global};
use std::collections::BTreeMap;

/// Rows by their IDs, and their IDs by the places of their items.
#[derive(Drop)]
pub struct Maps {
    pub by_id: BTreeMap<u32, Row>,
    pub by_name: BTreeMap<Place, u32>,
}

/// The 32 Finder bytes of an item, which are in two places of its record.
fn finder_bytes(info: &[u8; 16], extended: &[u8; 16]) -> [u8; 32]
    ensures { result ≡ info.now ++ extended.now }
{
    let mut all = [0; 32];
    all[..16].copy_from_slice(info);
    all[16..].copy_from_slice(extended);
    all
}

/// The row of a folder's record.
#[tactic(auto, unfolding(hfs_catalog::specs::Items::folder_of))]
fn folder_row(key: &CatKey, folder: &DirRecord) -> Row
    ensures shows { ShowsFolder key.now folder.now result }
    ensures kind { HasChildrenOf folder.now result }
{
    Row {
        parent: key.parent,
        name: key.name,
        created: folder.created,
        modified: folder.modified,
        backup: folder.backup,
        finder: finder_bytes(&folder.finder_info, &folder.extended_finder_info),
        kind: RowKind::Folder {
            kept: folder_kept(folder),
            children: u32::from(folder.valence),
        },
    }
}

/// The row of a file's record. Fails only when out of memory.
fn file_row(
    alloc: Global,
    volume: &Volume,
    changed: bool,
    has_thread: bool,
    key: &CatKey,
    file: &FileRecord,
) -> Result<Row, AllocError>
    requires changed { TellsChanges volume.now changed }
    requires forks { AreForksIn (block_at volume.now.current) file.now }
    requires opens { OpensForks volume.now.current key.now file.now }
    ensures shows { IfOk result (ShowsFile volume.now has_thread key.now file.now) }
    ensures kind { IfOk result (HasForksIn volume.now.current) }
{
    let data = fork_row(alloc, volume, changed, key, file, Fork::DataFork)?;
    let resource = fork_row(alloc, volume, changed, key, file, Fork::ResFork)?;
    Ok(Row {
        parent: key.parent,
        name: key.name,
        created: file.created,
        modified: file.modified,
        backup: file.backup,
        finder: finder_bytes(&file.finder_info, &file.extended_finder_info),
        kind: RowKind::File(RowFile {
            kept: file_kept(file),
            locked: file.flags.is_locked(),
            has_thread,
            data,
            resource,
        }),
    })
}

/// A map with the same entries, whose nodes are full; a map to which keys are added in order has half-empty nodes. Fails only
/// when out of memory; it takes as much as the entries once more.
fn packed<K: Ord + Drop, V: Drop>(
    map: BTreeMap<K, V>,
    alloc: Global,
) -> Result<BTreeMap<K, V>, AllocError>
    ensures { IfOk result (HasSameEntries K.cmp map) }
{
    map.into_iter().collect(alloc)
}

impl Maps {
    /// Puts a row under its ID and at its place. Fails only when out of memory.
    fn enter(&mut self, id: u32, row: Row) -> Result<(), AllocError>
        ensures { OnOk result (Enters id row self.old self.new) }
    {
        self.by_name.insert(row.place(), id)?;
        self.by_id.insert(id, row)?;
        Ok(())
    }

    /// Takes in a record of the volume's catalog, if it is an item's. Fails only when out of memory.
    #[tactic(auto, unfolding(hfs_fields::specs::Records::begins_dir, hfs_fields::specs::Records::begins_file))]
    fn take(
        &mut self,
        alloc: Global,
        volume: &Volume,
        changed: bool,
        threads: &ThreadIds,
        entry: &CatalogRecord,
    ) -> Result<(), AllocError>
        requires changed { TellsChanges volume.now changed }
        requires right { IsRightIn volume.now.current entry.now }
        requires threads { AreThreadsOf (image_catalog volume.now.current) threads.now }
        ensures { OnOk result (TakesRecord volume.now entry.now self.old self.new) }
    {
        let key = entry.key();
        let body = entry.body();
        if is_folder(body) {
            let Some(folder) = DirRecord::read(body) else {
                unreachable!()
            };
            return self.enter(folder.id, folder_row(key, &folder));
        }
        if is_file(body) {
            let Some(file) = FileRecord::read(body) else {
                unreachable!()
            };
            let row = file_row(alloc, volume, changed, threads.has(file.id), key, &file)?;
            return self.enter(file.id, row);
        }
        Ok(())
    }

    /// The rows of a volume's catalog, from its records in the order in which they come. Fails only when out of memory.
    fn gathered(
        alloc: Global,
        volume: &Volume,
        changed: bool,
        threads: &ThreadIds,
        records: Vec<CatalogRecord>,
    ) -> Result<Maps, AllocError>
        requires records { records.items ≡ catalog_in (block_at volume.now.current) }
        requires changed { TellsChanges volume.now changed }
        requires right { AreRight volume.now.current }
        requires threads { AreThreadsOf (image_catalog volume.now.current) threads.now }
        ensures { IfOk result (AreAllRows volume.now) }
    {
        let mut records = records;
        let mut maps = Maps {
            by_id: BTreeMap::new(alloc),
            by_name: BTreeMap::new(alloc),
        };
        while let Some(record) = records.pop() {
            maps.take(alloc, volume, changed, threads, &record)?;
        }
        Ok(maps)
    }

    /// The same rows in maps whose nodes are full. Fails only when out of memory.
    fn packed(self, alloc: Global) -> Result<Maps, AllocError>
        ensures { IfOk result (HasSameRows self) }
    {
        let Maps { by_id, by_name } = self;
        let by_id = packed(by_id, alloc)?;
        let by_name = packed(by_name, alloc)?;
        Ok(Maps { by_id, by_name })
    }

    /// The rows of a volume's catalog, from its records. `changed` says whether a block of the volume has changed since it was
    /// mounted. Fails only when out of memory.
    pub fn of(
        alloc: Global,
        volume: &Volume,
        changed: bool,
        threads: &ThreadIds,
        records: Vec<CatalogRecord>,
    ) -> Result<Maps, AllocError>
        requires records { records.items ≡ catalog_in (block_at volume.now.current) }
        requires changed { TellsChanges volume.now changed }
        requires right { AreRight volume.now.current }
        requires threads { AreThreadsOf (image_catalog volume.now.current) threads.now }
        ensures { IfOk result (AreAllRows volume.now) }
    {
        let maps = Maps::gathered(alloc, volume, changed, threads, records)?;
        maps.packed(alloc)
    }
}

/// The table of these rows over a base, in a volume with this master directory block.
pub fn table_over(base: Base, mdb: Mdb, maps: Maps) -> Table
    ensures { result ≡ table_over base mdb maps }
{
    let Maps { by_id, by_name } = maps;
    Table {
        base,
        mdb,
        by_id,
        by_name,
        next_id: mdb.next_id,
        changed: mdb.modified,
        hardware_locked: is_hardware_locked(mdb.attributes),
        software_locked: is_software_locked(mdb.attributes),
    }
}
