//! Delete.

ghost use Rattle.std.specs.Prelude.{IfOk};
ghost use Rattle.hfs_model.specs.declared.call.Call.TheVariants as call;
ghost use Rattle.hfs_model.specs.Choices.{to_delete};
ghost use Rattle.hfs_record_edits.specs.RemovalLaws.{without_folder};
ghost use Rattle.hfs_check.specs.Parts.{catalog_in};
ghost use Rattle.hfs_call_patches.specs.Deleting.{IsParent, IsFolderToDelete, IsFolderDeletion, IsFileToDelete, IsFileDeletion};
ghost use Rattle.hfs_call_edits.specs.Edits.{IsEditOf, ChoosesItemBy, HasFolder, FindsParent};
ghost use Rattle.hfs_call_patches.specs.CallChanges.{Makes};

use crate::choosing_delete;
use crate::editing::{Editing, Refusal};
use hfs_blocks::Blocks;
use hfs_call_patches::{
    Change, ParentFolder, patch_delete_file, patch_delete_folder, without_folder,
};
use hfs_catalog::{CatalogItem, ItemRecord};
use hfs_fields::{CatKey, DirRecord, FileRecord};
use hfs_items::folder;
use hfs_model::Value;
use std::alloc::{AllocError, Global};

impl<B: Blocks> Editing<'_, B> {
    /// The folder's item of that name, or the code that refuses to delete it.
    fn item_to_delete(&self, dir: u32, name: &[u8]) -> Result<CatalogItem, i16>
        ensures choice { ChoosesItemBy (λ v. to_delete v dir name.now) (B.blocks self.now) result }
        ensures folder { IfOk result (λ item. HasFolder (B.blocks self.now) dir) }
    {
        choosing_delete::item_to_delete(&self.nodes(), self.volume.mdb, dir, name)
    }

    /// The key and the record of the folder with that ID.
    fn parent(&self, dir: u32) -> Option<(CatKey, DirRecord)>
        ensures { FindsParent (B.blocks self.now) dir result }
    {
        match folder(&self.nodes(), dir) {
            Some(item) => {
                let key = item.key;
                match item.body {
                    ItemRecord::Folder(folder) => Some((key, folder)),
                    ItemRecord::File(_) => None,
                }
            }
            None => None,
        }
    }

    /// The deletion of a folder, with this key and this record, from its parent. Fails only when out of memory.
    fn delete_folder(
        &self,
        alloc: Global,
        key: &CatKey,
        folder: &DirRecord,
        parent: &ParentFolder,
        now: u32,
    ) -> Result<Change, AllocError>
        requires chosen { IsFolderToDelete (B.blocks self.now) parent.now.id key.now folder.now }
        requires parent { IsParent (catalog_in (B.blocks self.now)) parent.now.id parent.now.key
            parent.now.valence }
        ensures { Makes result (IsFolderDeletion parent.now.id key.now folder.now now)
            B.total B.blocks self.now }
    {
        let patch = patch_delete_folder(alloc, &self.volume, key, folder, parent, now)?;
        Ok(Change {
            patch,
            counts: without_folder(self.volume.mdb, parent.id, now),
            written: None,
            value: Value::Nothing,
        })
    }

    /// The deletion of a file, with this key and this record, from its parent. Fails only when out of memory.
    fn delete_file(
        &self,
        alloc: Global,
        key: &CatKey,
        file: &FileRecord,
        parent: &ParentFolder,
        now: u32,
    ) -> Result<Change, AllocError>
        requires chosen { IsFileToDelete (B.blocks self.now) parent.now.id key.now file.now }
        requires parent { IsParent (catalog_in (B.blocks self.now)) parent.now.id parent.now.key
            parent.now.valence }
        ensures { Makes result (IsFileDeletion parent.now.id key.now file.now now)
            B.total B.blocks self.now }
    {
        let made = patch_delete_file(alloc, &self.volume, key, file, parent, now)?;
        Ok(Change {
            patch: made.0,
            counts: made.1,
            written: None,
            value: Value::Nothing,
        })
    }

    /// What Delete makes of the volume. Fails only when out of memory.
    pub(crate) fn delete(
        &self,
        alloc: Global,
        dir: u32,
        name: &[u8],
        now: u32,
    ) -> Result<Result<Change, Refusal>, AllocError>
        ensures { Makes result (IsEditOf (call.Delete dir name.now now)) B.total B.blocks self.now }
    {
        let item = match self.item_to_delete(dir, name) {
            Ok(item) => item,
            Err(code) => return Ok(Err(Refusal::Code(code))),
        };
        let Some((folder_key, folder)) = self.parent(dir) else {
            unreachable!()
        };
        let parent = ParentFolder {
            id: dir,
            key: folder_key,
            valence: folder.valence,
        };
        let key = item.key;
        match item.body {
            ItemRecord::Folder(body) => {
                let change = self.delete_folder(alloc, &key, &body, &parent, now)?;
                Ok(Ok(change))
            }
            ItemRecord::File(file) => {
                let change = self.delete_file(alloc, &key, &file, &parent, now)?;
                Ok(Ok(change))
            }
        }
    }
}
