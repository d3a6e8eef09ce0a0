//! Rename.

ghost use Rattle.std.specs.Prelude.{◌≡◌, IfNone};
ghost use Rattle.hfs_fields.specs.Order.{same_name};
ghost use Rattle.hfs_model.specs.declared.call.Call.TheVariants as call;
ghost use Rattle.hfs_call_edits.specs.Edits.{IsEditOf};
ghost use Rattle.hfs_call_edits.specs.ChoosingRenaming.{ChoosesRenaming, lacking_for_name, HasRoomToRename};
ghost use Rattle.hfs_call_patches.specs.CallChanges.{Makes};

use crate::choosing_renaming;
use crate::editing::{Editing, Refusal};
use hfs_blocks::Blocks;
use hfs_call_patches::{Change, Rekeying, patch_rename};
use hfs_fields::same_name;
use std::alloc::{AllocError, Global};

impl<B: Blocks> Editing<'_, B> {
    /// The folder's item of that name, to be renamed, or the code that refuses it.
    fn item_to_rename(&self, dir: u32, name: &[u8], new_name: &[u8]) -> Result<Rekeying, i16>
        ensures { ChoosesRenaming (B.blocks self.now) dir name.now new_name.now result }
    {
        choosing_renaming::item_to_rename(&self.nodes(), self.volume.mdb, dir, name, new_name)
    }

    /// The refusal of a new name for lack of nodes. Changing only the case of ASCII letters needs none.
    fn lacks_for_name(&self, name: &[u8], new_name: &[u8]) -> Option<Refusal>
        ensures refusal { result ≡ lacking_for_name name.now new_name.now (B.blocks self.now) }
        ensures room { IfNone result (HasRoomToRename name.now new_name.now (B.blocks self.now)) }
    {
        if same_name(name, new_name) {
            return None;
        }
        self.lacks_one()
    }

    /// What Rename makes of the volume. Fails only when out of memory.
    pub(crate) fn rename(
        &self,
        alloc: Global,
        dir: u32,
        name: &[u8],
        new_name: &[u8],
        now: u32,
    ) -> Result<Result<Change, Refusal>, AllocError>
        ensures { Makes result (IsEditOf (call.Rename dir name.now new_name.now now))
            B.total B.blocks self.now }
    {
        let item = match self.item_to_rename(dir, name, new_name) {
            Ok(item) => item,
            Err(code) => return Ok(Err(Refusal::Code(code))),
        };
        if let Some(refusal) = self.lacks_for_name(name, new_name) {
            return Ok(Err(refusal));
        }
        let patch = patch_rename(alloc, &self.volume, &item, now)?;
        Ok(Ok(self.change(patch, now)))
    }
}
