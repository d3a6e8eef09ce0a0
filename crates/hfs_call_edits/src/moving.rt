//! CatMove.

ghost use Rattle.std.specs.Prelude.{◌≡◌, None};
ghost use Rattle.hfs_model.specs.declared.call.Call.TheVariants as call;
ghost use Rattle.hfs_model.specs.declared.reply.Value.TheVariants as value;
ghost use Rattle.hfs_call_edits.specs.Edits.{IsEditOf};
ghost use Rattle.hfs_call_edits.specs.ChoosingMoving.{ChoosesMoving};
ghost use Rattle.hfs_call_patches.specs.Moving.{counts_moved};
ghost use Rattle.hfs_call_patches.specs.CallChanges.{Makes};

use crate::choosing_moving;
use crate::editing::{Editing, Refusal};
use hfs_blocks::{Blocks, Patch};
use hfs_call_patches::{Change, Moving, counts_moved, patch_move};
use hfs_fields::Mdb;
use hfs_model::Value;
use std::alloc::{AllocError, Global};

/// A change of blocks and counts, which answers nothing.
fn change_of(patch: Patch, counts: Mdb) -> Change
    ensures { result ≡ record { patch = patch; counts = counts; written = None; value = value.Nothing } }
{
    Change {
        patch,
        counts,
        written: None,
        value: Value::Nothing,
    }
}

impl<B: Blocks> Editing<'_, B> {
    /// The folder's item of that name, to be moved to another folder, or the code that refuses it.
    fn item_to_move(&self, dir: u32, name: &[u8], new_dir: u32) -> Result<Moving, i16>
        ensures { ChoosesMoving (B.blocks self.now) dir name.now new_dir result }
    {
        choosing_moving::item_to_move(&self.nodes(), self.volume.mdb, dir, name, new_dir)
    }

    /// What CatMove makes of the volume. Fails only when out of memory.
    pub(crate) fn cat_move(
        &self,
        alloc: Global,
        dir: u32,
        name: &[u8],
        new_dir: u32,
        now: u32,
    ) -> Result<Result<Change, Refusal>, AllocError>
        ensures { Makes result (IsEditOf (call.CatMove dir name.now new_dir now))
            B.total B.blocks self.now }
    {
        let moving = match self.item_to_move(dir, name, new_dir) {
            Ok(moving) => moving,
            Err(code) => return Ok(Err(Refusal::Code(code))),
        };
        if let Some(refusal) = self.lacks_one() {
            return Ok(Err(refusal));
        }
        let patch = patch_move(alloc, &self.volume, &moving, now)?;
        let counts = counts_moved(self.volume.mdb, &moving, now);
        Ok(Ok(change_of(patch, counts)))
    }
}
