//! What SetEof and WriteFork make of a volume's blocks.

ghost use Rattle.std.specs.Prelude.{◌≡◌};
ghost use Rattle.hfs_model.specs.declared.call.Call.TheVariants as call;
ghost use Rattle.hfs_model.specs.ForkCalls.{file_to_write};
ghost use Rattle.hfs_check.specs.VolumeOf.{volume_in};
ghost use Rattle.hfs_call_patches.specs.Calls.{AreFoundIn};
ghost use Rattle.hfs_call_patches.specs.Found.{FindsFile};
ghost use Rattle.hfs_call_edits.specs.Edits.{HasForkRoom, HasForkWritten, IsEditOf};
ghost use Rattle.hfs_call_edits.specs.ForkWants as wants;
ghost use Rattle.hfs_call_patches.specs.CallChanges.{Makes};

use crate::editing::{Editing, Refusal};
use hfs_blocks::Blocks;
use hfs_call_patches::{Change, ForkRefusal, ForkWrite, FoundFile};
use hfs_model::Fork;
use std::alloc::{AllocError, Global};

/// A call's change, or what refuses it.
fn edit_of(edit: Result<Change, ForkRefusal>) -> Result<Change, Refusal>
    ensures { result ≡ wants.edit_of edit }
{
    match edit {
        Ok(change) => Ok(change),
        Err(ForkRefusal::Code(code)) => Err(Refusal::Code(code)),
        Err(ForkRefusal::Want(want)) => Err(Refusal::Want(want)),
    }
}

impl<B: Blocks> Editing<'_, B> {
    /// The folder's file of that name, which isn't locked, with the place of its record, or the code that refuses to write it.
    fn found_file(&self, dir: u32, name: &[u8]) -> Result<FoundFile, i16>
        ensures found { FindsFile (B.blocks self.now)
            (file_to_write (volume_in (B.blocks self.now)) dir name.now) result }
        ensures there { AreFoundIn (B.blocks self.now) result }
    {
        self.file_to_set(dir, name)
    }

    /// What SetEof makes of the volume. Fails only when out of memory.
    pub(crate) fn set_eof(
        &self,
        alloc: Global,
        dir: u32,
        name: &[u8],
        fork: Fork,
        length: u32,
        now: u32,
    ) -> Result<Result<Change, Refusal>, AllocError>
        ensures made { Makes result (IsEditOf (call.SetEof dir name.now fork length now))
            B.total B.blocks self.now }
        ensures room { Makes result (HasForkRoom (call.SetEof dir name.now fork length now))
            B.total B.blocks self.now }
        ensures forks { Makes result (HasForkWritten (call.SetEof dir name.now fork length now))
            B.total B.blocks self.now }
    {
        let found = self.found_file(dir, name);
        let edit = hfs_call_patches::set_eof(alloc, &self.volume, found, fork, length, now)?;
        Ok(edit_of(edit))
    }

    /// What WriteFork makes of the volume. Fails only when out of memory.
    pub(crate) fn write_fork(
        &self,
        alloc: Global,
        dir: u32,
        name: &[u8],
        write: &ForkWrite<'_>,
        now: u32,
    ) -> Result<Result<Change, Refusal>, AllocError>
        ensures made { Makes result (IsEditOf (call.WriteFork dir name.now
            write.now.fork write.now.offset write.now.bytes.now now)) B.total B.blocks self.now }
        ensures room { Makes result (HasForkRoom (call.WriteFork dir name.now
            write.now.fork write.now.offset write.now.bytes.now now)) B.total B.blocks self.now }
        ensures forks { Makes result (HasForkWritten (call.WriteFork dir name.now
            write.now.fork write.now.offset write.now.bytes.now now)) B.total B.blocks self.now }
    {
        let found = self.found_file(dir, name);
        let edit = hfs_call_patches::write_fork(alloc, &self.volume, found, write, now)?;
        Ok(edit_of(edit))
    }
}
