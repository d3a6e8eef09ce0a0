//! The calls that write forks.
ghost use Rattle.std.specs.Prelude.{◌≡◌, ◌+◌, ◌≤◌, length, IsTrue, OnOk, OnErr};
ghost use Rattle.hfs_model.specs.ForkCalls.{file_to_write, to_set_eof, to_write_fork, set_eof, write_fork};
ghost use Rattle.hfs_model.specs.Lawful.{IsLawful};
ghost use Rattle.hfs_model.specs.Step.{step, is_writing};
ghost use Rattle.hfs_store.specs.PlainVolume.{GivesOutcome, IsPlaceIn};

use super::PlainVolume;
use crate::bytes::{fork_bytes, resized, written};
use crate::changes::set_fork;
use crate::entries::is_locked_file;
use crate::reading::{refusal, success};
use hfs_model::{Call, END_OF_FILE, FILE_LOCKED, Fork, PARAMETER, Reply, Value};
use std::alloc::AllocError;

impl PlainVolume {
    /// The place of the folder's file of that name, if it isn't locked, in a volume that may be changed.
    fn file_to_write(&self, dir: u32, name: &[u8]) -> Result<usize, i16>
        ensures { IsPlaceIn self.now (file_to_write self.now dir name.now) result }
    {
        let at = self.file_to_change(dir, name)?;
        if is_locked_file(&self.entries()[at].1.kind) {
            return Err(FILE_LOCKED);
        }
        Ok(at)
    }

    #[tactic(auto, unfolding(hfs_model::specs::ForkCalls::to_set_eof))]
    fn to_set_eof(&self, dir: u32, name: &[u8], length: u32) -> Result<usize, i16>
        ensures place { IsPlaceIn self.now (to_set_eof self.now dir name.now length) result }
        ensures short { OnOk result (length ≤ 2147483647) }
    {
        if length > 2_147_483_647 {
            return Err(PARAMETER);
        }
        self.file_to_write(dir, name)
    }

    #[tactic(auto, unfolding(hfs_model::specs::ForkCalls::to_write_fork))]
    fn to_write_fork(
        &self,
        dir: u32,
        name: &[u8],
        fork: Fork,
        offset: u32,
        bytes: &[u8],
    ) -> Result<usize, i16>
        ensures place { IsPlaceIn self.now
            (to_write_fork self.now dir name.now fork offset bytes.now) result }
        ensures short { OnOk result (offset + length bytes.now ≤ 2147483647) }
    {
        if bytes.len() > 65_536 || u64::from(offset) + bytes.len() as u64 > 2_147_483_647 {
            return Err(PARAMETER);
        }
        let at = self.file_to_write(dir, name)?;
        if fork_bytes(fork, &self.entries()[at].1.kind).len() < offset as usize {
            return Err(END_OF_FILE);
        }
        Ok(at)
    }

    /// Makes a file's fork `length` bytes long, by cutting it or adding zeros at its end, and sets its physical length to that of
    /// the allocation blocks that it then takes. `Err` only when out of memory, and then the volume is as it was. A lawful volume
    /// stays lawful.
    #[tactic(auto, unfolding(hfs_model::specs::ForkCalls::set_eof))]
    pub fn set_eof(
        &mut self,
        dir: u32,
        name: &[u8],
        fork: Fork,
        length: u32,
        now: u32,
    ) -> Result<Reply, AllocError>
        ensures ok { GivesOutcome (set_eof self.old.block_size self.old dir name.now fork length now)
            self.new result }
        ensures err { OnErr result (self.new ≡ self.old) }
        ensures lawful { IsLawful self.old → IsLawful self.new }
    {
        match self.to_set_eof(dir, name, length) {
            Ok(at) => {
                let old = fork_bytes(fork, &self.entries()[at].1.kind);
                let bytes = resized(self.alloc, old, length as usize)?;
                set_fork(&mut self.items, at, self.block_size, fork, bytes, now);
                self.changed = now;
                Ok(success(Value::Nothing))
            }
            Err(code) => Ok(refusal(code)),
        }
    }

    /// Writes bytes into a file's fork, starting at an offset; the fork grows if they go past its end. `Err` only when out of
    /// memory, and then the volume is as it was. A lawful volume stays lawful.
    #[tactic(auto, unfolding(hfs_model::specs::ForkCalls::write_fork))]
    pub fn write_fork(
        &mut self,
        dir: u32,
        name: &[u8],
        fork: Fork,
        offset: u32,
        bytes: &[u8],
        now: u32,
    ) -> Result<Reply, AllocError>
        ensures ok { GivesOutcome (write_fork self.old.block_size self.old dir name.now fork offset bytes.now now)
            self.new result }
        ensures err { OnErr result (self.new ≡ self.old) }
        ensures lawful { IsLawful self.old → IsLawful self.new }
    {
        match self.to_write_fork(dir, name, fork, offset, bytes) {
            Ok(at) => {
                let old = fork_bytes(fork, &self.entries()[at].1.kind);
                let made = written(self.alloc, old, offset as usize, bytes)?;
                set_fork(&mut self.items, at, self.block_size, fork, made, now);
                self.changed = now;
                Ok(success(Value::Nothing))
            }
            Err(code) => Ok(refusal(code)),
        }
    }
    /// Answers a call that writes a fork. A call that is refused, or for which memory ran out, changes nothing.
    #[tactic(auto)]
    pub(super) fn write(&mut self, call: &Call) -> Result<Reply, AllocError>
        requires { IsTrue (is_writing call.now) }
        ensures ok { GivesOutcome (step self.old call.now) self.new result }
        ensures err { OnErr result (self.new ≡ self.old) }
    {
        match call {
            Call::SetEof {
                dir,
                name,
                fork,
                length,
                now,
            } => self.set_eof(*dir, name.as_slice(), *fork, *length, *now),
            Call::WriteFork {
                dir,
                name,
                fork,
                offset,
                bytes,
                now,
            } => self.write_fork(
                *dir,
                name.as_slice(),
                *fork,
                *offset,
                bytes.as_slice(),
                *now,
            ),
            Call::GetDirInfo { .. }
            | Call::GetCatInfo { .. }
            | Call::GetIndexed { .. }
            | Call::List { .. }
            | Call::ReadFork { .. }
            | Call::Create { .. }
            | Call::DirCreate { .. }
            | Call::Delete { .. }
            | Call::Rename { .. }
            | Call::CatMove { .. }
            | Call::SetFInfo { .. }
            | Call::SetCatInfo { .. }
            | Call::SetFLock { .. }
            | Call::RstFLock { .. }
            | Call::CreateFileId { .. }
            | Call::DeleteFileId { .. }
            | Call::ResolveFileId { .. } => unreachable!(),
        }
    }
}
