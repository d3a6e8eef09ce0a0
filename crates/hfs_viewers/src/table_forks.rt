//! Reading the forks of a table's files.

ghost use Rattle.std.specs.Prelude.{◌≡◌, ◌<◌, IfOk};
ghost use Rattle.hfs_model.specs.Reading.{read_fork, part_of};
ghost use Rattle.hfs_viewers.specs.Pieces.{fork_length};
ghost use Rattle.hfs_space.specs.Forks.{read_from};
ghost use Rattle.hfs_space.specs.Results.{Gives};
ghost use Rattle.hfs_viewers.specs.ForkParts.{IsPushed};
ghost use Rattle.hfs_volume.specs.ForkParts.{part_reply};
ghost use Rattle.hfs_viewers.specs.Tables.{bytes_in, IsForkIn, IsTable, table_entries};

use crate::Stretch;
use crate::row::{RowFork, RowKind};
use crate::table::{Table, refusal};
use hfs_fields::Name;
use hfs_model::{
    BAD_NAME, END_OF_FILE, Fork, NOT_A_FOLDER, NOT_FOUND, OwnedBytes, PARAMETER, Reply, Value,
};
use hfs_volume::Base;
use std::alloc::{AllocError, Global};

/// The reply with these bytes, which were read from `offset` on in a fork of `size` bytes: -39 if `count` bytes would end past
/// the fork.
fn part_reply(bytes: Vec<u8>, size: u32, offset: u32, count: u32) -> Reply
    ensures { result ≡ part_reply bytes.items size offset count }
{
    let code = if u64::from(size) < u64::from(offset) + u64::from(count) {
        END_OF_FILE
    } else {
        0
    };
    Reply {
        code,
        value: Value::Bytes(OwnedBytes::new(bytes)),
    }
}

impl Table {
    /// Appends the bytes of a fork from a place on, as far as they come from one source, but at most `most`. Returns how many.
    fn push_stretch(
        &self,
        alloc: Global,
        fork: &RowFork,
        place: u32,
        most: u32,
        bytes: &mut Vec<u8>,
    ) -> Result<u32, AllocError>
        requires table { IsTable self.now }
        requires fork { IsForkIn self.now.mdb fork.now }
        requires within { place < fork_length fork.now.pieces }
        requires some { 0 < most }
        ensures { IfOk result (IsPushed (bytes_in self.now fork.now) place most bytes.old.items bytes.new.items) }
    {
        match fork.pieces.stretch(place, most) {
            Stretch::Base { from, count } => {
                let extents = fork.extents.as_slice();
                let read = self.base.read(alloc, extents, from, count)?;
                bytes.extend_from_slice(&read)?;
                Ok(count)
            }
            Stretch::Zeros { count } => {
                let len = bytes.len() + count as usize;
                bytes.resize(len, 0)?;
                Ok(count)
            }
            Stretch::Given { bytes: given } => {
                bytes.extend_from_slice(given)?;
                Ok(given.len() as u32)
            }
        }
    }

    /// Bytes of a file's fork from a place on: `count` of them, or as many as there are.
    pub fn fork_bytes(
        &self,
        alloc: Global,
        fork: &RowFork,
        offset: u32,
        count: u32,
    ) -> Result<Vec<u8>, AllocError>
        requires table { IsTable self.now }
        requires fork { IsForkIn self.now.mdb fork.now }
        ensures { IfOk result (λ bytes. bytes.items ≡ read_from (bytes_in self.now fork.now) offset count) }
    {
        let mut bytes = Vec::new(alloc);
        let mut place = offset;
        let mut left = count.min(fork.pieces.len().saturating_sub(offset));
        while left > 0 {
            let pushed = self.push_stretch(alloc, fork, place, left, &mut bytes)?;
            place += pushed;
            left -= pushed;
        }
        Ok(bytes)
    }

    /// A part of one of a file's forks.
    fn fork_part(
        &self,
        alloc: Global,
        fork: &RowFork,
        offset: u32,
        count: u32,
    ) -> Result<Reply, AllocError>
        requires table { IsTable self.now }
        requires fork { IsForkIn self.now.mdb fork.now }
        ensures { Gives (part_of (bytes_in self.now fork.now) offset count) result }
    {
        let bytes = self.fork_bytes(alloc, fork, offset, count)?;
        Ok(part_reply(bytes, fork.pieces.len(), offset, count))
    }

    /// At most `count` bytes of a file's fork, starting at an offset.
    #[tactic(auto, unfolding(hfs_model::specs::Reading::read_fork))]
    pub fn read_fork(
        &self,
        alloc: Global,
        dir: u32,
        name: &[u8],
        fork: Fork,
        offset: u32,
        count: u32,
    ) -> Result<Reply, AllocError>
        requires { IsTable self.now }
        ensures { Gives (read_fork (table_entries self.now) dir name.now fork offset count) result }
    {
        if count > 65536 {
            return Ok(refusal(PARAMETER));
        }
        let Some(name) = Name::new(name) else {
            return Ok(refusal(BAD_NAME));
        };
        if !self.is_folder(dir) {
            return Ok(refusal(NOT_A_FOLDER));
        }
        let Some(found) = self.child(dir, &name) else {
            return Ok(refusal(NOT_FOUND));
        };
        match &found.row.kind {
            RowKind::Folder { .. } => Ok(refusal(NOT_FOUND)),
            RowKind::File(file) => match fork {
                Fork::DataFork => self.fork_part(alloc, &file.data, offset, count),
                Fork::ResFork => self.fork_part(alloc, &file.resource, offset, count),
            },
        }
    }
}
