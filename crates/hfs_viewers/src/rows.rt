//! The rows that viewers read.
ghost use Rattle.std.specs.Prelude.{◌≡◌, IsTrue, IfOk, OnOk, OnErr};
ghost use Rattle.hfs_check.specs.VolumeOf.{volume_of};
ghost use Rattle.hfs_model.specs.Lawful.{IsLawful};
ghost use Rattle.hfs_model.specs.Step.{step, is_reading};
ghost use Rattle.hfs_viewers.specs.Tables.{IsTable};
ghost use Rattle.hfs_viewers.specs.Tables as tables;

use crate::Table;
use crate::opening::{Maps, table_over};
use crate::threads::ThreadIds;
use hfs_model::{Call, Reply, step_keeps_lawful};
use hfs_volume::Volume;
use std::alloc::{AllocError, Global};
use std::marker::Model;

/// The items of a volume by their IDs and by their names, over the volume's base. Contracts see the volume.
#[derive(Drop)]
pub struct Rows {
    alloc: Global,
    table: Table,
}

impl Model for Rows {
    ghost use Rattle.hfs_model.specs.Volume.{Volume, volume_code};

    ghost Value = { Volume };

    ghost coded = { volume_code };

    ghost use Rattle.hfs_model.specs.Lawful.{IsLawful};
    ghost use Rattle.hfs_viewers.specs.Tables.{IsTable};
    ghost use Rattle.hfs_viewers.specs.Tables as tables;

    ghost view = { λ r. tables.volume_of r.table };

    ghost invariant = { λ r. IsTable r.table × IsLawful (tables.volume_of r.table) };
}

impl Clone for Rows {
    ghost is_clone = { λ x y. y ≡ x };

    fn clone(&self) -> Result<Rows, AllocError> {
        Ok(Rows {
            alloc: self.alloc,
            table: self.table.copied()?,
        })
    }
}

impl Rows {
    /// The rows of a volume as it is now, over the bytes as they were mounted. A fork with a block that has changed since is read
    /// whole, and takes memory for its bytes. Fails only when out of memory.
    pub fn of(alloc: Global, volume: &Volume) -> Result<Rows, AllocError>
        ensures { IfOk result (λ rows. rows ≡ volume_of volume.now.current) }
    {
        let base = volume.base()?;
        let records = volume.records(alloc)?;
        let threads = ThreadIds::of(alloc, &records)?;
        let changed = volume.changed() > 0;
        let maps = Maps::of(alloc, volume, changed, &threads, records)?;
        let table = table_over(base, volume.directory(), maps);
        Ok(Rows { alloc, table })
    }

    /// The table of the rows, with what the volume has besides its items.
    pub fn table(&self) -> &Table
        ensures volume { tables.volume_of result.now ≡ self.now }
        ensures table { IsTable result.now }
        ensures lawful { IsLawful self.now }
    {
        &self.table
    }

    /// Takes in a change. A change that is refused leaves the rows as they were, and so does a call that reads. Fails only when
    /// out of memory, and then the rows are as they were.
    pub fn absorb(&mut self, call: &Call) -> Result<(), AllocError>
        ensures ok { OnOk result (self.new ≡ (step self.old call.now).0) }
        ensures err { OnErr result (self.new ≡ self.old) }
    {
        step_keeps_lawful();
        self.table.absorb(self.alloc, call)
    }

    /// Answers a call that reads. Fails only when out of memory.
    pub fn read(&self, alloc: Global, call: &Call) -> Result<Reply, AllocError>
        requires { IsTrue (is_reading call.now) }
        ensures { IfOk result (λ reply. reply ≡ (step self.now call.now).1) }
    {
        // Once a proof has seen the table, it knows what the rows keep to.
        let _next = self.table.next_id();
        match call {
            Call::GetDirInfo { dir } => Ok(self.table.get_dir_info(*dir)),
            Call::GetCatInfo { dir, name } => Ok(self.table.get_cat_info(*dir, name.as_slice())),
            Call::GetIndexed { dir, index } => Ok(self.table.get_indexed(*dir, *index)),
            Call::List { dir } => self.table.list(alloc, *dir),
            Call::ReadFork {
                dir,
                name,
                fork,
                offset,
                count,
            } => self
                .table
                .read_fork(alloc, *dir, name.as_slice(), *fork, *offset, *count),
            Call::ResolveFileId { id } => Ok(self.table.resolve_file_id(*id)),
            Call::Create { .. }
            | Call::DirCreate { .. }
            | Call::Delete { .. }
            | Call::Rename { .. }
            | Call::CatMove { .. }
            | Call::SetFInfo { .. }
            | Call::SetCatInfo { .. }
            | Call::SetFLock { .. }
            | Call::RstFLock { .. }
            | Call::CreateFileId { .. }
            | Call::DeleteFileId { .. }
            | Call::SetEof { .. }
            | Call::WriteFork { .. } => unreachable!(),
        }
    }
}
