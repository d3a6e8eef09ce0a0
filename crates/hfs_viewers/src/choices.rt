//! What a change chooses first: an item, an ID, or the code that refuses it.

ghost use Rattle.std.specs.Prelude.{◌≡◌, length, IsTrue, IfOk, OnOk};
ghost use Rattle.hfs_fields.specs.Names.{is_item_name};
ghost use Rattle.hfs_model.specs.Choices.{is_locked, lock_code, child_to_change, file_to_change, to_set_f_info, to_set_cat_info, to_delete, is_busy};
ghost use Rattle.hfs_model.specs.FileIds.{file_of_id, to_create_file_id, to_delete_file_id};
ghost use Rattle.hfs_model.specs.ForkCalls.{to_set_eof, to_write_fork};
ghost use Rattle.hfs_model.specs.Forks.{fork_bytes};
ghost use Rattle.hfs_viewers.specs.ForkParts.{MayWrite};
ghost use Rattle.hfs_viewers.specs.RowEdits.{Chooses, chosen_of, IsFound};
ghost use Rattle.hfs_viewers.specs.Tables.{kind_of, volume_of, IsTable, table_entries, row_entry, IsKindIn};

use crate::row::{Row, RowKind};
use crate::table::{Found, Table};
use hfs_fields::Name;
use hfs_model::{
    BAD_NAME, BUSY, END_OF_FILE, FILE_ID_EXISTS, FILE_ID_NOT_FOUND, FILE_LOCKED, Fork,
    HARDWARE_LOCKED, NOT_A_FILE, NOT_A_FOLDER, NOT_FOUND, PARAMETER, SOFTWARE_LOCKED,
};

impl Table {
    pub(crate) fn is_locked(&self) -> bool
        ensures { result ≡ is_locked (volume_of self.now) }
    {
        self.hardware_locked || self.software_locked
    }

    /// The code of a locked volume.
    pub(crate) fn lock_code(&self) -> i16
        ensures { result ≡ lock_code (volume_of self.now) }
    {
        if self.hardware_locked {
            HARDWARE_LOCKED
        } else {
            SOFTWARE_LOCKED
        }
    }

    /// The folder's item of that name, in a volume that may be changed.
    #[tactic(auto, unfolding(hfs_model::specs::Choices::child_to_change))]
    pub(crate) fn child_to_change(&self, dir: u32, name: &[u8]) -> Result<Found<'_>, i16>
        requires { IsTable self.now }
        ensures choice { Chooses self.now (λ v. child_to_change v dir name.now) result }
        ensures found { IfOk result (IsFound self.now) }
        ensures sound { IfOk result (λ f. IsKindIn self.now f.id f.row.now.kind) }
        ensures named { OnOk result (IsTrue (is_item_name name.now)) }
    {
        if self.is_locked() {
            return Err(self.lock_code());
        }
        let Some(name) = Name::new(name) else {
            return Err(BAD_NAME);
        };
        if !self.is_folder(dir) {
            return Err(NOT_A_FOLDER);
        }
        match self.child(dir, &name) {
            None => Err(NOT_FOUND),
            Some(found) => Ok(found),
        }
    }

    /// The same for a file.
    #[tactic(auto, unfolding(hfs_model::specs::Choices::file_to_change))]
    pub(crate) fn file_to_change(&self, dir: u32, name: &[u8]) -> Result<Found<'_>, i16>
        requires { IsTable self.now }
        ensures choice { Chooses self.now (λ v. file_to_change v dir name.now) result }
        ensures found { IfOk result (IsFound self.now) }
        ensures sound { IfOk result (λ f. IsKindIn self.now f.id f.row.now.kind) }
    {
        let found = match self.child_to_change(dir, name) {
            Ok(found) => found,
            Err(code) => return Err(code),
        };
        match &found.row.kind {
            RowKind::Folder { .. } => Err(NOT_FOUND),
            RowKind::File(_) => Ok(found),
        }
    }

    #[tactic(auto, unfolding(hfs_model::specs::Choices::to_set_f_info))]
    pub(crate) fn to_set_f_info(&self, dir: u32, name: &[u8]) -> Result<Found<'_>, i16>
        requires { IsTable self.now }
        ensures choice { Chooses self.now (λ v. to_set_f_info v dir name.now) result }
        ensures found { IfOk result (IsFound self.now) }
        ensures sound { IfOk result (λ f. IsKindIn self.now f.id f.row.now.kind) }
    {
        let found = match self.file_to_change(dir, name) {
            Ok(found) => found,
            Err(code) => return Err(code),
        };
        match &found.row.kind {
            RowKind::File(file) if file.locked => Err(FILE_LOCKED),
            _ => Ok(found),
        }
    }

    /// The file whose fork gets another length.
    #[tactic(auto, unfolding(hfs_model::specs::ForkCalls::to_set_eof, hfs_model::specs::Choices::to_set_f_info))]
    pub(crate) fn to_set_eof(&self, dir: u32, name: &[u8], length: u32) -> Result<Found<'_>, i16>
        requires { IsTable self.now }
        ensures choice { Chooses self.now (λ v. to_set_eof v dir name.now length) result }
        ensures found { IfOk result (IsFound self.now) }
    {
        if length > 2_147_483_647 {
            return Err(PARAMETER);
        }
        self.to_set_f_info(dir, name)
    }

    /// How many bytes a fork of a row has; 0 for a folder.
    fn fork_len(&self, id: u32, row: &Row, fork: Fork) -> u32
        requires table { IsTable self.now }
        requires row { IsKindIn self.now id row.now.kind }
        ensures { result ≡ length (fork_bytes fork (kind_of self.now.base self.now.mdb row.now.kind)) }
    {
        match &row.kind {
            RowKind::Folder { .. } => 0,
            RowKind::File(file) => match fork {
                Fork::DataFork => file.data.pieces.len(),
                Fork::ResFork => file.resource.pieces.len(),
            },
        }
    }

    /// The file into whose fork these bytes are written from an offset on.
    #[tactic(auto, unfolding(hfs_model::specs::ForkCalls::to_write_fork, hfs_model::specs::Choices::to_set_f_info))]
    pub(crate) fn to_write_fork(
        &self,
        dir: u32,
        name: &[u8],
        fork: Fork,
        offset: u32,
        bytes: &[u8],
    ) -> Result<Found<'_>, i16>
        requires { IsTable self.now }
        ensures choice { Chooses self.now (λ v. to_write_fork v dir name.now fork offset bytes.now) result }
        ensures found { IfOk result (IsFound self.now) }
        ensures within { IfOk result (MayWrite self.now fork offset bytes.now) }
    {
        if bytes.len() > 65_536 || u64::from(offset) + bytes.len() as u64 > 2_147_483_647 {
            return Err(PARAMETER);
        }
        let found = match self.to_set_f_info(dir, name) {
            Ok(found) => found,
            Err(code) => return Err(code),
        };
        if self.fork_len(found.id, found.row, fork) < offset {
            return Err(END_OF_FILE);
        }
        Ok(found)
    }

    #[tactic(auto, unfolding(hfs_model::specs::Choices::to_set_cat_info))]
    pub(crate) fn to_set_cat_info(&self, dir: u32, name: &[u8]) -> Result<Found<'_>, i16>
        requires { IsTable self.now }
        ensures choice { Chooses self.now (λ v. to_set_cat_info v dir name.now) result }
        ensures found { IfOk result (IsFound self.now) }
    {
        let found = match self.child_to_change(dir, name) {
            Ok(found) => found,
            Err(code) => return Err(code),
        };
        match &found.row.kind {
            RowKind::File(file) if file.locked => Err(FILE_LOCKED),
            _ => Ok(found),
        }
    }

    /// The file with that ID, which has a thread.
    #[tactic(auto, unfolding(hfs_model::specs::FileIds::file_of_id))]
    pub(crate) fn file_of_id(&self, id: u32) -> Result<Found<'_>, i16>
        requires { IsTable self.now }
        ensures choice { file_of_id (table_entries self.now) id ≡ chosen_of self.now result }
        ensures found { IfOk result (IsFound self.now) }
    {
        let Some(row) = self.row(id) else {
            return Err(FILE_ID_NOT_FOUND);
        };
        match &row.kind {
            RowKind::Folder { .. } => Err(NOT_A_FILE),
            RowKind::File(file) if file.has_thread => Ok(Found { id, row }),
            RowKind::File(_) => Err(FILE_ID_NOT_FOUND),
        }
    }

    /// The folder's file of that name, which has no thread.
    #[tactic(auto, unfolding(hfs_model::specs::FileIds::to_create_file_id))]
    pub(crate) fn to_create_file_id(&self, dir: u32, name: &[u8]) -> Result<Found<'_>, i16>
        requires { IsTable self.now }
        ensures choice { Chooses self.now (λ v. to_create_file_id v dir name.now) result }
        ensures found { IfOk result (IsFound self.now) }
    {
        let found = match self.child_to_change(dir, name) {
            Ok(found) => found,
            Err(code) => return Err(code),
        };
        match &found.row.kind {
            RowKind::Folder { .. } => Err(NOT_A_FILE),
            RowKind::File(file) if file.has_thread => Err(FILE_ID_EXISTS),
            RowKind::File(_) => Ok(found),
        }
    }

    /// The file with that ID, which has a thread, in a volume that may be changed.
    #[tactic(auto, unfolding(hfs_model::specs::FileIds::to_delete_file_id))]
    pub(crate) fn to_delete_file_id(&self, id: u32) -> Result<Found<'_>, i16>
        requires { IsTable self.now }
        ensures choice { Chooses self.now (λ v. to_delete_file_id v id) result }
        ensures found { IfOk result (IsFound self.now) }
    {
        if self.is_locked() {
            return Err(self.lock_code());
        }
        self.file_of_id(id)
    }

    /// Whether it is a folder with children.
    #[tactic(auto, unfolding(hfs_model::specs::Choices::is_busy))]
    fn is_busy(&self, id: u32, row: &Row) -> bool
        requires { IsKindIn self.now id row.now.kind }
        ensures { result ≡ is_busy (table_entries self.now) (row_entry self.now id row.now) }
    {
        match &row.kind {
            RowKind::Folder { children, .. } => *children > 0,
            RowKind::File(_) => false,
        }
    }

    #[tactic(auto, unfolding(hfs_model::specs::Choices::to_delete))]
    pub(crate) fn to_delete(&self, dir: u32, name: &[u8]) -> Result<Found<'_>, i16>
        requires { IsTable self.now }
        ensures choice { Chooses self.now (λ v. to_delete v dir name.now) result }
        ensures found { IfOk result (IsFound self.now) }
    {
        let found = match self.child_to_change(dir, name) {
            Ok(found) => found,
            Err(code) => return Err(code),
        };
        if self.is_busy(found.id, found.row) {
            return Err(BUSY);
        }
        match &found.row.kind {
            RowKind::File(file) if file.locked => Err(FILE_LOCKED),
            _ => Ok(found),
        }
    }
}
