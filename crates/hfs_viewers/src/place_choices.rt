//! What the calls choose that put an item at a place: Rename, CatMove, Create and DirCreate.

ghost use Rattle.std.specs.Prelude.{◌≡◌, length, true, IsTrue, IfOk, OnOk};
ghost use Rattle.hfs_fields.specs.Names.{is_item_name};
ghost use Rattle.hfs_model.specs.Choices.{to_create, to_rename, to_move, is_full, is_held, is_taken, lies_in};
ghost use Rattle.hfs_model.specs.Children.{is_folder};
ghost use Rattle.hfs_viewers.specs.RowEdits.{Chooses, IsFound, MayAdd};
ghost use Rattle.hfs_viewers.specs.Tables.{volume_of, IsTable, table_entries, moves_into_itself};

use crate::row::{Row, RowKind};
use crate::table::{Found, Table};
use hfs_fields::Name;
use hfs_model::{BAD_MOVE, BAD_NAME, DUPLICATE, FOLDER_FULL, NOT_A_FOLDER};

impl Table {
    /// Whether another item of the folder has that name.
    fn is_taken(&self, dir: u32, name: &Name, id: u32) -> bool
        requires { IsTable self.now }
        ensures { result ≡ is_taken (table_entries self.now) dir name.now id }
    {
        match self.child(dir, name) {
            None => false,
            Some(found) => found.id != id,
        }
    }

    #[tactic(auto, unfolding(hfs_model::specs::Choices::to_rename, hfs_model::specs::Choices::to_set_cat_info))]
    pub(crate) fn to_rename(&self, dir: u32, name: &[u8], new_name: &[u8]) -> Result<Found<'_>, i16>
        requires { IsTable self.now }
        ensures choice { Chooses self.now (λ v. to_rename v dir name.now new_name.now) result }
        ensures found { IfOk result (IsFound self.now) }
        ensures named { OnOk result (IsTrue (is_item_name new_name.now)) }
    {
        if self.is_locked() {
            return Err(self.lock_code());
        }
        let Some(new_name) = Name::new(new_name) else {
            return Err(BAD_NAME);
        };
        let found = match self.to_set_cat_info(dir, name) {
            Ok(found) => found,
            Err(code) => return Err(code),
        };
        if self.is_taken(dir, &new_name, found.id) {
            return Err(DUPLICATE);
        }
        Ok(found)
    }

    /// Whether `up` is at most `steps` parents up from `dir`.
    fn lies_in(&self, steps: usize, dir: u32, up: u32) -> bool
        requires { IsTable self.now }
        ensures { result ≡ lies_in (table_entries self.now) steps dir up }
    {
        let mut at = dir;
        let mut left = steps;
        while at != up {
            if left == 0 {
                return false;
            }
            let Some(row) = self.row(at) else {
                return false;
            };
            at = row.parent;
            left -= 1;
        }
        true
    }

    /// The number of items.
    fn item_count(&self) -> usize
        requires { IsTable self.now }
        ensures { result ≡ length (table_entries self.now) }
    {
        self.by_id.len()
    }

    /// Whether moving the item there would put it into itself.
    #[tactic(auto, unfolding(hfs_model::specs::Choices::is_bad_move))]
    fn is_bad_move(&self, id: u32, row: &Row, dir: u32) -> bool
        requires { IsTable self.now }
        ensures { result ≡ moves_into_itself self.now id row.now dir }
    {
        match &row.kind {
            RowKind::Folder { .. } => self.lies_in(self.item_count(), dir, id),
            RowKind::File(_) => false,
        }
    }

    #[tactic(auto, unfolding(hfs_model::specs::Choices::to_move))]
    pub(crate) fn to_move(&self, dir: u32, name: &[u8], new_dir: u32) -> Result<Found<'_>, i16>
        requires { IsTable self.now }
        ensures choice { Chooses self.now (λ v. to_move v dir name.now new_dir) result }
        ensures found { IfOk result (IsFound self.now) }
    {
        let found = match self.child_to_change(dir, name) {
            Ok(found) => found,
            Err(code) => return Err(code),
        };
        if !self.is_folder(new_dir) {
            return Err(NOT_A_FOLDER);
        }
        if self.is_bad_move(found.id, found.row, new_dir) {
            return Err(BAD_MOVE);
        }
        let Some(name) = Name::new(name) else {
            unreachable!()
        };
        if self.is_held(new_dir, &name) {
            return Err(DUPLICATE);
        }
        if self.is_full(new_dir) {
            return Err(FOLDER_FULL);
        }
        Ok(found)
    }

    /// Whether the folder with that ID has no room for another child.
    #[tactic(auto, unfolding(hfs_model::specs::Choices::is_full))]
    fn is_full(&self, dir: u32) -> bool
        requires table { IsTable self.now }
        requires folder { is_folder (table_entries self.now) dir ≡ true }
        ensures { result ≡ is_full (table_entries self.now) dir }
    {
        match self.row(dir) {
            Some(row) => match &row.kind {
                RowKind::Folder { children, .. } => *children >= 65535,
                RowKind::File(_) => unreachable!(),
            },
            None => unreachable!(),
        }
    }

    /// Whether the folder holds an item of that name.
    #[tactic(auto, unfolding(hfs_model::specs::Choices::is_held))]
    fn is_held(&self, dir: u32, name: &Name) -> bool
        requires { IsTable self.now }
        ensures { result ≡ is_held (table_entries self.now) dir name.now }
    {
        self.child(dir, name).is_some()
    }

    /// The ID that a new item gets.
    #[tactic(auto, unfolding(hfs_model::specs::Choices::to_create), using(crate::proofs::Created::not_held, crate::proofs::Created::has_room))]
    pub(crate) fn to_create(&self, dir: u32, name: &[u8]) -> Result<u32, i16>
        requires { IsTable self.now }
        ensures choice { to_create (volume_of self.now) dir name.now ≡ result }
        ensures may { OnOk result (MayAdd self.now dir name.now) }
        ensures id { IfOk result (λ id. id ≡ self.now.next_id) }
        ensures named { OnOk result (IsTrue (is_item_name name.now)) }
    {
        if self.is_locked() {
            return Err(self.lock_code());
        }
        let Some(name) = Name::new(name) else {
            return Err(BAD_NAME);
        };
        if !self.is_folder(dir) {
            return Err(NOT_A_FOLDER);
        }
        if self.is_held(dir, &name) {
            return Err(DUPLICATE);
        }
        if self.is_full(dir) || self.next_id == 4294967295 {
            return Err(FOLDER_FULL);
        }
        Ok(self.next_id)
    }
}
