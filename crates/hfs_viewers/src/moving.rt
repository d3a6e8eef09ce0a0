//! Renaming items, and moving them to another folder. A change that `step` refuses leaves the table as it was.
ghost use Rattle.std.specs.Prelude.{OnOk, OnErr};
ghost use Rattle.hfs_viewers.specs.RowEdits.{Leaves, MovesItem, Renames};
ghost use Rattle.hfs_viewers.specs.Tables.{volume_of, IsTable};

use crate::edits;
use crate::place::Place;
use crate::table::Table;
use hfs_fields::Name;
use std::alloc::AllocError;

impl Table {
    /// Renames an item. Fails only when out of memory, and then the items are as they were.
    pub fn rename(
        &mut self,
        dir: u32,
        name: &[u8],
        new_name: &[u8],
        now: u32,
    ) -> Result<(), AllocError>
        requires { IsTable self.old }
        ensures ok { OnOk result (Renames dir name.now new_name.now now self.old self.new) }
        ensures err { OnErr result (Leaves self.new (volume_of self.old)) }
    {
        let found = match self.to_rename(dir, name, new_name) {
            Ok(found) => found,
            Err(_) => return Ok(()),
        };
        let Some(new_name) = Name::new(new_name) else {
            unreachable!()
        };
        let id = found.id;
        let from = found.row.place();
        let to = Place {
            parent: from.parent,
            name: new_name,
        };
        let Ok(()) = edits::move_name(&mut self.by_name, id, &from, to) else {
            return Err(AllocError);
        };
        edits::set_name(&mut self.by_id, id, new_name);
        self.changed = now;
        Ok(())
    }

    /// Moves an item to another folder. Fails only when out of memory, and then the items are as they were.
    pub fn cat_move(
        &mut self,
        dir: u32,
        name: &[u8],
        new_dir: u32,
        now: u32,
    ) -> Result<(), AllocError>
        requires { IsTable self.old }
        ensures ok { OnOk result (MovesItem dir name.now new_dir now self.old self.new) }
        ensures err { OnErr result (Leaves self.new (volume_of self.old)) }
    {
        let found = match self.to_move(dir, name, new_dir) {
            Ok(found) => found,
            Err(_) => return Ok(()),
        };
        let id = found.id;
        let from = found.row.place();
        let to = Place {
            parent: new_dir,
            name: from.name,
        };
        let Ok(()) = edits::move_name(&mut self.by_name, id, &from, to) else {
            return Err(AllocError);
        };
        edits::set_parent(&mut self.by_id, id, new_dir);
        edits::drop_child(&mut self.by_id, dir, now);
        edits::add_child(&mut self.by_id, new_dir, now);
        self.changed = now;
        Ok(())
    }
}
