//! Rows by their IDs, and their IDs by the places of their items.

ghost use Rattle.std.specs.Prelude.{◌≡◌, ◌+◌, ◌<◌, ◌^◌, IfSome, IfOk, slice_get};
ghost use Rattle.hfs_model.specs.Children.{is_folder};
ghost use Rattle.hfs_model.specs.FileIds.{resolve_file_id};
ghost use Rattle.hfs_model.specs.Lawful.{IsLawful};
ghost use Rattle.hfs_model.specs.Reading.{get_dir_info, get_cat_info, get_indexed, list};
ghost use Rattle.hfs_model.specs.Replies.{refusal, success, info_of, infos};
ghost use Rattle.hfs_viewers.specs.Tables.{FindsChild, FindsRow, volume_of, IsTable, table_entries, row_entry, IsKindIn, HasItemOf};

use crate::place::Place;
use crate::row::{Row, RowKind};
use hfs_fields::{Mdb, Name};
use hfs_model::{
    BAD_NAME, Info, Infos, ItemKind, NOT_A_FOLDER, NOT_FOUND, PARAMETER, Reply, Value,
};
use hfs_volume::Base;
use std::alloc::{AllocError, Global};
use std::collections::BTreeMap;

/// The rows of a volume's items over its base.
#[derive(Drop)]
pub struct Table {
    pub base: Base,
    /// The base's master directory block.
    pub mdb: Mdb,
    pub by_id: BTreeMap<u32, Row>,
    pub by_name: BTreeMap<Place, u32>,
    pub next_id: u32,
    pub changed: u32,
    pub hardware_locked: bool,
    pub software_locked: bool,
}

/// A row that was looked up, with the ID of its item.
#[derive(Clone, Copy)]
pub struct Found<'a> {
    pub id: u32,
    pub row: &'a Row,
}

pub(crate) fn refusal(code: i16) -> Reply
    ensures { result ≡ refusal code }
{
    Reply {
        code,
        value: Value::Nothing,
    }
}

fn success(value: Value) -> Reply
    ensures { result ≡ success value }
{
    Reply { code: 0, value }
}

impl Table {
    /// A copy over the same base, without copying any byte. Fails only when out of memory.
    pub fn copied(&self) -> Result<Table, AllocError>
        requires { IsTable self.now }
        ensures table { IfOk result IsTable }
        ensures volume { IfOk result (λ t. volume_of t ≡ volume_of self.now) }
    {
        let base = self.base.share()?;
        let by_id = self.by_id.clone()?;
        let by_name = self.by_name.clone()?;
        Ok(Table {
            base,
            by_id,
            by_name,
            ..*self
        })
    }

    /// The ID that the next new item gets.
    pub fn next_id(&self) -> u32
        ensures next { result ≡ self.now.next_id }
        ensures small { self.now.next_id < 2 ^ 32 }
    {
        self.next_id
    }

    /// The row of an ID.
    pub(crate) fn row(&self, id: u32) -> Option<&Row>
        requires { IsTable self.now }
        ensures entry { FindsRow self.now id result }
        ensures sound { IfSome result (λ r. IsKindIn self.now id r.now.kind) }
        ensures has { IfSome result (λ r. HasItemOf self.now id r.now) }
    {
        self.by_id.get(&id)
    }

    /// What a reply says about the item of a row.
    #[tactic(auto, unfolding(hfs_model::specs::Replies::info_of))]
    fn info(&self, id: u32, row: &Row) -> Info
        requires table { IsTable self.now }
        requires row { IsKindIn self.now id row.now.kind }
        ensures { result ≡ info_of (table_entries self.now) (row_entry self.now id row.now) }
    {
        let mut info = Info {
            id,
            parent: row.parent,
            name: row.name,
            kind: ItemKind::Folder,
            created: row.created,
            modified: row.modified,
            backup: row.backup,
            finder: row.finder,
            locked: false,
            has_id: false,
            valence: 0,
            data_len: 0,
            res_len: 0,
        };
        match &row.kind {
            RowKind::Folder { children, .. } => info.valence = *children,
            RowKind::File(file) => {
                info.kind = ItemKind::File;
                info.locked = file.locked;
                info.has_id = file.has_thread;
                info.data_len = file.data.pieces.len();
                info.res_len = file.resource.pieces.len();
            }
        }
        info
    }

    /// Whether it is the ID of a folder.
    pub(crate) fn is_folder(&self, id: u32) -> bool
        requires { IsTable self.now }
        ensures { result ≡ is_folder (table_entries self.now) id }
    {
        match self.row(id) {
            None => false,
            Some(row) => matches!(&row.kind, RowKind::Folder { .. }),
        }
    }

    /// The folder's item of that name.
    pub(crate) fn child(&self, dir: u32, name: &Name) -> Option<Found<'_>>
        requires { IsTable self.now }
        ensures entry { FindsChild self.now dir name.now result }
        ensures sound { IfSome result (λ f. IsKindIn self.now f.id f.row.now.kind) }
        ensures has { IfSome result (λ f. HasItemOf self.now f.id f.row.now) }
    {
        let place = Place {
            parent: dir,
            name: *name,
        };
        let Some(id) = self.by_name.get(&place) else {
            return None;
        };
        match self.row(*id) {
            None => None,
            Some(row) => Some(Found { id: *id, row }),
        }
    }

    /// Answers with the folder that has this ID.
    #[tactic(auto, unfolding(hfs_model::specs::Reading::get_dir_info))]
    pub fn get_dir_info(&self, dir: u32) -> Reply
        requires { IsTable self.now }
        ensures { result ≡ get_dir_info (table_entries self.now) dir }
    {
        let Some(row) = self.row(dir) else {
            return refusal(NOT_A_FOLDER);
        };
        match &row.kind {
            RowKind::Folder { .. } => success(Value::One(self.info(dir, row))),
            RowKind::File(_) => refusal(NOT_A_FOLDER),
        }
    }

    /// Answers with the folder's item of that name.
    #[tactic(auto, unfolding(hfs_model::specs::Reading::get_cat_info))]
    pub fn get_cat_info(&self, dir: u32, name: &[u8]) -> Reply
        requires { IsTable self.now }
        ensures { result ≡ get_cat_info (table_entries self.now) dir name.now }
    {
        let Some(name) = Name::new(name) else {
            return refusal(BAD_NAME);
        };
        if !self.is_folder(dir) {
            return refusal(NOT_A_FOLDER);
        }
        match self.child(dir, &name) {
            Some(found) => success(Value::One(self.info(found.id, found.row))),
            None => refusal(NOT_FOUND),
        }
    }

    /// Answers with the folder and the name of the file with that ID, which has a thread.
    #[tactic(auto, unfolding(hfs_model::specs::FileIds::resolve_file_id))]
    pub fn resolve_file_id(&self, id: u32) -> Reply
        requires { IsTable self.now }
        ensures { result ≡ resolve_file_id (table_entries self.now) id }
    {
        match self.file_of_id(id) {
            Ok(found) => success(Value::Place {
                dir: found.row.parent,
                name: found.row.name,
            }),
            Err(code) => refusal(code),
        }
    }

    /// What a reply says about a folder's children, in name order.
    fn infos(&self, alloc: Global, dir: u32) -> Result<Vec<Info>, AllocError>
        requires table { IsTable self.now }
        requires lawful { IsLawful (volume_of self.now) }
        requires below { dir + 1 < 2 ^ 32 }
        ensures { IfOk result (λ v. v.items ≡ infos (table_entries self.now) dir) }
    {
        let mut infos = Vec::new(alloc);
        let mut rows = self.rows_from(dir);
        for (_place, id) in self.by_name.range(Place::first(dir)..Place::first(dir + 1)) {
            let Some(row) = self.row_among(&mut rows, *id) else {
                unreachable!()
            };
            infos.push(self.info(*id, row))?;
        }
        Ok(infos)
    }

    /// Answers with the folder's children, in name order.
    #[tactic(auto, unfolding(hfs_model::specs::Reading::list))]
    pub fn list(&self, alloc: Global, dir: u32) -> Result<Reply, AllocError>
        requires table { IsTable self.now }
        requires lawful { IsLawful (volume_of self.now) }
        ensures { IfOk result (λ reply. reply ≡ list (table_entries self.now) dir) }
    {
        if !self.is_folder(dir) {
            return Ok(refusal(NOT_A_FOLDER));
        }
        // Once a proof has seen the next ID, it knows that a folder's ID isn't the greatest of 32 bits.
        let _next = self.next_id();
        let infos = self.infos(alloc, dir)?;
        Ok(success(Value::Many(Infos::new(infos))))
    }

    /// What a reply says about the folder's child at that place in name order, counted from 0.
    fn info_at(&self, dir: u32, at: u32) -> Option<Info>
        requires table { IsTable self.now }
        requires lawful { IsLawful (volume_of self.now) }
        requires below { dir + 1 < 2 ^ 32 }
        ensures { result ≡ slice_get (infos (table_entries self.now) dir) at }
    {
        let mut left = at;
        let names = self.by_name.range(Place::first(dir)..Place::first(dir + 1));
        for (_place, id) in names {
            if left == 0 {
                let Some(row) = self.row(*id) else {
                    unreachable!()
                };
                return Some(self.info(*id, row));
            }
            left -= 1;
        }
        None
    }

    /// Answers with the folder's child at that place in name order, counted from 1. The places before it are only counted. Takes
    /// no memory.
    #[tactic(auto, unfolding(hfs_model::specs::Reading::get_indexed))]
    pub fn get_indexed(&self, dir: u32, index: u32) -> Reply
        requires table { IsTable self.now }
        requires lawful { IsLawful (volume_of self.now) }
        ensures { result ≡ get_indexed (table_entries self.now) dir index }
    {
        if index == 0 {
            return refusal(PARAMETER);
        }
        if !self.is_folder(dir) {
            return refusal(NOT_A_FOLDER);
        }
        // Once a proof has seen the next ID, it knows that a folder's ID isn't the greatest of 32 bits.
        let _next = self.next_id();
        match self.info_at(dir, index - 1) {
            Some(info) => success(Value::One(info)),
            None => refusal(NOT_FOUND),
        }
    }
}
