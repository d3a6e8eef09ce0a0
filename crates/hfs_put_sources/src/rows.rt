//! Rows of a bag's table of items.
ghost use Rattle.std.specs.Prelude.{◌≡◌, option_map};
ghost use Rattle.std.specs.Option.{option_and_then, option_zip};
ghost use Rattle.csv.specs.Records.{field_at, fields_of};
ghost use Rattle.hfs_put_sources.specs.Rows.{date_at, dates_at, item_row, kind_at, kind_of, lock_at, lock_of, row_of};

use crate::moments::read_moment;
use csv::ByteRecord;
use hfs_encodings::FileDates;
use hfs_model::ItemKind;

/// What a row says about its item.
#[derive(Clone, Copy)]
pub struct ItemRow {
    /// A folder or a file.
    pub kind: ItemKind,
    /// Whether it is locked, which no folder is.
    pub locked: bool,
    /// Its dates.
    pub dates: FileDates,
}

/// How many fields a row has.
const FIELDS: usize = 17;

/// The places of the fields that are read.
const KIND: usize = 1;

const LOCKED: usize = 7;

const CREATED: usize = 9;

const MODIFIED: usize = 10;

const BACKUP: usize = 11;

const BAG_PATH: usize = 16;

/// The kind that a word names.
fn kind_of(field: &[u8]) -> Option<ItemKind>
    ensures { result ≡ kind_of field.now }
{
    if field == b"folder".as_slice() {
        Some(ItemKind::Folder)
    } else if field == b"file".as_slice() {
        Some(ItemKind::File)
    } else {
        None
    }
}

/// What the field of the lock says about an item of this kind: nothing for a folder.
fn lock_of(kind: ItemKind, field: &[u8]) -> Option<bool>
    ensures { result ≡ lock_of kind field.now }
{
    match kind {
        ItemKind::Folder => { if field.is_empty() { Some(false) } else { None } }
        ItemKind::File => {
            if field == b"yes".as_slice() {
                Some(true)
            } else if field == b"no".as_slice() {
                Some(false)
            } else {
                None
            }
        }
    }
}

fn kind_at(row: &ByteRecord) -> Option<ItemKind>
    ensures { result ≡ kind_at (fields_of row.now) }
{
    match row.get(KIND) {
        Some(field) => kind_of(field),
        None => None,
    }
}

fn lock_at(kind: ItemKind, row: &ByteRecord) -> Option<bool>
    ensures { result ≡ lock_at kind (fields_of row.now) }
{
    match row.get(LOCKED) {
        Some(field) => lock_of(kind, field),
        None => None,
    }
}

fn date_at(place: usize, row: &ByteRecord) -> Option<u32>
    ensures { result ≡ date_at place (fields_of row.now) }
{
    match row.get(place) {
        Some(field) => read_moment(field),
        None => None,
    }
}

fn dates_at(row: &ByteRecord) -> Option<FileDates>
    ensures { result ≡ dates_at (fields_of row.now) }
{
    let two = date_at(CREATED, row).zip(date_at(MODIFIED, row));
    match two.zip(date_at(BACKUP, row)) {
        Some(((created, modified), backup)) => Some(FileDates {
            created,
            modified,
            backup,
        }),
        None => None,
    }
}

fn row_of(kind: ItemKind, row: &ByteRecord) -> Option<ItemRow>
    ensures { result ≡ row_of kind (fields_of row.now) }
{
    match lock_at(kind, row).zip(dates_at(row)) {
        Some((locked, dates)) => Some(ItemRow {
            kind,
            locked,
            dates,
        }),
        None => None,
    }
}

/// What a row says about its item; None if it isn't the row of an item, such as the head of the table. See
/// [`crate::item_row_read_back`].
#[tactic(auto, unfolding(crate::specs::Rows::item_row))]
pub fn item_row(row: &ByteRecord) -> Option<ItemRow>
    ensures { result ≡ item_row (fields_of row.now) }
{
    if row.len() != FIELDS {
        return None;
    }
    match kind_at(row) {
        Some(kind) => row_of(kind, row),
        None => None,
    }
}

/// Where the row's item lies below the payload: the last of 17 fields, which is empty for the root.
pub fn bag_path(row: &ByteRecord) -> Option<&[u8]>
    ensures { option_map (λ path. path.now) result ≡ field_at (fields_of row.now) 16 }
{
    row.get(BAG_PATH)
}
