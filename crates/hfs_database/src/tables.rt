//! The tables of a collection.
ghost use Rattle.std.specs.Prelude.{◌≡◌, [], ◌∷◌, IfErr, IfOk, OnOk};
ghost use Rattle.sqlite.specs.declared.types.Value.TheVariants.{Int};
ghost use Rattle.sqlite.specs.Held.{state};
ghost use Rattle.sqlite_value.specs.Order.{column};
ghost use Rattle.hfs_database.specs.Doing.{HasRun};
ghost use Rattle.hfs_database.specs.Tables.{FailsToFind, FailsToFindParts, FailsToMake, FailsToMakeAll, FailsToMakeParts, FindsPart, FindsTables, HasMadeAll, IsUntold, IsUntoldAt, LeavesTablesOrNone, MakesParts, Tells, TellsNoTables, all_parts, part_of};
ghost use Rattle.hfs_database.specs.Tables as spec;
ghost use Rattle.hfs_database.specs.Transactions.{KeepsFile};

use crate::fault::{DatabaseFault, opening_fault, writing_fault};
use sqlite::types::ValueRef;
use sqlite::{Alter, Connection, Row, Transaction};

/// The text of the table of images.
#[tactic(auto, unfolding(crate::specs::Tables::image_table))]
fn image_table() -> &'static str
    ensures { result.now ≡ spec.image_table }
{
    "CREATE TABLE image (id INTEGER PRIMARY KEY, path TEXT NOT NULL UNIQUE, bytes INTEGER NOT NULL, sha256 TEXT, program TEXT NOT NULL)"
}

/// The text of the table of volumes.
#[tactic(auto, unfolding(crate::specs::Tables::volume_table))]
fn volume_table() -> &'static str
    ensures { result.now ≡ spec.volume_table }
{
    "CREATE TABLE volume (id INTEGER PRIMARY KEY, image INTEGER NOT NULL REFERENCES image (id) ON DELETE CASCADE, number INTEGER NOT NULL, how TEXT NOT NULL, first_byte INTEGER NOT NULL, bytes INTEGER NOT NULL, name TEXT, created TEXT, modified TEXT, backup TEXT, blocks INTEGER, block_bytes INTEGER, free_blocks INTEGER, verdict TEXT NOT NULL, UNIQUE (image, number))"
}

/// The text of the table of items.
#[tactic(auto, unfolding(crate::specs::Tables::item_table))]
fn item_table() -> &'static str
    ensures { result.now ≡ spec.item_table }
{
    "CREATE TABLE item (id INTEGER PRIMARY KEY, volume INTEGER NOT NULL REFERENCES volume (id) ON DELETE CASCADE, number INTEGER NOT NULL, path TEXT, bag_path TEXT NOT NULL, kind TEXT NOT NULL, cnid INTEGER NOT NULL, parent INTEGER NOT NULL, type TEXT, creator TEXT, flags TEXT NOT NULL, locked INTEGER, file_id INTEGER, created TEXT, modified TEXT, backup TEXT, items INTEGER, data_bytes INTEGER, resource_bytes INTEGER, finder TEXT NOT NULL, data_sha256 TEXT, resource_sha256 TEXT, data_verdict TEXT, resource_verdict TEXT, UNIQUE (volume, number))"
}

/// The text of the index of data forks.
#[tactic(auto, unfolding(crate::specs::Tables::data_index))]
fn data_index() -> &'static str
    ensures { result.now ≡ spec.data_index }
{
    "CREATE INDEX item_data ON item (data_sha256)"
}

/// The text of the index of resource forks.
#[tactic(auto, unfolding(crate::specs::Tables::resource_index))]
fn resource_index() -> &'static str
    ensures { result.now ≡ spec.resource_index }
{
    "CREATE INDEX item_resource ON item (resource_sha256)"
}

/// Which of the tables and indexes of a collection exist.
#[derive(Clone, Copy, Debug, PartialEq, Eq)]
pub(crate) enum Found {
    /// None.
    Nothing,
    /// All that were looked for, with these texts.
    All,
    /// Something with these names, but not all of them with these texts.
    Other,
}

impl Found {
    /// What exists of both.
    fn and(self, other: Found) -> Found
        ensures { result ≡ spec.both self other }
    {
        match self {
            Found::Nothing => match other {
                Found::Nothing => Found::Nothing,
                Found::All => Found::Other,
                Found::Other => Found::Other,
            },
            Found::All => match other {
                Found::Nothing => Found::Other,
                Found::All => Found::All,
                Found::Other => Found::Other,
            },
            Found::Other => Found::Other,
        }
    }
}

/// The integer in a column of a row.
fn integer_at(row: &Row, at: usize) -> Result<i64, DatabaseFault>
    ensures integer { IfOk result (λ n. column row.now at ≡ Int n) }
    ensures fault { IfErr result TellsNoTables }
    ensures untold { IfErr result (IsUntoldAt row.now at) }
{
    match row.get(at) {
        Ok(n) => Ok(n),
        Err(error) => Err(opening_fault(&error)),
    }
}

/// What a row says about a table or an index that was looked for.
fn told_in(row: &Row) -> Result<Found, DatabaseFault>
    ensures tells { IfOk result (Tells row.now) }
    ensures fault { IfErr result TellsNoTables }
    ensures untold { IfErr result (IsUntold row.now) }
{
    let there = integer_at(row, 0)?;
    if there == 0 {
        return Ok(Found::Nothing);
    }
    if there != 1 {
        return Ok(Found::Other);
    }
    match integer_at(row, 1)? {
        1 => Ok(Found::All),
        _ => Ok(Found::Other),
    }
}

/// What exists with this name, in whatever case its ASCII letters are, compared to this text.
#[tactic(auto, unfolding(crate::specs::Tables::find_part_text))]
fn find<S: Alter>(conn: &mut Connection<S>, name: &str, text: &str) -> Result<Found, DatabaseFault>
    ensures found { IfOk result (FindsPart (state S.Store conn.old) (state S.Store conn.new)
        (part_of name.now text.now)) }
    ensures fault { IfErr result TellsNoTables }
    ensures unfound { IfErr result (FailsToFind (state S.Store conn.old) (state S.Store conn.new)
        (part_of name.now text.now)) }
{
    let parameters = [
        ValueRef::Text(name.as_bytes()),
        ValueRef::Text(text.as_bytes()),
    ];
    match conn.query_row(
        "SELECT count(*), sum(sql = ?2) FROM sqlite_schema WHERE name = ?1 COLLATE NOCASE",
        &parameters,
    ) {
        Ok(row) => told_in(&row),
        Err(error) => Err(opening_fault(&error)),
    }
}

/// Which of the tables and indexes of a collection exist.
pub(crate) fn find_tables<S: Alter>(conn: &mut Connection<S>) -> Result<Found, DatabaseFault>
    ensures found { IfOk result (λ found. FindsTables S.Store found conn.old conn.new) }
    ensures fault { IfErr result TellsNoTables }
    ensures unfound { IfErr result (FailsToFindParts S.Store all_parts conn.old conn.new) }
{
    let image = find(conn, "image", image_table())?;
    let volume = find(conn, "volume", volume_table())?;
    let item = find(conn, "item", item_table())?;
    let data = find(conn, "item_data", data_index())?;
    let resource = find(conn, "item_resource", resource_index())?;
    Ok(image.and(volume).and(item).and(data).and(resource))
}

/// Runs the text of a table or an index.
#[tactic(auto, using(crate::proofs::Keeping::keeps_made))]
fn make<S: Alter>(tx: &mut Transaction<'_, S>, text: &str) -> Result<(), DatabaseFault>
    ensures done { OnOk result (HasRun (state S.Store tx.old.conn.now) (state S.Store tx.new.conn.now) text.now []) }
    ensures same_reference { tx.new.conn.ghost_name ≡ tx.old.conn.ghost_name }
    ensures keeps { KeepsFile S.Store tx.old.conn.now tx.new.conn.now }
    ensures fault { IfErr result TellsNoTables }
    ensures unmade { IfErr result (FailsToMake (state S.Store tx.old.conn.now)
        (state S.Store tx.new.conn.now) text.now) }
{
    match tx.execute(text, &[]) {
        Ok(_) => Ok(()),
        Err(error) => Err(writing_fault(&error)),
    }
}

/// Runs the texts of all tables and indexes of a collection.
#[tactic(auto, using(crate::proofs::Keeping::keeps_itself, crate::proofs::Keeping::keeps_then))]
fn make_parts<S: Alter>(tx: &mut Transaction<'_, S>) -> Result<(), DatabaseFault>
    ensures done { OnOk result (MakesParts S.Store all_parts tx.old.conn.now tx.new.conn.now) }
    ensures same_reference { tx.new.conn.ghost_name ≡ tx.old.conn.ghost_name }
    ensures keeps { KeepsFile S.Store tx.old.conn.now tx.new.conn.now }
    ensures fault { IfErr result TellsNoTables }
    ensures unmade { IfErr result (FailsToMakeParts S.Store all_parts
        tx.old.conn.now tx.new.conn.now) }
{
    make(tx, image_table())?;
    make(tx, volume_table())?;
    make(tx, item_table())?;
    make(tx, data_index())?;
    make(tx, resource_index())
}

/// Makes all tables and indexes of a collection, or none.
pub(crate) fn make_tables<S: Alter>(conn: &mut Connection<S>) -> Result<(), DatabaseFault>
    ensures made { OnOk result (HasMadeAll S.Store conn.old conn.new) }
    ensures fault { IfErr result TellsNoTables }
    ensures unmade { IfErr result (FailsToMakeAll S.Store conn.old conn.new) }
    ensures all_or_none { LeavesTablesOrNone S.Store conn.old conn.new }
{
    if !conn.is_autocommit() {
        return Err(DatabaseFault::CannotWrite);
    }
    let mut tx = conn.transaction();
    make_parts(&mut tx)?;
    match tx.commit() {
        Ok(()) => Ok(()),
        Err(error) => Err(writing_fault(&error)),
    }
}
