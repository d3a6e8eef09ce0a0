//! The items of a table in the form of the model, with the bytes of their forks.

ghost use Rattle.std.specs.Prelude.{◌≡◌, IfOk};
ghost use Rattle.hfs_viewers.specs.Tables as tables;
ghost use Rattle.hfs_viewers.specs.Tables.{IsForkIn, IsKindIn, IsTable, bytes_in};
ghost use Rattle.hfs_plain.specs.Entries.{row_entries};

use hfs_model::{Content, File, Item, Kind};
use hfs_viewers::{Row, RowFile, RowFork, RowKind, Table};
use std::alloc::{AllocError, Global};

/// The bytes of a fork of a table.
fn content_of(alloc: Global, table: &Table, fork: &RowFork) -> Result<Content, AllocError>
    requires table { IsTable table.now }
    requires fork { IsForkIn table.now.mdb fork.now }
    ensures { IfOk result (λ content. content ≡ bytes_in table.now fork.now) }
{
    let len = fork.pieces.len();
    let bytes = table.fork_bytes(alloc, fork, 0, len)?;
    Ok(Content::new(bytes))
}

/// What only a file has.
fn file_of(alloc: Global, table: &Table, file: &RowFile) -> Result<File, AllocError>
    requires table { IsTable table.now }
    requires data { IsForkIn table.now.mdb file.now.data }
    requires resource { IsForkIn table.now.mdb file.now.resource }
    ensures { IfOk result (λ f. f ≡ tables.file_of table.now.base table.now.mdb file.now) }
{
    let data = content_of(alloc, table, &file.data)?;
    let resource = content_of(alloc, table, &file.resource)?;
    Ok(File {
        kept: file.kept,
        locked: file.locked,
        has_thread: file.has_thread,
        data,
        resource,
    })
}

/// Whether an item is a folder or a file, and what only that kind has.
fn kind_of(alloc: Global, table: &Table, kind: &RowKind) -> Result<Kind, AllocError>
    requires table { IsTable table.now }
    requires kind { (id : _) × IsKindIn table.now id kind.now }
    ensures { IfOk result (λ k. k ≡ tables.kind_of table.now.base table.now.mdb kind.now) }
{
    match kind {
        RowKind::Folder { kept, .. } => Ok(Kind::Folder { kept: *kept }),
        RowKind::File(file) => Ok(Kind::File(file_of(alloc, table, file)?)),
    }
}

/// The item of a row of a table.
fn item_of(alloc: Global, table: &Table, row: &Row) -> Result<Item, AllocError>
    requires table { IsTable table.now }
    requires kind { (id : _) × IsKindIn table.now id row.now.kind }
    ensures { IfOk result (λ item. item ≡ tables.item_of table.now.base table.now.mdb row.now) }
{
    let kind = kind_of(alloc, table, &row.kind)?;
    Ok(Item {
        parent: row.parent,
        name: row.name,
        created: row.created,
        modified: row.modified,
        backup: row.backup,
        finder: row.finder,
        kind,
    })
}

/// The items of a table in the order of their IDs. Fails only when out of memory.
pub fn items_of(alloc: Global, table: &Table) -> Result<Vec<(u32, Item)>, AllocError>
    requires { IsTable table.now }
    ensures { IfOk result (λ items. items.items ≡ row_entries table.now) }
{
    let mut items = Vec::new(alloc);
    for (id, row) in &table.by_id {
        let item = item_of(alloc, table, row)?;
        items.push((*id, item))?;
    }
    Ok(items)
}
