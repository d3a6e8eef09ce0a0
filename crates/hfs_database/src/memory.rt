//! A taker over memory.
ghost use Rattle.std.specs.Prelude.{◌≡◌, [], ◌∷◌, ◌++◌, IfErr, IfOk, OnErr, OnOk};
ghost use Rattle.hfs_database.specs.declared.row_fault.TakerFault.TheVariants.{NoMemory};
ghost use Rattle.hfs_database.specs.StoredRows.{stored_rows};
ghost use Rattle.hfs_database.specs.Taken.{MayEndWith, with_row};

use crate::row_fault::TakerFault;
use crate::row_taker::RowTaker;
use crate::value::{RowValue, Table};
use hfs_model::OwnedBytes;
use std::alloc::{AllocError, Global};

/// A row that was taken.
#[derive(Drop)]
pub struct StoredRow {
    pub table: Table,
    pub values: Vec<RowValue>,
}

/// A taker that keeps all rows that it was given, in order.
#[derive(Drop)]
pub struct MemoryTaker {
    alloc: Global,
    pub rows: Vec<StoredRow>,
}

impl MemoryTaker {
    /// A taker that was given nothing.
    pub fn new(alloc: Global) -> MemoryTaker
        ensures { result.rows.items ≡ [] }
    {
        MemoryTaker {
            alloc,
            rows: Vec::new(alloc),
        }
    }
}

/// A copy of a value. Fails only when out of memory.
fn copied(alloc: Global, value: &RowValue) -> Result<RowValue, AllocError>
    ensures { IfOk result (λ copy. copy ≡ value.now) }
{
    match value {
        RowValue::Empty => Ok(RowValue::Empty),
        RowValue::Number(n) => Ok(RowValue::Number(*n)),
        RowValue::Text(text) => Ok(RowValue::Text(OwnedBytes::from_slice(alloc, text.as_slice())?)),
    }
}

/// Copies of values. Fails only when out of memory.
fn all_copied(alloc: Global, values: &[RowValue]) -> Result<Vec<RowValue>, AllocError>
    ensures { IfOk result (λ copies. copies.items ≡ values.now) }
{
    let mut copies = Vec::new(alloc);
    for value in values {
        copies.push(copied(alloc, value)?)?;
    }
    Ok(copies)
}

impl RowTaker for MemoryTaker {
    ghost given = { λ taker. stored_rows taker.rows.items };

    ghost reference = { λ _. 0 };

    ghost Place = { Unit {0} };

    ghost place = { λ _. tt };

    fn take(&mut self, table: Table, values: &[RowValue]) -> Result<(), TakerFault>
        ensures whole { OnOk result (stored_rows self.new.rows.items
            ≡ with_row (stored_rows self.old.rows.items) table values.now) }
        ensures kept { OnErr result (stored_rows self.new.rows.items ≡ stored_rows self.old.rows.items) }
        ensures refused { OnErr result (MayEndWith (stored_rows self.old.rows.items) table values.now
            (stored_rows self.new.rows.items)) }
        ensures fault { IfErr result (λ fault. fault ≡ NoMemory) }
    {
        let Ok(values) = all_copied(self.alloc, values) else {
            return Err(TakerFault::NoMemory);
        };
        match self.rows.push(StoredRow { table, values }) {
            Ok(()) => Ok(()),
            Err(_) => Err(TakerFault::NoMemory),
        }
    }
}
