//! Sets of rows of bytes and of numbers, kept in order and without hashing, since an image chooses what is in them.
ghost use Rattle.std.specs.Prelude.{◌≡◌, [], OnOk};
ghost use Rattle.hfs_catalog.specs.Indexes.{has_number, AddsNumber};
ghost use Rattle.hfs_remains.specs.Items.{has_row, AddsRow};

use std::alloc::{AllocError, Global};
use std::collections::BTreeSet;
use std::marker::Model;

/// A set of rows of bytes. Contracts see their list.
#[derive(Drop)]
pub(crate) struct Rows {
    rows: BTreeSet<Vec<u8>>,
}

impl Model for Rows {
    ghost use Rattle.std.specs.Prelude.{ℕ, List};
    ghost use Rattle.std.proofs.Common.{Vec, Global};

    ghost Value = { List (Vec ℕ Global) };

    ghost view = { λ s. s.rows.keys };
}

impl Rows {
    /// The empty set. Takes no memory.
    pub(crate) fn new(alloc: Global) -> Rows
        ensures { result ≡ [] }
    {
        Rows {
            rows: BTreeSet::new(alloc),
        }
    }

    /// Whether the set has a row.
    pub(crate) fn has(&self, row: &Vec<u8>) -> bool
        ensures { result ≡ has_row self.now row.now }
    {
        self.rows.contains(row)
    }

    /// Adds a row to the set. `Err` only when out of memory.
    pub(crate) fn add(&mut self, row: Vec<u8>) -> Result<(), AllocError>
        ensures { OnOk result (AddsRow row self.old self.new) }
    {
        self.rows.insert(row)?;
        Ok(())
    }
}

/// A set of numbers. Contracts see their list.
#[derive(Drop)]
pub(crate) struct Numbers {
    numbers: BTreeSet<u32>,
}

impl Model for Numbers {
    ghost use Rattle.std.specs.Prelude.{ℕ, List};

    ghost Value = { List ℕ };

    ghost view = { λ s. s.numbers.keys };
}

impl Numbers {
    /// The empty set. Takes no memory.
    pub(crate) fn new(alloc: Global) -> Numbers
        ensures { result ≡ [] }
    {
        Numbers {
            numbers: BTreeSet::new(alloc),
        }
    }

    /// Whether the set has a number.
    pub(crate) fn has(&self, number: u32) -> bool
        ensures { result ≡ has_number self.now number }
    {
        self.numbers.contains(&number)
    }

    /// Adds a number to the set. `Err` only when out of memory.
    pub(crate) fn add(&mut self, number: u32) -> Result<(), AllocError>
        ensures { OnOk result (AddsNumber number self.old self.new) }
    {
        self.numbers.insert(number)?;
        Ok(())
    }
}
