//! Sets of rows of bytes, kept in order and without hashing, since an image chooses what is in them.
ghost use Rattle.std.specs.Prelude.{◌≡◌, [], OnOk};
ghost use Rattle.hfs_remains_places.specs.Rows.{has_row, AddsRow};

use std::alloc::{AllocError, Global};
use std::collections::BTreeSet;
use std::marker::Model;

/// A set of rows of bytes. Contracts see their list.
#[derive(Drop)]
pub(crate) struct Rows {
    rows: BTreeSet<Vec<u8>>,
}

impl Model for Rows {
    ghost use Rattle.std.specs.Prelude.{ℕ, List};
    ghost use Rattle.std.proofs.Common.{Vec, Global};

    ghost Value = { List (Vec ℕ Global) };

    ghost view = { λ s. s.rows.keys };
}

impl Rows {
    /// The empty set. Takes no memory.
    pub(crate) fn new(alloc: Global) -> Rows
        ensures { result ≡ [] }
    {
        Rows {
            rows: BTreeSet::new(alloc),
        }
    }

    /// Whether the set has a row.
    pub(crate) fn has(&self, row: &Vec<u8>) -> bool
        ensures { result ≡ has_row self.now row.now }
    {
        self.rows.contains(row)
    }

    /// Adds a row to the set. `Err` only when out of memory.
    pub(crate) fn add(&mut self, row: Vec<u8>) -> Result<(), AllocError>
        ensures { OnOk result (AddsRow row self.old self.new) }
    {
        self.rows.insert(row)?;
        Ok(())
    }
}
