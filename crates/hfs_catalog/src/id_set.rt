//! Sets of IDs.

ghost use Rattle.std.specs.Prelude.{◌≡◌, [], OnOk};
ghost use Rattle.hfs_catalog.specs.Indexes.{has_number, AddsNumber};

use std::alloc::{AllocError, Global};
use std::collections::BTreeSet;
use std::marker::Model;

/// A set of IDs, kept in order and without hashing, since an image chooses its IDs. Contracts see their list.
#[derive(Drop)]
pub(crate) struct IdSet {
    ids: BTreeSet<u32>,
}

impl Model for IdSet {
    ghost use Rattle.std.specs.Prelude.{ℕ, List};

    ghost Value = { List ℕ };

    ghost view = { λ s. s.ids.keys };
}

impl IdSet {
    /// The empty set. Takes no memory.
    pub(crate) fn new(alloc: Global) -> IdSet
        ensures { result ≡ [] }
    {
        IdSet {
            ids: BTreeSet::new(alloc),
        }
    }

    /// Whether the set has an ID.
    pub(crate) fn has(&self, id: u32) -> bool
        ensures { result ≡ has_number self.now id }
    {
        self.ids.contains(&id)
    }

    /// Adds an ID to the set. `Err` only when out of memory.
    pub(crate) fn add(&mut self, id: u32) -> Result<(), AllocError>
        ensures { OnOk result (AddsNumber id self.old self.new) }
    {
        self.ids.insert(id)?;
        Ok(())
    }
}
