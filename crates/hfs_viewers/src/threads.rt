//! The IDs for which a catalog has a thread record.
ghost use Rattle.std.specs.Prelude.{◌≡◌, nat_eq, OnOk, IfOk};
ghost use Rattle.hfs_catalog.specs.Records.{is_thread_of};
ghost use Rattle.hfs_viewers.specs.Opened.{AddsNumbers, has_number, AreThreadsOf};

use hfs_catalog::{CatalogRecord, is_thread};
use std::alloc::{AllocError, Global};
use std::collections::BTreeSet;
use std::marker::Model;

/// A set of IDs. Contracts see the list of them.
#[derive(Drop)]
pub struct ThreadIds {
    ids: BTreeSet<u32>,
}

impl Model for ThreadIds {
    ghost use Rattle.std.specs.Prelude.{ℕ, List};

    ghost Value = { List ℕ };

    ghost view = { λ s. s.ids.keys };
}

impl ThreadIds {
    /// The IDs of the threads among these records. Reads each record once. Fails only when out of memory.
    pub fn of(alloc: Global, records: &[CatalogRecord]) -> Result<ThreadIds, AllocError>
        ensures { IfOk result (AreThreadsOf records.now) }
    {
        let mut threads = ThreadIds {
            ids: BTreeSet::new(alloc),
        };
        for i in 0..records.len() {
            threads.take(&records[i])?;
        }
        Ok(threads)
    }

    /// Takes the ID of a record, if it is a thread.
    fn take(&mut self, entry: &CatalogRecord) -> Result<(), AllocError>
        ensures { OnOk result (AddsNumbers (λ id. is_thread_of id entry.now) self.old self.new) }
    {
        if is_thread(entry.body()) {
            self.add(entry.key().parent)?;
        }
        Ok(())
    }

    /// Puts an ID into the set. Fails only when out of memory.
    fn add(&mut self, id: u32) -> Result<(), AllocError>
        ensures { OnOk result (AddsNumbers (nat_eq id) self.old self.new) }
    {
        self.ids.insert(id)?;
        Ok(())
    }

    /// Whether the ID is in the set.
    pub fn has(&self, id: u32) -> bool
        ensures { result ≡ has_number self.now id }
    {
        self.ids.contains(&id)
    }
}
