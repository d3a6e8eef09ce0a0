//! Numbers by IDs.

ghost use Rattle.std.specs.Prelude.{◌≡◌, ◌+◌, ◌<◌, ◌^◌, [], IfOk, OnOk};
ghost use Rattle.hfs_catalog.specs.Indexes.{number_of, count_of, SetsNumber, NotesFirst, AddsCount};

use std::alloc::{AllocError, Global};
use std::collections::BTreeMap;
use std::marker::Model;

/// Numbers, each with an ID: places of records, or counts. They are kept in the order of the IDs and without hashing, since an
/// image chooses its IDs, and could choose them so that their hashes collide.
#[derive(Drop)]
pub struct Numbers {
    numbers: BTreeMap<u32, usize>,
}

impl Model for Numbers {
    ghost use Rattle.hfs_catalog.specs.Indexes.{Numbered};

    ghost Value = { Numbered };

    ghost view = { λ m. m.numbers.entries };
}

impl Numbers {
    /// No numbers. Takes no memory.
    pub(crate) fn new(alloc: Global) -> Numbers
        ensures { result ≡ [] }
    {
        Numbers {
            numbers: BTreeMap::new(alloc),
        }
    }

    /// The number of an ID, if it has one.
    pub(crate) fn get(&self, id: u32) -> Option<usize>
        ensures { result ≡ number_of self.now id }
    {
        self.numbers.get(&id).copied()
    }

    /// Gives an ID this number, and returns the one that it had, if any.
    fn replace(&mut self, id: u32, number: usize) -> Result<Option<usize>, AllocError>
        ensures put { OnOk result (SetsNumber id number self.old self.new) }
        ensures was { IfOk result (λ was. was ≡ number_of self.old id) }
    {
        let was = self.numbers.insert(id, number)?;
        Ok(was)
    }

    /// Gives an ID this number, in place of the one that it may have.
    pub(crate) fn put(&mut self, id: u32, number: usize) -> Result<(), AllocError>
        ensures { OnOk result (SetsNumber id number self.old self.new) }
    {
        self.replace(id, number)?;
        Ok(())
    }

    /// Gives an ID this number, if it has none. An ID that has one is looked up twice.
    pub(crate) fn put_first(&mut self, id: u32, number: usize) -> Result<(), AllocError>
        ensures { OnOk result (NotesFirst self.old self.new id number) }
    {
        match self.replace(id, number)? {
            None => Ok(()),
            Some(first) => self.put(id, first),
        }
    }

    /// The number of an ID; 0 if it has none.
    pub fn count(&self, id: u32) -> usize
        ensures { result ≡ count_of self.now id }
    {
        self.get(id).unwrap_or(0)
    }

    /// Adds `more` to the number of an ID.
    pub(crate) fn count_more(&mut self, id: u32, more: usize) -> Result<(), AllocError>
        requires { count_of self.old id + more < 2 ^ 64 }
        ensures { OnOk result (AddsCount id more self.old self.new) }
    {
        let count = self.count(id);
        self.put(id, count + more)?;
        Ok(())
    }
}
