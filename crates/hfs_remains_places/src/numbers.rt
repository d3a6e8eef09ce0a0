//! The folders, by their numbers.
ghost use Rattle.std.specs.Prelude.{◌≡◌, [], IfOk, OnOk};
ghost use Rattle.hfs_catalog.specs.Indexes.{number_of, SetsNumber, NotesFirst};

use std::alloc::{AllocError, Global};
use std::collections::BTreeMap;
use std::marker::Model;

/// Places, each with a folder's number. They are kept in the order of the numbers and without hashing, since an image chooses its
/// numbers.
#[derive(Drop)]
pub struct FolderPlaces {
    places: BTreeMap<u32, usize>,
}

impl Model for FolderPlaces {
    ghost use Rattle.hfs_catalog.specs.Indexes.{Numbered};

    ghost Value = { Numbered };

    ghost view = { λ m. m.places.entries };
}

impl FolderPlaces {
    /// No places. Takes no memory.
    pub(crate) fn new(alloc: Global) -> FolderPlaces
        ensures { result ≡ [] }
    {
        FolderPlaces {
            places: BTreeMap::new(alloc),
        }
    }

    /// The place of a number, if it has one.
    pub(crate) fn get(&self, number: u32) -> Option<usize>
        ensures { result ≡ number_of self.now number }
    {
        self.places.get(&number).copied()
    }

    /// Gives a number this place, and returns the one that it had, if any.
    fn replace(&mut self, number: u32, place: usize) -> Result<Option<usize>, AllocError>
        ensures put { OnOk result (SetsNumber number place self.old self.new) }
        ensures was { IfOk result (λ was. was ≡ number_of self.old number) }
    {
        let was = self.places.insert(number, place)?;
        Ok(was)
    }

    /// Gives a number this place, in place of the one that it may have.
    fn put(&mut self, number: u32, place: usize) -> Result<(), AllocError>
        ensures { OnOk result (SetsNumber number place self.old self.new) }
    {
        self.replace(number, place)?;
        Ok(())
    }

    /// Gives a number this place, if it has none.
    pub(crate) fn put_first(&mut self, number: u32, place: usize) -> Result<(), AllocError>
        ensures { OnOk result (NotesFirst self.old self.new number place) }
    {
        match self.replace(number, place)? {
            None => Ok(()),
            Some(first) => self.put(number, first),
        }
    }
}
