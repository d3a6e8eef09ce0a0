//! The places of folders, by their numbers.
ghost use Rattle.std.specs.Prelude.{◌≡◌, [], IfOk, OnOk, take};
ghost use Rattle.hfs_catalog.specs.Indexes.{number_of, SetsNumber, NotesFirst};
ghost use Rattle.hfs_remains_places.specs.Folders.{KnowsFolders, NotesFolder};
ghost use Rattle.hfs_remains_places.specs.Things as all_things;

use hfs_remains_places::Thing;
use std::alloc::{AllocError, Global};
use std::collections::BTreeMap;
use std::marker::Model;

/// The place of the first folder with each number. They are kept in the order of the numbers and without hashing, since an image
/// chooses its numbers.
#[derive(Drop)]
pub(crate) struct FolderNumbers {
    places: BTreeMap<u32, usize>,
}

impl Model for FolderNumbers {
    ghost use Rattle.hfs_catalog.specs.Indexes.{Numbered};

    ghost Value = { Numbered };

    ghost view = { λ m. m.places.entries };
}

impl FolderNumbers {
    /// No places. Takes no memory.
    fn new(alloc: Global) -> FolderNumbers
        ensures { result ≡ [] }
    {
        FolderNumbers {
            places: BTreeMap::new(alloc),
        }
    }

    /// The place of a number, if it has one.
    fn get(&self, number: u32) -> Option<usize>
        ensures { result ≡ number_of self.now number }
    {
        self.places.get(&number).copied()
    }

    /// Gives a number this place, and returns the one that it had, if any.
    fn replace(&mut self, number: u32, place: usize) -> Result<Option<usize>, AllocError>
        ensures put { OnOk result (SetsNumber number place self.old self.new) }
        ensures was { IfOk result (λ was. was ≡ number_of self.old number) }
    {
        let was = self.places.insert(number, place)?;
        Ok(was)
    }

    /// Gives a number this place, in place of the one that it may have.
    fn put(&mut self, number: u32, place: usize) -> Result<(), AllocError>
        ensures { OnOk result (SetsNumber number place self.old self.new) }
    {
        self.replace(number, place)?;
        Ok(())
    }

    /// Gives a number this place, if it has none.
    fn put_first(&mut self, number: u32, place: usize) -> Result<(), AllocError>
        ensures { OnOk result (NotesFirst self.old self.new number place) }
    {
        match self.replace(number, place)? {
            None => Ok(()),
            Some(first) => self.put(number, first),
        }
    }
}

/// Notes the place of a thing that is a folder, if its number had none.
fn note_folder(folders: &mut FolderNumbers, thing: &Thing, place: usize) -> Result<(), AllocError>
    ensures { OnOk result (NotesFolder thing.now place folders.old folders.new) }
{
    match thing.folder {
        Some(number) => folders.put_first(number, place),
        None => Ok(()),
    }
}

/// The folders among things, by their numbers.
#[tactic(auto, using(crate::proofs::TreeLemmas::folders_none, crate::proofs::TreeLemmas::folders_more, crate::proofs::TreeLemmas::folders_all))]
pub(crate) fn folders_of(alloc: Global, things: &[Thing]) -> Result<FolderNumbers, AllocError>
    ensures { IfOk result (λ folders. KnowsFolders folders things.now) }
{
    let mut folders = FolderNumbers::new(alloc);
    for i in 0..things.len() {
        note_folder(&mut folders, &things[i], i)?;
    }
    Ok(folders)
}

/// The place among things of the folder with a number; None if there is none or it is the payload itself.
pub(crate) fn folder_of(things: &[Thing], folders: &FolderNumbers, number: u32) -> Option<usize>
    requires { KnowsFolders folders.now things.now }
    ensures { result ≡ all_things.folder_of things.now number }
{
    if number == 2 {
        None
    } else {
        folders.get(number)
    }
}
