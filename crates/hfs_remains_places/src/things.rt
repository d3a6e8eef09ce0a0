//! What has a place: the items that remain, and the folders that only a thread names.
ghost use Rattle.std.specs.Prelude.{◌≡◌, [], ◌∷◌, ◌++◌, length, IfOk, OnOk};
ghost use Rattle.hfs_remains_places.specs.Folders.{KnowsFolders, NotesFolder};
ghost use Rattle.hfs_remains_places.specs.Things as spec;

use crate::numbers::FolderPlaces;
use hfs_fields::Name;
use std::alloc::{AllocError, Global};
use std::marker::Model;

/// What matters for the place of an item, or of a folder that only a thread names.
#[derive(Clone, Copy)]
pub struct Thing {
    /// The number of the folder that it is in.
    pub parent: u32,
    pub name: Name,
    /// Its own number, if it is a folder.
    pub folder: Option<u32>,
    /// Whether its record is old.
    pub old: bool,
    /// Whether only a thread names it.
    pub named: bool,
}

/// Things, and for each folder's number its place among them. Contracts see the things.
#[derive(Drop)]
pub(crate) struct Things {
    things: Vec<Thing>,
    folders: FolderPlaces,
}

impl Model for Things {
    ghost use Rattle.std.specs.Prelude.{List};
    ghost use Rattle.hfs_remains_places.specs.declared.things.Thing.{Thing};
    ghost use Rattle.hfs_remains_places.specs.Folders.{KnowsFolders};

    ghost Value = { List Thing };

    ghost view = { λ s. s.things.items };

    ghost invariant = { λ s. KnowsFolders s.folders s.things.items };
}

/// Notes the place of a thing that is a folder, if its number had none.
fn note_folder(folders: &mut FolderPlaces, thing: &Thing, place: usize) -> Result<(), AllocError>
    ensures { OnOk result (NotesFolder thing.now place folders.old folders.new) }
{
    match thing.folder {
        Some(number) => folders.put_first(number, place),
        None => Ok(()),
    }
}

/// Adds a thing after the others.
fn push_thing(
    things: &mut Vec<Thing>,
    folders: &mut FolderPlaces,
    thing: Thing,
) -> Result<(), AllocError>
    requires { KnowsFolders folders.old things.old.items }
    ensures things { OnOk result (things.new.items ≡ things.old.items ++ thing ∷ []) }
    ensures folders { OnOk result (KnowsFolders folders.new things.new.items) }
{
    let place = things.len();
    note_folder(folders, &thing, place)?;
    things.push(thing)?;
    Ok(())
}

/// Adds a named folder after the others, if there is no folder with its number.
fn push_named(
    things: &mut Vec<Thing>,
    folders: &mut FolderPlaces,
    thing: Thing,
) -> Result<(), AllocError>
    requires { KnowsFolders folders.old things.old.items }
    ensures things { OnOk result (things.new.items ≡ spec.with_named things.old.items thing) }
    ensures folders { OnOk result (KnowsFolders folders.new things.new.items) }
{
    let Some(number) = thing.folder else {
        return Ok(());
    };
    if number == 2 || folders.get(number).is_some() {
        return Ok(());
    }
    push_thing(things, folders, thing)
}

/// Adds items after the others.
fn push_items(
    things: &mut Vec<Thing>,
    folders: &mut FolderPlaces,
    items: &[Thing],
) -> Result<(), AllocError>
    requires { KnowsFolders folders.old things.old.items }
    ensures things { OnOk result (things.new.items ≡ things.old.items ++ items.now) }
    ensures folders { OnOk result (KnowsFolders folders.new things.new.items) }
{
    for i in 0..items.len() {
        push_thing(things, folders, items[i])?;
    }
    Ok(())
}

/// Adds named folders after the others, if there are no folders with their numbers.
fn push_namings(
    things: &mut Vec<Thing>,
    folders: &mut FolderPlaces,
    namings: &[Thing],
) -> Result<(), AllocError>
    requires { KnowsFolders folders.old things.old.items }
    ensures things { OnOk result (things.new.items ≡ spec.named_behind things.old.items
        namings.now) }
    ensures folders { OnOk result (KnowsFolders folders.new things.new.items) }
{
    for i in 0..namings.len() {
        push_named(things, folders, namings[i])?;
    }
    Ok(())
}

impl Things {
    /// The items, and then the folders that only a thread names.
    pub(crate) fn of(
        alloc: Global,
        items: &[Thing],
        namings: &[Thing],
    ) -> Result<Things, AllocError>
        ensures { IfOk result (λ things. things ≡ spec.things_of items.now namings.now) }
    {
        let mut things = Vec::new(alloc);
        let mut folders = FolderPlaces::new(alloc);
        push_items(&mut things, &mut folders, items)?;
        push_namings(&mut things, &mut folders, namings)?;
        Ok(Things { things, folders })
    }

    /// All things, in order.
    pub(crate) fn all(&self) -> &[Thing]
        ensures { result.now ≡ self.now }
    {
        &self.things
    }

    /// How many things there are.
    pub(crate) fn len(&self) -> usize
        ensures { result ≡ length self.now }
    {
        self.things.len()
    }

    /// The place of the folder with a number; None if there is none or it is the payload itself.
    pub(crate) fn folder(&self, number: u32) -> Option<usize>
        ensures { result ≡ spec.folder_of self.now number }
    {
        if number == 2 {
            None
        } else {
            self.folders.get(number)
        }
    }
}
