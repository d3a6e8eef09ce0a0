//! Where each item is put.
ghost use Rattle.std.specs.Prelude.{◌≡◌, ◌++◌, ◌∷◌, ◌<◌, ◌^◌, map, length, reverse, if◌then◌else◌, IfOk, IfSome, string_bytes};
ghost use Rattle.hfs_remains_places.specs.Chains.{endless_of, ups_of};
ghost use Rattle.hfs_remains_places.specs.Entries.{entries_of};
ghost use Rattle.hfs_remains_places.specs.Things.{things_of};
ghost use Rattle.hfs_remains_places.specs.Paths as spec;
ghost use Rattle.hfs_remains_places.specs.Names.{below_root, names_by, names_up, root_name};

use crate::chains::{endless_of, ups_of};
use crate::entries::entries_of;
use crate::names::lies_apart;
use crate::paths::Frame;
use crate::things::{Thing, Things};
use hfs_fields::Name;
use std::alloc::{AllocError, Global};
use std::marker::Model;

/// The items that remain and the folders that only a thread names, with their places. Contracts see them as things.
#[derive(Drop)]
pub struct Places {
    things: Things,
    entries: Vec<String>,
    endless: Vec<bool>,
    paths: Vec<Option<String>>,
    root: Option<usize>,
}

impl Model for Places {
    ghost use Rattle.std.specs.Prelude.{List};
    ghost use Rattle.hfs_remains_places.specs.declared.things.Thing.{Thing};
    ghost use Rattle.hfs_remains_places.specs.Paths.{ArePlaces};

    ghost Value = { List Thing };

    ghost view = { λ s. s.things };

    ghost invariant = { λ s. ArePlaces s.things s.entries.items s.endless.items s.paths.items
        s.root };
}

/// The place of the root among things; None if it is lost.
fn root_of(things: &[Thing]) -> Option<usize>
    ensures { result ≡ spec.root_of things.now }
{
    things
        .iter()
        .position(|thing| thing.folder == Some(2) && thing.parent == 1)
}

/// The paths of all folders.
fn folder_paths(
    alloc: Global,
    things: &Things,
    entries: &[String],
    endless: &[bool],
) -> Result<Vec<Option<String>>, AllocError>
    requires entries { map string_bytes entries.now ≡ entries_of things.now }
    requires entries_all { length entries.now ≡ length things.now }
    requires endless { endless.now ≡ endless_of (ups_of things.now) }
    requires endless_all { length endless.now ≡ length things.now }
    ensures all { IfOk result (λ paths. length paths.items ≡ length things.now) }
    ensures right { IfOk result (λ paths. spec.AreRight things.now paths.items) }
    ensures known { IfOk result (λ paths. spec.AreKnown things.now paths.items) }
{
    let frame = Frame {
        things,
        entries,
        endless,
    };
    frame.folder_paths(alloc)
}

impl Places {
    /// The places of items, and of the folders that threads name if no item is the folder with their number. Fails only when out
    /// of memory.
    pub fn of(alloc: Global, items: &[Thing], namings: &[Thing]) -> Result<Places, AllocError>
        ensures { IfOk result (λ places. places ≡ things_of items.now namings.now) }
    {
        let things = Things::of(alloc, items, namings)?;
        let entries = entries_of(alloc, things.all())?;
        let ups = ups_of(alloc, &things)?;
        let endless = endless_of(alloc, &ups)?;
        let paths = folder_paths(alloc, &things, &entries, &endless)?;
        let root = root_of(things.all());
        Ok(Places {
            things,
            entries,
            endless,
            paths,
            root,
        })
    }

    /// The items and the named folders, in order.
    pub fn things(&self) -> &[Thing]
        ensures { result.now ≡ self.now }
    {
        self.things.all()
    }

    /// The path of a thing, without what an item is below if its record is old.
    fn path(&self, alloc: Global, i: usize) -> Result<String, AllocError>
        requires { i < length self.now }
        ensures { IfOk result (λ text. string_bytes text ≡ spec.path self.now i) }
    {
        let frame = Frame {
            things: &self.things,
            entries: &self.entries,
            endless: &self.endless,
        };
        frame.path(alloc, &self.paths, i)
    }

    /// The path of an item below the payload. Fails only when out of memory.
    #[tactic(auto, unfolding(crate::specs::Paths::payload_path))]
    pub fn payload_path(&self, alloc: Global, i: usize) -> Result<String, AllocError>
        requires { i < length self.now }
        ensures { IfOk result (λ text. string_bytes text ≡ spec.payload_path self.now i) }
    {
        if self.root == Some(i) {
            return Ok(String::new(alloc));
        }
        let path = self.path(alloc, i)?;
        let all = self.things.all();
        if all[i].old {
            format!(in alloc; "=old/{path}")
        } else {
            Ok(path)
        }
    }

    /// Where the names that lead to an item begin: at itself, or nowhere for the root.
    fn below_root(&self, i: usize) -> Option<usize>
        requires { i < length self.now }
        ensures place { result ≡ below_root self.now i }
        ensures within { IfSome result (λ p. p < length self.now) }
    {
        if self.root == Some(i) { None } else { Some(i) }
    }

    /// The names from an item's own up to that of the folder in the payload; none for the root.
    fn names_up(&self, alloc: Global, i: usize) -> Result<Vec<Name>, AllocError>
        requires { i < length self.now }
        ensures { IfOk result (λ names. names.items
            ≡ names_up self.now (2 ^ 32) (below_root self.now i)) }
    {
        let frame = Frame {
            things: &self.things,
            entries: &self.entries,
            endless: &self.endless,
        };
        frame.names_up(alloc, self.below_root(i))
    }

    /// The name of the root: its item's, or, if that is lost, this one of the volume.
    #[tactic(auto, using(crate::proofs::NameLemmas::root_within))]
    fn root_name(&self, volume: Name) -> Name
        ensures { result ≡ root_name self.now volume }
    {
        let frame = Frame {
            things: &self.things,
            entries: &self.entries,
            endless: &self.endless,
        };
        match self.root {
            Some(root) => frame.thing(root).name,
            None => volume,
        }
    }

    /// The names that lead to an item, from the root's down, on a volume with this name; None if its path below the payload,
    /// which is given, leads to what is old or lost. Fails only when out of memory.
    #[tactic(auto, using(crate::proofs::NameLemmas::turned))]
    pub fn names(
        &self,
        alloc: Global,
        volume: Name,
        i: usize,
        path: &str,
    ) -> Result<Vec<Name>, AllocError>
        requires { i < length self.now }
        ensures { IfOk result (λ names. names.items ≡ names_by self.now volume i path.now) }
    {
        if lies_apart(path) {
            return Ok(Vec::new(alloc));
        }
        let mut names = self.names_up(alloc, i)?;
        names.push(self.root_name(volume))?;
        names.reverse();
        Ok(names)
    }
}
