//! Paths of things; each folder's path is made after that of the folder above it.

ghost use Rattle.std.specs.Prelude.{◌≡◌, ◌+◌, ◌<◌, nat_lt, Some, None, map, length, IfOk, IfSome, string_bytes};
ghost use Rattle.hfs_remains_places.specs.Chains.{endless_of, place_at, ups_of, is_endless};
ghost use Rattle.hfs_catalog.specs.Indexes.{is_place};
ghost use Rattle.hfs_remains_places.specs.Entries.{entries_of};
ghost use Rattle.hfs_remains_places.specs.Folders.{thing_at};
ghost use Rattle.hfs_remains_places.specs.Things.{folder_of};
ghost use Rattle.hfs_remains_places.specs.Paths as spec;

use crate::placing::known_path;
use crate::things::{Thing, Things};
use std::alloc::{AllocError, Global};

/// How many bytes the path of a folder in its parent's may have.
const LONGEST: usize = 800;

/// What paths are made of.
#[derive(Drop)]
pub(crate) struct Frame<'a> {
    pub(crate) things: &'a Things,
    /// The entry of each thing.
    pub(crate) entries: &'a [String],
    /// For each thing, whether its chain of parents has no end.
    pub(crate) endless: &'a [bool],
    ghost entries_are: { map string_bytes entries.now ≡ entries_of things.now },
    ghost entries_all: { length entries.now ≡ length things.now },
    ghost endless_are: { endless.now ≡ endless_of (ups_of things.now) },
    ghost endless_all: { length endless.now ≡ length things.now },
}

/// The path of a thing that is lost.
#[tactic(auto, unfolding(crate::specs::Paths::lost))]
fn lost(alloc: Global, parent: u32, entry: &str) -> Result<String, AllocError>
    ensures { IfOk result (λ text. string_bytes text ≡ spec.lost parent entry.now) }
{
    format!(in alloc; "=lost/{parent}/{entry}")
}

/// The path of a thing in a folder.
#[tactic(auto, unfolding(crate::specs::Paths::within))]
fn within(alloc: Global, above: &str, entry: &str) -> Result<String, AllocError>
    ensures { IfOk result (λ text. string_bytes text ≡ spec.within above.now entry.now) }
{
    format!(in alloc; "{above}/{entry}")
}

/// Whether the path of an entry of this length, in a folder whose path has this length, is too long.
fn is_long(above: usize, entry: usize) -> bool
    ensures { result ≡ nat_lt 800 (above + 1 + entry) }
{
    if above > LONGEST || entry > LONGEST {
        return true;
    }
    above + 1 + entry > LONGEST
}

impl Frame<'_> {
    /// The thing at a place.
    pub(crate) fn thing(&self, i: usize) -> &Thing
        requires { i < length self.now.things.now }
        ensures { result.now ≡ thing_at self.now.things.now i }
    {
        let all = self.things.all();
        &all[i]
    }

    /// The place of the folder above a thing.
    pub(crate) fn up(&self, i: usize) -> Option<usize>
        requires { i < length self.now.things.now }
        ensures is { result ≡ place_at (ups_of self.now.things.now) i }
        ensures within { IfSome result (λ p. p < length self.now.things.now) }
    {
        self.things.folder(self.thing(i).parent)
    }

    /// Whether the folder with a number is at this place.
    fn is_place_of(&self, number: u32, i: usize) -> bool
        ensures { result ≡ is_place (folder_of self.now.things.now number) i }
    {
        match self.things.folder(number) {
            Some(place) => place == i,
            None => false,
        }
    }

    /// Whether a thing is the folder with its number.
    pub(crate) fn is_folder(&self, i: usize) -> bool
        requires { i < length self.now.things.now }
        ensures { result ≡ spec.is_folder_at self.now.things.now i }
    {
        match self.thing(i).folder {
            Some(number) => self.is_place_of(number, i),
            None => false,
        }
    }

    /// Whether a thing's chain of parents has no end.
    pub(crate) fn is_endless(&self, i: usize) -> bool
        requires { i < length self.now.things.now }
        ensures { result ≡ is_endless (ups_of self.now.things.now) i }
    {
        let endless = self.endless;
        endless[i]
    }

    /// The entry of a thing.
    fn entry(&self, i: usize) -> &str
        requires { i < length self.now.things.now }
        ensures { result.now ≡ spec.entry_at self.now.things.now i }
    {
        let entries = self.entries;
        let entry = &entries[i];
        entry.as_str()
    }

    /// The path of a thing that is lost.
    pub(crate) fn lost(&self, alloc: Global, i: usize) -> Result<String, AllocError>
        requires { i < length self.now.things.now }
        ensures { IfOk result (λ text. string_bytes text ≡ spec.lost_at self.now.things.now i) }
    {
        let text = lost(alloc, self.thing(i).parent, self.entry(i))?;
        Ok(text)
    }

    /// Whether a thing is the folder with its number and can't be in a folder whose path has this length.
    fn is_cut(&self, i: usize, above: usize) -> bool
        requires { i < length self.now.things.now }
        ensures { result ≡ spec.is_cut self.now.things.now i above }
    {
        if !self.is_folder(i) {
            return false;
        }
        self.is_endless(i) || is_long(above, self.entry(i).len())
    }

    /// The path of a thing with no folder above it.
    fn top_path(&self, alloc: Global, i: usize) -> Result<String, AllocError>
        requires within { i < length self.now.things.now }
        requires top { place_at (ups_of self.now.things.now) i ≡ None }
        ensures { IfOk result (λ text. string_bytes text ≡ spec.path self.now.things.now i) }
    {
        let parent = self.thing(i).parent;
        if parent == 2 {
            let text = String::from_str(alloc, self.entry(i))?;
            return Ok(text);
        }
        let text = self.lost(alloc, i)?;
        Ok(text)
    }

    /// The path of a thing, given the path of the folder above it.
    fn inner_path(
        &self,
        alloc: Global,
        i: usize,
        p: usize,
        above: &str,
    ) -> Result<String, AllocError>
        requires within { i < length self.now.things.now }
        requires inner { place_at (ups_of self.now.things.now) i ≡ Some p }
        requires above { above.now ≡ spec.path self.now.things.now p }
        ensures { IfOk result (λ text. string_bytes text ≡ spec.path self.now.things.now i) }
    {
        let cut = self.is_cut(i, above.len());
        if cut {
            let text = self.lost(alloc, i)?;
            return Ok(text);
        }
        let text = within(alloc, above, self.entry(i))?;
        Ok(text)
    }

    /// The path of a thing, if that of the folder above it is known.
    pub(crate) fn path(
        &self,
        alloc: Global,
        paths: &[Option<String>],
        i: usize,
    ) -> Result<String, AllocError>
        requires within { i < length self.now.things.now }
        requires all { length paths.now ≡ length self.now.things.now }
        requires right { spec.AreRight self.now.things.now paths.now }
        requires ready { spec.IsReady self.now.things.now paths.now i }
        ensures { IfOk result (λ text. string_bytes text ≡ spec.path self.now.things.now i) }
    {
        let Some(p) = self.up(i) else {
            return self.top_path(alloc, i);
        };
        self.inner_path(alloc, i, p, known_path(paths, p))
    }
}
