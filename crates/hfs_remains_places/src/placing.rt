//! The paths of all folders, placed one after the other.

ghost use Rattle.std.specs.Prelude.{◌≡◌, ◌<◌, ℕ, true, false, Some, None, length, set, slice_index_or, IfOk, IfSome, OnOk, string_bytes};
ghost use Rattle.hfs_remains_places.specs.Chains.{ups_of, is_endless};
ghost use Rattle.hfs_remains_places.specs.Paths as spec;

use crate::names::STEPS;
use crate::paths::Frame;
use std::alloc::{AllocError, Global};

impl Frame<'_> {
    /// Makes the path of a thing, if that of the folder above it is known.
    fn place(&self, alloc: Global, paths: &mut [Option<String>], i: usize) -> Result<(), AllocError>
        requires within { i < length self.now.things.now }
        requires all { length paths.old ≡ length self.now.things.now }
        requires right { spec.AreRight self.now.things.now paths.old }
        requires ready { spec.IsReady self.now.things.now paths.old i }
        ensures right { OnOk result (spec.AreRight self.now.things.now paths.new) }
        ensures all { OnOk result (length paths.new ≡ length self.now.things.now) }
        ensures known { OnOk result (spec.IsKnown paths.new i) }
        ensures keeps { OnOk result (spec.Keeps paths.old paths.new) }
    {
        let text = self.path(alloc, paths, i)?;
        put_path(paths, i, text);
        Ok(())
    }

    /// Sets the path of a folder whose chain of parents has no end.
    fn place_lost(
        &self,
        alloc: Global,
        paths: &mut [Option<String>],
        i: usize,
    ) -> Result<(), AllocError>
        requires within { i < length self.now.things.now }
        requires all { length paths.old ≡ length self.now.things.now }
        requires right { spec.AreRight self.now.things.now paths.old }
        requires folder { spec.is_folder_at self.now.things.now i ≡ true }
        requires endless { is_endless (ups_of self.now.things.now) i ≡ true }
        ensures right { OnOk result (spec.AreRight self.now.things.now paths.new) }
        ensures all { OnOk result (length paths.new ≡ length self.now.things.now) }
        ensures known { OnOk result (spec.IsKnown paths.new i) }
        ensures keeps { OnOk result (spec.Keeps paths.old paths.new) }
    {
        let text = self.lost(alloc, i)?;
        put_path(paths, i, text);
        Ok(())
    }

    /// The places from a folder upwards, as long as their paths are not known.
    fn unknown_above(
        &self,
        alloc: Global,
        paths: &[Option<String>],
        i: usize,
    ) -> Result<Vec<usize>, AllocError>
        requires within { i < length self.now.things.now }
        requires all { length paths.now ≡ length self.now.things.now }
        requires ends { is_endless (ups_of self.now.things.now) i ≡ false }
        ensures { IfOk result (λ row. spec.IsRow self.now.things.now paths.now row.items i) }
    {
        let mut row = Vec::new(alloc);
        let mut at = i;
        let mut left = STEPS;
        while left > 0 {
            if paths[at].is_some() {
                return Ok(row);
            }
            row.push(at)?;
            let Some(p) = self.up(at) else {
                return Ok(row);
            };
            at = p;
            left -= 1;
        }
        unreachable!()
    }

    /// Makes the paths of these folders, starting with the last one's.
    fn place_row(
        &self,
        alloc: Global,
        paths: &mut [Option<String>],
        mut row: Vec<usize>,
        i: usize,
    ) -> Result<(), AllocError>
        requires all { length paths.old ≡ length self.now.things.now }
        requires right { spec.AreRight self.now.things.now paths.old }
        requires row { spec.IsRow self.now.things.now paths.old row.items i }
        ensures right { OnOk result (spec.AreRight self.now.things.now paths.new) }
        ensures all { OnOk result (length paths.new ≡ length self.now.things.now) }
        ensures known { OnOk result (spec.IsKnown paths.new i) }
        ensures keeps { OnOk result (spec.Keeps paths.old paths.new) }
    {
        while let Some(x) = row.pop() {
            self.place(alloc, paths, x)?;
        }
        Ok(())
    }

    /// Makes the path of a thing that is the folder with its number, and before it those of the folders above it that are not
    /// known.
    fn place_folder(
        &self,
        alloc: Global,
        paths: &mut [Option<String>],
        i: usize,
    ) -> Result<(), AllocError>
        requires within { i < length self.now.things.now }
        requires all { length paths.old ≡ length self.now.things.now }
        requires right { spec.AreRight self.now.things.now paths.old }
        requires folder { spec.is_folder_at self.now.things.now i ≡ true }
        ensures right { OnOk result (spec.AreRight self.now.things.now paths.new) }
        ensures all { OnOk result (length paths.new ≡ length self.now.things.now) }
        ensures known { OnOk result (spec.IsKnown paths.new i) }
        ensures keeps { OnOk result (spec.Keeps paths.old paths.new) }
    {
        if self.is_endless(i) {
            return self.place_lost(alloc, paths, i);
        }
        let row = self.unknown_above(alloc, paths, i)?;
        self.place_row(alloc, paths, row, i)
    }

    /// Makes the path of a thing, if it is the folder with its number.
    fn place_next(
        &self,
        alloc: Global,
        paths: &mut [Option<String>],
        i: usize,
    ) -> Result<(), AllocError>
        requires within { i < length self.now.things.now }
        requires all { length paths.old ≡ length self.now.things.now }
        requires right { spec.AreRight self.now.things.now paths.old }
        ensures right { OnOk result (spec.AreRight self.now.things.now paths.new) }
        ensures all { OnOk result (length paths.new ≡ length self.now.things.now) }
        ensures known { OnOk result (spec.is_folder_at self.now.things.now i ≡ true
            → spec.IsKnown paths.new i) }
        ensures keeps { OnOk result (spec.Keeps paths.old paths.new) }
    {
        if self.is_folder(i) {
            self.place_folder(alloc, paths, i)
        } else {
            Ok(())
        }
    }

    /// Makes the paths of all folders.
    fn place_all(&self, alloc: Global, paths: &mut [Option<String>]) -> Result<(), AllocError>
        requires all { length paths.old ≡ length self.now.things.now }
        requires right { spec.AreRight self.now.things.now paths.old }
        ensures all { OnOk result (length paths.new ≡ length self.now.things.now) }
        ensures right { OnOk result (spec.AreRight self.now.things.now paths.new) }
        ensures known { OnOk result (spec.AreKnown self.now.things.now paths.new) }
    {
        let count = self.things.len();
        for i in 0..count {
            self.place_next(alloc, paths, i)?;
        }
        Ok(())
    }

    /// The paths of all folders.
    pub(crate) fn folder_paths(&self, alloc: Global) -> Result<Vec<Option<String>>, AllocError>
        ensures all { IfOk result (λ paths. length paths.items ≡ length self.now.things.now) }
        ensures right { IfOk result (λ paths. spec.AreRight self.now.things.now paths.items) }
        ensures known { IfOk result (λ paths. spec.AreKnown self.now.things.now paths.items) }
    {
        let mut paths = no_paths(alloc, self.things.len())?;
        self.place_all(alloc, &mut paths)?;
        Ok(paths)
    }
}

/// The path of a thing, which is known.
pub(crate) fn known_path(paths: &[Option<String>], i: usize) -> &str
    requires within { i < length paths.now }
    requires known { spec.IsKnown paths.now i }
    ensures { IfSome (slice_index_or paths.now i None) (λ text. string_bytes text ≡ result.now) }
{
    match &paths[i] {
        Some(text) => text.as_str(),
        None => unreachable!(),
    }
}

/// Sets the path of a thing.
fn put_path(paths: &mut [Option<String>], i: usize, text: String)
    requires { i < length paths.old }
    ensures { paths.new ≡ set paths.old i (Some text) }
{
    paths[i] = Some(text);
}

/// No paths, for `count` things.
fn no_paths(alloc: Global, count: usize) -> Result<Vec<Option<String>>, AllocError>
    ensures all { IfOk result (λ paths. length paths.items ≡ count) }
    ensures none { IfOk result (λ paths. (i : ℕ) → slice_index_or paths.items i None ≡ None) }
{
    let mut paths = Vec::new(alloc);
    while paths.len() < count {
        paths.push(None)?;
    }
    Ok(paths)
}
