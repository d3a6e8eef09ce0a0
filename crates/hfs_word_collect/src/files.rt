//! Images by their paths.
ghost use Rattle.std.specs.Prelude.{◌≡◌, None, IfErr, IfOk, IfSome, IfNone};
ghost use Rattle.hfs_source.specs.Images.{AllFail, FailsWhere};
ghost use Rattle.hfs_word_collect.specs.Files.{IsHeldIn, IsLentOf, IsNotHeld, IsSameAs, held_failures};

use crate::collecting::ImageRows;
use crate::watched::WatchedFile;
use crate::{ImageFacts, NotedFile, Reopen};
use hfs_bag::Watch;
use hfs_commands::{Fault, StoredFile, Window, open_file};
use hfs_source::{PlacedBytes, SparseFault};
use std::io::{Read, Seek};
use std::marker::Brand;
use std::rt::Files;

/// A file by its path, which is opened each time it is asked for; something that can't be sought in, such as a pipe, is read once
/// and held.
#[derive(Drop)]
pub struct FileByPath<'a, R: Files, W> {
    rt: &'a R,
    path: &'a str,
    /// What is notified of what is read.
    watch: &'a W,
    /// What is held.
    held: Option<StoredFile<R::File>>,
}

impl<'a, R: Files, W> FileByPath<'a, R, W> {
    /// The file at this path, which isn't opened yet.
    pub fn new(rt: &'a R, path: &'a str, watch: &'a W) -> FileByPath<'a, R, W>
        ensures path { result.path.now ≡ path.now }
        ensures held { result.held ≡ None }
    {
        FileByPath {
            rt,
            path,
            watch,
            held: None,
        }
    }
}

/// The rows of the image in a file.
pub type RowsOfFile<'a, R, W> = ImageRows<
    'a,
    WatchedFile<'a, <R as Files>::File, W>,
    Brand,
    NotedFile<WatchedFile<'a, <R as Files>::File, W>, Brand, FileByPath<'a, R, W>>,
>;

/// The rows of the image at the path in these facts.
pub fn rows_at<'a, R: Files + AllocGlobal, W: Watch>(
    rt: &'a R,
    facts: &'a ImageFacts<'a>,
    watch: &'a W,
) -> RowsOfFile<'a, R, W>
    ensures facts { result.facts.now ≡ facts.now }
    ensures path { result.file.file.path.now ≡ facts.now.path.now }
    ensures held { result.file.file.held ≡ None }
{
    let path = facts.path;
    let file = NotedFile::new(FileByPath::new(rt, path, watch));
    ImageRows::new(rt.alloc(), file, facts)
}

/// Whether as many files can be opened at once as a database needs: itself, its log, and the folder that holds both. If not,
/// opening it would leave an empty file.
pub fn can_open_database<R: Files>(rt: &R) -> bool {
    let opened = (rt.open_dir("/"), rt.open_dir("/"), rt.open_dir("/"));
    opened.0.is_ok() && opened.1.is_ok() && opened.2.is_ok()
}

/// Another handle to the same bytes, if they are held. Fails only when out of memory.
fn again<F: Read + Seek>(file: &StoredFile<F>) -> Result<Option<StoredFile<F>>, SparseFault>
    ensures same { IfOk result (λ found. IfSome found (IsSameAs file.now)) }
    ensures none { IfOk result (λ found. IfNone found (IsNotHeld file.now)) }
    ensures fault { IfErr result (λ fault. fault ≡ SparseFault.Memory) }
{
    match file.again() {
        Ok(found) => Ok(found),
        Err(_) => Err(SparseFault::Memory),
    }
}

impl<R: Files + AllocGlobal, W> FileByPath<'_, R, W> {
    /// Another handle to what is held. Fails only when out of memory.
    fn lent(&self) -> Result<Option<StoredFile<R::File>>, SparseFault>
        ensures lent { IfOk result (λ found. IfSome found (IsLentOf self.now.held)) }
        ensures held { IfOk result (λ found. IfSome found (IsHeldIn self.now.held)) }
        ensures none { IfOk result (λ found. IfNone found (IfSome self.now.held IsNotHeld)) }
        ensures fault { IfErr result (λ fault. fault ≡ SparseFault.Memory) }
    {
        match &self.held {
            Some(file) => again(file),
            None => Ok(None),
        }
    }

    /// The file: what is held of it, or else it is opened; something that can't be sought in is held from then on. Errors: it
    /// can't be opened or read, memory was refused.
    #[tactic(auto, using(crate::proofs::HeldFiles::unheld_fail))]
    fn stored(&mut self) -> Result<StoredFile<R::File>, SparseFault>
        ensures lent { IfOk result (IsLentOf self.old.held) }
        ensures held { IfOk result (IsHeldIn self.new.held) }
        ensures failed { IfErr result (λ fault. fault ≡ SparseFault.ReadFailed
            → AllFail (held_failures self.old.held)) }
        ensures later { FailsWhere (held_failures self.new.held) (held_failures self.old.held) }
    {
        if let Some(file) = self.lent()? {
            return Ok(file);
        }
        match open_file(self.rt, self.path) {
            Ok(Window { source, range: _ }) => {
                self.held = again(&source)?;
                Ok(source)
            }
            Err(unopened) => match unopened.fault {
                Fault::NoMemory => Err(SparseFault::Memory),
                _ => Err(SparseFault::ReadFailed),
            },
        }
    }
}

impl<'a, R: Files + AllocGlobal, W: Watch> Reopen<WatchedFile<'a, R::File, W>>
    for FileByPath<'a, R, W> {
    ghost Fails = { λ file. held_failures file.held };

    #[tactic(auto, using(crate::proofs::HeldFiles::lent_failures))]
    fn reopen(&mut self) -> Result<WatchedFile<'a, R::File, W>, SparseFault> {
        let file = self.stored()?;
        self.watch.began(1, 1, file.len());
        Ok(WatchedFile {
            file,
            watch: self.watch,
        })
    }
}
