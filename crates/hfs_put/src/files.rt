//! Files of a host that are read piece by piece.
ghost use Rattle.std.specs.Prelude.{◌≡◌, [], IfOk, None, OnErr, OnOk};
ghost use Rattle.hfs_source.specs.Images.{HasAt, OfEach};
ghost use Rattle.hfs_put_sources.specs.Trees.{OfEachTree, Tree};
ghost use Rattle.hfs_put.specs.Again.{AreUnchanged};
ghost use Rattle.hfs_put.specs.Files.{IsReadOf, with_opened};

use crate::again::look_again;
use hfs_put_sources::{HostFault, HostTree, SourceItem, cannot_read};
use hfs_source::PlacedBytes;
use std::alloc::Global;
use std::marker::Model;

/// Files of a host that are read by path and position. What is read from them holds for every tree consistent with what was read.
pub trait PlacedFiles {
    /// The trees consistent with what was read so far.
    ghost Holds: { Self → Tree → Type 0 };

    /// Reads bytes of the file at a path, from byte `place` on, as many as there is room for. Faults: those of the tree, if the
    /// file can't be opened; `CannotRead` of the path, if the read fails or the file ends before the room is full; `NoMemory`.
    fn read_at(
        &mut self,
        alloc: Global,
        path: &str,
        place: u64,
        into: &mut [u8],
    ) -> Result<(), HostFault>
        ensures read { OnOk result (OfEachTree (Holds self.new)
            (λ host. HasAt place into.new (host.bytes path.now))) }
        ensures held { OfEachTree (Holds self.new) (Holds self.old) };

    /// Looks again at the files of all items. Faults: as for [`look_again`].
    fn look_again(&mut self, alloc: Global, items: &[SourceItem]) -> Result<(), HostFault>
        ensures same { OnOk result (OfEachTree (Holds self.new) (AreUnchanged items.now)) }
        ensures held { OfEachTree (Holds self.new) (Holds self.old) };
}

/// A host's tree, whose file that was read last stays open. Contracts see the tree, the open file, and the path by which the last
/// file was opened.
#[derive(Drop)]
pub struct HostFiles<T: HostTree> {
    tree: T,
    path: String,
    file: Option<T::File>,
}

impl<T: HostTree> Model for HostFiles<T> {
    ghost use Rattle.std.specs.Prelude.{string_bytes};
    ghost use Rattle.hfs_put.specs.Files.{CanBeTaken, ReadTree};

    ghost Value = { ReadTree T T.File };

    ghost view = { λ files. record { tree = files.tree; path = string_bytes files.path; file = files.file } };

    ghost invariant = { λ files. CanBeTaken T.Opens T.File.Holds files.tree (string_bytes files.path) files.file };
}

impl<T: HostTree + Drop> HostFiles<T> {
    /// A tree with no open file. Takes no memory.
    pub fn new(alloc: Global, tree: T) -> HostFiles<T>
        ensures { result ≡ record { tree = tree; path = []; file = None } }
    {
        HostFiles {
            tree,
            path: String::new(alloc),
            file: None,
        }
    }

    /// Opens a file by its path, or takes the one that is open by this path; another open file is handed back to the tree first.
    fn open(&mut self, alloc: Global, path: &str) -> Result<T::File, HostFault>
        ensures path { OnOk result (self.new.path ≡ path.now) }
        ensures out { self.new.file ≡ None }
        ensures opened { IfOk result (λ file. OfEach (T.File.Holds file)
            (T.Opens self.new.tree path.now)) }
        ensures held { IfOk result (λ file. OfEachTree
            (IsReadOf T.Holds T.File.Holds (with_opened self.new file))
            (IsReadOf T.Holds T.File.Holds self.old)) }
        ensures lost { OnErr result (OfEachTree (T.Holds self.new.tree)
            (IsReadOf T.Holds T.File.Holds self.old)) }
    {
        match self.file.take() {
            Some(file) => {
                if self.path.as_str() == path {
                    return Ok(file);
                }
                self.tree.take_back(self.path.as_str(), file);
            }
            None => {}
        }
        self.path = String::from_str(alloc, path)?;
        self.tree.open(alloc, path)
    }

    /// Hands the open file back to the tree.
    fn close(&mut self)
        ensures closed { self.new.file ≡ None }
        ensures held { OfEachTree (T.Holds self.new.tree) (IsReadOf T.Holds T.File.Holds self.old) }
    {
        if let Some(file) = self.file.take() {
            self.tree.take_back(self.path.as_str(), file);
        }
    }
}

impl<T: HostTree + Drop> PlacedFiles for HostFiles<T> {
    ghost Holds = { λ files. IsReadOf T.Holds T.File.Holds files };

    fn read_at(
        &mut self,
        alloc: Global,
        path: &str,
        place: u64,
        into: &mut [u8],
    ) -> Result<(), HostFault> {
        let mut file = self.open(alloc, path)?;
        let read = file.read_at(place, into);
        self.file = Some(file);
        match read {
            Ok(()) => Ok(()),
            Err(_) => Err(cannot_read(alloc, path)),
        }
    }

    fn look_again(&mut self, alloc: Global, items: &[SourceItem]) -> Result<(), HostFault> {
        self.close();
        look_again(alloc, &mut self.tree, items)
    }
}
