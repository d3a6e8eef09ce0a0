//! The trait of shelves.
ghost use Rattle.std.specs.Prelude.{◌≡◌, List, IfErr, OnErr, OnOk};
ghost use Rattle.hfs_bag.specs.ShelfPlaces.{ShelfPlace};
ghost use Rattle.hfs_bag.specs.declared.shelf_fault.ShelfFault.{ShelfFault};
ghost use Rattle.hfs_bag.specs.Entries.{ShelfEntry, IsBeginning, with_folder, with_file, with_piece};

use crate::shelf_fault::ShelfFault;

/// What takes folders and files: each is made by its path, and a file's bytes come in pieces, one after another. Contracts see a
/// shelf as the list of what it was given, the place where it writes, at which nothing else is done, and the faults that a shelf of
/// its kind may return there.
pub trait Shelf {
    ghost given: { Self → List ShelfEntry };

    ghost place: { Self → ShelfPlace };

    ghost Fails: { ShelfPlace → ShelfFault → Type 0 };

    /// Makes a folder. Faults: `CannotWrite` of its path, `NoMemory`.
    fn make_folder(&mut self, path: &str) -> Result<(), ShelfFault>
        ensures whole { OnOk result (given self.new ≡ with_folder (given self.old) path.now) }
        ensures part { OnErr result (IsBeginning (given self.new)
            (with_folder (given self.old) path.now)) }
        ensures fault { IfErr result (Fails (place self.old)) }
        ensures place { place self.new ≡ place self.old };

    /// Makes an empty file, for the pieces that follow. It is to have this time, in seconds since the beginning of 1970, if one
    /// is given; the shelf may be unable to set it. Faults: as for a folder.
    fn make_file(&mut self, path: &str, modified: Option<u32>) -> Result<(), ShelfFault>
        ensures whole { OnOk result (given self.new ≡ with_file (given self.old) path.now modified) }
        ensures part { OnErr result (IsBeginning (given self.new)
            (with_file (given self.old) path.now modified)) }
        ensures fault { IfErr result (Fails (place self.old)) }
        ensures place { place self.new ≡ place self.old };

    /// Appends these bytes to the file that was made last. Faults: `CannotWrite` of its path, also if nothing or a folder was
    /// made last; `NoMemory`.
    fn append(&mut self, piece: &[u8]) -> Result<(), ShelfFault>
        ensures whole { OnOk result (given self.new ≡ with_piece (given self.old) piece.now) }
        ensures part { OnErr result (IsBeginning (given self.new)
            (with_piece (given self.old) piece.now)) }
        ensures fault { IfErr result (Fails (place self.old)) }
        ensures place { place self.new ≡ place self.old };
}
