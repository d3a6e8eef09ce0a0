//! The trait of a host's trees.
ghost use Rattle.std.specs.Prelude.{◌≡◌, ℕ, List, IfErr, IfOk, OnOk};
ghost use Rattle.hfs_source.specs.Images.{OfEach};
ghost use Rattle.hfs_put_sources.specs.declared.fault.HostFault.{HostFault};
ghost use Rattle.hfs_put_sources.specs.Faults.{FailLater, FailsWith, IsFaultOf};
ghost use Rattle.hfs_put_sources.specs.Trees.{OfEachTree, Tree};

use crate::entry::{HostEntry, Look};
use crate::fault::HostFault;
use hfs_source::PlacedBytes;
use std::alloc::Global;

/// A host's tree of folders and files; each read may fail. What is read from it holds for every tree consistent with what was
/// read: over memory there is one, over the system each that the system may have.
pub trait HostTree {
    /// The trees consistent with what was read so far.
    ghost Holds: { Self → Tree → Type 0 };

    /// The bytes that a file opened by a path may have.
    ghost Opens: { Self → List ℕ → List ℕ → Type 0 };

    /// The faults that a read may have, besides `NoMemory`.
    ghost Fails: { Self → HostFault → Type 0 };

    /// A file that was opened.
    type File: PlacedBytes + Drop;

    /// The entries of the folder at a path, in no order. A link is listed itself. Faults: `CannotRead` of the folder or of an
    /// entry, `NotUtf8` of the folder, `NoMemory`.
    fn list(&mut self, alloc: Global, folder: &str) -> Result<Vec<HostEntry>, HostFault>
        ensures listed { IfOk result (λ entries. OfEachTree (Holds self.new)
            (λ tree. entries.items ≡ tree.entries folder.now)) }
        ensures held { OfEachTree (Holds self.new) (Holds self.old) }
        ensures failed { IfErr result (IsFaultOf (Fails self.old)) }
        ensures later { FailLater (Fails self.new) (Fails self.old) };

    /// What is seen at a path; None if nothing has it. A link is seen itself. Faults: `CannotRead` of the path, `NoMemory`.
    fn look(&mut self, alloc: Global, path: &str) -> Result<Option<Look>, HostFault>
        ensures seen { IfOk result (λ look. OfEachTree (Holds self.new)
            (λ tree. look ≡ tree.look path.now)) }
        ensures held { OfEachTree (Holds self.new) (Holds self.old) }
        ensures failed { IfErr result (IsFaultOf (Fails self.old)) }
        ensures later { FailLater (Fails self.new) (Fails self.old) };

    /// What a path leads to; None if it leads to nothing. Faults: as for `look`.
    fn target(&mut self, alloc: Global, path: &str) -> Result<Option<Look>, HostFault>
        ensures seen { IfOk result (λ look. OfEachTree (Holds self.new)
            (λ tree. look ≡ tree.target path.now)) }
        ensures held { OfEachTree (Holds self.new) (Holds self.old) }
        ensures failed { IfErr result (IsFaultOf (Fails self.old)) }
        ensures later { FailLater (Fails self.new) (Fails self.old) };

    /// Opens the file at a path, to be read by position. Faults: `CannotRead` of the path, `NoMemory`. If a read of bytes that it
    /// has fails, `CannotRead` of the path is a fault of the tree.
    fn open(&mut self, alloc: Global, path: &str) -> Result<Self::File, HostFault>
        ensures opened { IfOk result (λ file. OfEach (Self.File.Holds file)
            (Opens self.new path.now)) }
        ensures unread { IfOk result (FailsWith Self.File.Holds Self.File.Fails
            (Fails self.old) path.now) }
        ensures held { OfEachTree (Holds self.new) (Holds self.old) }
        ensures failed { IfErr result (IsFaultOf (Fails self.old)) }
        ensures later { FailLater (Fails self.new) (Fails self.old) };

    /// Takes back a file that was opened by this path; what was read from it is the tree's.
    fn take_back(&mut self, path: &str, file: Self::File)
        requires opened { OfEach (Self.File.Holds file) (Opens self.old path.now) }
        ensures bytes { OfEachTree (Holds self.new)
            (λ tree. Self.File.Holds file (tree.bytes path.now)) }
        ensures held { OfEachTree (Holds self.new) (Holds self.old) }
        ensures later { FailLater (Fails self.new) (Fails self.old) };
}
