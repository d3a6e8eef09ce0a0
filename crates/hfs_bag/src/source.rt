//! What a bag is filled from.
ghost use Rattle.std.specs.Prelude.{◌≡◌, ◌+◌, ◌++◌, ℕ, List, IfOk, MatchResult, OnOk, length, string_bytes};
ghost use Rattle.hfs_source.specs.Images.{OfEach};
ghost use Rattle.hfs_bag.specs.declared.source.SourceFault.{SourceFault};
ghost use Rattle.hfs_bag.specs.Sources.{HasOpened, HasRead, HasRestarted, IsFewer, SourceState, TakesItem, has_remains};

use crate::item::BagHead;
use std::alloc::AllocError;

/// Bytes that are read in pieces.
#[derive(Clone, Copy, Debug, PartialEq, Eq)]
pub enum Stream {
    /// Those of the data fork of the item that came last.
    DataFork,
    /// Those of its resource fork.
    ResourceFork,
    /// The table of all items, as CSV.
    Table,
    /// The table of what remains of each item, if the source has it.
    Remains,
}

/// Why a source did not give what was asked for.
#[derive(Clone, Copy, Debug, PartialEq, Eq)]
pub enum SourceFault {
    /// A read failed.
    ReadFailed,
    /// Memory was refused.
    Memory,
}

/// A volume's items below the root, one after the other, each after the folder that holds it, with the bytes of their forks in
/// pieces. Contracts see the items of every image consistent with the bytes read, and which faults a source of this kind may
/// return.
pub trait BagSource {
    /// The images consistent with the bytes read so far: over memory that is one, over a file each that it may be.
    ghost Holds: { Self → List ℕ → Type 0 };

    /// The items of such an image.
    ghost state: { Self → List ℕ → SourceState };

    /// How many items are left, at most.
    ghost items_left: { Self → ℕ };

    /// How many bytes of a stream are left to read, at most.
    ghost bytes_left: { Self → ℕ };

    ghost Fails: { SourceFault → Type 0 };

    /// Whether there is a table of what remains of each item.
    fn tells_remains(&self) -> bool
        ensures { OfEach (Holds self.now) (λ image. result ≡ has_remains (state self.now image).tables) };

    /// Starts again with the first item.
    fn restart(&mut self) -> Result<(), SourceFault>
        ensures restarted { MatchResult result (λ _. OfEach (Holds self.new)
            (λ image. HasRestarted (state self.old image) (state self.new image))) Fails }
        ensures narrows { OfEach (Holds self.new) (Holds self.old) };

    /// The head of the next item, or None after the last one.
    fn next_item(&mut self) -> Result<Option<BagHead>, SourceFault>
        ensures taken { MatchResult result (λ head. OfEach (Holds self.new)
            (λ image. TakesItem (state self.old image) (state self.new image) head)) Fails }
        ensures fewer { IfOk result (IsFewer (items_left self.old) (items_left self.new)) }
        ensures narrows { OfEach (Holds self.new) (Holds self.old) };

    /// Appends the path, below the payload, of the folder that holds the item that came last, followed by a slash.
    fn push_above(&self, text: &mut String) -> Result<(), AllocError>
        ensures { OnOk result (OfEach (Holds self.now)
            (λ image. string_bytes text.new ≡ string_bytes text.old ++ (state self.now image).item.above)) };

    /// Appends the name of that item there.
    fn push_name(&self, text: &mut String) -> Result<(), AllocError>
        ensures { OnOk result (OfEach (Holds self.now)
            (λ image. string_bytes text.new ≡ string_bytes text.old ++ (state self.now image).item.name)) };

    /// Makes a stream ready to be read from its first byte.
    fn open(&mut self, stream: Stream) -> Result<(), SourceFault>
        ensures opened { MatchResult result (λ _. OfEach (Holds self.new)
            (λ image. HasOpened stream (state self.old image) (state self.new image))) Fails }
        ensures stays { items_left self.new ≡ items_left self.old }
        ensures narrows { OfEach (Holds self.new) (Holds self.old) };

    /// Replaces the piece with the next bytes of the stream, or with none at its end.
    fn read(&mut self, piece: &mut Vec<u8>) -> Result<(), SourceFault>
        ensures read { MatchResult result (λ _. OfEach (Holds self.new)
            (λ image. HasRead piece.new.items (state self.old image) (state self.new image))) Fails }
        ensures fewer { OnOk result (bytes_left self.old ≡ length piece.new.items + bytes_left self.new) }
        ensures stays { items_left self.new ≡ items_left self.old }
        ensures narrows { OfEach (Holds self.new) (Holds self.old) };
}
