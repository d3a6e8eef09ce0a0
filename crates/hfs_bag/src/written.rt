//! What a writer was given, for proofs only: it takes no memory, and its methods do nothing at run time.
ghost use Rattle.std.specs.Prelude.{◌≡◌, ◌++◌, List, ℕ, []};
ghost use Rattle.std.specs.Borrow.{ftrue};

use std::marker::Model;

/// The bytes that a writer was given.
#[derive(Drop)]
pub struct Written {
    pub ghost bytes: { List ℕ },
}

impl Model for Written {
    ghost also_owns = { λ _. ftrue };
}

/// Bytes, as one call gives them.
#[derive(Clone, Copy, Drop)]
pub struct WrittenPiece<'a> {
    pub bytes: &'a [u8],
}

impl Written {
    ghost use Rattle.hfs_bag.specs.Pieces.{with_piece};

    /// The list in which nothing was given.
    pub fn new() -> Written
        ensures { result.bytes ≡ [] }
    {
        Written {}
    }

    /// The list with these bytes appended.
    pub fn then(&self, _piece: &WrittenPiece<'_>) -> Written
        ensures { result.bytes ≡ with_piece self.now.bytes _piece.now }
    {
        Written {}
    }
}
