//! The pieces of a fork.
ghost use Rattle.std.specs.Prelude.{◌≡◌, IfOk};
ghost use Rattle.hfs_viewers.specs.Pieces.{skipped};
ghost use Rattle.hfs_viewers.specs.PieceEdits.{MaySkip};

use hfs_model::SharedBytes;
use std::alloc::AllocError;

/// Where the bytes of a piece are found, from the first one on.
#[derive(Drop)]
pub enum Source {
    /// In the base's fork, at this place.
    Base { from: u32 },
    /// Nowhere: each is zero.
    Zeros,
    /// In the bytes of a call, at this place.
    Given { bytes: SharedBytes, from: u32 },
}

/// A piece of a fork.
#[derive(Drop)]
pub struct Piece {
    /// The place in the fork where it ends. It begins where the piece before it ends; the first begins at 0.
    pub end: u32,
    pub source: Source,
}

impl Clone for Source {
    ghost is_clone = { λ x y. y ≡ x };

    fn clone(&self) -> Result<Source, AllocError> {
        match self {
            Source::Base { from } => Ok(Source::Base { from: *from }),
            Source::Zeros => Ok(Source::Zeros),
            Source::Given { bytes, from } => Ok(Source::Given {
                bytes: bytes.clone()?,
                from: *from,
            }),
        }
    }
}

impl Clone for Piece {
    ghost is_clone = { λ x y. y ≡ x };

    fn clone(&self) -> Result<Piece, AllocError> {
        Ok(Piece {
            end: self.end,
            source: self.source.clone()?,
        })
    }
}

impl Source {
    /// The source of the bytes after the first `count`; it shares what this one shares.
    pub(crate) fn skipped(&self, count: u32) -> Result<Source, AllocError>
        requires { MaySkip count self.now }
        ensures { IfOk result (λ source. source ≡ skipped count self.now) }
    {
        match self {
            Source::Base { from } => Ok(Source::Base {
                from: *from + count,
            }),
            Source::Zeros => Ok(Source::Zeros),
            Source::Given { bytes, from } => Ok(Source::Given {
                bytes: bytes.clone()?,
                from: *from + count,
            }),
        }
    }
}
