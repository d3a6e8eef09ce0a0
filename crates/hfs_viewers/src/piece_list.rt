//! Pieces in memory.
ghost use Rattle.std.specs.Prelude.{◌≡◌, ◌≤◌, [], ◌∷◌, ◌++◌, length, OnOk, OnErr};
ghost use Rattle.std.specs.List.{splice};

use crate::piece::Piece;
use std::alloc::{AllocError, Global};
use std::marker::Model;

/// Pieces, one after the other. Contracts see their list.
#[derive(Drop)]
pub struct PieceList {
    items: Vec<Piece>,
}

impl Model for PieceList {
    ghost use Rattle.std.specs.Prelude.{List};
    ghost use Rattle.hfs_viewers.specs.declared.piece.Piece.{Piece};

    ghost Value = { List Piece };

    ghost view = { λ p. p.items.items };
}

impl PieceList {
    /// No pieces. Takes no memory.
    pub fn new(alloc: Global) -> PieceList
        ensures { result ≡ [] }
    {
        PieceList {
            items: Vec::new(alloc),
        }
    }

    /// The pieces, in order.
    pub fn as_slice(&self) -> &[Piece]
        ensures { result.now ≡ self.now }
    {
        &self.items
    }

    /// Adds a piece. When out of memory, nothing has changed.
    pub(crate) fn push(&mut self, piece: Piece) -> Result<(), AllocError>
        ensures ok { OnOk result (self.new ≡ self.old ++ piece ∷ []) }
        ensures err { OnErr result (self.new ≡ self.old) }
    {
        let Ok(()) = self.items.push(piece) else {
            return Err(AllocError);
        };
        Ok(())
    }

    /// Puts pieces in place of those from one number up to another. When out of memory, nothing has changed.
    pub(crate) fn replace(
        &mut self,
        from: usize,
        to: usize,
        come: Vec<Piece>,
    ) -> Result<(), AllocError>
        requires order { from ≤ to }
        requires within { to ≤ length self.old }
        ensures ok { OnOk result (self.new ≡ splice self.old from to come.items) }
        ensures err { OnErr result (self.new ≡ self.old) }
    {
        let Ok(_gone) = self.items.splice(from..to, come) else {
            return Err(AllocError);
        };
        Ok(())
    }
}

impl Clone for PieceList {
    ghost is_clone = { λ x y. y ≡ x };

    fn clone(&self) -> Result<PieceList, AllocError> {
        Ok(PieceList {
            items: Vec::from_clones(self.items.allocator().clone()?, self.as_slice())?,
        })
    }
}
