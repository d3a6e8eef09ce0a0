//! What rows hold of an item.
ghost use Rattle.std.specs.Prelude.{◌≡◌};
ghost use Rattle.hfs_viewers.specs.Places.{place};

use crate::ForkPieces;
use crate::extents::Extents;
use crate::place::Place;
use hfs_fields::Name;
use std::alloc::AllocError;

/// A folder or a file, without its ID. The bytes of its forks are in the base.
#[derive(Drop)]
pub struct Row {
    /// The ID of the folder that holds the item; 1 for the root.
    pub parent: u32,
    pub name: Name,
    pub created: u32,
    pub modified: u32,
    pub backup: u32,
    pub finder: [u8; 32],
    pub kind: RowKind,
}

impl Row {
    /// Where its item is.
    pub fn place(&self) -> Place
        ensures { result ≡ place self.now.parent self.now.name }
    {
        Place {
            parent: self.parent,
            name: self.name,
        }
    }
}

impl Clone for Row {
    ghost is_clone = { λ x y. y ≡ x };

    fn clone(&self) -> Result<Row, AllocError> {
        Ok(Row {
            kind: self.kind.clone()?,
            ..*self
        })
    }
}

/// Whether an item is a folder or a file, and what only that kind has.
#[derive(Clone, Drop)]
pub enum RowKind {
    Folder {
        kept: [u8; 70],
        /// The number of its children.
        children: u32,
    },
    File(RowFile),
}

/// What only a file has.
#[derive(Clone, Drop)]
pub struct RowFile {
    pub kept: [u8; 102],
    pub locked: bool,
    /// Whether the catalog has a thread record for it.
    pub has_thread: bool,
    pub data: RowFork,
    pub resource: RowFork,
}

/// Where a fork's bytes are in the base, and what calls made of them.
#[derive(Clone, Drop)]
pub struct RowFork {
    pub extents: Extents,
    pub pieces: ForkPieces,
}
