//! The parts of a disk.
ghost use Rattle.std.specs.Prelude.{◌≡◌};
ghost use Rattle.hfs_page.specs.Parts.{rank};

use hfs_fields::Extent;
use hfs_space::ForkKind;

/// A part of a disk, in the order in which a picture shows them: it shows the first of the parts that a cell's blocks belong to.
#[derive(Clone, Copy)]
pub enum Part {
    /// The bad blocks, which file 5 owns.
    BadBlocks,
    /// The file of the extents tree.
    ExtentsTree,
    /// The catalog file.
    Catalog,
    /// The extents of files' forks after the first one that has a block.
    LaterExtents,
    /// The first extent that has a block, of each fork of a file.
    FirstExtents,
    /// The blocks that are marked but have no owner.
    Stray,
    /// The blocks that are not marked.
    Free,
}

/// All parts, in order.
pub(crate) const PARTS: [Part; 7] = [
    Part::BadBlocks,
    Part::ExtentsTree,
    Part::Catalog,
    Part::LaterExtents,
    Part::FirstExtents,
    Part::Stray,
    Part::Free,
];

/// The place of a part among all.
pub(crate) fn rank(part: Part) -> u8
    ensures { result ≡ rank part }
{
    match part {
        Part::BadBlocks => 0,
        Part::ExtentsTree => 1,
        Part::Catalog => 2,
        Part::LaterExtents => 3,
        Part::FirstExtents => 4,
        Part::Stray => 5,
        Part::Free => 6,
    }
}

/// A fork of a file.
#[derive(Clone, Copy)]
pub struct FileFork {
    /// The number of the file's record among all records of the catalog, counted from 0.
    pub number: usize,
    /// The file's catalog node ID.
    pub file: u32,
    pub kind: ForkKind,
}

/// What a block is used for.
#[derive(Clone, Copy)]
pub struct BlockUse {
    pub part: Part,
    /// The fork that owns the block, if it is a file's.
    pub fork: Option<FileFork>,
}

/// What an extent's blocks are used for.
#[derive(Clone, Copy)]
pub struct Holding {
    pub extent: Extent,
    pub used: BlockUse,
}
