//! What is found of a volume's trees.
ghost use Rattle.std.specs.Prelude.{◌≤◌};
ghost use Rattle.hfs_remains.specs.TreeFiles.{AreThere};

use hfs_fields::Mdb;
use hfs_remains::OverflowRecord;

/// What is found of a volume's trees, as far as forks need it.
#[derive(Clone, Copy)]
pub struct Trees<'a> {
    /// How many logical blocks the image has.
    pub total: u32,
    /// The directory.
    pub mdb: &'a Mdb,
    /// The records of the extents tree.
    pub overflow: &'a [OverflowRecord],
    /// The allocation blocks of the extents file, in order, with None in place of each that is missing.
    pub extents_file: &'a [Option<u16>],
    /// Those of the catalog file, likewise.
    pub catalog_file: &'a [Option<u16>],
    ghost size: { 512 ≤ mdb.now.allocation_block_size },
    ghost extents_there: { AreThere total mdb.now extents_file.now },
    ghost catalog_there: { AreThere total mdb.now catalog_file.now },
}
