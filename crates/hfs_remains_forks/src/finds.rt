//! What is found of an image by its directory.
ghost use Rattle.std.specs.Prelude.{◌<◌, ◌≤◌};
ghost use Rattle.hfs_remains.specs.TreeFiles.{AreThere};

use hfs_fields::Mdb;
use hfs_remains::{FoundRecord, OverflowRecord};
use hfs_remains_places::Places;

/// What is found of an image by its directory.
#[derive(Drop)]
pub struct Finds {
    /// The number of the block that is taken for the directory.
    pub directory: u32,
    /// The directory.
    pub mdb: Mdb,
    /// Whether neither tree begins where the directory says.
    pub is_unsure: bool,
    /// How many logical blocks the image has.
    pub total: u32,
    /// The records of the extents tree.
    pub overflow: Vec<OverflowRecord>,
    /// The allocation blocks of the extents file, in order, with None in place of each that is missing.
    pub extents_file: Vec<Option<u16>>,
    /// The allocation blocks of the catalog file, likewise.
    pub catalog_file: Vec<Option<u16>>,
    /// Whether the catalog has its shape, and each of its records is of one of the four kinds.
    pub is_catalog_right: bool,
    /// The items, in order.
    pub items: Vec<FoundRecord>,
    /// Where the items lie, and after them the folders that only threads name.
    pub places: Places,
    ghost within: { directory < total },
    ghost size: { 512 ≤ mdb.allocation_block_size },
    ghost extents_there: { AreThere total mdb extents_file.items },
    ghost catalog_there: { AreThere total mdb catalog_file.items },
}
