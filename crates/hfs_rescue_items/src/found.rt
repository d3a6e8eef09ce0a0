//! What was found of an image.
ghost use Rattle.std.specs.Prelude.{◌≡◌};

use hfs_fields::Mdb;
use hfs_remains::FoundRecord;
use hfs_remains_forks::Salvage;
use hfs_remains_places::Places;

/// What was found of an image by its directory: its items, in order, with the place of each and what remains of their forks.
#[derive(Clone, Copy, Drop)]
pub struct Found<'a> {
    /// The directory.
    pub mdb: &'a Mdb,
    pub items: &'a [FoundRecord],
    /// Where the items lie, and after them the folders that only threads name.
    pub places: &'a Places,
    /// The forks of the items.
    pub salvage: &'a Salvage<'a>,
    ghost mdb_is: { mdb.now ≡ salvage.now.trees.mdb.now },
}
