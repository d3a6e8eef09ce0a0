//! How far a table has been read.
ghost use Rattle.std.specs.Prelude.{◌+◌, ◌^◌, ◌<◌, length};

use hfs_remains::FoundRecord;

/// How far a table has been read.
#[derive(Clone, Copy, Drop)]
pub(crate) struct Lines<'a> {
    /// The number of the item whose line is next.
    pub(crate) next: usize,
    /// That item and those after it.
    pub(crate) items: &'a [FoundRecord],
    ghost few: { next + length items.now < 2 ^ 64 },
}
