//! The two counts of a tree's header record.

ghost use Rattle.std.specs.Prelude.{◌≡◌, ◌<◌, ◌^◌};
ghost use Rattle.hfs_btree_checks.specs.Counts as spec;

use hfs_btree::Header;

/// The two counts of a tree's header record, as the record has them and as they are counted.
#[derive(Clone, Copy, Debug, PartialEq, Eq)]
pub struct TreeCounts {
    /// The header record, which has them as `records` and `free_nodes`.
    pub header: Header,
    /// How many records the leaves have. None if there are more than the four bytes of bthNRecs can hold.
    pub records: Option<u32>,
    /// How many of the tree's nodes have a clear bit in the node map.
    pub free_nodes: u32,
}

/// A number, if the four bytes of its field can hold it.
#[tactic(auto, unfolding(crate::specs::Counts::in_field))]
pub(crate) fn in_field(number: usize) -> Option<u32>
    ensures { result ≡ spec.in_field number }
{
    if number <= 4_294_967_295 {
        Some(number as u32)
    } else {
        None
    }
}

/// Whether both counts of the header record are right.
#[tactic(auto, unfolding(crate::specs::Counts::tells_right))]
pub(crate) fn tells_right(counts: &TreeCounts) -> bool
    ensures right { result ≡ spec.tells_right counts.now }
    ensures small { counts.now.header.records < 2 ^ 32 }
{
    let told = counts.header.records;
    let records_right = match counts.records {
        Some(records) => told == records,
        None => false,
    };
    records_right && counts.header.free_nodes == counts.free_nodes
}
