//! The checks of mounting on the extents of a file.
ghost use Rattle.std.specs.Prelude.{◌≡◌, ◌&&◌};
ghost use Rattle.hfs_space.specs.Faults as spec;

use crate::extents::are_within;
use hfs_fields::{Extent, Mdb};

/// Whether the blocks of the extents have room for `bytes` bytes.
fn have_room(mdb: &Mdb, extents: &[Extent], bytes: u32) -> bool
    ensures { result ≡ spec.have_room mdb.now extents.now bytes }
{
    let each = u64::from(mdb.allocation_block_size);
    let mut rest = u64::from(bytes);
    for extent in extents {
        rest = rest.saturating_sub(u64::from(extent.count) * each);
    }
    rest == 0
}

/// Whether the extents lie within the volume's allocation blocks, and their blocks have room for `bytes` bytes.
pub(crate) fn can_hold(mdb: &Mdb, extents: &[Extent], bytes: u32) -> bool
    ensures { result ≡ spec.can_hold mdb.now extents.now bytes }
{
    are_within(extents, mdb.allocation_blocks) && have_room(mdb, extents, bytes)
}

/// Whether a tree's file is right: its extents lie within the volume's allocation blocks (drNmAlBlks), and their blocks have room
/// for its `size` bytes (drXTFlSize, drCTFlSize), which are at least the 512 of a node. Takes no memory.
#[tactic(auto, unfolding(crate::specs::Faults::is_tree_file))]
pub fn is_tree_file(mdb: &Mdb, extents: &[Extent], size: u32) -> bool
    ensures { result ≡ spec.is_tree_file mdb.now extents.now size }
{
    can_hold(mdb, extents, size) && 512 <= size
}
