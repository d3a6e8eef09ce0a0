//! Which blocks of forks have changed since a volume was mounted.
ghost use Rattle.std.specs.Prelude.{◌≡◌, false};
ghost use Rattle.hfs_space.specs.Extents.{IsExtentWithin};
ghost use Rattle.hfs_space.specs.Forks.{HasArea};
ghost use Rattle.hfs_volume.specs.Sharing.{AreExtentsIn};
ghost use Rattle.hfs_viewers.specs.Changed.{AreUnchanged, HasNone, TellsChanges};

use hfs_fields::{Extent, Mdb};
use hfs_space::ChangedBlocks;
use hfs_volume::Volume;

/// Whether one of these changes is to a block of this extent.
fn has_block_of(changes: &ChangedBlocks, mdb: &Mdb, extent: Extent) -> bool
    requires area { HasArea mdb.now 4294967295 }
    requires within { IsExtentWithin mdb.now.allocation_blocks extent }
    ensures { result ≡ false → HasNone changes.now mdb.now extent }
{
    if extent.count == 0 {
        return false;
    }
    let each = mdb.allocation_block_size / 512;
    let first = u32::from(mdb.allocation_start) + u32::from(extent.first) * each;
    for n in first..first + u32::from(extent.count) * each {
        if changes.get(n).is_some() {
            return true;
        }
    }
    false
}

/// Whether a block of these extents has changed since the volume was mounted. `changed` says whether any block has.
pub fn are_changed(volume: &Volume, changed: bool, extents: &[Extent]) -> bool
    requires changed { TellsChanges volume.now changed }
    requires within { AreExtentsIn volume.now.current extents.now }
    ensures { result ≡ false → AreUnchanged volume.now extents.now }
{
    if !changed {
        return false;
    }
    let changes = volume.changes();
    let mdb = volume.directory();
    for i in 0..extents.len() {
        if has_block_of(changes, &mdb, extents[i]) {
            return true;
        }
    }
    false
}
