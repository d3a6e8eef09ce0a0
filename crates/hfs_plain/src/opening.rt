//! The plain volume of an image.

ghost use Rattle.std.specs.Prelude.{◌≡◌, IfOk};
ghost use Rattle.hfs_check.specs.VolumeOf.{volume_of};
ghost use Rattle.hfs_viewers.specs.Tables as tables;
ghost use Rattle.hfs_viewers.specs.Tables.{IsTable};
ghost use Rattle.hfs_model.specs.Lawful.{IsLawful};

use crate::fault::Fault;
use crate::items::items_of;
use hfs_store::PlainVolume;
use hfs_viewers::{Rows, Table};
use hfs_volume::{Volume, mount};
use std::alloc::{AllocError, Global};

/// The plain volume of a table.
fn plain_table(alloc: Global, table: &Table) -> Result<PlainVolume, AllocError>
    requires table { IsTable table.now }
    requires lawful { IsLawful (tables.volume_of table.now) }
    ensures { IfOk result (λ plain. plain ≡ tables.volume_of table.now) }
{
    let items = items_of(alloc, table)?;
    let mut plain = PlainVolume::of(alloc, items, table.next_id, table.changed);
    plain.set_locks(table.hardware_locked, table.software_locked);
    plain.set_block_size(table.mdb.allocation_block_size);
    Ok(plain)
}

/// The plain volume of a mounted volume as it is now. Fails only when out of memory.
fn plain_volume(alloc: Global, volume: &Volume) -> Result<PlainVolume, AllocError>
    ensures { IfOk result (λ plain. plain ≡ volume_of volume.now.current) }
{
    let rows = Rows::of(alloc, volume)?;
    plain_table(alloc, rows.table())
}

/// The plain volume of an image, or why the image is refused.
pub fn open(alloc: Global, image: Vec<u8>) -> Result<PlainVolume, Fault<'static>>
    ensures { IfOk result (λ plain. plain ≡ volume_of image.items) }
{
    let volume = match mount(alloc, image) {
        Ok(volume) => volume,
        Err(refused) => return Err(Fault::Refused(refused.fault)),
    };
    Ok(plain_volume(alloc, &volume)?)
}
