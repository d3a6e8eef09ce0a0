//! Mounting over the blocks that were read of an image.
ghost use Rattle.std.specs.Prelude.{◌≡◌, ◌/◌, [], None, IfErr, IfOk};
ghost use Rattle.hfs_check.specs.Sound.{IsSound};
ghost use Rattle.hfs_volume.specs.Image.{copy_of};
ghost use Rattle.hfs_copy.specs.Opened.{IsWorkingOf};

use crate::opening::WorkingVolume;
use hfs_volume::{Base, Volume, mount_sound};
use std::alloc::{AllocFailed, Global};

/// Mounts the volume of an image of `len` bytes over the blocks that were read of it, with zeros in place of the others. No check
/// is made again. When out of memory, the blocks are handed back.
pub fn mount_read(
    alloc: Global,
    working: WorkingVolume,
    len: u64,
) -> Result<Volume, AllocFailed<WorkingVolume>>
    requires working { IsWorkingOf None (len / 512) working }
    requires sound { IsSound (copy_of working.read len) }
    ensures base { IfOk result (λ volume. volume.base ≡ copy_of working.read len) }
    ensures current { IfOk result (λ volume. volume.current ≡ copy_of working.read len) }
    ensures changed { IfOk result (λ volume. volume.changed ≡ []) }
    ensures written { IfOk result (λ volume. volume.written ≡ []) }
    ensures value_returned { IfErr result (λ failed. failed.value ≡ working) }
{
    let WorkingVolume { read, count, sound } = working;
    match Base::of_read(alloc, read, len) {
        Ok(base) => Ok(mount_sound(alloc, base, sound)),
        Err(failed) => {
            let AllocFailed { value } = failed;
            Err(AllocFailed {
                value: WorkingVolume {
                    read: value,
                    count,
                    sound,
                },
            })
        }
    }
}
