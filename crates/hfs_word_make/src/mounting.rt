//! A new volume is mounted, which lies in no file yet.
ghost use Rattle.std.specs.Prelude.{◌≡◌, ◌≤◌, IfErr, IfOk, OnOk, length};
ghost use Rattle.hfs_format.specs.Image.{image_bytes};
ghost use Rattle.hfs_word_make.specs.Mounted.{IsUnmounted};
ghost use Rattle.hfs_copy.specs.Working.{IsWorkingCopy};

use hfs_commands::Fault;
use hfs_copy::{WorkingVolume, mount_read, open_working};
use hfs_format::NewImage;
use hfs_image::NeededFault;
use hfs_source::PlacedBytes;
use hfs_volume::Volume;
use std::alloc::Global;

/// Makes the blocks of a new volume that calls read and write, and mounts it over them, with zeros in the place of all other blocks.
/// The path is the one at which it is to lie. A planned image is sound, so that it is never refused.
pub(crate) fn mount_new<'a>(
    alloc: Global,
    image: NewImage,
    path: &'a str,
) -> Result<Volume, Fault<'a>>
    ensures copy { IfOk result (λ volume.
        IsWorkingCopy volume.base (image_bytes image.planned)) }
    ensures small { OnOk result (length (image_bytes image.planned) ≤ 2147483648) }
    ensures fresh { IfOk result (λ volume. volume.current ≡ volume.base) }
    ensures fault { IfErr result (IsUnmounted path.entry) }
{
    let mut image = image;
    let len = PlacedBytes::len(&image);
    let working = match open_working(alloc, &mut image, len) {
        Ok(working) => working,
        Err(NeededFault::Refused(_)) => unreachable!(),
        Err(NeededFault::ReadFailed) => return Err(Fault::CannotRead(path)),
        Err(NeededFault::Memory) => return Err(Fault::NoMemory),
    };
    match mount_read(alloc, working, len) {
        Ok(volume) => Ok(volume),
        Err(_) => Err(Fault::NoMemory),
    }
}
