//! Mounting images in which only counts are wrong.

ghost use Rattle.std.specs.Prelude.{◌≡◌, [], IfOk, IfErr, OnOk};
ghost use Rattle.hfs_check.specs.Sound.{IsSound};
ghost use Rattle.hfs_repair.specs.Fixes.{AreFixes};
ghost use Rattle.hfs_repair.specs.Puts.{put_back};
ghost use Rattle.hfs_repair.specs.Repair.{repair, wrong_in};
ghost use Rattle.hfs_volume.specs.Refusals.{HasFaultOf};

use crate::mounting::{Refused, mount};
use crate::volume::Volume;
use hfs_check::MountFault;
use hfs_repair::{BytePut, Fix, Mending, exchange, exchange_back};
use std::alloc::Global;

/// A refusal, with the image as it was before these bytes were swapped.
fn given_back(refused: Refused, puts: &[BytePut]) -> Refused
    ensures fault { result.fault ≡ refused.fault }
    ensures given { result.image.items ≡ put_back puts.now refused.image.items }
{
    let Refused { fault, mut image } = refused;
    exchange_back(image.as_mut_slice(), puts);
    Refused { fault, image }
}

/// Mounts the volume of an image after mending its counts: drNmFls, drFreeBks, drNmRtDirs, drFilCnt, drDirCnt, both trees'
/// bthNRecs and bthFree, and the valences. Ok exactly when the repaired image is sound, unless memory runs out: then with the
/// image as it was opened being the repaired one, and with the numbers that were wrong, each once, in the order of `FixPlace`.
/// Otherwise the first fault of the repaired image, with the image as it was given. If anything that is checked before these
/// numbers is wrong, the image is its own repair.
///
/// The mended numbers are put into the image's bytes while it is checked; at a refusal they are swapped back, which takes no
/// memory.
///
/// Source: Inside Macintosh: Files, chapter 2, "Data Organization on Volumes"; docs/CHECKS.md has the ten numbers.
pub fn mount_repaired(alloc: Global, image: Vec<u8>) -> Result<(Volume, Vec<Fix>), Refused>
    ensures sound { OnOk result (IsSound (repair image.items)) }
    ensures base { IfOk result (λ mounted. mounted.0.base ≡ repair image.items) }
    ensures current { IfOk result (λ mounted. mounted.0.current ≡ repair image.items) }
    ensures changed { IfOk result (λ mounted. mounted.0.changed ≡ []) }
    ensures written { IfOk result (λ mounted. mounted.0.written ≡ []) }
    ensures fixes { IfOk result (λ mounted. AreFixes (wrong_in image.items) mounted.1.items) }
    ensures fault { IfErr result (HasFaultOf (repair image.items)) }
    ensures given { IfErr result (λ refused. refused.image.items ≡ image.items) }
{
    let mut image = image;
    let Ok(mending) = Mending::of(alloc, &image) else {
        let fault = MountFault::Memory;
        return Err(Refused { fault, image });
    };
    let Mending { mut puts, fixes } = mending;
    exchange(image.as_mut_slice(), puts.as_mut_slice());
    match mount(alloc, image) {
        Ok(volume) => Ok((volume, fixes)),
        Err(refused) => Err(given_back(refused, &puts)),
    }
}
