//! Mounting.

ghost use Rattle.std.specs.Prelude.{◌≡◌, [], IfOk, IfErr, OnOk};
ghost use Rattle.hfs_blocks.specs.Blocks.{block_at};
ghost use Rattle.hfs_check.specs.Parts.{mdb_in};
ghost use Rattle.hfs_check.specs.Sound.{IsSound};
ghost use Rattle.hfs_check.specs.Trees.{HasTreesOf};
ghost use Rattle.hfs_volume.specs.Refusals.{HasFaultOf};

use crate::base::Base;
use crate::image::Image;
use crate::volume::Volume;
use hfs_check::{MountFault, SoundVolume, VolumeTrees, check_image};
use std::alloc::{AllocFailed, Global};

/// Why an image was not mounted, and the image as it was given.
#[derive(Drop)]
pub struct Refused {
    /// The first check that fails, or that memory ran out.
    pub fault: MountFault,
    /// The image's bytes as they were given.
    pub image: Vec<u8>,
}

/// Mounts the volume of an image, which begins with its boot blocks. Ok exactly when the image is sound, unless memory runs out;
/// otherwise the first fault in the order of docs/CHECKS.md, with the image as it was given.
///
/// Source: Inside Macintosh: Files, chapter 2, "Data Organization on Volumes".
pub fn mount(alloc: Global, image: Vec<u8>) -> Result<Volume, Refused>
    ensures sound { OnOk result (IsSound image.items) }
    ensures base { IfOk result (λ volume. volume.base ≡ image.items) }
    ensures current { IfOk result (λ volume. volume.current ≡ image.items) }
    ensures changed { IfOk result (λ volume. volume.changed ≡ []) }
    ensures written { IfOk result (λ volume. volume.written ≡ []) }
    ensures fault { IfErr result (HasFaultOf image.items) }
    ensures given { IfErr result (λ refused. refused.image ≡ image) }
{
    let found = match check_image(alloc, &image) {
        Ok(found) => found,
        Err(fault) => return Err(Refused { fault, image }),
    };
    match Base::new(alloc, image) {
        Ok(base) => Ok(mount_sound(alloc, base, found)),
        Err(failed) => {
            let AllocFailed { value } = failed;
            Err(Refused {
                fault: MountFault::Memory,
                image: value,
            })
        }
    }
}

/// Mounts the volume of a base that has passed its checks, given its master directory block and the runs of its trees. Takes no
/// memory.
#[tactic(auto, using(hfs_check::proofs::LawsProved::agrees_with_itself))]
pub fn mount_sound(alloc: Global, base: Base, found: SoundVolume) -> Volume
    requires sound { IsSound base }
    requires directory { found.mdb ≡ mdb_in (block_at base) }
    requires trees { HasTreesOf base found.trees }
    ensures base { result.base ≡ base }
    ensures current { result.current ≡ base }
    ensures changed { result.changed ≡ [] }
    ensures written { result.written ≡ [] }
{
    let SoundVolume { mdb, trees } = found;
    let VolumeTrees {
        extents,
        catalog,
        ..
    } = trees;
    Volume::new(Image::over(alloc, base), mdb, extents, catalog)
}
