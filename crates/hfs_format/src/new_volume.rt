//! A new volume, as it is asked for.
ghost use Rattle.std.specs.Prelude.{◌≤◌};

use crate::items::NewItem;
use crate::volume_name::VolumeName;
use crate::volume_size::VolumeSize;

/// A new volume, as it is asked for.
#[derive(Clone, Copy)]
pub struct NewVolume<'a> {
    pub name: VolumeName,
    /// Its size; if it is left out, the smallest that suffices.
    pub size: Option<VolumeSize>,
    /// All items that are to be put on it.
    pub items: &'a [NewItem],
    /// How many times as many nodes as these items need the catalog gets: once, and twice as often if that was not enough.
    pub catalog_times: u32,
    /// The moment of all dates of the new volume, in seconds since midnight, 1 January 1904.
    pub moment: u32,
    ghost once: { 1 ≤ catalog_times },
}
