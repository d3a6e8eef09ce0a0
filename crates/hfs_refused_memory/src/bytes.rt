//! The small volume, and its bytes with others laid in their place.

use anyhow::Result;
use hfs_volume::Volume;
use hfs_volume_fixtures::refused::{Edit, has_bytes, image_with, mounted};
use std::alloc::Global;

/// The volume with the folder `d`, and in it the file `f`.
pub fn small_volume(alloc: Global) -> Result<Volume> {
    mounted(alloc, image_with(alloc, &[])?)
}

/// Whether a volume has the bytes of the small one with these in place of its own.
pub fn has_edited(alloc: Global, volume: &Volume, edits: &[Edit<'_>]) -> Result<bool> {
    let bytes = image_with(alloc, edits)?;
    Ok(has_bytes(volume, &bytes))
}
