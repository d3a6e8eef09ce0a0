//! Volumes that are mounted.
use hfs_fixtures::FixtureFault;
use hfs_volume::{Volume, mount};
use std::alloc::Global;

/// The volume of an image, which is sound.
pub fn mounted(alloc: Global, image: Vec<u8>) -> Result<Volume, FixtureFault> {
    match mount(alloc, image) {
        Ok(volume) => Ok(volume),
        Err(_refused) => Err(FixtureFault::Unsound),
    }
}
