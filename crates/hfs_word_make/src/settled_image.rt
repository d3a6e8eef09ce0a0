//! The image of a new volume, which nothing changes while it is read.
ghost use Rattle.std.specs.Prelude.{◌≡◌, ⊤};
ghost use Rattle.hfs_format.specs.Image.{image_bytes};

use hfs_commands::WatchedBytes;
use hfs_format::NewImage;
use hfs_source::PlacedBytes;
use std::io;

/// The image of a new volume. It lies in no file, so it is as it was whenever it is looked at.
#[derive(Clone, Copy, Drop)]
pub struct SettledImage {
    pub image: NewImage,
}

impl PlacedBytes for SettledImage {
    ghost Holds = { λ settled bytes. bytes ≡ image_bytes settled.image.planned };

    ghost Fails = { λ _ _ _. ⊤ };

    fn len(&self) -> u64 {
        PlacedBytes::len(&self.image)
    }

    fn read_at(&mut self, place: u64, into: &mut [u8]) -> io::Result<()> {
        self.image.read_at(place, into)
    }
}

impl WatchedBytes for SettledImage {
    ghost settled = { λ _. ⊤ };

    fn look_again(&mut self) -> io::Result<()> {
        Ok(())
    }
}
