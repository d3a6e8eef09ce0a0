//! The image of a new volume, read by position.
ghost use Rattle.std.specs.Prelude.{◌≡◌, ◌≤◌, ◌+◌, ◌*◌, Some, OnOk, length};
ghost use Rattle.hfs_format.specs.Image.{image_bytes};
ghost use Rattle.hfs_source.specs.Images.{HasAt};

use crate::PlannedImage;
use hfs_source::{BlockSource, PlacedBytes};
use std::io;
use std::io::ErrorKind;

/// The image of a new volume. No byte is held: each block is made when a part of it is read.
#[derive(Clone, Copy)]
pub struct NewImage {
    pub planned: PlannedImage,
}

/// Reads bytes of one block of 512 bytes, from its byte `skip` on, as many as there is room for, which end within it.
fn read_part(image: &mut PlannedImage, block: u32, skip: usize, into: &mut [u8]) -> io::Result<()>
    requires { skip + length into.old ≤ 512 }
    ensures same { image_bytes image.new ≡ image_bytes image.old }
    ensures read { OnOk result (HasAt (512 * block + skip) into.new (image_bytes image.old)) }
{
    let mut bytes = [0; 512];
    image.read_blocks(block, &mut bytes)?;
    into.copy_from_slice(&bytes[skip..skip + into.len()]);
    Ok(())
}

impl PlacedBytes for NewImage {
    ghost use Rattle.std.specs.Prelude.{⊤};

    ghost Holds = { λ image bytes. bytes ≡ image_bytes image.planned };

    ghost Fails = { λ _ _ _. ⊤ };

    fn len(&self) -> u64 {
        u64::from(self.planned.count()) * 512
    }

    fn read_at(&mut self, place: u64, into: &mut [u8]) -> io::Result<()> {
        if into.is_empty() {
            return Ok(());
        }
        let len = u64::from(self.planned.count()) * 512;
        if len < place || len - place < into.len() as u64 {
            return Err(io::Error::from(ErrorKind::UnexpectedEof));
        }
        let mut done = 0;
        while done < into.len() {
            let at = place + done as u64;
            let skip = (at % 512) as usize;
            let count = (512 - skip).min(into.len() - done);
            read_part(
                &mut self.planned,
                (at / 512) as u32,
                skip,
                &mut into[done..done + count],
            )?;
            done += count;
        }
        Ok(())
    }
}

impl BlockSource for NewImage {
    ghost image = { λ image. Some (image_bytes image.planned) };

    ghost Holds = { λ image bytes. Some (image_bytes image.planned) ≡ Some bytes };

    fn read_blocks(&mut self, first: u32, into: &mut [u8]) -> io::Result<()> {
        self.planned.read_blocks(first, into)
    }

    ghost known_holds = { λ image bytes e. e };
}
