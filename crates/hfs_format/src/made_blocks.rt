//! The blocks of a new volume's image, each made when it is read.
ghost use Rattle.std.specs.Prelude.{◌≡◌, ◌+◌, ◌*◌, ◌≤◌, length, IfOk, MatchResult, OnErr, OnOk};
ghost use Rattle.std.specs.Io.KnownBytes.{Appends};
ghost use Rattle.hfs_texts.specs.Writing.{AppendsFront};
ghost use Rattle.std.specs.List.{flat_map, range_with_len};
ghost use Rattle.hfs_check.specs.Sound.{IsSound};
ghost use Rattle.hfs_check.specs.VolumeOf.{volume_of};
ghost use Rattle.hfs_format.specs.Plan.{IsLayout, HasFault};
ghost use Rattle.hfs_format.specs.FormatLaws.{planned_volume};
ghost use Rattle.hfs_format.specs.Image as spec;
ghost use Rattle.hfs_format.specs.Image.{IsImageOf, image_bytes};

use crate::format_fault::FormatFault;
use crate::format_laws::{new_images_are_sound, new_images_hold_new_volumes};
use crate::format_plan::FormatPlan;
use crate::formatting::new_block;
use crate::layout::Layout;
use crate::planned_image::PlannedImage;
use hfs_source::BlockSource;
use hfs_texts::put;
use std::io;
use std::io::{ErrorKind, Write};

impl PlannedImage {
    /// The image that `format` makes of the plan. Takes no memory. Errors: the plan's first fault, which is never `Memory`.
    #[tactic(auto, unfolding(crate::specs::Plan::layout_of), using(crate::proofs::Ranges::is_planned_laid))]
    pub fn of(plan: &FormatPlan) -> Result<PlannedImage, FormatFault>
        ensures answer { MatchResult result (IsImageOf plan.entry.now) (HasFault plan.entry.now) }
        ensures sound { IfOk result (λ image. IsSound (image_bytes image)) }
        ensures volume { IfOk result (λ image. volume_of (image_bytes image) ≡ planned_volume plan.entry.now) }
    {
        new_images_hold_new_volumes();
        new_images_are_sound();
        let volume = Layout::of(plan)?;
        Ok(PlannedImage { volume })
    }

    /// How many blocks it has.
    #[tactic(auto, using(crate::proofs::Ranges::image_length))]
    pub fn count(&self) -> u32
        ensures { 512 * result ≡ length (image_bytes self.now) }
    {
        self.volume.blocks
    }

    /// Writes the image, a few blocks at a time. Takes no memory. At an error, only some of the first bytes may have been
    /// written.
    #[tactic(auto, using(crate::proofs::Ranges::is_layout_planned))]
    pub fn write<W: Write>(&self, writer: &mut W) -> io::Result<()>
        ensures ok { OnOk result (Appends (W.contents writer.old) (W.contents writer.new)
            (image_bytes self.now)) }
        ensures err { OnErr result (AppendsFront (W.contents writer.old) (W.contents writer.new)
            (image_bytes self.now)) }
    {
        let blocks = self.volume.blocks;
        let mut first = 0;
        while first < blocks {
            let count = (blocks - first).min(MOST_AT_ONCE);
            write_blocks(&self.volume, first, count, writer)?;
            first += count;
        }
        Ok(())
    }
}

/// The most blocks that are made at once while an image is written.
const MOST_AT_ONCE: u32 = 8;

/// Writes `count` blocks, starting at number `first`.
fn write_blocks<W: Write>(volume: &Layout, first: u32, count: u32, writer: &mut W) -> io::Result<()>
    requires layout { IsLayout volume.now }
    requires few { count ≤ 8 }
    requires within { first + count ≤ volume.now.blocks }
    ensures ok { OnOk result (Appends (W.contents writer.old) (W.contents writer.new)
        (flat_map (spec.new_block volume.now) (range_with_len first count))) }
    ensures err { OnErr result (AppendsFront (W.contents writer.old) (W.contents writer.new)
        (flat_map (spec.new_block volume.now) (range_with_len first count))) }
{
    let mut blocks = [0; 4096];
    let len = count as usize * 512;
    make_blocks(volume, first, count, &mut blocks[..len]);
    put(writer, &blocks[..len])
}

/// Makes the blocks from number `first` on, as many as there is room for.
fn make_blocks(volume: &Layout, first: u32, count: u32, into: &mut [u8])
    requires layout { IsLayout volume.now }
    requires room { length into.old ≡ 512 * count }
    requires within { first + count ≤ volume.now.blocks }
    ensures { into.new ≡ flat_map (spec.new_block volume.now) (range_with_len first count) }
{
    for k in 0..count {
        let from = k as usize * 512;
        into[from..from + 512].copy_from_slice(&new_block(volume, first + k));
    }
}

/// Reads of whole blocks within the image never fail; others are `UnexpectedEof`.
impl BlockSource for PlannedImage {
    ghost use Rattle.std.specs.Prelude.{Some};

    ghost image = { λ s. Some (image_bytes s) };

    ghost Holds = { λ s image. Some (image_bytes s) ≡ Some image };

    #[tactic(auto, using(crate::proofs::Ranges::reads))]
    fn read_blocks(&mut self, first: u32, into: &mut [u8]) -> io::Result<()> {
        let blocks = self.volume.blocks;
        let count = into.len() / 512;
        if into.len() % 512 != 0 || first > blocks || count > (blocks - first) as usize {
            return Err(io::Error::from(ErrorKind::UnexpectedEof));
        }
        make_blocks(&self.volume, first, count as u32, into);
        Ok(())
    }

    ghost known_holds = { λ s bytes e. e };
}
