//! Parts of files, whose answers hold for every file consistent with the bytes read.
ghost use Rattle.std.specs.Prelude.{◌≡◌, ◌+◌, IfErr, IfOk};
ghost use Rattle.hfs_commands.specs.OpenedFiles.{images_of};
ghost use Rattle.hfs_commands.specs.SeenFiles.{AreBlocksOf, AreSeenOf, IsPartOf, IsUnseen, parts_of};
ghost use Rattle.hfs_commands.specs.Unopened.{HasNoPart, IsRefusedOf, TellsWhy};
ghost use Rattle.hfs_image.specs.Seen.{HasNoFault};
ghost use Rattle.hfs_source.specs.declared.asking.Counted.TheVariants.{Volumes};
ghost use Rattle.hfs_source.specs.Images.{OfEach, ReachesTo};

use crate::fault::Fault;
use crate::opened_file::OpenedFile;
use crate::unopened::{LeftFile, UnopenedFile};
use crate::volume_files::open_part;
use hfs_image::{SeenImage, Unopened, open_range};
use hfs_source::{BlocksOf, RangeBlocks, RangeBytes, SeenBlocks, Window};
use std::io::{Read, Seek};
use std::rt::Files;

/// The blocks of a part of a file, known by what was read of them.
pub type PartBlocks<F> = SeenBlocks<RangeBlocks<OpenedFile<F>>>;

/// A sound volume in a part of a file, whose answers hold for every file consistent with the bytes read.
pub type PartImage<F> = SeenImage<RangeBlocks<OpenedFile<F>>>;

/// The part of a file, or an empty one if it doesn't lie in the file.
fn range_of<F: Read + Seek>(part: Window<OpenedFile<F>>) -> RangeBytes<OpenedFile<F>>
    ensures bytes { result.bytes ≡ part.source }
    ensures part { IsPartOf (images_of part.source) part.range result.start result.len }
    ensures inside { OfEach (images_of part.source) (ReachesTo (result.start + result.len)) }
{
    let Window { source, range } = part;
    match RangeBytes::new(source, range.start, range.len) {
        Ok(bytes) => bytes,
        Err(bytes) => RangeBytes {
            bytes,
            start: 0,
            len: 0,
        },
    }
}

/// The blocks of a part of a file. There are none if the part doesn't lie in the file.
pub fn part_blocks<F: Read + Seek>(part: Window<OpenedFile<F>>) -> PartBlocks<F>
    ensures bytes { result.blocks.bytes.bytes ≡ part.source }
    ensures part { AreBlocksOf part result.blocks }
{
    let bytes = range_of(part);
    SeenBlocks {
        blocks: BlocksOf { bytes },
    }
}

/// Opens what is asked for of an image, as [`open_part`] does, reads its needed blocks and makes all checks. Faults, with what
/// was read: as for [`open_part`]; a read failed, memory was refused, or the image is refused.
#[tactic(auto, using(crate::proofs::UnopenedLemmas::told_of_part))]
pub fn open_seen<'a, R: Files + AllocGlobal>(
    rt: &R,
    path: &'a str,
    volume: Option<u64>,
) -> Result<PartImage<R::File>, UnopenedFile<'a, R::File>>
    ensures part { IfOk result (AreSeenOf Volumes volume) }
    ensures sound { IfOk result (λ image. OfEach (parts_of image) HasNoFault) }
    ensures told { IfErr result (TellsWhy path.entry (HasNoPart Volumes volume)
        (IsRefusedOf Volumes volume)) }
    ensures fault { IfErr result (λ back. IsUnseen path.entry volume back.fault) }
{
    let part = open_part(rt, path, volume)?;
    match open_range(rt.alloc(), part_blocks(part)) {
        Ok(image) => Ok(image),
        Err(Unopened { fault, source }) => {
            let fault = Fault::of_needed(fault, path);
            let left = LeftFile::Part(source);
            Err(UnopenedFile { fault, left })
        }
    }
}
