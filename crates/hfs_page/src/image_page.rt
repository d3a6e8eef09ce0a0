//! The page of an image that was opened.
ghost use Rattle.std.specs.Prelude.{OnErr, OnOk};
ghost use Rattle.hfs_page.specs.ImagePages.{WritesPage, WritesPageFront};
ghost use Rattle.hfs_source.specs.Images.{OfEach};

use crate::{PageFault, PageTexts, write_page};
use hfs_image::SeenImage;
use hfs_source::PlacedBlocks;
use std::alloc::Global;
use std::io::Write;

/// Writes the page of every image consistent with the bytes read from the opened one: a description of the volume, its items, and
/// a picture of its blocks. No block is read for it. Faults: memory was refused, or the writer failed; then only the beginning of
/// the page may have been written.
pub fn write_image_page<S: PlacedBlocks + Drop, W: Write>(
    alloc: Global,
    image: &SeenImage<S>,
    texts: &PageTexts<'_>,
    writer: &mut W,
) -> Result<(), PageFault>
    ensures written { OnOk result (OfEach (S.Holds image.now)
        (WritesPage texts.now (W.contents writer.old) (W.contents writer.new))) }
    ensures part { OnErr result (OfEach (S.Holds image.now)
        (WritesPageFront texts.now (W.contents writer.old) (W.contents writer.new))) }
{
    let volume = image.volume();
    let blocks = volume.read.volume(volume.count);
    write_page(alloc, &blocks, &volume.sound, texts, writer)
}
