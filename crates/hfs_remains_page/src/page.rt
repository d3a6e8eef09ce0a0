//! The page of what remains of an image that is refused.
ghost use Rattle.std.specs.Prelude.{◌≡◌, OnErr, OnOk};
ghost use Rattle.std.specs.Io.KnownBytes.{Appends};
ghost use Rattle.hfs_texts.specs.Writing.{AppendsFront};
ghost use Rattle.hfs_remains_page.specs.Pages.{remains_page};

use crate::document::{back, front};
use crate::linked_items::LinkedItems;
use crate::pictures::TreeFiles;
use crate::remains_texts::{FaultTexts, RemainsTexts};
use crate::walks::tree_order;
use crate::writing::write_rows;
use hfs_page::{PageFault, put_piece};
use hfs_rescue_items::Found;
use std::alloc::Global;
use std::io::Write;

/// Writes the page of what was found of an image that is refused: its fault in words and what that means, what is known of the
/// disk, a row for each item with the verdict on each fork, and a picture of the blocks of the trees and forks that were found.
/// Besides what was found, what comes after the items, and some 60 bytes an item, 65,536 bytes and a row are in memory. Faults:
/// memory was refused, or the writer failed; then only the beginning of the page may have been written.
pub fn write_remains_page<W: Write>(
    alloc: Global,
    texts: &RemainsTexts<'_>,
    fault: &FaultTexts<'_>,
    found: &Found<'_>,
    files: TreeFiles<'_>,
    writer: &mut W,
) -> Result<(), PageFault>
    requires extents { files.extents.now ≡ found.now.salvage.now.trees.extents_file.now }
    requires catalog { files.catalog.now ≡ found.now.salvage.now.trees.catalog_file.now }
    ensures written { OnOk result (Appends (W.contents writer.old) (W.contents writer.new)
        (remains_page texts.now fault.now.refusal.now fault.now.meaning.now found.now)) }
    ensures part { OnErr result (AppendsFront (W.contents writer.old) (W.contents writer.new)
        (remains_page texts.now fault.now.refusal.now fault.now.meaning.now found.now)) }
{
    let Ok(front) = front(alloc, texts, fault, found) else {
        return Err(PageFault::Memory);
    };
    let Ok(back) = back(alloc, texts, found, files) else {
        return Err(PageFault::Memory);
    };
    let Ok(steps) = tree_order(alloc, found) else {
        return Err(PageFault::Memory);
    };
    let items = LinkedItems {
        base: texts.page.image.base,
        found,
    };
    put_piece(writer, &front)?;
    write_rows(alloc, writer, &items, &steps)?;
    put_piece(writer, &back)?;
    Ok(())
}
