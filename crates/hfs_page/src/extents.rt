//! The extents of files, for looking up a file's blocks.
ghost use Rattle.std.specs.Prelude.{OnOk};
ghost use Rattle.std.specs.List.{flat_map};
ghost use Rattle.hfs_page.specs.Extents.{extent_text, extents_text, owned_text, placed_text};
ghost use Rattle.hfs_page.specs.Pieces.{Gains};

use crate::parts::{FileFork, Holding};
use crate::pieces::push_bytes;
use crate::texts::push_told_number;
use hfs_fields::Extent;
use std::alloc::{AllocError, Global};

/// Appends a file's ID, an extent's first block, and how many blocks it has.
#[tactic(auto, unfolding(crate::specs::Extents::placed_text))]
fn push_placed(
    alloc: Global,
    page: &mut Vec<u8>,
    file: u32,
    extent: Extent,
) -> Result<(), AllocError>
    ensures { OnOk result (Gains page.old page.new (placed_text file extent)) }
{
    push_told_number(alloc, page, b" ", u64::from(file))?;
    push_told_number(alloc, page, b":", u64::from(extent.first))?;
    push_told_number(alloc, page, b"+", u64::from(extent.count))
}

/// Appends an extent, if it is a file's.
fn push_owned(
    alloc: Global,
    page: &mut Vec<u8>,
    fork: Option<FileFork>,
    extent: Extent,
) -> Result<(), AllocError>
    ensures { OnOk result (Gains page.old page.new (owned_text fork extent)) }
{
    match fork {
        Some(fork) => push_placed(alloc, page, fork.file, extent),
        None => Ok(()),
    }
}

/// Appends an extent, if it is a file's and has a block.
fn push_extent(alloc: Global, page: &mut Vec<u8>, holding: &Holding) -> Result<(), AllocError>
    ensures { OnOk result (Gains page.old page.new (extent_text holding.now)) }
{
    if holding.extent.count == 0 {
        return Ok(());
    }
    push_owned(alloc, page, holding.used.fork, holding.extent)
}

/// Appends the extents of files among these.
fn push_each(alloc: Global, page: &mut Vec<u8>, holdings: &[Holding]) -> Result<(), AllocError>
    ensures { OnOk result (Gains page.old page.new (flat_map extent_text holdings.now)) }
{
    for holding in holdings {
        push_extent(alloc, page, holding)?;
    }
    Ok(())
}

/// Appends a list, which no reader sees, of all extents of files: each with the file's ID, its first block, and how many blocks
/// it has.
#[tactic(auto, unfolding(crate::specs::Extents::extents_text))]
pub fn push_extents(
    alloc: Global,
    page: &mut Vec<u8>,
    holdings: &[Holding],
) -> Result<(), AllocError>
    ensures { OnOk result (Gains page.old page.new (extents_text holdings.now)) }
{
    push_bytes(page, b"<p id=\"extents\" hidden>")?;
    push_each(alloc, page, holdings)?;
    push_bytes(page, b"</p>\n")
}
