//! What a page says about what was found, before the items.
ghost use Rattle.std.specs.Prelude.{OnOk};
ghost use Rattle.hfs_page.specs.Facts.{count_row};
ghost use Rattle.hfs_page.specs.Pieces.{Gains};
ghost use Rattle.hfs_rescue_items.specs.Sums.{AreSums};
ghost use Rattle.hfs_remains_page.specs.Facts as spec;

use crate::remains_texts::FaultTexts;
use hfs_fields::Mdb;
use hfs_page::{
    PageImage, push_bytes, push_count_row, push_dates, push_escaped, push_image_rows,
    push_told_number,
};
use hfs_rescue_items::{Found, FoundSums};
use std::alloc::{AllocError, Global};

/// Appends the fault in words, and what it means.
#[tactic(auto, unfolding(crate::specs::Facts::fault_text))]
pub(crate) fn push_fault(page: &mut Vec<u8>, fault: &FaultTexts<'_>) -> Result<(), AllocError>
    ensures { OnOk result (Gains page.old page.new
        (spec.fault_text fault.now.refusal.now fault.now.meaning.now)) }
{
    push_bytes(page, b"<p>")?;
    push_escaped(page, fault.refusal)?;
    push_bytes(page, b"</p>\n<p>")?;
    push_escaped(page, fault.meaning)?;
    push_bytes(page, b"</p>\n")
}

/// Appends how many files there are, how many of them are whole and how many damaged, and how many folders.
fn push_counts(
    alloc: Global,
    page: &mut Vec<u8>,
    files: u64,
    whole: u64,
    damaged: u64,
    folders: u64,
) -> Result<(), AllocError>
    ensures { OnOk result (Gains page.old page.new (spec.counts_text files whole damaged folders)) }
{
    push_told_number(alloc, page, b"<div><dt>Files found</dt><dd>", files)?;
    push_told_number(alloc, page, b"</dd></div>\n<div><dt>Whole</dt><dd>", whole)?;
    push_told_number(
        alloc,
        page,
        b"</dd></div>\n<div><dt>Damaged</dt><dd>",
        damaged,
    )?;
    push_told_number(
        alloc,
        page,
        b"</dd></div>\n<div><dt>Folders found</dt><dd>",
        folders,
    )?;
    push_bytes(page, b"</dd></div>\n")
}

/// Appends how much was found.
fn push_sums(
    alloc: Global,
    page: &mut Vec<u8>,
    found: &Found<'_>,
    sums: &FoundSums,
) -> Result<(), AllocError>
    requires { AreSums found.now sums.now }
    ensures { OnOk result (Gains page.old page.new (spec.sums_text found.now)) }
{
    let damaged = sums.files.saturating_sub(sums.whole);
    push_counts(alloc, page, sums.files, sums.whole, damaged, sums.folders)
}

/// Appends a row of a number of blocks.
fn push_blocks_row(
    alloc: Global,
    page: &mut Vec<u8>,
    label: &[u8],
    blocks: u16,
) -> Result<(), AllocError>
    ensures { OnOk result (Gains page.old page.new (count_row label.now blocks)) }
{
    push_count_row(alloc, page, label, u32::from(blocks))
}

/// Appends the volume's blocks, as the directory has them.
fn push_blocks_rows(alloc: Global, page: &mut Vec<u8>, mdb: &Mdb) -> Result<(), AllocError>
    ensures { OnOk result (Gains page.old page.new (spec.blocks_rows mdb.now)) }
{
    push_blocks_row(alloc, page, b"Allocation blocks", mdb.allocation_blocks)?;
    let bytes = mdb.allocation_block_size;
    push_count_row(alloc, page, b"Bytes of each block", bytes)
}

/// Appends the links to the parts of the page, and the list of what is known of the disk and of what was found.
pub(crate) fn push_facts(
    alloc: Global,
    page: &mut Vec<u8>,
    image: &PageImage<'_>,
    found: &Found<'_>,
    sums: &FoundSums,
) -> Result<(), AllocError>
    requires { AreSums found.now sums.now }
    ensures { OnOk result (Gains page.old page.new (spec.facts_text image.now found.now)) }
{
    push_bytes(
        page,
        b"<nav aria-label=\"On this page\"><a href=\"#list\">Items</a><a href=\"#blocks\">Blocks</a></nav>\n<dl>\n<div><dt>Check</dt><dd>refused</dd></div>\n",
    )?;
    push_image_rows(page, image)?;
    push_sums(alloc, page, found, sums)?;
    push_dates(alloc, page, found.mdb)?;
    push_blocks_rows(alloc, page, found.mdb)?;
    push_bytes(page, b"</dl>\n")
}
