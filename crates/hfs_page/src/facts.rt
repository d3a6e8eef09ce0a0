//! What a page says about a volume before its picture.
ghost use Rattle.std.specs.Prelude.{◌++◌, ◌<◌, ◌^◌, OnOk, codes};
ghost use Rattle.hfs_page.specs.Facts.{count_row, counts_text, digest_row, date_row, dates_text, head_text, image_rows, lengths_text, row_head, size_row, sizes_text, start_text, facts_start, facts_text, text_row};
ghost use Rattle.hfs_page.specs.Pieces.{Gains};
ghost use Rattle.hfs_page.specs.Sizes.{size_text};
ghost use Rattle.hfs_page.specs.Texts.{told_number};

use crate::escaping::push_escaped;
use crate::page_image::PageImage;
use crate::pieces::push_bytes;
use crate::sizes::push_size;
use crate::texts::{push_date, push_number, push_told_number};
use hfs_fields::Mdb;
use std::alloc::{AllocError, Global};

/// Appends the head of a row of the table.
#[tactic(auto, unfolding(crate::specs::Facts::row_head))]
fn push_row_head(page: &mut Vec<u8>, label: &[u8]) -> Result<(), AllocError>
    ensures { OnOk result (Gains page.old page.new (row_head label.now)) }
{
    push_bytes(page, b"<div><dt>")?;
    push_bytes(page, label)?;
    push_bytes(page, b"</dt><dd>")
}

/// Appends a row of a date.
#[tactic(auto, unfolding(crate::specs::Facts::date_row))]
fn push_date_row(
    alloc: Global,
    page: &mut Vec<u8>,
    label: &[u8],
    date: u32,
) -> Result<(), AllocError>
    ensures { OnOk result (Gains page.old page.new (date_row label.now date)) }
{
    push_row_head(page, label)?;
    push_date(alloc, page, date)?;
    push_bytes(page, b"</dd></div>\n")
}

/// Appends a row of a number.
#[tactic(auto, unfolding(crate::specs::Facts::count_row))]
pub fn push_count_row(
    alloc: Global,
    page: &mut Vec<u8>,
    label: &[u8],
    count: u32,
) -> Result<(), AllocError>
    ensures { OnOk result (Gains page.old page.new (count_row label.now count)) }
{
    push_row_head(page, label)?;
    push_number(alloc, page, u64::from(count))?;
    push_bytes(page, b"</dd></div>\n")
}

/// Appends a row of a number of blocks.
fn push_blocks_row(
    alloc: Global,
    page: &mut Vec<u8>,
    label: &[u8],
    blocks: u16,
) -> Result<(), AllocError>
    ensures { OnOk result (Gains page.old page.new (count_row label.now blocks)) }
{
    push_count_row(alloc, page, label, u32::from(blocks))
}

/// Appends a number of bytes, in a suitable unit and exactly.
fn push_length(alloc: Global, page: &mut Vec<u8>, bytes: u64) -> Result<(), AllocError>
    requires { bytes < 2 ^ 60 }
    ensures { OnOk result (Gains page.old page.new
        (size_text bytes ++ told_number (codes " (") bytes ++ codes " bytes)</dd></div>\n")) }
{
    push_size(alloc, page, bytes)?;
    push_told_number(alloc, page, b" (", bytes)?;
    push_bytes(page, b" bytes)</dd></div>\n")
}

/// Appends a row of a number of bytes.
#[tactic(auto, unfolding(crate::specs::Facts::size_row))]
fn push_size_row(
    alloc: Global,
    page: &mut Vec<u8>,
    label: &[u8],
    bytes: u64,
) -> Result<(), AllocError>
    requires { bytes < 2 ^ 60 }
    ensures { OnOk result (Gains page.old page.new (size_row label.now bytes)) }
{
    push_row_head(page, label)?;
    push_length(alloc, page, bytes)
}

/// Appends how long an image of `total` blocks of 512 bytes is, and how much of its volume is free.
#[tactic(auto, unfolding(crate::specs::Facts::lengths_text))]
fn push_lengths(alloc: Global, page: &mut Vec<u8>, total: u32, mdb: &Mdb) -> Result<(), AllocError>
    ensures { OnOk result (Gains page.old page.new (lengths_text total mdb.now)) }
{
    push_size_row(alloc, page, b"Length", u64::from(total) * 512)?;
    let free = u64::from(mdb.free_blocks) * u64::from(mdb.allocation_block_size);
    push_size_row(alloc, page, b"Free", free)
}

/// Appends the rows of the volume's dates.
pub fn push_dates(alloc: Global, page: &mut Vec<u8>, mdb: &Mdb) -> Result<(), AllocError>
    ensures { OnOk result (Gains page.old page.new (dates_text mdb.now)) }
{
    push_date_row(alloc, page, b"Created", mdb.created)?;
    push_date_row(alloc, page, b"Modified", mdb.modified)?;
    push_date_row(alloc, page, b"Backup", mdb.backup)
}

/// Appends the rows of the volume's blocks.
fn push_sizes(alloc: Global, page: &mut Vec<u8>, mdb: &Mdb) -> Result<(), AllocError>
    ensures { OnOk result (Gains page.old page.new (sizes_text mdb.now)) }
{
    push_blocks_row(alloc, page, b"Allocation blocks", mdb.allocation_blocks)?;
    push_count_row(
        alloc,
        page,
        b"Bytes of each block",
        mdb.allocation_block_size,
    )?;
    push_blocks_row(alloc, page, b"Free blocks", mdb.free_blocks)
}

/// Appends the rows of the volume's counts.
fn push_counts(alloc: Global, page: &mut Vec<u8>, mdb: &Mdb) -> Result<(), AllocError>
    ensures { OnOk result (Gains page.old page.new (counts_text mdb.now)) }
{
    push_count_row(alloc, page, b"Files", mdb.files)?;
    push_count_row(alloc, page, b"Folders", mdb.folders)
}

/// Appends a row of a text, escaped.
#[tactic(auto, unfolding(crate::specs::Facts::text_row))]
fn push_text_row(page: &mut Vec<u8>, label: &[u8], text: &[u8]) -> Result<(), AllocError>
    ensures { OnOk result (Gains page.old page.new (text_row label.now text.now)) }
{
    push_row_head(page, label)?;
    push_escaped(page, text)?;
    push_bytes(page, b"</dd></div>\n")
}

/// Appends the row of the image's digest, if it was taken.
fn push_digest_row(page: &mut Vec<u8>, digest: Option<&[u8]>) -> Result<(), AllocError>
    ensures { OnOk result (Gains page.old page.new (digest_row digest.entry)) }
{
    match digest {
        Some(digest) => push_text_row(page, b"SHA-256", digest),
        None => Ok(()),
    }
}

/// Appends the name of the image's file, and its digest.
#[tactic(auto, unfolding(crate::specs::Facts::image_rows))]
pub fn push_image_rows(page: &mut Vec<u8>, image: &PageImage<'_>) -> Result<(), AllocError>
    ensures { OnOk result (Gains page.old page.new (image_rows image.now)) }
{
    push_text_row(page, b"Image", image.name)?;
    push_digest_row(page, image.digest)
}

/// Appends the links to the parts of the page, and the beginning of the list of what the volume is.
#[tactic(auto, unfolding(crate::specs::Facts::facts_start))]
fn push_facts_start(page: &mut Vec<u8>) -> Result<(), AllocError>
    ensures { OnOk result (Gains page.old page.new facts_start) }
{
    push_bytes(
        page,
        b"<nav aria-label=\"On this page\"><a href=\"#list\">Items</a><a href=\"#blocks\">Blocks</a></nav>\n<dl>\n<div><dt>Check</dt><dd>sound</dd></div>\n",
    )
}

/// Appends the description of the volume in this image of `total` blocks. It is sound, since a refused image has a page with only
/// its fault.
pub(crate) fn push_facts(
    alloc: Global,
    page: &mut Vec<u8>,
    image: &PageImage<'_>,
    total: u32,
    mdb: &Mdb,
) -> Result<(), AllocError>
    ensures { OnOk result (Gains page.old page.new (facts_text image.now total mdb.now)) }
{
    push_facts_start(page)?;
    push_image_rows(page, image)?;
    push_lengths(alloc, page, total, mdb)?;
    push_dates(alloc, page, mdb)?;
    push_counts(alloc, page, mdb)?;
    push_sizes(alloc, page, mdb)?;
    push_bytes(page, b"</dl>\n")
}

/// Appends what comes before a page's title. It tells a browser that the page may load nothing.
#[tactic(auto, unfolding(crate::specs::Facts::start_text))]
fn push_start(page: &mut Vec<u8>) -> Result<(), AllocError>
    ensures { OnOk result (Gains page.old page.new start_text) }
{
    push_bytes(
        page,
        b"<!DOCTYPE html>\n<html lang=\"en\">\n<head>\n<meta charset=\"utf-8\">\n<meta name=\"viewport\" content=\"width=device-width\">\n<meta http-equiv=\"Content-Security-Policy\" content=\"default-src 'none'; style-src 'unsafe-inline'; script-src 'unsafe-inline'; img-src data:\">\n<link rel=\"icon\" href=\"data:,\">\n<title>",
    )
}

/// Appends the beginning of a page with this title, which is markup, and this style.
pub fn push_head(page: &mut Vec<u8>, style: &[u8], title: &[u8]) -> Result<(), AllocError>
    ensures { OnOk result (Gains page.old page.new (head_text style.now title.now)) }
{
    push_start(page)?;
    push_bytes(page, title)?;
    push_bytes(page, b"</title>\n<style>")?;
    push_bytes(page, style)?;
    push_bytes(page, b"</style>\n</head>\n<body>\n<main>\n<h1>")?;
    push_bytes(page, title)?;
    push_bytes(page, b"</h1>\n")
}
