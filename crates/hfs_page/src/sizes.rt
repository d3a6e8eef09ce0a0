//! Numbers of bytes in a suitable unit.
ghost use Rattle.std.specs.Prelude.{◌++◌, ◌<◌, ◌^◌, OnOk};
ghost use Rattle.hfs_page.specs.Pieces.{Gains};
ghost use Rattle.hfs_page.specs.Sizes.{size_text, tenths_text, told_size};

use crate::pieces::push_bytes;
use crate::texts::{push_number, push_told_number};
use std::alloc::{AllocError, Global};

const KILOBYTE: u64 = 1_024;

const MEGABYTE: u64 = 1_048_576;

/// Appends a number of tenths, without a point if they are whole.
#[tactic(auto, unfolding(crate::specs::Sizes::tenths_text))]
fn push_tenths(alloc: Global, page: &mut Vec<u8>, tenths: u64) -> Result<(), AllocError>
    ensures { OnOk result (Gains page.old page.new (tenths_text tenths)) }
{
    push_number(alloc, page, tenths / 10)?;
    if tenths.is_multiple_of(10) {
        return Ok(());
    }
    push_told_number(alloc, page, b".", tenths % 10)
}

/// Appends a number of tenths and their unit.
fn push_unit(alloc: Global, page: &mut Vec<u8>, tenths: u64, unit: &[u8]) -> Result<(), AllocError>
    ensures { OnOk result (Gains page.old page.new (tenths_text tenths ++ unit.now)) }
{
    push_tenths(alloc, page, tenths)?;
    push_bytes(page, unit)
}

/// Appends a number of bytes in a suitable unit: B, KB of 1,024 bytes, or MB of 1,024 KB, both to the nearest tenth.
#[tactic(auto, unfolding(crate::specs::Sizes::size_text))]
pub(crate) fn push_size(alloc: Global, page: &mut Vec<u8>, bytes: u64) -> Result<(), AllocError>
    requires { bytes < 2 ^ 60 }
    ensures { OnOk result (Gains page.old page.new (size_text bytes)) }
{
    if bytes < KILOBYTE {
        push_number(alloc, page, bytes)?;
        push_bytes(page, b" B")
    } else if bytes < MEGABYTE {
        push_unit(alloc, page, (bytes * 10 + 512) / 1024, b" KB")
    } else {
        push_unit(alloc, page, (bytes * 10 + 524_288) / 1_048_576, b" MB")
    }
}

/// Appends a number of bytes, preceded by what it is.
#[tactic(auto, unfolding(crate::specs::Sizes::told_size))]
pub(crate) fn push_told_size(
    alloc: Global,
    page: &mut Vec<u8>,
    label: &[u8],
    bytes: u64,
) -> Result<(), AllocError>
    requires { bytes < 2 ^ 60 }
    ensures { OnOk result (Gains page.old page.new (told_size label.now bytes)) }
{
    push_bytes(page, label)?;
    push_size(alloc, page, bytes)
}
