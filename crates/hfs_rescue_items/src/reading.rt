//! What is being read from a source.
ghost use Rattle.std.specs.Prelude.{◌≡◌, ◌+◌, ◌++◌, [], length, IfErr, OnOk};
ghost use Rattle.hfs_table.specs.Lines.{bag_head};
ghost use Rattle.hfs_source.specs.Images.{OfEach};
ghost use Rattle.hfs_rescue_items.specs.Faults.{FailsToRead, WantsMemory};
ghost use Rattle.hfs_rescue_items.specs.Lines.{item_line, remains_line};
ghost use Rattle.hfs_bag.specs.Forks.{ReadsOn};
ghost use Rattle.hfs_rescue_items.specs.Reading.{ReadsLines, reading_left, reading_rest};

use crate::found::Found;
use crate::lines::{push_item_line, push_remains_line};
use crate::table_lines::Lines;
use hfs_bag::{ForkReading, SourceFault, read_fork};
use hfs_source::BlockSource;
use hfs_table::push_bag_head;
use std::alloc::Global;

/// A piece of text with at least this many bytes is whole.
const PIECE: usize = 65_536;

/// The stream that is being read.
#[derive(Drop)]
pub(crate) enum Reading<'a> {
    Fork(ForkReading),
    /// The table of all items, with its head.
    Table(Lines<'a>),
    /// Its lines that are left.
    Items(Lines<'a>),
    /// The lines that are left of the table of what remains.
    Remains(Lines<'a>),
}

/// Appends lines of the table of all items to a piece, until it is whole or there are none.
#[tactic(auto, using(crate::proofs::LineLemmas::line_more, crate::proofs::LineLemmas::lines_none, crate::proofs::LineLemmas::lines_whole))]
fn push_items(
    alloc: Global,
    piece: &mut Vec<u8>,
    found: &Found<'_>,
    lines: &mut Lines<'_>,
) -> Result<(), SourceFault>
    requires { piece.old.items ≡ [] }
    ensures read { OnOk result (ReadsLines (item_line found.now) piece.new.items lines.old lines.new) }
    ensures fault { IfErr result WantsMemory }
{
    while let [item, behind @ ..] = lines.items {
        if piece.len() >= PIECE {
            return Ok(());
        }
        let Ok(()) = push_item_line(alloc, piece, found, lines.next, item) else {
            return Err(SourceFault::Memory);
        };
        *lines = Lines {
            next: lines.next + 1,
            items: behind,
        };
    }
    Ok(())
}

/// Appends lines of the table of what remains to a piece, until it is whole or there are none.
#[tactic(auto, using(crate::proofs::LineLemmas::line_more, crate::proofs::LineLemmas::lines_none, crate::proofs::LineLemmas::lines_whole))]
fn push_remains(
    alloc: Global,
    piece: &mut Vec<u8>,
    found: &Found<'_>,
    lines: &mut Lines<'_>,
) -> Result<(), SourceFault>
    requires { piece.old.items ≡ [] }
    ensures read { OnOk result (ReadsLines (remains_line found.now) piece.new.items lines.old lines.new) }
    ensures fault { IfErr result WantsMemory }
{
    while let [item, behind @ ..] = lines.items {
        if piece.len() >= PIECE {
            return Ok(());
        }
        let Ok(()) = push_remains_line(alloc, piece, found, lines.next, item) else {
            return Err(SourceFault::Memory);
        };
        *lines = Lines {
            next: lines.next + 1,
            items: behind,
        };
    }
    Ok(())
}

/// Replaces a piece, which is empty, with the head of the table of all items.
fn push_table_head(piece: &mut Vec<u8>) -> Result<(), SourceFault>
    ensures head { OnOk result (piece.new.items ≡ piece.old.items ++ bag_head) }
    ensures fault { IfErr result WantsMemory }
{
    match push_bag_head(piece) {
        Ok(()) => Ok(()),
        Err(_) => Err(SourceFault::Memory),
    }
}

/// Replaces a piece with the next bytes of a stream, or with none at its end.
#[tactic(auto, using(crate::proofs::LineLemmas::lines_fewer))]
pub(crate) fn read_next<'a, S: BlockSource>(
    alloc: Global,
    source: &mut S,
    found: &Found<'a>,
    reading: &mut Reading<'a>,
    piece: &mut Vec<u8>,
) -> Result<(), SourceFault>
    ensures read { OnOk result (OfEach (S.Holds source.new) (λ image. ReadsOn piece.new.items
        (reading_rest image found.now reading.old) (reading_rest image found.now reading.new))) }
    ensures fewer { OnOk result (reading_left found.now reading.old
        ≡ length piece.new.items + reading_left found.now reading.new) }
    ensures fault { IfErr result (FailsToRead reading.old) }
    ensures narrows { OfEach (S.Holds source.new) (S.Holds source.old) }
{
    piece.clear();
    match reading {
        Reading::Fork(fork) => read_fork(source, fork, piece),
        Reading::Table(lines) => {
            push_table_head(piece)?;
            let lines = *lines;
            *reading = Reading::Items(lines);
            Ok(())
        }
        Reading::Items(lines) => push_items(alloc, piece, found, lines),
        Reading::Remains(lines) => push_remains(alloc, piece, found, lines),
    }
}
