//! What is being read from a source.
ghost use Rattle.std.specs.Prelude.{◌≡◌, ◌+◌, length, IfErr, OnOk};
ghost use Rattle.hfs_source.specs.Images.{OfEach};
ghost use Rattle.hfs_word_take.specs.SourceFaults.{FailsToRead};
ghost use Rattle.hfs_bag.specs.Forks.{ReadsOn};
ghost use Rattle.hfs_word_take.specs.Reading.{reading_left, reading_rest};

use crate::opened_blocks::OpenedBlocks;
use crate::table_reading::{TableReading, read_table};
use hfs_bag::{ForkReading, SourceFault, read_fork};
use hfs_source::PlacedBlocks;
use std::alloc::Global;

/// The stream that is being read.
#[derive(Drop)]
pub(crate) enum Reading {
    Fork(ForkReading),
    Table(TableReading),
}

/// Replaces a piece with the next bytes of a stream, or with none at its end.
pub(crate) fn read_next<S: PlacedBlocks>(
    alloc: Global,
    source: &mut OpenedBlocks<S>,
    reading: &mut Reading,
    piece: &mut Vec<u8>,
) -> Result<(), SourceFault>
    ensures read { OnOk result (OfEach (S.Holds source.new.image)
        (λ bytes. ReadsOn piece.new.items (reading_rest bytes reading.old) (reading_rest bytes reading.new))) }
    ensures fewer { OnOk result (reading_left reading.old
        ≡ length piece.new.items + reading_left reading.new) }
    ensures narrows { OfEach (S.Holds source.new.image) (S.Holds source.old.image) }
    ensures fault { IfErr result (FailsToRead reading.old) }
{
    match reading {
        Reading::Fork(fork) => read_fork(source, fork, piece),
        Reading::Table(table) => match read_table(alloc, table, piece) {
            Ok(()) => Ok(()),
            Err(_) => Err(SourceFault::Memory),
        },
    }
}
