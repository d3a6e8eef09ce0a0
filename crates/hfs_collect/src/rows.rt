//! What the word `rows` does: one image after the other, as text on standard output.

use crate::collecting::PROGRAM;
use crate::reading_rows::RowsWords;
use hfs_bag::Watch;
use hfs_commands::{Fault, ShownPath, Status};
use hfs_console::{Progress, tell_sum};
use hfs_word_collect::{
    ImageCounts, ImageFacts, RunFault, TextTaker, rows_at, write_head, write_image,
};
use std::io::Stdout;

/// Prints the rows of the images, and returns the exit status. Faults go to standard error, where no program looks for rows.
pub fn rows(rt: &HostRuntime, words: &RowsWords<'_>) -> u8 {
    match print_rows(rt, words) {
        Ok(status) => status.number(),
        Err(RunFault::NoMemory) => {
            let _printed = eprintln!(rt; "{}", Fault::NoMemory);
            Status::NoMemory.number()
        }
        Err(RunFault::CannotOpen(_) | RunFault::CannotWrite) => Status::DeviceFailed.number(),
    }
}

/// Prints what precedes the rows, and those of one image after the other.
fn print_rows(rt: &HostRuntime, words: &RowsWords<'_>) -> Result<Status, RunFault> {
    write_head(rt.alloc(), &mut rt.stdout(), words.form)?;
    let mut taker = TextTaker::new(rt.alloc(), rt.stdout(), words.form);
    let mut status = Status::Done;
    for i in 0..words.images.len() {
        if !print_image(rt, &mut taker, words, i)? {
            status = Status::DeviceFailed;
        }
    }
    Ok(status)
}

/// Prints the rows of the image that these facts are of.
fn write_rows<W: Watch>(
    rt: &HostRuntime,
    taker: &mut TextTaker<Stdout>,
    facts: &ImageFacts<'_>,
    progress: &W,
) -> Result<Option<ImageCounts>, RunFault> {
    let mut rows = rows_at(rt, facts, progress);
    write_image(taker, &mut rows)
}

/// Prints the rows of the image at this place of the command line, and returns whether all of them came; if they didn't, or if
/// the sum of a disk copy is wrong, prints that on standard error.
fn print_image(
    rt: &HostRuntime,
    taker: &mut TextTaker<Stdout>,
    words: &RowsWords<'_>,
    i: usize,
) -> Result<bool, RunFault> {
    let Some(path) = words.images.get(i).copied() else {
        return Ok(true);
    };
    let facts = ImageFacts {
        path,
        program: PROGRAM,
        takes_digests: words.takes_digests,
    };
    let all = words.images.len() as u64;
    let progress = Progress::of_image(rt, (i as u64).saturating_add(1), Some(all), path);
    let written = write_rows(rt, taker, &facts, &progress);
    progress.end();
    match written? {
        Some(counts) => {
            tell_sum(rt, path, counts.wrong_sums != 0);
            Ok(true)
        }
        None => {
            // If standard error takes nothing, the run goes on.
            let _printed = eprintln!(rt; "cannot read {}", ShownPath(path));
            Ok(false)
        }
    }
}
