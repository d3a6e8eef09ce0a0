//! What the program does: opens and closes the database, handles one image after the other, and returns statuses.

use crate::reading::CollectWords;
use crate::telling::{tell_found, tell_obstacle};
use hfs_bag::Watch;
use hfs_commands::{Fault, ShownPath, Status};
use hfs_console::{Progress, print_lines, tell_sum, tell_unread};
use hfs_word_collect::{
    Collection, Comparison, DatabaseFiles, FileCollection, ImageCounts, ImageFacts, Obstacle,
    RunFault, can_open_database, collect_image, compare_image, comparison_line, image_line,
    next_path, open_image, rows_at,
};

/// What a row says about the program that read an image.
pub const PROGRAM: &str = "hfs_collect 1.0.0";

/// Puts images into a database, or compares them to what it has about them.
pub fn collect<'a>(rt: &HostRuntime, words: &CollectWords<'a>) -> Result<u8, Fault<'a>> {
    let ran = if words.compares {
        run_comparison(rt, words)
    } else {
        run_collection(rt, words)
    };
    match ran {
        Ok(status) => Ok(status),
        Err(Stopped::Printing(fault)) => Err(fault),
        Err(Stopped::Running(RunFault::CannotOpen(why))) => refuse(rt, words.database, why),
        Err(Stopped::Running(RunFault::CannotWrite)) => Err(Fault::CannotWrite(words.database)),
        Err(Stopped::Running(RunFault::NoMemory)) => Err(Fault::NoMemory),
    }
}

/// Why a run ended early.
enum Stopped {
    /// A line was not printed.
    Printing(Fault<'static>),
    /// The database was not read or written.
    Running(RunFault),
}

impl From<Fault<'static>> for Stopped {
    fn from(fault: Fault<'static>) -> Stopped {
        Stopped::Printing(fault)
    }
}

impl From<RunFault> for Stopped {
    fn from(fault: RunFault) -> Stopped {
        Stopped::Running(fault)
    }
}

/// Prints that a database can't be opened and, at a terminal, why.
pub fn refuse(rt: &HostRuntime, path: &str, why: Obstacle) -> Result<u8, Fault<'static>> {
    let Ok(line) = format!(in rt.alloc(); "cannot open {}\n", ShownPath(path)) else {
        return Err(Fault::NoMemory);
    };
    print_lines(rt, line.as_str())?;
    tell_obstacle(rt, path, why);
    Ok(Status::DeviceFailed.number())
}

/// The files of the database on the command line.
fn files_of(rt: &HostRuntime, words: &CollectWords<'_>) -> Result<DatabaseFiles, RunFault> {
    match DatabaseFiles::of(rt, words.database) {
        Ok(files) => Ok(files),
        Err(_) => Err(RunFault::NoMemory),
    }
}

/// Opens the database, or makes it.
fn open_database(
    rt: &HostRuntime,
    files: &DatabaseFiles,
    makes_tables: bool,
) -> Result<FileCollection, RunFault> {
    if !can_open_database(rt) {
        return Err(RunFault::CannotOpen(Obstacle::System));
    }
    match Collection::open(rt, files, makes_tables) {
        Ok(database) => Ok(database),
        Err(fault) => Err(RunFault::from(fault)),
    }
}

/// Opens a database that has a collection already.
pub fn open_collection(
    rt: &HostRuntime,
    files: &DatabaseFiles,
) -> Result<FileCollection, RunFault> {
    if !files.are_there(rt) {
        return Err(RunFault::CannotOpen(Obstacle::NoTables));
    }
    open_database(rt, files, false)
}

/// Closes the database.
pub fn close_database(
    rt: &HostRuntime,
    files: &DatabaseFiles,
    database: FileCollection,
) -> Result<(), RunFault> {
    match database.close(rt, files) {
        Ok(()) => Ok(()),
        Err(fault) => Err(RunFault::from(fault)),
    }
}

/// Puts the images into the database, and returns the exit status.
fn run_collection(rt: &HostRuntime, words: &CollectWords<'_>) -> Result<u8, Stopped> {
    let files = files_of(rt, words)?;
    let mut database = open_database(rt, &files, true)?;
    let ran = collect_images(rt, &mut database, &files, words);
    let closed = close_database(rt, &files, database);
    let status = ran?;
    closed?;
    Ok(status)
}

/// Puts one image after the other into the database.
fn collect_images(
    rt: &HostRuntime,
    database: &mut FileCollection,
    files: &DatabaseFiles,
    words: &CollectWords<'_>,
) -> Result<u8, Stopped> {
    let mut status = Status::Done;
    for i in 0..words.images.len() {
        if !collect_one(rt, database, files, words, i)? {
            status = Status::DeviceFailed;
        }
    }
    Ok(status.number())
}

/// Puts the image that these facts are of into the database.
fn put_rows<W: Watch>(
    rt: &HostRuntime,
    database: &mut FileCollection,
    facts: &ImageFacts<'_>,
    progress: &W,
) -> Result<Option<ImageCounts>, RunFault> {
    let mut rows = rows_at(rt, facts, progress);
    collect_image(database, &mut rows)
}

/// Puts the image at this place of the command line into the database, and shows its progress meanwhile.
fn put_one(
    rt: &HostRuntime,
    database: &mut FileCollection,
    words: &CollectWords<'_>,
    i: usize,
    path: &str,
) -> Result<Option<ImageCounts>, RunFault> {
    let facts = ImageFacts {
        path,
        program: PROGRAM,
        takes_digests: words.takes_digests,
    };
    let all = words.images.len() as u64;
    let progress = Progress::of_image(rt, (i as u64).saturating_add(1), Some(all), path);
    let counts = put_rows(rt, database, &facts, &progress);
    progress.end();
    counts
}

/// Puts the image at this place of the command line into the database, prints its line, and returns whether it could be read.
fn collect_one(
    rt: &HostRuntime,
    database: &mut FileCollection,
    files: &DatabaseFiles,
    words: &CollectWords<'_>,
    i: usize,
) -> Result<bool, Stopped> {
    let Some(path) = words.images.get(i).copied() else {
        return Ok(true);
    };
    if files.contain(rt, path) {
        print_unread(rt, path)?;
        return Ok(false);
    }
    match put_one(rt, database, words, i, path)? {
        Some(counts) => {
            tell_sum(rt, path, counts.wrong_sums != 0);
            let Ok(line) = image_line(rt.alloc(), path, &counts) else {
                return Err(Stopped::Running(RunFault::NoMemory));
            };
            print_lines(rt, line.as_str())?;
            tell_found(rt, path, counts.volumes);
            Ok(true)
        }
        None => {
            print_unread(rt, path)?;
            Ok(false)
        }
    }
}

/// Prints that an image can't be read.
fn print_unread(rt: &HostRuntime, path: &str) -> Result<(), Fault<'static>> {
    let Ok(line) = format!(in rt.alloc(); "cannot read {}\n", ShownPath(path)) else {
        return Err(Fault::NoMemory);
    };
    print_lines(rt, line.as_str())?;
    tell_unread(rt, path);
    Ok(())
}

/// Compares the images to what the database has about them, and returns the exit status.
fn run_comparison(rt: &HostRuntime, words: &CollectWords<'_>) -> Result<u8, Stopped> {
    let files = files_of(rt, words)?;
    let mut database = open_collection(rt, &files)?;
    let ran = if words.images.is_empty() {
        compare_all(rt, &mut database, &files)
    } else {
        compare_images(rt, &mut database, &files, words)
    };
    let closed = close_database(rt, &files, database);
    let is_worse = ran?;
    closed?;
    let status = if is_worse {
        Status::CallRefused
    } else {
        Status::Done
    };
    Ok(status.number())
}

/// Compares one image after the other, and returns whether one differs from what the database has.
fn compare_images(
    rt: &HostRuntime,
    database: &mut FileCollection,
    files: &DatabaseFiles,
    words: &CollectWords<'_>,
) -> Result<bool, Stopped> {
    let mut is_worse = false;
    let all = words.images.len() as u64;
    for i in 0..words.images.len() {
        if compare_one(rt, database, files, words.images[i], i as u64, Some(all))? {
            is_worse = true;
        }
    }
    Ok(is_worse)
}

/// Compares all images of the database, in the order of their paths' bytes, and returns whether one differs from what the
/// database has.
fn compare_all(
    rt: &HostRuntime,
    database: &mut FileCollection,
    files: &DatabaseFiles,
) -> Result<bool, Stopped> {
    let mut is_worse = false;
    let mut last = None;
    for i in 0..u64::MAX {
        match next_path(database, &last) {
            Ok(Some(path)) => {
                if compare_one(rt, database, files, path.as_str(), i, None)? {
                    is_worse = true;
                }
                last = Some(path);
            }
            Ok(None) => return Ok(is_worse),
            Err(fault) => return Err(Stopped::Running(RunFault::from(fault))),
        }
    }
    Ok(is_worse)
}

/// Compares an image to what the database has about it, and shows its progress meanwhile.
fn compared(
    rt: &HostRuntime,
    database: &mut FileCollection,
    path: &str,
    i: u64,
    all: Option<u64>,
) -> Result<Comparison, RunFault> {
    let progress = Progress::of_image(rt, i.saturating_add(1), all, path);
    let found = compare_at(rt, database, path, &progress);
    progress.end();
    found
}

/// Opens an image and compares it to what the database has about it.
fn compare_at<W: Watch>(
    rt: &HostRuntime,
    database: &mut FileCollection,
    path: &str,
    progress: &W,
) -> Result<Comparison, RunFault> {
    match open_image(rt, path, progress) {
        Some(mut source) => compare_image(rt.alloc(), database, path, &mut source),
        None => Ok(Comparison::Missing),
    }
}

/// Compares an image, prints its line, and returns whether it differs from what the database has. The image is the `i`-th,
/// counted from 0, of so many if that is known.
fn compare_one(
    rt: &HostRuntime,
    database: &mut FileCollection,
    files: &DatabaseFiles,
    path: &str,
    i: u64,
    all: Option<u64>,
) -> Result<bool, Stopped> {
    let found = if files.contain(rt, path) {
        Comparison::Missing
    } else {
        compared(rt, database, path, i, all)?
    };
    let Ok(line) = comparison_line(rt.alloc(), path, found) else {
        return Err(Stopped::Running(RunFault::NoMemory));
    };
    print_lines(rt, line.as_str())?;
    Ok(found.is_worse())
}
