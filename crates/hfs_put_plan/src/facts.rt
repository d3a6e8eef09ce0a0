//! What is kept of an item besides its forks.
ghost use Rattle.std.specs.Prelude.{◌≡◌};
ghost use Rattle.hfs_put_plan.specs.Facts.{double_dates, double_facts, double_finder, file_time, macbinary_facts, macbinary_finder, told_dates, told_lock};

use hfs_encodings::{AppleDoubleFile, FileDates, MacBinaryFile};
use hfs_fields::FieldRow;

/// Lock and dates of an item, as its bag gives them.
#[derive(Clone, Copy)]
pub struct ToldFacts {
    /// Whether it is locked.
    pub locked: bool,
    /// Its dates.
    pub dates: FileDates,
}

/// What is kept of an item besides its forks.
#[derive(Clone, Copy)]
pub struct ItemFacts {
    /// What the Finder keeps.
    pub finder: [u8; 32],
    /// Whether it is locked, if it is a file.
    pub locked: bool,
    /// Its dates.
    pub dates: FileDates,
}

/// The dates of an item of which only the time of its file is known: it was never backed up.
fn file_time(modified: u32) -> FileDates
    ensures { result ≡ file_time modified }
{
    FileDates {
        created: modified,
        modified,
        backup: 0,
    }
}

/// The dates that a bag gives, or else these.
fn told_dates(told: Option<ToldFacts>, dates: FileDates) -> FileDates
    ensures { result ≡ told_dates told dates }
{
    match told {
        Some(told) => told.dates,
        None => dates,
    }
}

/// The lock that a bag gives, or else this one.
fn told_lock(told: Option<ToldFacts>, locked: bool) -> bool
    ensures { result ≡ told_lock told locked }
{
    match told {
        Some(told) => told.locked,
        None => locked,
    }
}

/// What the Finder keeps, from an AppleDouble file; zeros if there is none.
fn double_finder(double: Option<AppleDoubleFile>) -> [u8; 32]
    ensures { result ≡ double_finder double }
{
    match double {
        Some(double) => double.finder,
        None => [0; 32],
    }
}

/// The dates that an AppleDouble file gives, or else those of the item's own file or folder.
fn double_dates(double: Option<AppleDoubleFile>, modified: u32) -> FileDates
    ensures { result ≡ double_dates double modified }
{
    match double {
        Some(double) => match double.dates {
            Some(dates) => dates,
            None => file_time(modified),
        },
        None => file_time(modified),
    }
}

/// What is kept of an item, from its AppleDouble file, with lock and dates from its bag if it lies in one.
pub fn double_facts(
    told: Option<ToldFacts>,
    double: Option<AppleDoubleFile>,
    modified: u32,
) -> ItemFacts
    ensures { result ≡ double_facts told double modified }
{
    ItemFacts {
        finder: double_finder(double),
        locked: told_lock(told, false),
        dates: told_dates(told, double_dates(double, modified)),
    }
}

/// What the Finder keeps, from a MacBinary file, which has the first half of it.
fn macbinary_finder(info: &[u8; 16]) -> [u8; 32]
    ensures { result ≡ macbinary_finder info.now }
{
    let mut row = FieldRow::new();
    row.push(info);
    row.push_zeros(16);
    let mut finder = [0; 32];
    row.copy_to(&mut finder);
    finder
}

/// What is kept of a file, from its MacBinary header, with lock and dates from its bag if it lies in one.
pub fn macbinary_facts(told: Option<ToldFacts>, file: MacBinaryFile) -> ItemFacts
    ensures { result ≡ macbinary_facts told file }
{
    let dates = FileDates {
        created: file.created,
        modified: file.modified,
        backup: 0,
    };
    ItemFacts {
        finder: macbinary_finder(&file.finder_info),
        locked: told_lock(told, file.locked),
        dates: told_dates(told, dates),
    }
}
