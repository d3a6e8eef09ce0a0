//! How many bytes a file has, and when it was changed.
ghost use Rattle.std.specs.Prelude.{◌≡◌, true};

use std::fs::OpenFile;
use std::io;
use std::os::unix::fs::MetadataExt;

/// How many bytes a file has, and when it was last changed.
#[derive(Clone, Copy, Debug, Drop)]
pub struct Stamp {
    /// How many bytes it has.
    pub len: u64,
    /// When bytes were last written, in seconds since 1970.
    pub modified: i64,
    /// And how many nanoseconds later.
    pub modified_nanoseconds: i64,
    /// When these or the file's attributes last changed, which no program can set.
    pub changed: i64,
    /// And how many nanoseconds later.
    pub changed_nanoseconds: i64,
}

impl Stamp {
    /// The stamp of a file that was opened.
    pub(crate) fn of<F: OpenFile>(file: &F) -> io::Result<Stamp> {
        let metadata = file.metadata()?;
        Ok(Stamp {
            len: metadata.len(),
            modified: metadata.mtime(),
            modified_nanoseconds: metadata.mtime_nsec(),
            changed: metadata.ctime(),
            changed_nanoseconds: metadata.ctime_nsec(),
        })
    }

    /// Whether both are the same.
    pub(crate) fn is_same(&self, other: &Stamp) -> bool
        ensures { result ≡ true → self.now ≡ other.now }
    {
        self.len == other.len
            && self.modified == other.modified
            && self.modified_nanoseconds == other.modified_nanoseconds
            && self.changed == other.changed
            && self.changed_nanoseconds == other.changed_nanoseconds
    }
}
