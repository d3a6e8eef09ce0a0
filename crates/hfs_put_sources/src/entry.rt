//! The entries of a host's folder, by name.
ghost use Rattle.std.specs.Prelude.{◌≡◌, string_bytes};
ghost use Rattle.hfs_put_sources.specs.Looks.{host_date};

use hfs_put_plan::{EntryKind, date_before_1970, date_since_1970};
use std::marker::Model;

/// When something was last changed: seconds after the beginning of 1970, and nanoseconds after these.
#[derive(Clone, Copy)]
pub struct HostTime {
    pub seconds: i64,
    pub nanoseconds: i64,
}

/// What is seen of a file or folder without reading it.
#[derive(Clone, Copy)]
pub struct Look {
    pub kind: EntryKind,
    pub modified: HostTime,
}

/// An entry of a host's folder. Contracts see name and look.
#[derive(Drop)]
pub struct HostEntry {
    name: String,
    look: Look,
}

impl Model for HostEntry {
    ghost use Rattle.std.specs.Prelude.{string_bytes};
    ghost use Rattle.hfs_put_sources.specs.Trees.{Listed};

    ghost Value = { Listed };

    ghost view = { λ entry. record { name = string_bytes entry.name; look = entry.look } };
}

impl HostEntry {
    /// The entry with this name.
    pub fn new(name: String, look: Look) -> HostEntry
        ensures { result ≡ record { name = string_bytes name; look = look } }
    {
        HostEntry { name, look }
    }

    /// Its name.
    pub fn name(&self) -> &str
        ensures { result.now ≡ self.now.name }
    {
        self.name.as_str()
    }

    /// What is seen of it.
    pub fn look(&self) -> Look
        ensures { result ≡ self.now.look }
    {
        self.look
    }
}

/// The Macintosh date of a time, or the nearest that there is.
#[tactic(auto, unfolding(crate::specs::Looks::host_date))]
pub fn host_date(time: HostTime) -> u32
    ensures { result ≡ host_date time }
{
    if time.seconds < 0 {
        date_before_1970(time.seconds.unsigned_abs(), false)
    } else {
        date_since_1970(time.seconds as u64)
    }
}
