//! Ranges of a file's bytes, and how they lie in it.
ghost use Rattle.std.specs.Prelude.{◌≡◌, ◌++◌, OnOk};
ghost use Rattle.std.specs.Option.{option_to_list};

use crate::SparseFault;

/// A range of a file's bytes.
#[derive(Clone, Copy, Debug, PartialEq, Eq)]
pub struct ByteRange {
    /// The byte where it begins, counted from 0.
    pub start: u64,
    /// How many bytes it has.
    pub len: u64,
}

/// How a range lies in its file.
#[derive(Clone, Copy, Debug, PartialEq, Eq)]
pub enum Container {
    /// It is the whole file.
    Bare,
    /// It is the data fork of a MacBinary file.
    MacBinary,
    /// It is the data of a Disk Copy 4.2 file, whose header has the data's sum. That file may be the data fork of a MacBinary
    /// file.
    DiskCopy {
        /// The sum in the header.
        sum: u32,
    },
    /// It is a partition of type Apple_HFS in a partition map.
    Partition,
    /// It is the whole user data of raw CD sectors.
    RawBare,
    /// It is a partition of that type in that data.
    RawPartition,
}

/// How a file's bytes are laid out.
#[derive(Clone, Copy, Debug, PartialEq, Eq)]
pub enum Layout {
    /// Bytes in which volumes may lie.
    Plain,
    /// Raw CD sectors, in whose user data volumes may lie.
    Raw,
}

/// A range that was found in a file.
#[derive(Clone, Copy, Debug, PartialEq, Eq)]
pub struct FoundRange {
    /// How it lies in the file.
    pub container: Container,
    /// Its bytes.
    pub range: ByteRange,
}

/// Appends a range, if one was found.
pub fn push_found(found: &mut Vec<FoundRange>, more: Option<FoundRange>) -> Result<(), SparseFault>
    ensures { OnOk result (found.new.items ≡ found.old.items ++ option_to_list more) }
{
    if let Some(range) = more {
        let Ok(()) = found.push(range) else {
            return Err(SparseFault::Memory);
        };
    }
    Ok(())
}
