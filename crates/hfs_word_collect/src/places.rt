//! The volumes of a file, as their rows describe them.
ghost use Rattle.std.specs.Prelude.{◌≡◌};
ghost use Rattle.hfs_word_collect.specs.Volumes.{lost_place, place_of, way_of};

use hfs_source::{ByteRange, Container, FoundRange};

/// How a volume lies in its file.
#[derive(Clone, Copy, Debug, PartialEq, Eq)]
pub(crate) enum Way {
    /// It was found there.
    Found(Container),
    /// It was found as the data of a disk copy whose sum is wrong.
    WrongSum,
    /// It is the whole file, in which no volume was found, but a directory.
    Lost,
}

/// Which volume of a file it is, and where it lies.
#[derive(Clone, Copy, Debug, PartialEq, Eq)]
pub(crate) struct VolumePlace {
    /// Its number; the volumes that were found are counted from 1.
    pub(crate) number: u64,
    pub(crate) way: Way,
    /// How many sectors of its image have no user data, if they are raw CD sectors; else 0.
    pub(crate) others: u64,
    pub(crate) range: ByteRange,
}

/// A volume that was found in a file, before it is known whether its sum is right.
#[derive(Clone, Copy)]
pub(crate) struct FoundVolume {
    /// Its number, counted from 1.
    pub(crate) number: u64,
    /// How many sectors of its image have no user data, if they are raw CD sectors; else 0.
    pub(crate) others: u64,
    pub(crate) found: FoundRange,
}

/// How a volume that was found lies in its file, given whether its sum is right.
fn way_of(container: Container, sum: Option<bool>) -> Way
    ensures { result ≡ way_of container sum }
{
    match sum {
        Some(true) | None => Way::Found(container),
        Some(false) => Way::WrongSum,
    }
}

impl VolumePlace {
    /// The place of a volume that was found, with this number, whether its sum is right, and how many sectors have no user data.
    pub(crate) fn of(others: u64, number: u64, found: &FoundRange, sum: Option<bool>) -> VolumePlace
        ensures { result ≡ place_of others number found.now sum }
    {
        VolumePlace {
            number,
            way: way_of(found.container, sum),
            others,
            range: found.range,
        }
    }

    /// The place of the lost volume in a file of `len` bytes, with how many sectors have no user data.
    pub(crate) fn lost(others: u64, len: u64) -> VolumePlace
        ensures { result ≡ lost_place others len }
    {
        VolumePlace {
            number: 0,
            way: Way::Lost,
            others,
            range: ByteRange { start: 0, len },
        }
    }
}
