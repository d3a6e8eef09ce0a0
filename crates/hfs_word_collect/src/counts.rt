//! How much an image holds.
ghost use Rattle.std.specs.Prelude.{◌≡◌, IfSome};
ghost use Rattle.hfs_word_collect.specs.Counts as spec;

use crate::places::Way;
use hfs_model::ItemKind;

/// How much an image holds.
#[derive(Clone, Copy, Debug, PartialEq, Eq)]
pub struct ImageCounts {
    /// How many volumes have a row.
    pub volumes: u64,
    /// How many of them are refused.
    pub refused: u64,
    /// How many files have a row.
    pub files: u64,
    /// How many of these files have a fork that isn't whole.
    pub damaged: u64,
    /// How many of the volumes are disk copies whose sum is wrong.
    pub wrong_sums: u64,
}

/// How many files have a row, and how many of them have a fork that isn't whole.
#[derive(Clone, Copy, Debug, PartialEq, Eq)]
pub(crate) struct FileCounts {
    pub(crate) files: u64,
    pub(crate) damaged: u64,
}

impl FileCounts {
    /// No file.
    pub(crate) fn none() -> FileCounts
        ensures { result ≡ spec.no_files }
    {
        FileCounts {
            files: 0,
            damaged: 0,
        }
    }

    /// One item, whose forks are whole or not.
    pub(crate) fn of(kind: ItemKind, is_whole: bool) -> FileCounts
        ensures { result ≡ spec.item_files kind is_whole }
    {
        match kind {
            ItemKind::Folder => FileCounts::none(),
            ItemKind::File => FileCounts {
                files: 1,
                damaged: if is_whole { 0 } else { 1 },
            },
        }
    }

    /// The sum of both. None if a number is 2^64 or more.
    pub(crate) fn with(self, more: FileCounts) -> Option<FileCounts>
        ensures { IfSome result (λ sum. sum ≡ spec.both_files self more) }
    {
        Some(FileCounts {
            files: self.files.checked_add(more.files)?,
            damaged: self.damaged.checked_add(more.damaged)?,
        })
    }
}

/// How many wrong sums a volume has that lies in its file in this way.
fn wrong_sum(way: Way) -> u64
    ensures { result ≡ spec.wrong_sum way }
{
    match way {
        Way::WrongSum => 1,
        Way::Found(_) | Way::Lost => 0,
    }
}

impl ImageCounts {
    /// No volume.
    pub(crate) fn none() -> ImageCounts
        ensures { result ≡ spec.no_volumes }
    {
        ImageCounts {
            volumes: 0,
            refused: 0,
            files: 0,
            damaged: 0,
            wrong_sums: 0,
        }
    }

    /// A sound volume with this many files.
    pub(crate) fn sound(files: u64) -> ImageCounts
        ensures { result ≡ spec.sound_volume files }
    {
        ImageCounts {
            volumes: 1,
            refused: 0,
            files,
            damaged: 0,
            wrong_sums: 0,
        }
    }

    /// A refused volume with these files.
    pub(crate) fn refused(counts: FileCounts) -> ImageCounts
        ensures { result ≡ spec.refused_volume counts }
    {
        ImageCounts {
            volumes: 1,
            refused: 1,
            files: counts.files,
            damaged: counts.damaged,
            wrong_sums: 0,
        }
    }

    /// A volume that lies in its file in this way.
    pub(crate) fn lying(self, way: Way) -> ImageCounts
        ensures { result ≡ spec.lying way self }
    {
        ImageCounts {
            volumes: self.volumes,
            refused: self.refused,
            files: self.files,
            damaged: self.damaged,
            wrong_sums: wrong_sum(way),
        }
    }

    /// The sum of both. None if a number is 2^64 or more.
    pub(crate) fn with(self, more: ImageCounts) -> Option<ImageCounts>
        ensures { IfSome result (λ sum. sum ≡ spec.both_volumes self more) }
    {
        Some(ImageCounts {
            volumes: self.volumes.checked_add(more.volumes)?,
            refused: self.refused.checked_add(more.refused)?,
            files: self.files.checked_add(more.files)?,
            damaged: self.damaged.checked_add(more.damaged)?,
            wrong_sums: self.wrong_sums.checked_add(more.wrong_sums)?,
        })
    }
}
