//! What holds for the definitions, each law as the contract of a function that does nothing.
ghost use Rattle.hfs_remains_forks.specs.Laws.{ForksAreTheirBlocks, RecordsHaveOwnPlaces, SoundForksAreWhole, SoundForksAreTaken, SoundThingsAreItems, FoundAreThings, SoundAreThings, SoundNamesAreOwn, SoundItemsHaveWays, SoundPathsAreHostPaths};

/// How many bytes are taken of a fork, which these are, and what is found of it except for other owners of its blocks, are a
/// function of where blocks lie, the fork's length and extents, and its blocks' bytes.
pub fn forks_are_their_blocks()
    ensures { ForksAreTheirBlocks }
{}

/// The items among records, and the folders that records name, have places of their own, which lead down from the payload.
pub fn records_have_own_places()
    ensures { RecordsHaveOwnPlaces }
{}

/// Each sound fork of a sound volume is taken whole, and its bytes are those that the volume has.
pub fn sound_forks_are_whole()
    ensures { SoundForksAreWhole }
{}

/// No fork of a sound volume is left out if as many bytes may be taken as the volume has.
pub fn sound_forks_are_taken()
    ensures { SoundForksAreTaken }
{}

/// On a sound volume, no folder is named only by a thread.
pub fn sound_things_are_items()
    ensures { SoundThingsAreItems }
{}

/// What is found in an image has names of at most 31 bytes and numbers of 32 bits; there are fewer than 2^64.
pub fn found_are_things()
    ensures { FoundAreThings }
{}

/// What a sound image has is of that kind as well.
pub fn sound_are_things()
    ensures { SoundAreThings }
{}

/// On a sound volume, no two items of a folder have the same name, even ignoring the case of ASCII letters.
pub fn sound_names_are_own()
    ensures { SoundNamesAreOwn }
{}

/// On a sound volume, names lead from each item except the root up to the payload.
pub fn sound_items_have_ways()
    ensures { SoundItemsHaveWays }
{}

/// On a sound volume whose folders' host paths take at most 800 bytes, each item except the root is put at the host path of the
/// names that lead to it.
pub fn sound_paths_are_host_paths()
    ensures { SoundPathsAreHostPaths }
{}
