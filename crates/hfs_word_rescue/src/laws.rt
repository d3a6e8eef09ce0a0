//! What holds for the definitions, each law as the contract of a function that does nothing.
ghost use Rattle.hfs_word_rescue.specs.Laws.{RemainsAreFound, RescuedPathsAreLawful, SoundPayloadsAreVolumes, SumsAreOfBags, TakenPathsAreLawful};

/// No path of the bag that `take` makes of a sound image leads out of it, and all paths differ, even ignoring the case of ASCII
/// letters.
pub fn taken_paths_are_lawful()
    ensures { TakenPathsAreLawful }
{}

/// Whatever bytes an image has, no path of the bag of what remains of it leads out of it, and all paths differ, even ignoring
/// the case of ASCII letters.
pub fn rescued_paths_are_lawful()
    ensures { RescuedPathsAreLawful }
{}

/// What remains of a sound image has the same payload as the bag that `take` makes of its volume: the same folders and files,
/// with the same paths and bytes.
pub fn sound_payloads_are_volumes()
    ensures { SoundPayloadsAreVolumes }
{}

/// What is printed about an image is in its bag: as many files and folders as its plan has, each with an AppleDouble file, and as
/// many bytes as its payload has.
pub fn sums_are_of_bags()
    ensures { SumsAreOfBags }
{}

/// Something is found of every image that has a directory.
pub fn remains_are_found()
    ensures { RemainsAreFound }
{}
