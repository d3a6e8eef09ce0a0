//! What the journal of a run has of the lines and the replies, and what a run over a copy of an image says about the image itself,
//! each law as the contract of a function that does nothing.
ghost use Rattle.hfs_runs.specs.JournalLines.{JournalsHaveTheCodes, JournalsHaveTheLines};
ghost use Rattle.hfs_runs.specs.OnImage.{NamedForksAreTheImages, SavedIsMade, WorkersReadTheImage};

/// The calls of each worker in the journal of a run are the first of its lines, in their order, as many as it got replies. So the
/// volume that is saved is what calls of the lines made, and no line's call was made twice.
pub fn journals_have_the_lines()
    ensures { JournalsHaveTheLines }
{}

/// The codes of each worker's calls in the journal of a run are, in their order, those of the replies that it got. So each line that
/// was answered with code 0 has an entry of its own that was accepted.
pub fn journals_have_the_codes()
    ensures { JournalsHaveTheCodes }
{}

/// What was read of an image for a script, with zeros elsewhere, has the image's working blocks, and the forks of all files that
/// the script's lines name, for every image consistent with the bytes read.
pub fn named_forks_are_the_images()
    ensures { NamedForksAreTheImages }
{}

/// Over such a copy, each reply to a worker is what the image answers after the same calls of lines, even for reads of forks.
pub fn workers_read_the_image()
    ensures { WorkersReadTheImage }
{}

/// What is written after a run over such a copy makes of the image what the run's calls make of its volume, except for the bytes
/// of forks of files that no line names.
pub fn saved_is_made()
    ensures { SavedIsMade }
{}
