//! What laying forks into a file means for an image inside it.
ghost use Rattle.hfs_put.specs.Laws.{AreLaidInImages};

/// The law of forks that are laid into a file, from the first byte of an image in it on: the image gets them, and nothing else
/// changes.
pub fn laid_forks_laws()
    ensures { AreLaidInImages }
{}
