//! What holds for a list of items that is put on an image, each law as the contract of a function that does nothing.
ghost use Rattle.hfs_put.specs.Forks.{LaidForksAreRead};
ghost use Rattle.hfs_put.specs.Lists.{AlikeVolumesArePutAlike};
ghost use Rattle.hfs_put.specs.Saved.{DifferencesCarryOver, SavedIsPut};

/// If two volumes are the same except for the bytes of forks, they still are after a list was put on them, and the files that
/// were put have the same bytes on both; or the same call is refused on both, with the same reply.
pub fn alike_volumes_are_put_alike()
    ensures { AlikeVolumesArePutAlike }
{}

/// If the bytes of some files' forks are laid in the blocks of these files, and each other block stays, a sound image is still
/// sound, agrees with what it was except for these blocks, and holds its volume with these bytes in these forks.
pub fn laid_forks_are_read()
    ensures { LaidForksAreRead }
{}

/// The blocks in which a volume differs from the copy on which it was mounted, laid over the image that has the copy's working
/// blocks, agree with that image except for the blocks of forks that calls wrote, and hold what the calls made of the copy,
/// except for the bytes of forks.
pub fn differences_carry_over()
    ensures { DifferencesCarryOver }
{}

/// All steps of putting a list on an image: the calls that write no fork are made on a copy with the image's working blocks, the
/// blocks that then differ are laid over the image, and the bytes of the forks are laid in the blocks of their files. The result
/// is sound, and holds what the File Manager makes of the image's volume by the whole list of calls, except for the bytes of
/// forks of other files. It agrees with the image except for the blocks of forks that calls wrote and those of the files that
/// were put.
pub fn saved_is_put()
    ensures { SavedIsPut }
{}
