//! What holds for a file in which a list was put on the volume of an image, each law as the contract of a function that does
//! nothing.
ghost use Rattle.hfs_put.specs.Arrivals.{LaidForksAreArrivals, WholeForksCome};
ghost use Rattle.hfs_put.specs.PutFiles.{PutFilesHaveDirectory, PutFilesHoldPut};

/// A fork of which a tree has as many bytes as were planned is put as it is there.
pub fn whole_forks_come()
    ensures { WholeForksCome }
{}

/// Laying the forks of a tree in runs of an image gives the same as laying there the bytes that this tree gives for the list.
pub fn laid_forks_are_arrivals()
    ensures { LaidForksAreArrivals }
{}

/// All steps of putting a list on the volume of an image in a file, of which a copy with the image's working blocks was read: the
/// forks of a tree are laid in the file, and then the changed blocks in the image's place, with the sum of a disk copy. The
/// image's place then has what the File Manager makes of the image's volume by the whole list of calls with the bytes that this
/// tree gives, and every other byte is the file's own except for that sum.
pub fn put_files_hold_put()
    ensures { PutFilesHoldPut }
{}

/// In such a file the image has the master directory block that was told of what is put: so as many allocation blocks are free.
pub fn put_files_have_directory()
    ensures { PutFilesHaveDirectory }
{}
