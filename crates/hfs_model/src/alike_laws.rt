//! What calls make of volumes that are the same except for the bytes of forks, each law as the contract of a function that does
//! nothing.
ghost use Rattle.hfs_model.specs.Alike.{AlikeAfter, AlikeVolumesAnswerAlike, AlikeWanting, AlikeWithin, KeptForksReadAlike};

/// On two volumes that are the same except for the bytes of forks, each call has the same code and the same reply, except for the
/// bytes that it reads from a fork, and leaves two volumes that are the same in this way.
pub fn alike_volumes_answer_alike()
    ensures { AlikeVolumesAnswerAlike }
{}

/// The same if the catalog has as many free nodes and as many levels on both.
pub fn alike_within()
    ensures { AlikeWithin }
{}

/// The same if both lack the same nodes or blocks.
pub fn alike_wanting()
    ensures { AlikeWanting }
{}

/// After the entries of a journal, they are still the same in this way.
pub fn alike_after()
    ensures { AlikeAfter }
{}

/// If the forks of some files are the same on both as well, a read of one of these gives the same bytes.
pub fn kept_forks_read_alike()
    ensures { KeptForksReadAlike }
{}
