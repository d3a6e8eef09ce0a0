//! What calls make of the items that they name, each law as the contract of a function that does nothing.
ghost use Rattle.hfs_model.specs.Named.{AskedAnswerAlike, AskedWantAlike, NamedStayKept};

/// If each item that some calls name by its folder and name has one of some IDs, this still holds after these calls: no other
/// item comes to such a place.
pub fn named_stay_kept()
    ensures { NamedStayKept }
{}

/// On two volumes that are the same except for the bytes of forks, if the forks of these items are the same as well, each of
/// these calls has the same reply after the calls before it.
pub fn asked_answer_alike()
    ensures { AskedAnswerAlike }
{}

/// The same if both lack the same nodes or blocks.
pub fn asked_want_alike()
    ensures { AskedWantAlike }
{}
