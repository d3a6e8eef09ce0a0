//! What holds for the definitions, each law as the contract of a function that does nothing.
ghost use Rattle.hfs_remains_places.specs.Laws.{PathsAreShort, PlacesDiffer, PathsAreHostPaths, FoldersAreThings, NamesLeadDown, PathsTellNames, EndlessChainsTurn};

/// The path of a folder has at most 800 bytes; that of any item has at most 916, not counting what precedes the path of an old
/// one.
pub fn paths_are_short()
    ensures { PathsAreShort }
{}

/// No two items, nor an item and a folder that only a thread names, have the same path below the payload, even ignoring the case
/// of ASCII letters. Each path leads down from the payload, and AppleDouble files have paths of their own.
pub fn places_differ()
    ensures { PlacesDiffer }
{}

/// If no two things have the same name and the host paths of folders take at most 800 bytes, a thing from which names lead up to
/// the payload has their host path.
pub fn paths_are_host_paths()
    ensures { PathsAreHostPaths }
{}

/// What such a path lies in is the path of a folder from which names lead up.
pub fn folders_are_things()
    ensures { FoldersAreThings }
{}

/// To each item except the root that is neither in what is old nor in what is lost, names lead from the root down; to others none
/// do.
pub fn names_lead_down()
    ensures { NamesLeadDown }
{}

/// If nothing is lost and no two things have the same name, an item's path below the payload and the names that lead to it
/// describe the same way.
pub fn paths_tell_names()
    ensures { PathsTellNames }
{}

/// A chain of parents has no end exactly when it comes back to one of its folders.
pub fn endless_chains_turn()
    ensures { EndlessChainsTurn }
{}
