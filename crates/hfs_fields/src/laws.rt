//! What holds for scans, each law as the contract of a function that does nothing.
ghost use Rattle.hfs_fields.specs.Laws.{ScansAreWhole, ScansAreFirst};

/// A scan finds nothing exactly when each element passes the test.
pub fn scans_are_whole<X>()
    ensures { ScansAreWhole X }
{}

/// What a scan finds is the place of the first element that fails the test.
pub fn scans_are_first<X>()
    ensures { ScansAreFirst X }
{}
