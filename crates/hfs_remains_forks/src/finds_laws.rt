//! What the needed blocks imply, as the contract of a function that does nothing.
ghost use Rattle.hfs_remains_forks.specs.Needed.{NeededFindSame};

/// If blocks agree with others on those that are needed to find what there is of the latter, then both want other blocks or
/// neither does; and if neither does, the same is found of both.
pub fn needed_find_same()
    ensures { NeededFindSame }
{}
