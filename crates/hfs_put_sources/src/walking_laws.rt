//! What the order of the walk implies.
ghost use Rattle.hfs_put_sources.specs.WalkLaws.{AreWalksParted};

/// The law of the walk: the list of some items and others after them is that of the former, with everything in them, and then
/// that of the latter. So what is in an item comes directly after it.
pub fn walk_laws()
    ensures { AreWalksParted }
{}
