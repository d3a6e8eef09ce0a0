//! What holds for the paths of a bag, as the contract of a function that does nothing.
ghost use Rattle.hfs_bag.specs.Laws.{BagPathsAreLawful};

/// The law of paths. If items lie in their folders under plain names, each at a path of its own even ignoring the case of ASCII
/// letters, then no path in the bag leads out of it, and all paths differ, even ignoring that case, those of the tag files included.
pub fn bag_path_laws()
    ensures { BagPathsAreLawful }
{}
