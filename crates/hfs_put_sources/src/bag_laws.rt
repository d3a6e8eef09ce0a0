//! What is said about a path is said about what the walk finds there.
ghost use Rattle.std.specs.Prelude.{ℕ, List};
ghost use Rattle.hfs_put_sources.specs.BagLaws.{ArePathsOfWalk};

/// The law of paths: what a table says about a path below the payload, and a manifest about a path in the bag, is said about what
/// the walk over the bag finds at that path.
pub fn bag_paths()
    ensures { (source : List ℕ) → ArePathsOfWalk source }
{}
