//! What holds for the definitions, each law as the contract of a function that does nothing.
ghost use Rattle.hfs_remains_page.specs.Nested.{RemainsPagesNest};
ghost use Rattle.hfs_remains_page.specs.Once.{ThingsStandOnce};

/// The markup of each page of remains nests, whatever was found: each element that begins ends, the innermost first.
pub fn remains_pages_nest()
    ensures { RemainsPagesNest }
{}

/// Each thing that was found is in the tree of a page once, whatever folders the things name as theirs, even if these are in one
/// another.
pub fn things_stand_once()
    ensures { ThingsStandOnce }
{}
