//! What holds for the definitions, each law as the contract of a function that does nothing.
ghost use Rattle.hfs_database.specs.Nested.{CollectionPagesNest};

/// The markup of each collection's page nests: each element that begins ends, the innermost first.
pub fn collection_pages_nest()
    ensures { CollectionPagesNest }
{}
