//! What edits of the catalog make of a volume, each law as the contract of a function that does nothing.
ghost use Rattle.hfs_record_edits.specs.Laws.{CatalogEditsAreSteps};

/// Edits of the catalog that result in the items of a call's step, with right counts, leave a sound volume, which is the one that
/// the step makes.
pub fn catalog_edits_are_steps()
    ensures { CatalogEditsAreSteps }
{}
