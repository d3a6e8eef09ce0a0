//! What a check without a fault implies, each law as the contract of a function that does nothing.
ghost use Rattle.hfs_catalog.specs.Laws.{ReachesSoon};

/// A chain of parents that reaches the root at all does so in no more steps than there are records.
pub fn reaches_soon()
    ensures { ReachesSoon }
{}
