//! What holds for the definitions, each law as the contract of a function that does nothing.
ghost use Rattle.hfs_rescue_items.specs.Laws.{FoldersComeFirst, OnlyThingsAreMade, PayloadsHaveTheirSums, PlansCountItems};

/// A folder is made before what is in it.
pub fn folders_come_first()
    ensures { FoldersComeFirst }
{}

/// Only the things are made, each at its own path and of its kind, and the folders that they are in.
pub fn only_things_are_made()
    ensures { OnlyThingsAreMade }
{}

/// What is counted of the plan is what is counted of the items: each item except the root comes once.
pub fn plans_count_items()
    ensures { PlansCountItems }
{}

/// The payload of what is planned has as many bytes as are counted of the items, and an AppleDouble file for each that is counted.
pub fn payloads_have_their_sums()
    ensures { PayloadsHaveTheirSums }
{}
