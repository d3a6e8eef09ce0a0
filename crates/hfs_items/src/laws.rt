//! What holds for the definitions, each law as the contract of a function that does nothing.
ghost use Rattle.hfs_items.specs.Laws.{TablesAreInventories};

/// The table of a lawful volume has each of its items exactly once, and after its folder.
pub fn tables_are_inventories()
    ensures { TablesAreInventories }
{}
