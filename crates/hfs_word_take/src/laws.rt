//! What holds for the definitions, each law as the contract of a function that does nothing.
ghost use Rattle.hfs_word_take.specs.Laws.{ArePathsPrintedBack, BagPathsAreTold, ItemsArePlaced, SoundCatalogsTellTables, SoundItemsArePlaced, SoundPathsAreTold};

/// The items of a lawful volume have plain names and paths of their own, even ignoring the case of ASCII letters: no path leads
/// out of the bag.
pub fn items_are_placed()
    ensures { ItemsArePlaced }
{}

/// Each item of a lawful volume except its root lies in the bag at the path that its line in the table gives.
pub fn bag_paths_are_told()
    ensures { BagPathsAreTold }
{}

/// The same holds for the items of each sound image, whatever bytes it has.
pub fn sound_items_are_placed()
    ensures { SoundItemsArePlaced }
{}

/// And each of them except the root lies at the path that its line gives.
pub fn sound_paths_are_told()
    ensures { SoundPathsAreTold }
{}

/// The rows of a sound image's catalog, which a page of it has, are those of its table: each item's once, in the table's order.
pub fn sound_catalogs_tell_tables()
    ensures { SoundCatalogsTellTables }
{}

/// A Mac path that is read as names is printed back from them, if each of its bytes prints as itself. `:` alone, which is read as
/// one empty name, is no such path.
pub fn paths_are_printed_back()
    ensures { ArePathsPrintedBack }
{}
