//! What holds for the definitions, each law as the contract of a function that does nothing.
ghost use Rattle.hfs_remains.specs.Laws.{BlocksHaveFewItems, ItemsAreFew, RecordsAreRead, ItemsAreCounted, DirectoriesAreRead, SoundDirectoryIsFound, SoundOverflowIsFound, SoundCatalogIsFound, SoundItemsAreFound};

/// 512 bytes have at most six items.
pub fn blocks_have_few_items()
    ensures { BlocksHaveFewItems }
{}

/// A catalog that does not pass its check gives at most six items for each of its nodes that exists, and for each other block.
pub fn items_are_few()
    ensures { ItemsAreFew }
{}

/// The records that remain in blocks of bytes have names of at most 31 bytes and numbers of 32 bits.
pub fn records_are_read()
    ensures { RecordsAreRead }
{}

/// By a directory of such an image, fewer than 2^48 items remain.
pub fn items_are_counted()
    ensures { ItemsAreCounted }
{}

/// Each directory that is found in an image has fewer than 2^16 blocks, of a size of 32 bits.
pub fn directories_are_read()
    ensures { DirectoriesAreRead }
{}

/// The directory of a sound image is found in block 2, if the catalog file has a block in the directory's own extents.
pub fn sound_directory_is_found()
    ensures { SoundDirectoryIsFound }
{}

/// For a sound volume, the records of the extents tree are its own.
pub fn sound_overflow_is_found()
    ensures { SoundOverflowIsFound }
{}

/// For a sound volume, the records that are found are those of its catalog, in order, and none is old.
pub fn sound_catalog_is_found()
    ensures { SoundCatalogIsFound }
{}

/// For a sound volume, the items are the folders and files of its catalog, in order.
pub fn sound_items_are_found()
    ensures { SoundItemsAreFound }
{}
