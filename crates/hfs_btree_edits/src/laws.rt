//! What holds for edits, each law as the contract of a function that does nothing.
ghost use Rattle.hfs_btree_edits.specs.Laws.{InsertionsTakeFewNodes, EditsKeepTheRest, NewKeysPass};

use hfs_btree::Key;

/// An insertion takes at most one free node for each level, and one for a new root.
pub fn insertions_take_few_nodes<K: Key>()
    ensures { InsertionsTakeFewNodes K K.Key }
{}

/// An edit leaves what follows the tree's nodes in the file as it is.
pub fn edits_keep_the_rest<K: Key>()
    ensures { EditsKeepTheRest K K.Key }
{}

/// If all keys of the tree and a new key pass a test, all keys of the new tree pass it.
pub fn new_keys_pass<K: Key>()
    ensures { NewKeysPass K K.Key }
{}
