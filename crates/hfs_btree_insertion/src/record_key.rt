//! The key of a node's record.

ghost use Rattle.std.specs.Prelude.{◌≡◌, true};
ghost use Rattle.hfs_btree_edits.specs.LevelParts.{entry_key};
ghost use Rattle.hfs_btree.specs.Tree.{reads_at};

use hfs_btree::{Key, index_key_of, key_of};

/// The key of a record of a node `above` levels above the leaves.
pub(crate) fn key_at<K: Key>(entry: &[u8], above: u16) -> K
    requires { reads_at K.Key above entry.now ≡ true }
    ensures { result ≡ entry_key K.Key above entry.now }
{
    if above == 0 {
        key_of(entry)
    } else {
        index_key_of(entry)
    }
}
