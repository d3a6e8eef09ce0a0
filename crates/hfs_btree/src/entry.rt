//! One record of a leaf or an index node.

ghost use Rattle.std.specs.Prelude.{◌≡◌, true, drop};
ghost use Rattle.std.specs.Ordering.{is_gt};

use crate::key::Key;

/// Whether an index record's key is above this one.
pub fn is_above<K: Key>(entry: &[u8], key: &K) -> bool
    requires { K.is_index entry.now ≡ true }
    ensures { result ≡ is_gt (K.compare (K.index_key entry.now) key.now) }
{
    key.compare_index(entry).is_lt()
}

/// The child that an index record names.
pub fn child_of<K: Key>(entry: &[u8]) -> u32
    requires { K.is_index entry.now ≡ true }
    ensures { result ≡ K.child entry.now }
{
    match K::read_index(entry) {
        Some((_, child)) => child,
        None => unreachable!(),
    }
}

/// The key of an index record.
pub fn index_key_of<K: Key>(entry: &[u8]) -> K
    requires { K.is_index entry.now ≡ true }
    ensures { result ≡ K.index_key entry.now }
{
    match K::read_index(entry) {
        Some((key, _)) => key,
        None => unreachable!(),
    }
}

/// The key of a leaf's record.
pub fn key_of<K: Key>(entry: &[u8]) -> K
    requires { K.is_leaf entry.now ≡ true }
    ensures { result ≡ K.leaf_key entry.now }
{
    match K::read_leaf(entry) {
        Some((key, _)) => key,
        None => unreachable!(),
    }
}

/// The body of a leaf's record.
pub fn body_of<K: Key>(entry: &[u8]) -> &[u8]
    requires { K.is_leaf entry.now ≡ true }
    ensures { result.now ≡ drop (K.body_start entry.now) entry.now }
{
    match K::read_leaf(entry) {
        Some((_, start)) => &entry[start..],
        None => unreachable!(),
    }
}
