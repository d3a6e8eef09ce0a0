//! The least and the greatest of some keys.

ghost use Rattle.std.specs.Prelude.{◌≡◌, true, ◌&&◌, if◌then◌else◌};
ghost use Rattle.std.specs.Ordering.{is_lt};
ghost use Rattle.hfs_btree_checks.specs.Subtree.{is_at_most, is_above, CoversBoth, CoversAlso, lesser_in};

use hfs_btree::{Key, key_of};

/// The least and the greatest of some keys, which need not be in order.
#[derive(Clone, Copy)]
pub(crate) struct KeyRange<K> {
    /// The least of the keys.
    pub least: K,
    /// The greatest of them.
    pub greatest: K,
}

/// The second key if it is less, otherwise the first.
fn lesser<K: Key>(first: K, second: K) -> K
    ensures { result ≡ if is_lt (K.compare second first) then second else first }
{
    if second.compare(&first).is_lt() {
        second
    } else {
        first
    }
}

fn greater<K: Key>(first: K, second: K) -> K
    ensures { result ≡ if is_lt (K.compare first second) then second else first }
{
    if first.compare(&second).is_lt() {
        second
    } else {
        first
    }
}

/// The range of the keys of two ranges, each None if it has no keys.
pub(crate) fn joined<K: Key>(
    first: Option<KeyRange<K>>,
    second: Option<KeyRange<K>>,
) -> Option<KeyRange<K>>
    ensures { CoversBoth K.compare first second result }
{
    let Some(one) = first else {
        return second;
    };
    let Some(other) = second else {
        return Some(one);
    };
    Some(KeyRange {
        least: lesser(one.least, other.least),
        greatest: greater(one.greatest, other.greatest),
    })
}

/// The key of a leaf's record if it is less, otherwise the first one.
fn lesser_in<K: Key>(first: K, entry: &[u8]) -> K
    requires { K.is_leaf entry.now ≡ true }
    ensures { result ≡ lesser_in K.Key first entry.now }
{
    if first.compare_leaf(entry).is_gt() {
        key_of(entry)
    } else {
        first
    }
}

/// The range of the keys of a range, None if it has no keys, and of a leaf's record. A key above the range is compared only with
/// its greatest, and the key of the record is copied only if the range takes it.
pub(crate) fn widened<K: Key>(range: Option<KeyRange<K>>, entry: &[u8]) -> Option<KeyRange<K>>
    requires { K.is_leaf entry.now ≡ true }
    ensures { CoversAlso K.Key range entry.now result }
{
    let Some(one) = range else {
        let key = key_of(entry);
        return Some(KeyRange {
            least: key,
            greatest: key,
        });
    };
    if one.greatest.compare_leaf(entry).is_lt() {
        return Some(KeyRange {
            least: one.least,
            greatest: key_of(entry),
        });
    }
    Some(KeyRange {
        least: lesser_in(one.least, entry),
        greatest: one.greatest,
    })
}

/// Whether a key is above those of the first range and at most those of the second.
pub(crate) fn is_between<K: Key>(
    key: &K,
    before: Option<KeyRange<K>>,
    own: Option<KeyRange<K>>,
) -> bool
    ensures { result ≡ (is_above K.compare key.now before && is_at_most K.compare key.now own) }
{
    let above = match before {
        Some(range) => range.greatest.compare(key).is_lt(),
        None => true,
    };
    let at_most = match own {
        Some(range) => !key.compare(&range.least).is_gt(),
        None => true,
    };
    above && at_most
}
