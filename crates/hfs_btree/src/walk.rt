//! Going through the pairs of a tree in order.

ghost use Rattle.std.specs.Prelude.{◌≡◌, ◌<◌, ◌≤◌, true, [], length, drop, option_map};
ghost use Rattle.hfs_btree.specs.Node.{node_of};
ghost use Rattle.hfs_btree.specs.Pairs.{pairs_from};
ghost use Rattle.hfs_btree.specs.Tree.{records_of};
ghost use Rattle.hfs_btree.specs.Header.{tree_content};
ghost use Rattle.hfs_btree.specs.Lookups.{first_pair};
ghost use Rattle.hfs_btree.specs.Sound.{HasStructure, HasCounts, IsSound};

use crate::key::Key;
use crate::leaf::{count_in, entry_in, no_leaf, place_in, settle};
use crate::nodes::Nodes;
use crate::search::{descend, read_header};
use std::marker::{Model, PhantomData};

/// A key and its body, as a leaf has them.
#[derive(Clone, Copy)]
pub struct Pair<'a, K> {
    /// The key.
    pub key: K,
    /// The bytes of the record after the key.
    pub body: &'a [u8],
}

/// The key and the body of a leaf's record.
fn pair_of<K: Key>(entry: &[u8]) -> Pair<'_, K>
    requires { K.is_leaf entry.now ≡ true }
    ensures key { result.key ≡ K.leaf_key entry.now }
    ensures body { result.body.now ≡ drop (K.body_start entry.now) entry.now }
{
    match K::read_leaf(entry) {
        Some((key, start)) => Pair {
            key,
            body: &entry[start..],
        },
        None => unreachable!(),
    }
}

/// A walk through the pairs of a tree, from leaf to leaf. Contracts see the pairs that are left.
///
/// Reads each leaf once, and takes no memory.
#[derive(Drop)]
pub struct Walk<'a, K: Key, N: Nodes> {
    nodes: &'a N,
    bytes: [u8; 512],
    place: usize,
    most: u32,
    keys: PhantomData<K>,
}

impl<'a, K: Key, N: Nodes> Model for Walk<'a, K, N> {
    ghost use Rattle.hfs_btree.specs.Pairs.{Pairs};

    ghost Value = { Pairs K };

    ghost use Rattle.hfs_btree.specs.Walk.{rest_at, IsWalk};

    ghost view = { λ w. rest_at K.Key (N.nodes w.nodes.now) w.bytes w.place w.most };

    ghost invariant = { λ w. IsWalk K.Key (N.nodes w.nodes.now) w.bytes w.place w.most };
}

impl<'a, K: Key, N: Nodes> Walk<'a, K, N> {
    /// A walk that is at its end.
    fn ended(nodes: &'a N) -> Walk<'a, K, N>
        requires { HasStructure K.Key (N.nodes nodes.now) }
        ensures { result ≡ [] }
    {
        Walk {
            nodes,
            bytes: no_leaf(),
            place: 0,
            most: 0,
            keys: PhantomData,
        }
    }

    /// A walk through all pairs, whatever the order of their keys.
    pub fn whole(nodes: &'a N) -> Walk<'a, K, N>
        requires structure { HasStructure K.Key (N.nodes nodes.now) }
        requires counts { HasCounts K.Key (N.nodes nodes.now) }
        ensures { result ≡ tree_content K.Key (N.nodes nodes.now) }
    {
        let header = read_header(nodes);
        if header.first_leaf == 0 {
            return Walk::ended(nodes);
        }
        let mut bytes = [0; 512];
        nodes.read(header.first_leaf, &mut bytes);
        Walk {
            nodes,
            bytes,
            place: 0,
            most: header.records,
            keys: PhantomData,
        }
    }

    /// A walk that starts at the first pair whose key isn't below this one.
    pub fn from(nodes: &'a N, key: &K) -> Walk<'a, K, N>
        requires { IsSound K.Key (N.nodes nodes.now) }
        ensures { result ≡ pairs_from K.compare key.now (tree_content K.Key (N.nodes nodes.now)) }
    {
        let header = read_header(nodes);
        if header.depth == 0 {
            return Walk::ended(nodes);
        }
        let mut bytes = [0; 512];
        descend(nodes, &header, key, &mut bytes);
        let first = place_in(&bytes, key);
        let count = count_in(&bytes);
        let (place, most) = settle::<K, N>(nodes, &mut bytes, count, first, header.records);
        Walk {
            nodes,
            bytes,
            place,
            most,
            keys: PhantomData,
        }
    }

    /// The next pair, or None at the end.
    pub fn pair(&self) -> Option<Pair<'_, K>>
        ensures { option_map (λ p. (p.key, p.body.now)) result ≡ first_pair self.now }
    {
        match entry_in(&self.bytes, self.place) {
            Some(entry) => Some(pair_of(entry)),
            None => None,
        }
    }

    /// Moves past the next pair, if there is one.
    pub fn advance(&mut self)
        ensures { self.new ≡ drop 1 self.old }
    {
        let count = count_in(&self.bytes);
        if self.place < count {
            let (place, most) = settle::<K, N>(
                self.nodes,
                &mut self.bytes,
                count,
                self.place + 1,
                self.most,
            );
            self.place = place;
            self.most = most;
        }
    }
}
