//! The way from the root down to the leaf where the search for a key ends.

ghost use Rattle.std.specs.Prelude.{◌≡◌, ℕ, ◌+◌, ◌-◌, ◌<◌, ◌≤◌, true, [], length, slice_index_or};
ghost use Rattle.hfs_btree.specs.Node.{node_of, size_of};
ghost use Rattle.hfs_btree_edits.specs.Edits.{node_for};
ghost use Rattle.hfs_btree_insertion.specs.Growth.{AreFull};
ghost use Rattle.hfs_btree.specs.Header.{header_in, depth_of};
ghost use Rattle.hfs_btree.specs.Sound.{IsSound};
ghost use Rattle.hfs_btree.specs.Tree.{records_of};

use hfs_btree::{Header, Key, Nodes, child_in, view};

/// The node on the way to a key that is `above` levels above the leaves, with its bytes.
pub(crate) fn node_at<K: Key, N: Nodes>(
    nodes: &N,
    header: &Header,
    key: &K,
    above: u16,
    bytes: &mut [u8; 512],
) -> u32
    requires sound { IsSound K.Key (N.nodes nodes.now) }
    requires header { header.now ≡ header_in (N.nodes nodes.now) }
    requires some { above < depth_of (N.nodes nodes.now) }
    ensures node { result ≡ node_for K.Key (N.nodes nodes.now) key.now above }
    ensures bytes { bytes.new ≡ slice_index_or (N.nodes nodes.now) result [] }
{
    let mut n = header.root;
    let mut here = header.depth - 1;
    nodes.read(n, bytes);
    while here > above {
        n = child_in(bytes, key);
        here -= 1;
        nodes.read(n, bytes);
    }
    n
}

/// How many bytes a node's records and their offsets take.
#[tactic(auto, using(hfs_btree::proofs::SizeLemmas::sizes))]
pub(crate) fn size_in(bytes: &[u8; 512]) -> usize
    ensures size { result ≡ size_of (records_of (node_of bytes.now)) }
    ensures small { result ≤ 123008 }
{
    let Ok(node) = view(bytes) else {
        return 0;
    };
    let mut size = 0;
    for i in 0..node.len() {
        size += node.record(i).len() + 2;
    }
    size
}

/// `full + 1` if a node has no room for a record of `len` bytes, else 0.
fn count_full(bytes: &[u8; 512], len: usize, full: u16) -> u16
    requires len { len ≤ 65535 + 5 }
    requires full { full < 65535 }
    ensures full { 496 < size_of (records_of (node_of bytes.now)) + (len + 2) → result ≡ full + 1 }
    ensures room { size_of (records_of (node_of bytes.now)) + (len + 2) ≤ 496 → result ≡ 0 }
{
    if size_in(bytes) + len + 2 > 496 {
        full + 1
    } else {
        0
    }
}

/// How many nodes on the way to a key, from the leaf upwards, have no room for one more record: in the leaf one of `len` bytes,
/// above it an index record.
pub(crate) fn full_levels<K: Key, N: Nodes>(nodes: &N, header: &Header, key: &K, len: usize) -> u16
    requires sound { IsSound K.Key (N.nodes nodes.now) }
    requires header { header.now ≡ header_in (N.nodes nodes.now) }
    requires some { 0 < depth_of (N.nodes nodes.now) }
    requires short { len ≤ 140 }
    ensures { AreFull K.Key (N.nodes nodes.now) key.now len result }
{
    let mut bytes = [0; 512];
    let mut n = header.root;
    let mut here = header.depth - 1;
    let mut full = 0;
    nodes.read(n, &mut bytes);
    while here > 0 {
        full = count_full(&bytes, K::INDEX_KEY_LEN as usize + 5, full);
        n = child_in(&bytes, key);
        here -= 1;
        nodes.read(n, &mut bytes);
    }
    count_full(&bytes, len, full)
}
