//! A tree's nodes with its node map.

ghost use Rattle.std.specs.Prelude.{◌≡◌, ◌*◌, ◌<◌, ◌≤◌, not, length, map};
ghost use Rattle.std.specs.List.{count_by, range_with_len};
ghost use Rattle.hfs_btree.specs.Header.{header_in, map_bytes, bit_of, is_marked, free_nodes};

use hfs_btree::{Nodes, bit_at};

/// The nodes of a tree whose header record and node map are known.
#[derive(Drop)]
pub(crate) struct MappedNodes<'a, N: Nodes> {
    /// The nodes of the tree's file.
    pub nodes: &'a N,
    /// How many nodes the tree has.
    pub count: u32,
    /// The bytes of the node map.
    pub map: &'a [u8],
    ghost counted: { count ≡ (header_in (N.nodes nodes.now)).nodes },
    ghost mapped: { map.now ≡ map_bytes (N.nodes nodes.now) },
    ghost within: { count ≤ length (N.nodes nodes.now) },
    ghost long: { count ≤ 8 * length map.now },
}

/// How many of the first `count` bits are clear.
fn clear_count(bytes: &[u8], count: u32) -> u32
    requires { count ≤ 8 * length bytes.now }
    ensures { result ≡ count_by not (map (bit_of bytes.now) (range_with_len 0 count)) }
{
    let mut clear = 0;
    for i in 0..count {
        if !bit_at(bytes, i as usize) {
            clear += 1;
        }
    }
    clear
}

impl<N: Nodes> MappedNodes<'_, N> {
    /// Whether node `n` is one of the tree's and marked as in use.
    pub fn is_marked(&self, n: u32) -> bool
        ensures { result ≡ is_marked (N.nodes self.now.nodes.now) n }
    {
        n < self.count && bit_at(self.map, n as usize)
    }

    /// How many of the tree's nodes are free.
    pub fn free_nodes(&self) -> u32
        ensures { result ≡ free_nodes (N.nodes self.now.nodes.now) }
    {
        clear_count(self.map, self.count)
    }
}
