//! The nodes of a tree's file.
ghost use Rattle.std.specs.Prelude.{◌≡◌, ◌*◌, ◌<◌, ◌≤◌, ◌^◌, None, length, slice_index_or};
ghost use Rattle.hfs_space.specs.Forks.{blocks_each};
ghost use Rattle.hfs_space.specs.TreeFiles.{node_count};
ghost use Rattle.hfs_btree.specs.Node.{node_of};
ghost use Rattle.hfs_btree.specs.Tree.{node_in};
ghost use Rattle.hfs_remains.specs.TreeFiles.{AreThere, first_nodes, node_at, node_total, nodes_of};

use crate::allocation::start_of;
use hfs_blocks::Blocks;
use hfs_btree::Nodes;
use hfs_fields::Mdb;

/// The nodes of a tree's file, by their numbers from 0 on: the 512-byte pieces of its allocation blocks, one after the other.
/// Those of missing blocks have numbers as well, but can't be decoded as nodes.
#[derive(Drop)]
pub struct FileNodes<'a, B: Blocks> {
    /// The logical blocks of the image.
    pub blocks: &'a B,
    /// The directory, which says where the allocation blocks lie.
    pub mdb: &'a Mdb,
    /// The allocation blocks of the file, with None in place of each that is missing.
    pub file: &'a [Option<u16>],
    ghost size: { 512 ≤ mdb.now.allocation_block_size },
    ghost there: { AreThere (B.total blocks.now) mdb.now file.now },
    ghost few: { length file.now < 2 ^ 40 },
}

/// The block at a place of a file; None if it is missing or past the file's end.
pub(crate) fn block_at(file: &[Option<u16>], place: usize) -> Option<u16>
    ensures { result ≡ slice_index_or file.now place None }
{
    if place < file.len() {
        file[place]
    } else {
        None
    }
}

/// How many nodes a file of `size` bytes has; the last one may be cut.
pub(crate) fn node_count(size: u32) -> u32
    ensures { result ≡ node_count size }
{
    size.div_ceil(512)
}

impl<B: Blocks> FileNodes<'_, B> {
    /// How many nodes the file has.
    pub fn count(&self) -> u64
        ensures { result ≡ node_total self.now.mdb.now self.now.file.now }
    {
        self.file.len() as u64 * u64::from(self.mdb.allocation_block_size / 512)
    }

    /// The number of the first node of the block at a place of the file.
    pub(crate) fn first_of(&self, place: usize) -> u64
        requires { place < length self.now.file.now }
        ensures number { result ≡ place * blocks_each self.now.mdb.now }
        ensures few { result ≤ 2 ^ 63 }
    {
        place as u64 * u64::from(self.mdb.allocation_block_size / 512)
    }

    /// Copies node `n` into 512 bytes: zeros, which can't be decoded as a node, if its block is missing or the file has no such
    /// node.
    #[tactic(auto, unfolding(crate::specs::TreeFiles::node_at))]
    pub fn read(&self, n: u64, into: &mut [u8; 512])
        ensures { into.new ≡ node_at (B.blocks self.now.blocks.now) self.now.mdb.now
            self.now.file.now n }
    {
        let each = u64::from(self.mdb.allocation_block_size / 512);
        match block_at(self.file, (n / each) as usize) {
            Some(b) => {
                let start = start_of(self.blocks.count(), self.mdb, b);
                self.blocks.block(start + (n % each) as u32, into);
            }
            None => *into = [0; 512],
        }
    }

    /// Copies 512 bytes that can be decoded if and only if node `n` can, and as the same node.
    pub fn read_node(&self, n: u64, into: &mut [u8; 512])
        ensures { node_of into.new ≡ node_in
            (nodes_of (B.blocks self.now.blocks.now) self.now.mdb.now self.now.file.now) n }
    {
        self.read(n, into);
    }
}

/// The first `count` nodes of a tree's file.
#[derive(Drop)]
pub struct FirstNodes<'a, B: Blocks> {
    /// The nodes of the whole file.
    pub nodes: &'a FileNodes<'a, B>,
    /// How many of them.
    pub count: u32,
}

impl<B: Blocks> Nodes for FirstNodes<'_, B> {
    ghost nodes = { λ s. first_nodes (B.blocks s.nodes.now.blocks.now) s.nodes.now.mdb.now
        s.nodes.now.file.now s.count };

    fn count(&self) -> u32 {
        self.count
    }

    fn read(&self, n: u32, into: &mut [u8; 512]) {
        self.nodes.read(u64::from(n), into);
    }
}
