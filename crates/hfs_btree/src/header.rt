//! The header record of a tree.

ghost use Rattle.std.specs.Prelude.{◌≡◌, ◌≤◌, length};
ghost use Rattle.hfs_btree.specs.Header.{header_of};
ghost use Rattle.hfs_btree.specs.HeaderForm.{header_bytes, IsHeaderValue};

use hfs_fields::{FieldRow, u16_at, u32_at};

/// The header record, which is the first of a tree's node 0.
///
/// Source: Inside Macintosh: Files, chapter 2, 'B*-trees', header nodes. Nodes are counted from 0.
#[derive(Debug, Clone, Copy, PartialEq, Eq)]
pub struct Header {
    /// bthDepth: how many levels the tree has; 0 if it is empty.
    pub depth: u16,
    /// bthRoot: the number of the root node; 0 if the tree is empty.
    pub root: u32,
    /// bthNRecs: how many records all leaves have together.
    pub records: u32,
    /// bthFNode: the number of the first leaf; 0 if the tree is empty.
    pub first_leaf: u32,
    /// bthLNode: the number of the last leaf; 0 if the tree is empty.
    pub last_leaf: u32,
    /// bthNodeSize: the bytes of a node.
    pub node_size: u16,
    /// bthKeyLen: the length of the keys of index nodes, without their length byte.
    pub key_len: u16,
    /// bthNNodes: how many nodes the tree's file has.
    pub nodes: u32,
    /// bthFree: how many of them are free.
    pub free_nodes: u32,
}

impl Header {
    /// The fields of a header record.
    #[tactic(auto, unfolding(crate::specs::Header::header_of, hfs_fields::specs::Numbers::number_at))]
    pub fn read(bytes: &[u8]) -> Header
        requires { 30 ≤ length bytes.now }
        ensures { result ≡ header_of bytes.now }
    {
        Header {
            depth: u16_at(bytes, 0),
            root: u32_at(bytes, 2),
            records: u32_at(bytes, 6),
            first_leaf: u32_at(bytes, 10),
            last_leaf: u32_at(bytes, 14),
            node_size: u16_at(bytes, 18),
            key_len: u16_at(bytes, 20),
            nodes: u32_at(bytes, 22),
            free_nodes: u32_at(bytes, 26),
        }
    }

    /// Writes the fields into the first 30 bytes of a header record.
    pub fn write(&self, bytes: &mut [u8])
        requires { 30 ≤ length bytes.old }
        ensures fields { header_of bytes.new ≡ self.now }
        ensures length { length bytes.new ≡ length bytes.old }
    {
        self.laid().copy_to(bytes);
    }

    /// The 30 bytes of the fields.
    #[tactic(auto, unfolding(crate::specs::HeaderForm::header_bytes))]
    fn laid(&self) -> FieldRow
        ensures bytes { result ≡ header_bytes self.now }
        ensures length { length result ≡ 30 }
        ensures value { IsHeaderValue self.now }
    {
        let mut row = FieldRow::new();
        row.push_u16(self.depth);
        row.push_u32(self.root);
        row.push_u32(self.records);
        row.push_u32(self.first_leaf);
        row.push_u32(self.last_leaf);
        row.push_u16(self.node_size);
        row.push_u16(self.key_len);
        row.push_u32(self.nodes);
        row.push_u32(self.free_nodes);
        row
    }
}
