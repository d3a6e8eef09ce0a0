//! The two counts of a tree's header record, as they are counted.

ghost use Rattle.std.specs.Prelude.{◌≡◌, ◌*◌, ◌≤◌, ◌<◌, IfOk, length};
ghost use Rattle.hfs_btree.specs.Header.{header_of, header_in, free_nodes, tree_content};
ghost use Rattle.hfs_btree.specs.Sound.{HasStructure};
ghost use Rattle.hfs_repair.specs.Opened.{IsCountsAnswer, IsRightHead};

use hfs_btree::{BLANK_NODE, Header, Key, Nodes, encode};
use hfs_btree_checks::{TreeFault, count_tree};
use hfs_btree_edits::load;
use std::alloc::{AllocError, Global};

/// The two counts of a tree's header record, and its header node with them in it.
#[derive(Drop)]
pub(crate) struct RightCounts {
    /// The header record, in which the two counts may be wrong.
    pub(crate) header: Header,
    /// How many records the leaves have.
    pub(crate) records: u32,
    /// How many of the tree's nodes have a clear bit in the node map.
    pub(crate) free_nodes: u32,
    /// The bytes of a header node in which the two counts are right, and everything else is the tree's.
    pub(crate) head: [u8; 512],
}

/// A header record with these fields, followed by the bytes of the old one.
fn header_entry(alloc: Global, header: &Header, old: &[u8]) -> Result<Vec<u8>, AllocError>
    requires { 30 ≤ length old.now }
    ensures fields { IfOk result (λ made. header_of made.items ≡ header.now) }
    ensures length { IfOk result (λ made. length made.items ≡ length old.now) }
{
    let mut entry = Vec::from_slice(alloc, old)?;
    header.write(entry.as_mut_slice());
    Ok(entry)
}

/// The bytes of a tree's header node with these two counts in its header record.
fn head_with<K: Key, N: Nodes>(
    alloc: Global,
    nodes: &N,
    header: &Header,
    records: u32,
    free: u32,
) -> Result<[u8; 512], AllocError>
    requires structure { HasStructure K.Key (N.nodes nodes.now) }
    requires header { header.now ≡ header_in (N.nodes nodes.now) }
    requires records { records ≡ length (tree_content K.Key (N.nodes nodes.now)) }
    requires free { free ≡ free_nodes (N.nodes nodes.now) }
    ensures { IfOk result (IsRightHead K.Key (N.nodes nodes.now)) }
{
    let right = Header {
        records,
        free_nodes: free,
        ..*header
    };
    let mut head = load(alloc, nodes, 0)?;
    let entry = header_entry(alloc, &right, head.records.record(0))?;
    let _old = head.records.replace(0, entry);
    let mut bytes = BLANK_NODE;
    encode(&head, &mut bytes);
    Ok(bytes)
}

/// The two counts of a tree in a file of `size` bytes that has its shape apart from what its header record says about them. None
/// exactly when it hasn't. Fails only when out of memory.
pub(crate) fn right_counts<K: Key, N: Nodes>(
    alloc: Global,
    nodes: &N,
    size: u32,
) -> Result<Option<RightCounts>, AllocError>
    requires { size ≤ 512 * length (N.nodes nodes.now) }
    ensures { IfOk result (IsCountsAnswer K.Key size (N.nodes nodes.now)) }
{
    let counts = match count_tree::<K, N>(alloc, nodes, size) {
        Ok(counts) => counts,
        Err(TreeFault::Memory) => return Err(AllocError),
        Err(TreeFault::At(_)) => return Ok(None),
    };
    let Some(records) = counts.records else {
        unreachable!()
    };
    let header = counts.header;
    let free_nodes = counts.free_nodes;
    let head = head_with::<K, N>(alloc, nodes, &header, records, free_nodes)?;
    Ok(Some(RightCounts {
        header,
        records,
        free_nodes,
        head,
    }))
}
