//! A pair of a catalog replaced by a shorter one, under its name in the other letter case: no call of
//! a volume changes how long a record is.
use hfs_btree::{Key, find};
use hfs_btree_checks::check_tree;
use hfs_btree_edits::replace;
use hfs_fields::{CatKey, Name};
use hfs_fixtures::NodeTable;
use std::alloc::Global;
use std::test::Fail;

/// The header node of a tree with one leaf of two records, and no free node.
fn header_node() -> [u8; 512] {
    let mut bytes = [0; 512];
    bytes[8..12].copy_from_slice(&[1, 0, 0, 3]);
    bytes[14..44].copy_from_slice(&[
        0, 1, 0, 0, 0, 1, 0, 0, 0, 2, 0, 0, 0, 1, 0, 0, 0, 1, 2, 0, 0, 37, 0, 0, 0, 2, 0, 0, 0, 0,
    ]);
    bytes[248] = 192;
    bytes[504..512].copy_from_slice(&[0, 249, 0, 248, 0, 120, 0, 14]);
    bytes
}

/// That node, and a leaf of two records: 70 bytes under the name `V` in folder 1, and 46 bytes of $0C under no name in folder 2.
fn longer_tree() -> [[u8; 512]; 2] {
    let mut leaf = [0; 512];
    leaf[8..12].copy_from_slice(&[255, 1, 0, 2]);
    leaf[14..22].copy_from_slice(&[7, 0, 0, 0, 0, 1, 1, 86]);
    leaf[22..92].copy_from_slice(&[0x0b; 70]);
    leaf[92..100].copy_from_slice(&[6, 0, 0, 0, 0, 2, 0, 0]);
    leaf[100..146].copy_from_slice(&[0x0c; 46]);
    leaf[506..512].copy_from_slice(&[0, 146, 0, 92, 0, 14]);
    [header_node(), leaf]
}

/// The same with 46 bytes of $5A under the name `v`: what stands after them moves up, and the free space has zeros.
fn shorter_tree() -> [[u8; 512]; 2] {
    let mut leaf = [0; 512];
    leaf[8..12].copy_from_slice(&[255, 1, 0, 2]);
    leaf[14..22].copy_from_slice(&[7, 0, 0, 0, 0, 1, 1, 118]);
    leaf[22..68].copy_from_slice(&[0x5a; 46]);
    leaf[68..76].copy_from_slice(&[6, 0, 0, 0, 0, 2, 0, 0]);
    leaf[76..122].copy_from_slice(&[0x0c; 46]);
    leaf[506..512].copy_from_slice(&[0, 122, 0, 68, 0, 14]);
    [header_node(), leaf]
}

/// Puts a pair in place of the one with its key. Whether the tree is sound before and after, and had such a pair, which is no
/// shorter.
fn put(alloc: Global, nodes: &mut NodeTable, key: &CatKey, body: &[u8]) -> Result<bool, Fail> {
    let Ok(_) = check_tree::<CatKey, NodeTable>(alloc, nodes, nodes.size()) else {
        return Ok(false);
    };
    if !CatKey::is_body_len(body.len()) {
        return Ok(false);
    }
    let Some(old) = find(alloc, nodes, key)? else {
        return Ok(false);
    };
    if body.len() > old.len() {
        return Ok(false);
    }
    replace(alloc, nodes, key, body)?;
    Ok(check_tree::<CatKey, NodeTable>(alloc, nodes, nodes.size()).is_ok())
}

#[test]
fn a_pair_replaced_by_a_shorter_one(rt: HostRuntime) -> Result<(), Fail> {
    let Some(name) = Name::of_bytes(b"v") else {
        return Err(Fail::new("no name"));
    };
    let key = CatKey { parent: 1, name };
    let Some(mut nodes) = NodeTable::of_nodes(rt.alloc(), &longer_tree())? else {
        return Err(Fail::new("too many nodes"));
    };
    assert!(rt; put(rt.alloc(), &mut nodes, &key, &[0x5a; 46])?);
    assert!(rt; nodes.nodes.as_slice() == &shorter_tree()[..]);
    Ok(())
}
