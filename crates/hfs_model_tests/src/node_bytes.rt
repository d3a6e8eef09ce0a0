//! Nodes as rows of bytes by hand: their faults in order, their limits, and their records.
ghost use Rattle.std.specs.Prelude.{◌≤◌, length};

use byteorder::{BigEndian, ByteOrder};
use hfs_btree::{BLANK_NODE, Node, NodeFault, NodeKind, Records, decode, encode, fits, view};
use std::alloc::{AllocError, Global};
use std::test::Fail;

/// A leaf of height 1 with these offsets, that of the free space last.
fn leaf_with(offsets: &[u16]) -> [u8; 512]
    requires { length offsets.now ≤ 250 }
{
    let mut bytes = BLANK_NODE;
    bytes[8] = 255;
    bytes[9] = 1;
    BigEndian::write_u16(&mut bytes[10..], (offsets.len() as u16).saturating_sub(1));
    for i in 0..offsets.len() {
        BigEndian::write_u16(&mut bytes[510 - 2 * i..], offsets[i]);
    }
    bytes
}

/// A node of this kind with these records.
fn node_with(alloc: Global, kind: NodeKind, records: &[&[u8]]) -> Result<Node, AllocError> {
    let mut list = Records::new(alloc);
    for record in records {
        list.push(Vec::from_slice(alloc, record)?)?;
    }
    Ok(Node {
        forward: 0x0102_0304,
        backward: 5,
        kind,
        height: 2,
        records: list,
    })
}

/// Whether a view of these bytes, and the node that is read from them, have this fault.
fn has_fault(alloc: Global, bytes: &[u8; 512], fault: NodeFault) -> bool {
    view(bytes).err() == Some(fault) && decode(alloc, bytes).err() == Some(fault)
}

#[test]
fn offsets_are_checked_in_order(rt: HostRuntime) {
    let mut unknown = BLANK_NODE;
    unknown[8] = 5;
    let cases: [([u8; 512], NodeFault); 5] = [
        (unknown, NodeFault::Kind),
        (BLANK_NODE, NodeFault::Outside),
        (leaf_with(&[14, 40, 30]), NodeFault::NotRising),
        (leaf_with(&[14, 507, 30]), NodeFault::Outside),
        (leaf_with(&[14; 250]), NodeFault::Outside),
    ];
    for (bytes, fault) in &cases {
        assert!(rt; has_fault(rt.alloc(), bytes, *fault));
    }
}

/// How many records a node has, and the lengths of the first and the last.
fn lengths(alloc: Global, bytes: &[u8; 512]) -> Option<(usize, usize, usize)> {
    let node = decode(alloc, bytes).ok()?;
    let count = node.records.len();
    if count == 0 {
        return None;
    }
    let first = node.records.record(0).len();
    Some((count, first, node.records.record(count - 1).len()))
}

#[test]
fn nodes_at_the_limits_decode(rt: HostRuntime) {
    assert!(rt; lengths(rt.alloc(), &leaf_with(&[14, 40, 506])) == Some((2, 26, 466)));
    assert!(rt; lengths(rt.alloc(), &leaf_with(&[14; 249])) == Some((248, 0, 0)));
}

/// Whether the records are these.
fn are(records: &Records, want: &[&[u8]]) -> bool {
    if records.len() != want.len() {
        return false;
    }
    for i in 0..want.len() {
        if records.record(i) != want[i] {
            return false;
        }
    }
    true
}

/// The bytes of a node, written over others; None if it has no room.
fn written(node: &Node) -> Option<[u8; 512]> {
    if !fits(node) {
        return None;
    }
    let mut bytes = [0xaa; 512];
    encode(node, &mut bytes);
    Some(bytes)
}

/// An index node with three records, one of them empty.
fn index_bytes() -> [u8; 512] {
    let mut bytes = BLANK_NODE;
    bytes[..19].copy_from_slice(b"\x01\x02\x03\x04\x00\x00\x00\x05\x00\x02\x00\x03\x00\x00abcde");
    bytes[504..].copy_from_slice(b"\x00\x13\x00\x11\x00\x11\x00\x0e");
    bytes
}

/// Whether these are that node's numbers and records.
fn is_index(node: &Node) -> bool {
    (node.forward, node.backward, node.height) == (0x0102_0304, 5, 2)
        && node.kind == NodeKind::Index
        && are(&node.records, &[b"abc", b"", b"de"])
}

#[test]
fn a_node_is_written_whole(rt: HostRuntime) -> Result<(), Fail> {
    let node = node_with(rt.alloc(), NodeKind::Index, &[b"abc", b"", b"de"])?;
    assert!(rt; written(&node) == Some(index_bytes()));
    let read = decode(rt.alloc(), &index_bytes())?;
    assert!(rt; is_index(&read));
    Ok(())
}

/// Puts `x` after the first of three records.
fn insert(alloc: Global, records: &mut Records) -> Result<bool, AllocError> {
    if records.is_empty() {
        return Ok(false);
    }
    records.insert(1, Vec::from_slice(alloc, b"x")?)?;
    Ok(are(records, &[b"a", b"x", b"b", b"c"]))
}

/// Removes the first record.
fn remove(records: &mut Records) -> bool {
    !records.is_empty()
        && records.remove(0).as_slice() == b"a".as_slice()
        && are(records, &[b"x", b"b", b"c"])
}

/// Puts `y` in place of the third record.
fn replace(alloc: Global, records: &mut Records) -> Result<bool, AllocError> {
    if records.len() < 3 {
        return Ok(false);
    }
    let old = records.replace(2, Vec::from_slice(alloc, b"y")?);
    Ok(old.as_slice() == b"c".as_slice() && are(records, &[b"x", b"b", b"y"]))
}

/// Cuts the node after its first record.
fn cut(node: &mut Node) -> Result<bool, AllocError> {
    if node.records.is_empty() {
        return Ok(false);
    }
    let second = node.split_off(1)?;
    Ok(second.height == 2 && are(&node.records, &[b"x"]) && are(&second.records, &[b"b", b"y"]))
}

#[test]
fn records_are_edited(rt: HostRuntime) -> Result<(), Fail> {
    let mut node = node_with(rt.alloc(), NodeKind::Leaf, &[b"a", b"b", b"c"])?;
    assert!(rt; insert(rt.alloc(), &mut node.records)? && remove(&mut node.records));
    assert!(rt; replace(rt.alloc(), &mut node.records)? && cut(&mut node)?);
    Ok(())
}

#[test]
fn faults_are_told(rt: HostRuntime) -> Result<(), Fail> {
    let cases = [
        (NodeFault::Kind, "the node's type is unknown"),
        (NodeFault::Outside, "a record lies outside the node's room"),
        (NodeFault::NotRising, "the records' offsets don't rise"),
        (NodeFault::Memory, "out of memory"),
    ];
    for (fault, text) in cases {
        assert!(rt; fault.to_string(rt.alloc())?.as_str() == text);
    }
    Ok(())
}
