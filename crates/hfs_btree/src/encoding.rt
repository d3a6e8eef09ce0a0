//! A node that is written to its bytes.
ghost use Rattle.std.specs.Prelude.{◌≡◌, ◌+◌, ◌*◌, ◌-◌, ◌<◌, ◌≤◌, ℕ, Ok, Some, length, slice_index};
ghost use Rattle.hfs_btree.specs.Node.{node_from, node_of, offset_of, size_of, start_of, Fits};
ghost use Rattle.hfs_btree.specs.Laid.{HasHead, AreLaid, SameHead, IsClear, IsZeroFrom};

use crate::node::{BLANK_NODE, Descriptor, Node};
use crate::rows::RecordRow;
use hfs_fields::{put, put_u16, put_u32};

/// Writes the descriptor, except its reserved bytes.
fn put_head<R: RecordRow>(head: &Descriptor, row: &R, out: &mut [u8; 512])
    requires { size_of (R.records row.now) ≤ 496 }
    ensures head { HasHead (node_from head.now (R.records row.now)) out.new }
    ensures rest { (k : ℕ) → 12 ≤ k → slice_index out.new k ≡ slice_index out.old k }
{
    put_u32(out, 0, head.forward);
    put_u32(out, 4, head.backward);
    put(out, 8, &[head.kind.byte(), head.height]);
    put_u16(out, 10, row.len() as u16);
}

/// Writes record `i` at its place, and its offset. Returns where the next one begins.
fn put_record<R: RecordRow>(row: &R, i: usize, at: usize, out: &mut [u8; 512]) -> usize
    requires within { i < length (R.records row.now) }
    requires room { size_of (R.records row.now) ≤ 496 }
    requires place { at ≡ start_of (R.records row.now) i }
    requires laid { AreLaid (R.records row.now) i out.old }
    requires clear { IsZeroFrom (start_of (R.records row.now) i) (512 - 2 * i) out.old }
    ensures laid { AreLaid (R.records row.now) (i + 1) out.new }
    ensures place { result ≡ start_of (R.records row.now) (i + 1) }
    ensures head { SameHead out.old out.new }
    ensures clear { IsZeroFrom (start_of (R.records row.now) (i + 1)) (510 - 2 * i) out.new }
{
    let entry = row.record(i);
    put_u16(out, 510 - 2 * i, at as u16);
    put(out, at, entry);
    at + entry.len()
}

/// Writes the records and their offsets.
fn put_records<R: RecordRow>(row: &R, out: &mut [u8; 512])
    requires room { size_of (R.records row.now) ≤ 496 }
    requires clear { IsZeroFrom 14 512 out.old }
    ensures laid { AreLaid (R.records row.now) (length (R.records row.now)) out.new }
    ensures free { offset_of out.new (length (R.records row.now))
        ≡ start_of (R.records row.now) (length (R.records row.now)) }
    ensures head { SameHead out.old out.new }
    ensures clear { IsZeroFrom (start_of (R.records row.now) (length (R.records row.now)))
        (510 - 2 * length (R.records row.now)) out.new }
{
    let mut at = 14;
    let count = row.len();
    for i in 0..count {
        at = put_record(row, i, at, out);
    }
    put_u16(out, 510 - 2 * count, at as u16);
}

/// Writes a node with this descriptor and a row of records, which fit: the records one after the other from byte 14 on, their
/// offsets and that of the free space, and zeros in the free space and in the descriptor's reserved bytes. Takes no memory.
pub fn encode_row<R: RecordRow>(head: &Descriptor, row: &R, out: &mut [u8; 512])
    requires { size_of (R.records row.now) ≤ 496 }
    ensures node { node_of out.new ≡ Ok (node_from head.now (R.records row.now)) }
    ensures offsets { (k : ℕ) → k ≤ length (R.records row.now)
        → offset_of out.new k ≡ start_of (R.records row.now) k }
    ensures clear { IsClear (R.records row.now) out.new }
{
    *out = BLANK_NODE;
    put_head(head, row, out);
    put_records(row, out);
}

/// Writes a node that fits: the records one after the other from byte 14 on, their offsets and that of
/// the free space, and zeros in the free space and in the descriptor's reserved bytes. Takes no memory.
pub fn encode(node: &Node, out: &mut [u8; 512])
    requires { Fits node.now }
    ensures node { node_of out.new ≡ Ok node.now }
    ensures offsets { (k : ℕ) → k ≤ length node.now.records
        → offset_of out.new k ≡ start_of node.now.records k }
    ensures clear { IsClear node.now.records out.new }
{
    let head = Descriptor {
        forward: node.forward,
        backward: node.backward,
        kind: node.kind,
        height: node.height,
    };
    encode_row(&head, &node.records, out);
}
