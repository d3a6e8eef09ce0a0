//! The parts of a node.
ghost use Rattle.std.specs.Prelude.{◌≡◌, ◌+◌, ◌-◌, ◌≤◌, [], ◌∷◌, length};
ghost use Rattle.hfs_format.specs.NewTrees as spec;

use hfs_btree::NodeKind;
use hfs_fields::FieldRow;

/// The descriptor of a node with these links.
pub fn descriptor(forward: u32, backward: u32, kind: NodeKind, height: u8, records: u16) -> FieldRow
    ensures bytes { result ≡ spec.descriptor forward backward kind height records }
    ensures length { length result ≡ 14 }
{
    let mut row = FieldRow::new();
    row.push_u32(forward);
    row.push_u32(backward);
    row.push(&[kind.byte(), height]);
    row.push_u16(records);
    row.push_zeros(2);
    row
}

/// A leaf with two records.
pub fn leaf_block(first: &FieldRow, second: &FieldRow) -> [u8; 512]
    requires { length first.now + length second.now ≤ 492 }
    ensures { result ≡ spec.node_bytes (spec.lone_leaf (first.now ∷ second.now ∷ [])) }
{
    let second_start = 14 + first.len();
    let free_start = second_start + second.len();
    let mut row = descriptor(0, 0, NodeKind::Leaf, 1, 2);
    row.push_row(first);
    row.push_row(second);
    row.push_zeros(506 - free_start);
    row.push_u16(free_start as u16);
    row.push_u16(second_start as u16);
    row.push_u16(14);
    row.into_block()
}
