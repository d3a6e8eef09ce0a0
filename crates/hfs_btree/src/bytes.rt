//! Numbers at their places in a node.
ghost use Rattle.std.specs.Prelude.{◌≡◌, ◌≤◌};
ghost use Rattle.hfs_btree.specs.Node.{count_of, offset_of};

use hfs_fields::u16_at;

/// The offset of record `i`, or after the last record that of the free space.
#[tactic(auto, unfolding(crate::specs::Node::offset_of))]
pub(crate) fn offset_at(bytes: &[u8; 512], i: usize) -> usize
    requires { i ≤ 255 }
    ensures { result ≡ offset_of bytes.now i }
{
    u16_at(bytes, 510 - 2 * i) as usize
}

/// The number of records.
#[tactic(auto, unfolding(crate::specs::Node::count_of))]
pub(crate) fn count_at(bytes: &[u8; 512]) -> usize
    ensures { result ≡ count_of bytes.now }
{
    u16_at(bytes, 10) as usize
}
