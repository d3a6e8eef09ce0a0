//! What the edits of a tree need of the file below it.

ghost use Rattle.std.specs.Prelude.{◌≡◌, ◌<◌, OnOk, length, slice_set};

use hfs_btree::Nodes;
use std::alloc::AllocError;

/// Nodes of a tree's file that can be written. After an error they must be thrown away.
///
/// Its ghost member `kept` is what no write changes: everything that the file lies on besides its nodes.
pub trait NodesMut: Nodes {
    ghost Kept: { Type 0 };

    ghost kept: { Self → Self.Kept };

    /// Writes 512 bytes as node `n`, and no other node.
    fn write(&mut self, n: u32, from: &[u8; 512]) -> Result<(), AllocError>
        requires { n < length (Self.nodes self.old) }
        ensures written { OnOk result
            (Self.nodes self.new ≡ slice_set (Self.nodes self.old) n from.now) }
        ensures kept { OnOk result (kept self.new ≡ kept self.old) };
}
