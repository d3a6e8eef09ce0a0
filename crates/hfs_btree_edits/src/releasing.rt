//! Releasing a node that no longer belongs to a level.

ghost use Rattle.std.specs.Prelude.{◌≡◌, ◌<◌, OnOk, length};
ghost use Rattle.hfs_btree_edits.specs.Stored.{IsReleased};
ghost use Rattle.hfs_btree.specs.Sound.{IsSound, IsStray};

use crate::header_store::put_header;
use crate::map_bit::{bit_of_node, put_bit};
use crate::nodes_mut::NodesMut;
use hfs_btree::{BLANK_NODE, Key, read_header};
use std::alloc::{AllocError, Global};

/// Releases a stray node: it is blank and free afterwards, and the tree is the same.
pub fn release<K: Key, S: NodesMut>(alloc: Global, nodes: &mut S, n: u32) -> Result<(), AllocError>
    requires sound { IsSound K.Key (S.nodes nodes.old) }
    requires stray { IsStray K.Key (S.nodes nodes.old) n }
    requires within { n < length (S.nodes nodes.old) }
    ensures released { OnOk result (IsReleased K.Key n (S.nodes nodes.old) (S.nodes nodes.new)) }
    ensures kept { OnOk result (S.kept nodes.new ≡ S.kept nodes.old) }
{
    let mut header = read_header(nodes);
    let Some(bit) = bit_of_node(nodes, header.nodes, n) else {
        unreachable!();
    };
    put_bit(alloc, nodes, bit, false)?;
    header.free_nodes += 1;
    put_header(alloc, nodes, &header)?;
    nodes.write(n, &BLANK_NODE)
}
