//! Marking a free node as in use.

ghost use Rattle.std.specs.Prelude.{◌≡◌, ◌<◌, IfOk, OnOk};
ghost use Rattle.hfs_btree.specs.Header.{free_nodes};
ghost use Rattle.hfs_btree.specs.Sound.{IsSound};
ghost use Rattle.hfs_btree_edits.specs.Stored.{HasClaimed};

use crate::header_store::put_header;
use crate::map_bit::{free_bit, put_bit};
use crate::nodes_mut::NodesMut;
use hfs_btree::{Key, read_header};
use std::alloc::{AllocError, Global};

/// Marks a free node as in use, and returns its number.
pub fn claim_node<K: Key, S: NodesMut>(alloc: Global, nodes: &mut S) -> Result<u32, AllocError>
    requires sound { IsSound K.Key (S.nodes nodes.old) }
    requires some { 0 < free_nodes (S.nodes nodes.old) }
    ensures claimed { IfOk result (λ n.
        HasClaimed K.Key n (S.nodes nodes.old) (S.nodes nodes.new)) }
    ensures kept { OnOk result (S.kept nodes.new ≡ S.kept nodes.old) }
{
    let mut header = read_header(nodes);
    let Some(free) = free_bit(nodes, header.nodes) else {
        unreachable!();
    };
    put_bit(alloc, nodes, free, true)?;
    header.free_nodes -= 1;
    put_header(alloc, nodes, &header)?;
    Ok(free.number)
}
