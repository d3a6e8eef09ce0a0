//! What the header record of a sound tree says.

ghost use Rattle.std.specs.Prelude.{◌≡◌};
ghost use Rattle.hfs_btree.specs.Header.{free_nodes, depth_of};
ghost use Rattle.hfs_btree.specs.Sound.{IsSound};

use crate::key::Key;
use crate::nodes::Nodes;
use crate::search::read_header;

/// How many nodes of the tree are free: the clear bits of its node map.
pub fn free_nodes<K: Key, N: Nodes>(nodes: &N) -> u32
    requires { IsSound K.Key (N.nodes nodes.now) }
    ensures { result ≡ free_nodes (N.nodes nodes.now) }
{
    read_header(nodes).free_nodes
}

/// How many levels the tree has; 0 if it is empty.
pub fn depth<K: Key, N: Nodes>(nodes: &N) -> u16
    requires { IsSound K.Key (N.nodes nodes.now) }
    ensures { result ≡ depth_of (N.nodes nodes.now) }
{
    read_header(nodes).depth
}
