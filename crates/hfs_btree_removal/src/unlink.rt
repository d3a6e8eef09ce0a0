//! Linking a node's neighbours to each other past it.

ghost use Rattle.std.specs.Prelude.{◌≡◌, IfOk, OnOk};
ghost use Rattle.hfs_btree_edits.specs.Edits.{Edits};
ghost use Rattle.hfs_btree_edits.specs.Stored.{Decodes, IsLink};
ghost use Rattle.hfs_btree_removal.specs.Removal.{HasForward, HasBackwardTo, HasApartNeighbours, AreLinked, AreUnlinkable, AreUnlinked, left_of, right_of, last_left, last_right};

use crate::down::Step;
use hfs_btree_edits::{NodesMut, load, store};
use std::alloc::{AllocError, Global};

/// The neighbours of a node in its level; 0 at the ends.
#[derive(Clone, Copy)]
pub(crate) struct Neighbours {
    pub left: u32,
    pub right: u32,
}

/// Links node `n`, if it isn't 0, to another one on the right.
fn link_forward<S: NodesMut>(
    alloc: Global,
    nodes: &mut S,
    n: u32,
    to: u32,
) -> Result<(), AllocError>
    requires { IsLink (S.nodes nodes.old) n }
    ensures linked { Edits result (HasForward n to) S.nodes nodes.old nodes.new }
    ensures kept { OnOk result (S.kept nodes.new ≡ S.kept nodes.old) }
{
    if n == 0 {
        return Ok(());
    }
    let mut node = load(alloc, nodes, n)?;
    node.forward = to;
    store(nodes, n, &node)
}

/// Links node `n`, if it isn't 0, to another one on the left.
fn link_backward<S: NodesMut>(
    alloc: Global,
    nodes: &mut S,
    n: u32,
    to: u32,
) -> Result<(), AllocError>
    requires { IsLink (S.nodes nodes.old) n }
    ensures linked { Edits result (HasBackwardTo n to) S.nodes nodes.old nodes.new }
    ensures kept { OnOk result (S.kept nodes.new ≡ S.kept nodes.old) }
{
    if n == 0 {
        return Ok(());
    }
    let mut node = load(alloc, nodes, n)?;
    node.backward = to;
    store(nodes, n, &node)
}

/// Links the neighbours of node `n` to each other, and returns them.
pub(crate) fn unlink<S: NodesMut>(
    alloc: Global,
    nodes: &mut S,
    n: u32,
) -> Result<Neighbours, AllocError>
    requires node { Decodes (S.nodes nodes.old) n }
    requires left { IsLink (S.nodes nodes.old) (left_of (S.nodes nodes.old) n) }
    requires right { IsLink (S.nodes nodes.old) (right_of (S.nodes nodes.old) n) }
    requires apart { HasApartNeighbours (S.nodes nodes.old) n }
    ensures left { IfOk result (λ beside. beside.left ≡ left_of (S.nodes nodes.old) n) }
    ensures right { IfOk result (λ beside. beside.right ≡ right_of (S.nodes nodes.old) n) }
    ensures linked { IfOk result (AreLinked (S.nodes nodes.old) (S.nodes nodes.new)) }
    ensures kept { OnOk result (S.kept nodes.new ≡ S.kept nodes.old) }
{
    let node = load(alloc, nodes, n)?;
    let beside = Neighbours {
        left: node.backward,
        right: node.forward,
    };
    link_forward(alloc, nodes, beside.left, beside.right)?;
    link_backward(alloc, nodes, beside.right, beside.left)?;
    Ok(beside)
}

/// Takes the nodes of these steps, one below the other, out of the links of their levels. Returns the neighbours of the last one.
pub(crate) fn unlink_all<S: NodesMut>(
    alloc: Global,
    nodes: &mut S,
    chain: &[Step],
) -> Result<Neighbours, AllocError>
    requires { AreUnlinkable (S.nodes nodes.old) chain.now }
    ensures linked { Edits result (AreUnlinked chain.now) S.nodes nodes.old nodes.new }
    ensures left { IfOk result (λ ends. ends.left ≡ last_left (S.nodes nodes.old) chain.now) }
    ensures right { IfOk result (λ ends. ends.right ≡ last_right (S.nodes nodes.old) chain.now) }
    ensures kept { OnOk result (S.kept nodes.new ≡ S.kept nodes.old) }
{
    let mut last = Neighbours { left: 0, right: 0 };
    for i in 0..chain.len() {
        let n = chain[i].node;
        last = unlink(alloc, nodes, n)?;
    }
    Ok(last)
}
