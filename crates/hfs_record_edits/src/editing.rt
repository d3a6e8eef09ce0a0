//! One record of a fork in the extents tree.

ghost use Rattle.std.specs.Prelude.{ℕ, suc, ◌≡◌, ◌*◌, ◌^◌, ◌<◌, ◌≤◌, OnOk, length};
ghost use Rattle.hfs_btree.specs.Header.{header_in};
ghost use Rattle.hfs_btree_edits.specs.Edits.{Edits};
ghost use Rattle.hfs_space.specs.Extents.{fork_byte};
ghost use Rattle.hfs_space.specs.TreeKeys.{IsExtentsTree};
ghost use Rattle.hfs_record_edits.specs.Need.{HasNodesFor};
ghost use Rattle.hfs_record_edits.specs.Whole.{EditsFork, AreBefore, HasRecordBehind, IsRecordAt, HasRecordSet, HasSameRoom};

use crate::records::byte_of;
use crate::threes::record_body;
use crate::{add, change};
use hfs_btree_edits::NodesMut;
use hfs_fields::{ExtKey, Extent};
use hfs_space::ForkKind;
use std::alloc::{AllocError, Global};

/// Adds a record of a fork, which begins at its block `block`, after all others of it. If there are enough free nodes for more
/// records, there are then enough for the others.
pub(crate) fn add_record<S: NodesMut>(
    alloc: Global,
    nodes: &mut S,
    file: u32,
    fork: ForkKind,
    block: u16,
    extents: &[Extent; 3],
) -> Result<(), AllocError>
    requires tree { IsExtentsTree (S.nodes nodes.old) }
    requires last { AreBefore file (fork_byte fork) block (S.nodes nodes.old) }
    requires room { HasNodesFor 1 (S.nodes nodes.old) }
    requires small { 512 * (header_in (S.nodes nodes.old)).nodes < 2 ^ 32 }
    requires file { (header_in (S.nodes nodes.old)).nodes ≤ length (S.nodes nodes.old) }
    ensures edits { Edits result (EditsFork file (fork_byte fork)) S.nodes nodes.old nodes.new }
    ensures added { Edits result (HasRecordBehind file (fork_byte fork) block extents.now)
        S.nodes nodes.old nodes.new }
    ensures enough { (n : ℕ) → HasNodesFor (suc n) (S.nodes nodes.old)
        → OnOk result (HasNodesFor n (S.nodes nodes.new)) }
    ensures kept { OnOk result (S.kept nodes.new ≡ S.kept nodes.old) }
{
    let key = ExtKey {
        fork: byte_of(fork),
        file,
        block,
    };
    let body = record_body(extents);
    add(alloc, nodes, &key, &body)?;
    Ok(())
}

/// Gives the record of a fork that begins at its block `block` these extents. No node is added or removed.
pub(crate) fn set_record<S: NodesMut>(
    alloc: Global,
    nodes: &mut S,
    file: u32,
    fork: ForkKind,
    block: u16,
    extents: &[Extent; 3],
) -> Result<(), AllocError>
    requires tree { IsExtentsTree (S.nodes nodes.old) }
    requires there { IsRecordAt file (fork_byte fork) block (S.nodes nodes.old) }
    ensures edits { Edits result (EditsFork file (fork_byte fork)) S.nodes nodes.old nodes.new }
    ensures set { Edits result (HasRecordSet file (fork_byte fork) block extents.now)
        S.nodes nodes.old nodes.new }
    ensures room { Edits result HasSameRoom S.nodes nodes.old nodes.new }
    ensures kept { OnOk result (S.kept nodes.new ≡ S.kept nodes.old) }
{
    let key = ExtKey {
        fork: byte_of(fork),
        file,
        block,
    };
    let body = record_body(extents);
    change(alloc, nodes, &key, &body)?;
    Ok(())
}
