//! The records in the extents tree of a fork that loses its last blocks.

ghost use Rattle.std.specs.Prelude.{◌≡◌, OnOk};
ghost use Rattle.hfs_btree_edits.specs.Edits.{Edits};
ghost use Rattle.hfs_space.specs.Extents.{fork_byte};
ghost use Rattle.hfs_space.specs.TreeKeys.{ext_keys, IsExtentsTree};
ghost use Rattle.hfs_record_edits.specs.Dropped.{HasShrunk};
ghost use Rattle.hfs_record_edits.specs.Records.{HasRecordsBefore};
ghost use Rattle.hfs_record_edits.specs.Whole.{EditsFork};

use crate::cut_fork;
use hfs_btree_edits::NodesMut;
use hfs_fields::ExtKey;
use hfs_space::ForkKind;
use std::alloc::{AllocError, Global};

/// The byte of a fork in the keys.
pub(crate) fn byte_of(fork: ForkKind) -> u8
    ensures { result ≡ fork_byte fork }
{
    match fork {
        ForkKind::Data => 0,
        ForkKind::Resource => 255,
    }
}

/// Removes those records of a fork from the extents tree that begin at its block `block` or after it. Its records before that
/// block stay, and so do the extents of every other fork.
///
/// The work is a search and a removal for each record that is removed, however many others there are.
///
/// Errors: `AllocError` if memory was refused. Then nothing is known of the nodes, which must be thrown away.
///
/// Source: Inside Macintosh: Files, chapter 2, 'Extents overflow file'.
pub fn cut_records<S: NodesMut>(
    alloc: Global,
    nodes: &mut S,
    file: u32,
    fork: ForkKind,
    block: u16,
) -> Result<(), AllocError>
    requires { IsExtentsTree (S.nodes nodes.old) }
    ensures shrunk { Edits result (HasShrunk ext_keys) S.nodes nodes.old nodes.new }
    ensures own { Edits result (HasRecordsBefore file (fork_byte fork) block)
        S.nodes nodes.old nodes.new }
    ensures edits { Edits result (EditsFork file (fork_byte fork)) S.nodes nodes.old nodes.new }
    ensures kept { OnOk result (S.kept nodes.new ≡ S.kept nodes.old) }
{
    let from = ExtKey {
        fork: byte_of(fork),
        file,
        block,
    };
    cut_fork(alloc, nodes, &from)?;
    Ok(())
}
