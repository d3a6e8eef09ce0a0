//! Taking a pair out of a tree.

ghost use Rattle.std.specs.Prelude.{◌≡◌, OnOk};
ghost use Rattle.hfs_btree_edits.specs.Conditions.{IsThere};
ghost use Rattle.hfs_btree_edits.specs.Edits.{Edits, HasRemoved};
ghost use Rattle.hfs_btree.specs.Header.{header_in, tree_content};
ghost use Rattle.hfs_btree.specs.Pairs.{lookup};
ghost use Rattle.hfs_btree_removal.specs.Removal.{HasTakenOut};
ghost use Rattle.hfs_btree.specs.Sound.{IsSound};
ghost use Rattle.hfs_btree_removal.specs.Ways.{IsWayTo, IsLastWide};

use crate::detach::{detach, release_all};
use crate::down::{Step, last_wide, steps_to};
use crate::pass_up::tell_above;
use crate::top::{drop_root, lower_root};
use hfs_btree::{Header, Key, read_header};
use hfs_btree_edits::NodesMut;
use std::alloc::{AllocError, Global};

/// Takes the pair out if `wide` is the last step whose node has another record besides the one on the way: that record is
/// removed, with the nodes below it, which have no other record.
fn take_out<K: Key, S: NodesMut>(
    alloc: Global,
    nodes: &mut S,
    header: &Header,
    steps: &[Step],
    wide: usize,
) -> Result<(), AllocError>
    requires sound { IsSound K.Key (S.nodes nodes.old) }
    requires header { header.now ≡ header_in (S.nodes nodes.old) }
    requires way { (t : K) × IsWayTo K.Key (S.nodes nodes.old) t steps.now }
    requires wide { IsLastWide steps.now wide }
    ensures out { Edits result (HasTakenOut K.Key steps.now) S.nodes nodes.old nodes.new }
    ensures kept { OnOk result (S.kept nodes.new ≡ S.kept nodes.old) }
{
    let above = &steps[..wide];
    let chain = &steps[wide + 1..];
    let changed = detach::<K, S>(alloc, nodes, header, &steps[wide], chain)?;
    tell_above(alloc, nodes, above, changed)?;
    release_all::<K, S>(alloc, nodes, chain)
}

/// Removes the pair with this key from the tree.
///
/// A node whose last record is removed is freed: it is blank, and leaves the links of its level. A first key that changes is
/// passed to the nodes above. An index root with one record is replaced by its child.
///
/// Errors: `AllocError` if memory was refused. Then nothing is known of the nodes, which must be thrown away.
///
/// Source: Inside Macintosh: Files, chapter 2, 'B*-trees'.
pub fn remove<K: Key, S: NodesMut>(alloc: Global, nodes: &mut S, key: &K) -> Result<(), AllocError>
    requires sound { IsSound K.Key (S.nodes nodes.old) }
    requires there { IsThere (lookup K.compare key.now (tree_content K.Key (S.nodes nodes.old))) }
    ensures removed { Edits result (HasRemoved K.Key key.now) S.nodes nodes.old nodes.new }
    ensures kept { OnOk result (S.kept nodes.new ≡ S.kept nodes.old) }
{
    lower_root::<K, S>(alloc, nodes)?;
    let header = read_header(nodes);
    let steps = steps_to(alloc, nodes, &header, key)?;
    match last_wide(&steps) {
        Some(wide) => {
            take_out::<K, S>(alloc, nodes, &header, &steps, wide)?;
            lower_root::<K, S>(alloc, nodes)
        }
        None => drop_root::<K, S>(alloc, nodes, &header),
    }
}
