//! Passing a changed first key to the nodes above.

ghost use Rattle.std.specs.Prelude.{◌≡◌, ◌<◌, OnOk, length};
ghost use Rattle.hfs_btree_edits.specs.Edits.{Edits};
ghost use Rattle.hfs_btree_removal.specs.Removal.{HasStepKey, IsIndexStep, AreSettable, IsPassedUp, HasToldAbove};
ghost use Rattle.hfs_btree.specs.Tree.{records_in};

use crate::down::Step;
use hfs_btree::{Key, child_of};
use hfs_btree_edits::{NodesMut, load, store};
use std::alloc::{AllocError, Global};

/// Sets the key of the index record on the way.
fn set_key<K: Key, S: NodesMut>(
    alloc: Global,
    nodes: &mut S,
    step: &Step,
    key: &K,
) -> Result<(), AllocError>
    requires node { step.now.node < length (S.nodes nodes.old) }
    requires place { step.now.place < length (records_in (S.nodes nodes.old) step.now.node) }
    requires index { IsIndexStep K.Key (S.nodes nodes.old) step.now }
    ensures set { Edits result (HasStepKey K.Key step.now key.now) S.nodes nodes.old nodes.new }
    ensures kept { OnOk result (S.kept nodes.new ≡ S.kept nodes.old) }
{
    let mut node = load(alloc, nodes, step.node)?;
    let child = child_of::<K>(node.records.record(step.place));
    let made = key.index_record(alloc, child)?;
    let _old = node.records.replace(step.place, made);
    store(nodes, step.node, &node)
}

/// Sets the keys on the way upwards from the last of these steps, up to the first that isn't its node's first key.
fn pass_up<K: Key, S: NodesMut>(
    alloc: Global,
    nodes: &mut S,
    steps: &[Step],
    key: &K,
) -> Result<(), AllocError>
    requires { AreSettable K.Key (S.nodes nodes.old) steps.now }
    ensures passed { Edits result (IsPassedUp K.Key key.now steps.now) S.nodes nodes.old nodes.new }
    ensures kept { OnOk result (S.kept nodes.new ≡ S.kept nodes.old) }
{
    for i in 0..steps.len() {
        let step = steps[steps.len() - 1 - i];
        set_key(alloc, nodes, &step, key)?;
        if step.place > 0 {
            return Ok(());
        }
    }
    Ok(())
}

/// Passes a changed first key to the nodes of these steps.
pub(crate) fn tell_above<K: Key, S: NodesMut>(
    alloc: Global,
    nodes: &mut S,
    above: &[Step],
    changed: Option<K>,
) -> Result<(), AllocError>
    requires { AreSettable K.Key (S.nodes nodes.old) above.now }
    ensures told { Edits result (HasToldAbove K.Key changed above.now) S.nodes nodes.old nodes.new }
    ensures kept { OnOk result (S.kept nodes.new ≡ S.kept nodes.old) }
{
    match changed {
        Some(key) => pass_up(alloc, nodes, above, &key),
        None => Ok(()),
    }
}
