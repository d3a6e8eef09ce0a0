//! The record at the end of a way, and the nodes below it that have no other record: taken out and released.

ghost use Rattle.std.specs.Prelude.{◌≡◌, ◌<◌, ◌≤◌, IfOk, OnOk, length};
ghost use Rattle.hfs_btree_edits.specs.Edits.{Edits};
ghost use Rattle.hfs_btree_removal.specs.Removal.{fewer, AreStepsReleased, AreStray, Detaches, HasStepTaken, IfIndexReads, IfLeafReads, IsNewFirst, EndWay};
ghost use Rattle.hfs_btree.specs.Header.{header_in};
ghost use Rattle.hfs_btree.specs.Sound.{IsSound};
ghost use Rattle.hfs_btree.specs.Tree.{records_in};

use crate::down::Step;
use crate::unlink::{Neighbours, unlink_all};
use hfs_btree::{Header, Key};
use hfs_btree_edits::{NodesMut, first_key_of, load, put_header, release, store};
use std::alloc::{AllocError, Global};

/// Takes the record on the way out of its node. Returns the node's new first key if the first record was taken.
fn take_record<K: Key, S: NodesMut>(
    alloc: Global,
    nodes: &mut S,
    step: &Step,
) -> Result<Option<K>, AllocError>
    requires node { step.now.node < length (S.nodes nodes.old) }
    requires place { step.now.place < length (records_in (S.nodes nodes.old) step.now.node) }
    requires more { 2 ≤ length (records_in (S.nodes nodes.old) step.now.node) }
    requires leaf { IfLeafReads K.Key (S.nodes nodes.old) step.now.node }
    requires index { IfIndexReads K.Key (S.nodes nodes.old) step.now.node }
    ensures taken { Edits result (HasStepTaken step.now) S.nodes nodes.old nodes.new }
    ensures first { IfOk result (IsNewFirst K.Key step.now (S.nodes nodes.new)) }
    ensures kept { OnOk result (S.kept nodes.new ≡ S.kept nodes.old) }
{
    let mut node = load(alloc, nodes, step.node)?;
    let _taken = node.records.remove(step.place);
    store(nodes, step.node, &node)?;
    if step.place > 0 {
        return Ok(None);
    }
    Ok(Some(first_key_of(&node)))
}

/// The header record after one pair and this many nodes, one below the other, are gone; the last of them was between these
/// leaves.
fn with_fewer(header: &Header, beside: &Neighbours, nodes: usize) -> Header
    requires { 1 ≤ header.now.records }
    ensures { result ≡ fewer header.now beside.now.left beside.now.right nodes }
{
    let mut fewer = *header;
    fewer.records -= 1;
    if nodes > 0 {
        if beside.left == 0 {
            fewer.first_leaf = beside.right;
        }
        if beside.right == 0 {
            fewer.last_leaf = beside.left;
        }
    }
    fewer
}

/// Takes the nodes of `chain` out of their links, and the record on the way out of the node above them, and counts one pair less.
/// Returns that node's first key if it has changed.
pub(crate) fn detach<K: Key, S: NodesMut>(
    alloc: Global,
    nodes: &mut S,
    header: &Header,
    step: &Step,
    chain: &[Step],
) -> Result<Option<K>, AllocError>
    requires sound { IsSound K.Key (S.nodes nodes.old) }
    requires header { header.now ≡ header_in (S.nodes nodes.old) }
    requires way { EndWay K.Key (S.nodes nodes.old) step.now chain.now }
    ensures detached { IfOk result (Detaches K.Key step.now chain.now S.nodes nodes.old nodes.new) }
    ensures kept { OnOk result (S.kept nodes.new ≡ S.kept nodes.old) }
{
    let beside = unlink_all(alloc, nodes, chain)?;
    let changed = take_record::<K, S>(alloc, nodes, step)?;
    let fewer = with_fewer(header, &beside, chain.len());
    put_header(alloc, nodes, &fewer)?;
    Ok(changed)
}

/// Releases the nodes of these steps, which are stray.
pub(crate) fn release_all<K: Key, S: NodesMut>(
    alloc: Global,
    nodes: &mut S,
    chain: &[Step],
) -> Result<(), AllocError>
    requires sound { IsSound K.Key (S.nodes nodes.old) }
    requires strays { AreStray K.Key (S.nodes nodes.old) chain.now }
    ensures released { Edits result (AreStepsReleased K.Key chain.now) S.nodes nodes.old nodes.new }
    ensures kept { OnOk result (S.kept nodes.new ≡ S.kept nodes.old) }
{
    for i in 0..chain.len() {
        release::<K, S>(alloc, nodes, chain[i].node)?;
    }
    Ok(())
}
