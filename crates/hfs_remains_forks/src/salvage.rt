//! The forks of the items of a damaged volume, what is taken of them, and the verdict on each.
ghost use Rattle.std.specs.Prelude.{◌≡◌, ◌*◌, ◌≤◌, ◌<◌, ◌&&◌, not, length, IfOk, OnOk};
ghost use Rattle.hfs_remains.specs.TreeFiles.{AreThere};
ghost use Rattle.hfs_remains_forks.specs.Owners.{AddsOwners, CountOwners};
ghost use Rattle.hfs_remains_forks.specs.Verdicts as spec;

use crate::chains::Chains;
use crate::findings::{FoundFork, find_fork};
use crate::forks::blocks_for;
use crate::owners::{add_owners, no_owners};
use crate::shares::{FileShares, Share, shares_of};
use crate::trees::Trees;
use hfs_remains::FoundRecord;
use hfs_remains_places::Verdict;
use hfs_space::ForkKind;
use std::alloc::{AllocError, Global};
use std::marker::Model;

/// How many bytes are taken at most by default: four times as many as the image has.
pub fn usual_limit(image_len: u32) -> u64
    ensures { result ≡ 4 * image_len }
{
    4 * u64::from(image_len)
}

/// Adds the owners of a fork's blocks, if it is taken.
fn own_share(
    alloc: Global,
    trees: &Trees<'_>,
    chains: &Chains<'_>,
    owners: &mut [u8],
    share: &Share,
) -> Result<(), AllocError>
    requires size { 512 ≤ trees.now.mdb.now.allocation_block_size }
    requires all { length owners.old ≡ trees.now.mdb.now.allocation_blocks }
    ensures { OnOk result (AddsOwners (spec.share_used trees.now.total chains.now trees.now.mdb.now
        share.now)
        owners.old owners.new) }
{
    if share.taken {
        let places = share.fork.places(alloc, trees.total, chains, trees.mdb)?;
        add_owners(owners, &places);
    }
    Ok(())
}

/// Whether an item is skipped when only those that aren't old are asked for.
fn is_passed(young: bool, old: bool) -> bool
    ensures { result ≡ (young && old) }
{
    young && old
}

/// Adds the owners of the blocks of an item's forks that are taken; for an old item only if all are asked for.
fn own_item(
    alloc: Global,
    trees: &Trees<'_>,
    chains: &Chains<'_>,
    owners: &mut [u8],
    young: bool,
    item: &Option<FileShares>,
) -> Result<(), AllocError>
    requires size { 512 ≤ trees.now.mdb.now.allocation_block_size }
    requires all { length owners.old ≡ trees.now.mdb.now.allocation_blocks }
    ensures { OnOk result (AddsOwners (spec.item_used trees.now.total chains.now trees.now.mdb.now
        young item.now)
        owners.old owners.new) }
{
    let Some(file) = item else {
        return Ok(());
    };
    if is_passed(young, file.old) {
        return Ok(());
    }
    own_share(alloc, trees, chains, owners, &file.data)?;
    own_share(alloc, trees, chains, owners, &file.resource)?;
    Ok(())
}

/// Adds the owners of the blocks of items' forks that are taken; for old items only if all are asked for.
fn own_items(
    alloc: Global,
    trees: &Trees<'_>,
    chains: &Chains<'_>,
    owners: &mut [u8],
    young: bool,
    shares: &[Option<FileShares>],
) -> Result<(), AllocError>
    requires size { 512 ≤ trees.now.mdb.now.allocation_block_size }
    requires all { length owners.old ≡ trees.now.mdb.now.allocation_blocks }
    ensures { OnOk result (AddsOwners (spec.items_used trees.now.total chains.now trees.now.mdb.now
        young shares.now)
        owners.old owners.new) }
{
    for item in shares {
        own_item(alloc, trees, chains, owners, young, item)?;
    }
    Ok(())
}

/// Adds the owners of the blocks of a tree's file, as far as its size goes.
fn own_tree(trees: &Trees<'_>, owners: &mut [u8], file: &[Option<u16>], size: u32)
    requires size { 512 ≤ trees.now.mdb.now.allocation_block_size }
    requires all { length owners.old ≡ trees.now.mdb.now.allocation_blocks }
    requires there { AreThere trees.now.total trees.now.mdb.now file.now }
    ensures { AddsOwners (spec.tree_used trees.now.mdb.now file.now size) owners.old owners.new }
{
    let count = (blocks_for(trees.mdb, size) as usize).min(file.len());
    add_owners(owners, &file[..count]);
}

/// Adds the owners of each block: the trees' files, and the forks of the items that are taken, or only of those that aren't old.
fn own_all(
    alloc: Global,
    trees: &Trees<'_>,
    chains: &Chains<'_>,
    owners: &mut [u8],
    shares: &[Option<FileShares>],
    young: bool,
) -> Result<(), AllocError>
    requires chains { chains.now ≡ trees.now.overflow.now }
    requires all { length owners.old ≡ trees.now.mdb.now.allocation_blocks }
    ensures { OnOk result (AddsOwners (spec.all_used trees.now young shares.now) owners.old
        owners.new) }
{
    let mdb = trees.mdb;
    own_tree(trees, owners, trees.extents_file, mdb.extents_file_size);
    own_tree(trees, owners, trees.catalog_file, mdb.catalog_file_size);
    own_items(alloc, trees, chains, owners, young, shares)?;
    Ok(())
}

/// How many owners each block has: the trees' files, and the forks of the items that are taken, or only of those that aren't old.
fn owners_of(
    alloc: Global,
    trees: &Trees<'_>,
    chains: &Chains<'_>,
    shares: &[Option<FileShares>],
    young: bool,
) -> Result<Vec<u8>, AllocError>
    requires { chains.now ≡ trees.now.overflow.now }
    ensures owners { IfOk result (λ owners. CountOwners (spec.all_used trees.now young shares.now)
        owners.items) }
    ensures all { IfOk result (λ owners. length owners.items
        ≡ trees.now.mdb.now.allocation_blocks) }
{
    let mut owners = no_owners(alloc, trees.mdb.allocation_blocks)?;
    own_all(alloc, trees, chains, &mut owners, shares, young)?;
    Ok(owners)
}

/// A fork of a file.
fn share_of(file: &FileShares, kind: ForkKind) -> &Share
    ensures { result.now ≡ spec.fork_share kind file.now }
{
    match kind {
        ForkKind::Data => &file.data,
        ForkKind::Resource => &file.resource,
    }
}

/// The forks of the items of a damaged volume, and what is taken of them. Contracts see the trees and what is taken.
#[derive(Drop)]
pub struct Salvage<'a> {
    trees: Trees<'a>,
    chains: Chains<'a>,
    shares: Vec<Option<FileShares>>,
    /// How many owners each block has, counting the items that aren't old.
    young: Vec<u8>,
    /// The same, counting all items.
    all: Vec<u8>,
}

impl<'a> Model for Salvage<'a> {
    ghost use Rattle.hfs_remains_forks.specs.Verdicts.{Salvaged, IsKept};

    ghost Value = { Salvaged };

    ghost view = { λ s. record { trees = s.trees; shares = s.shares.items } };

    ghost invariant = { λ s. IsKept s.trees s.chains s.shares.items s.young.items s.all.items };
}

impl<'a> Salvage<'a> {
    /// The forks of items; at most `limit` bytes are taken of all of them. Fails only when out of memory.
    pub fn of(
        alloc: Global,
        trees: Trees<'a>,
        items: &[FoundRecord],
        limit: u64,
    ) -> Result<Salvage<'a>, AllocError>
        ensures trees { IfOk result (λ made. made.trees ≡ trees.entry) }
        ensures shares { IfOk result (λ made. made.shares ≡ spec.shares_of
            trees.entry.overflow.now trees.entry.mdb.now limit items.now) }
    {
        let chains = Chains::of(alloc, trees.overflow)?;
        let shares = shares_of(alloc, &chains, trees.mdb, limit, items)?;
        let young = owners_of(alloc, &trees, &chains, &shares, true)?;
        let all = owners_of(alloc, &trees, &chains, &shares, false)?;
        Ok(Salvage {
            trees,
            chains,
            shares,
            young,
            all,
        })
    }

    /// How many items there are.
    pub fn len(&self) -> usize
        ensures { result ≡ length self.now.shares }
    {
        self.shares.len()
    }

    /// How many owners of each block count for an item that is old, or isn't.
    fn owners_for(&self, old: bool) -> &[u8]
        ensures owners { CountOwners (spec.all_used self.now.trees (not old) self.now.shares)
            result.now }
        ensures all { length result.now ≡ self.now.trees.mdb.now.allocation_blocks }
    {
        if old { &self.all } else { &self.young }
    }

    /// What is found of a fork of a file.
    fn found(
        &self,
        alloc: Global,
        file: &FileShares,
        kind: ForkKind,
    ) -> Result<FoundFork, AllocError>
        ensures { IfOk result (λ found. spec.IsForkOf self.now kind found file.now) }
    {
        let trees = &self.trees;
        let share = share_of(file, kind);
        let owners = self.owners_for(file.old);
        let found = find_fork(alloc, trees.total, trees.mdb, &self.chains, owners, share)?;
        Ok(found)
    }

    /// A fork of item `i`, counted from 0: how many of its bytes are taken, the blocks that hold them, and the verdict on it.
    /// None if the item is a folder. Fails only when out of memory.
    pub fn fork(
        &self,
        alloc: Global,
        i: usize,
        kind: ForkKind,
    ) -> Result<Option<FoundFork>, AllocError>
        requires { i < length self.now.shares }
        ensures { IfOk result (spec.FindsFork self.now i kind) }
    {
        let Some(file) = &self.shares[i] else {
            return Ok(None);
        };
        let found = self.found(alloc, file, kind)?;
        Ok(Some(found))
    }

    /// The verdicts on the two forks of item `i`, data before resources; None if it is a folder. Fails only when out of memory.
    pub fn verdicts(
        &self,
        alloc: Global,
        i: usize,
    ) -> Result<Option<(Verdict, Verdict)>, AllocError>
        requires { i < length self.now.shares }
        ensures { IfOk result (λ verdicts. verdicts ≡ spec.verdicts_at self.now i) }
    {
        let Some(file) = &self.shares[i] else {
            return Ok(None);
        };
        let data = self.found(alloc, file, ForkKind::Data)?;
        let resource = self.found(alloc, file, ForkKind::Resource)?;
        Ok(Some((data.verdict, resource.verdict)))
    }
}
