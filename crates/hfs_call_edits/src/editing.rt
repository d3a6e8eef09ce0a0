//! What calls that change a volume make of its blocks.

ghost use Rattle.std.specs.Prelude.{◌≡◌, IfOk};
ghost use Rattle.hfs_check.specs.Parts.{catalog_nodes};
ghost use Rattle.hfs_model.specs.declared.reply.Value.TheVariants as value;
ghost use Rattle.hfs_model.specs.Choices.{file_to_change, to_set_f_info, to_set_cat_info};
ghost use Rattle.hfs_call_edits.specs.Edits.{IsEditing, ChoosesFileBy, ChoosesItemBy, RecordsAreEntriesIn, change_at, IsEditingIn, HoldCatalog};
ghost use Rattle.hfs_call_edits.specs.Placed.{item_chosen, file_chosen, IsItemPlaced, IsFilePlaced};
ghost use Rattle.hfs_items.specs.Told.{IsCatalog};

use crate::choosing;
use crate::placed::PlacedItem;
use hfs_blocks::{Blocks, Patch, Run};
use hfs_btree::RunNodes;
use hfs_call_patches::{Change, FoundFile, MountedBlocks};
use hfs_fields::Mdb;
use hfs_model::{Value, Want};
use std::marker::Model;

/// Why a call changes nothing.
#[derive(Clone, Copy)]
pub enum Refusal {
    /// A code other than 0.
    Code(i16),
    /// Too few nodes or blocks for a call that would otherwise succeed.
    Want(Want),
}

/// A sound volume that calls change. Contracts see its blocks.
#[derive(Drop)]
pub struct Editing<'a, B: Blocks> {
    pub(crate) volume: MountedBlocks<'a, B>,
}

impl<'a, B: Blocks> Model for Editing<'a, B> {
    ghost use Rattle.hfs_call_edits.specs.Edits.{IsEditing};

    ghost Value = { B };

    ghost view = { λ e. e.volume.blocks.now };

    ghost invariant = { λ e. IsEditing (B.total e.volume.blocks.now) (B.blocks e.volume.blocks.now) e.volume.mdb.now e.volume.extents.now e.volume.catalog.now };
}

impl<'a, B: Blocks> Editing<'a, B> {
    /// A sound volume's blocks, its master directory block, and the runs of its trees' files.
    pub fn new(
        blocks: &'a B,
        mdb: &'a Mdb,
        extents: &'a [Run],
        catalog: &'a [Run],
    ) -> Editing<'a, B>
        requires { IsEditingIn B.total B.blocks blocks.now mdb.now extents.now catalog.now }
        ensures { result ≡ blocks.now }
    {
        Editing {
            volume: MountedBlocks {
                blocks,
                mdb,
                extents,
                catalog,
            },
        }
    }

    /// The nodes of the catalog, whose records answer the volume's queries.
    pub(crate) fn nodes(&self) -> RunNodes<'_, B>
        ensures nodes { HoldCatalog B.blocks result.blocks.now result.runs.now self.now }
        ensures catalog { IsCatalog (catalog_nodes (B.blocks self.now)) }
        ensures entries { RecordsAreEntriesIn (B.blocks self.now) }
    {
        RunNodes {
            blocks: self.volume.blocks,
            runs: self.volume.catalog,
        }
    }

    /// The folder's file of that name, with the place of its record, or the code that refuses to change it.
    pub(crate) fn file_to_change(&self, dir: u32, name: &[u8]) -> Result<FoundFile, i16>
        ensures chosen { ChoosesFileBy (λ v. file_to_change v dir name.now)
            (B.blocks self.now) (file_chosen result) }
        ensures place { IfOk result (IsFilePlaced (catalog_nodes (B.blocks self.now))) }
    {
        choosing::file_to_change(&self.nodes(), self.volume.mdb, dir, name)
    }

    /// The folder's file of that name, with the place of its record, or the code that refuses to set its first Finder bytes.
    pub(crate) fn file_to_set(&self, dir: u32, name: &[u8]) -> Result<FoundFile, i16>
        ensures chosen { ChoosesFileBy (λ v. to_set_f_info v dir name.now)
            (B.blocks self.now) (file_chosen result) }
        ensures place { IfOk result (IsFilePlaced (catalog_nodes (B.blocks self.now))) }
    {
        choosing::file_to_set(&self.nodes(), self.volume.mdb, dir, name)
    }

    /// The folder's item of that name, with the place of its record, or the code that refuses to set its dates and Finder bytes.
    pub(crate) fn item_to_set(&self, dir: u32, name: &[u8]) -> Result<PlacedItem, i16>
        ensures chosen { ChoosesItemBy (λ v. to_set_cat_info v dir name.now)
            (B.blocks self.now) (item_chosen result) }
        ensures place { IfOk result (IsItemPlaced (catalog_nodes (B.blocks self.now))) }
    {
        choosing::item_to_set(&self.nodes(), self.volume.mdb, dir, name)
    }

    /// A change of blocks and of the moment of the last change only, which answers nothing.
    pub(crate) fn change(&self, patch: Patch, now: u32) -> Change
        ensures { result ≡ change_at now (B.blocks self.now) patch value.Nothing }
    {
        Change {
            patch,
            counts: Mdb {
                modified: now,
                ..*self.volume.mdb
            },
            written: None,
            value: Value::Nothing,
        }
    }
}
