//! An image that is opened and checked once, whose answers hold for every image consistent with the bytes read.
mod files;
mod opening;
mod ranges;

ghost use Rattle.std.specs.Prelude.{◌≡◌, ◌*◌, IfErr, IfOk, None, OnErr, OnOk, length};
ghost use Rattle.hfs_blocks.specs.Blocks.{AreRunsWithin};
ghost use Rattle.hfs_model.specs.Children.{entries_of};
ghost use Rattle.hfs_model.specs.declared.call.Fork.TheVariants.{DataFork, ResFork};
ghost use Rattle.hfs_check.specs.VolumeOf.{volume_of};
ghost use Rattle.hfs_items.specs.ToldRows.{told_rows};
ghost use Rattle.hfs_source.specs.Images.{FailsWhere, HasAt, OfEach};
ghost use Rattle.hfs_image.specs.Listing.{brief_list};
ghost use Rattle.hfs_image.specs.Opened.{IsOpenedOf};
ghost use Rattle.hfs_image.specs.Paths.{path_told};
ghost use Rattle.hfs_image.specs.Seen.{IsOpenedBy, IsSeenAs};
ghost use Rattle.hfs_image.specs.SeenFiles.{LiesInRuns, RefusesFile};

pub use self::ranges::{open_range, open_range_reported};
use crate::fork_runs::{FileRuns, opened_runs};
use crate::listing::{catalog_records, list_in_brief};
use crate::opening::{NeededFault, NeededVolume};
use crate::paths::told_in;
use hfs_fields::Name;
use hfs_items::Inventory;
use hfs_model::Reply;
use hfs_source::{PlacedBlocks, SeenBlocks};
use std::alloc::{AllocError, Global};
use std::io;
use std::marker::Model;

/// A sound image whose needed blocks were read and checked once. What it answers, every image consistent with the bytes read
/// answers: over memory that is the image itself, over a file each that it may be.
#[derive(Drop)]
pub struct SeenImage<S: PlacedBlocks> {
    /// Where blocks are read from.
    source: SeenBlocks<S>,
    /// How many bytes the image has.
    len: u64,
    volume: NeededVolume,
}

impl<S: PlacedBlocks> Model for SeenImage<S> {
    ghost use Rattle.hfs_image.specs.Seen.{IsSeenAs};

    ghost Value = { S };

    ghost view = { λ o. o.source.blocks };

    ghost invariant = { λ o. IsSeenAs (S.Holds o.source.blocks) o.len o.volume };
}

/// Why an image was not opened, and what it was read from.
#[derive(Drop)]
pub struct Unopened<S> {
    /// Why.
    pub fault: NeededFault,
    /// The source, a part of which was read.
    pub source: SeenBlocks<S>,
}

impl<S: PlacedBlocks> SeenImage<S> {
    /// What was read of the image, and what its checks found: everything except the bytes of forks.
    pub fn volume(&self) -> &NeededVolume
        ensures opened { OfEach (S.Holds self.now) (IsOpenedBy result.now) }
        ensures sound { IsOpenedOf None result.now.count result.now }
    {
        &self.volume
    }

    /// What the image is read from, with everything that was known of the image.
    pub fn into_source(self) -> SeenBlocks<S>
        ensures { result.blocks ≡ self }
    {
        let SeenImage {
            source,
            len: _,
            volume: _,
        } = self;
        source
    }

    /// The reply to List of a folder, with `has_id` false for each item. Nothing is read. Error: memory was refused.
    pub fn list(&self, alloc: Global, dir: u32) -> Result<Reply, AllocError>
        ensures { IfOk result (λ reply. OfEach (S.Holds self.now)
            (λ image. reply ≡ brief_list image dir)) }
    {
        list_in_brief(alloc, &self.volume, dir)
    }

    /// The reply about the item that the names of a path lead to, from the root's down: that to GetCatInfo, or to GetDirInfo for
    /// the root. An empty first name stands for the root's. -43 if the first name isn't the root's or a name leads nowhere, -120
    /// if the path goes through a file. Nothing is read.
    pub fn item_at(&self, names: &[Name]) -> Reply
        ensures { OfEach (S.Holds self.now)
            (λ image. result ≡ path_told (entries_of (volume_of image)) names.now) }
    {
        told_in(&self.volume, names)
    }

    /// All items, one after the other, in the order of the table. Nothing is read. Error: memory was refused.
    pub fn inventory(&self, alloc: Global) -> Result<Inventory, AllocError>
        ensures { IfOk result (λ inventory. OfEach (S.Holds self.now)
            (λ image. inventory.left ≡ told_rows (entries_of (volume_of image)))) }
    {
        let volume = &self.volume;
        let records = catalog_records(alloc, &volume.read, volume.count, &volume.sound.trees)?;
        Inventory::new(alloc, records)
    }

    /// Where the bytes of both forks of the folder's file of that name lie; or what a call that reads a fork answers if there is
    /// no such file: -37, -120 or -43. Nothing is read. Error: memory was refused.
    pub fn file_runs(
        &self,
        alloc: Global,
        dir: u32,
        name: &[u8],
    ) -> Result<Result<FileRuns, Reply>, AllocError>
        ensures data_within { IfOk result (λ told. IfOk told
            (λ found. AreRunsWithin found.data.runs.items 4294967296)) }
        ensures within { IfOk result (λ told. IfOk told
            (λ found. AreRunsWithin found.resource.runs.items 4294967296)) }
        ensures data_fork { IfOk result (λ told. IfOk told
            (λ found. OfEach (S.Holds self.now) (LiesInRuns dir name.now DataFork found.data))) }
        ensures resource_fork { IfOk result (λ told. IfOk told
            (λ found. OfEach (S.Holds self.now) (LiesInRuns dir name.now ResFork found.resource))) }
        ensures unread { IfOk result (λ told. IfErr told
            (λ reply. OfEach (S.Holds self.now) (RefusesFile dir name.now reply))) }
    {
        opened_runs(alloc, &self.volume, dir, name)
    }

    /// Reads blocks from number `first` on, as many as `into` has room for, in one read. Error: the read failed, or the image
    /// ends before the room is full.
    pub fn read_blocks(&mut self, first: u32, into: &mut [u8]) -> io::Result<()>
        ensures read { OnOk result (OfEach (S.Holds self.new) (HasAt (512 * first) into.new)) }
        ensures narrows { OfEach (S.Holds self.new) (S.Holds self.old) }
        ensures fails { OnErr result (S.Fails self.old (512 * first) (length into.old)) }
        ensures later { FailsWhere (S.Fails self.new) (S.Fails self.old) }
    {
        self.source.blocks.read_blocks(first, into)
    }
}
