//! What a mounted volume hands to readers that run next to its writer.

ghost use Rattle.std.specs.Prelude.{◌≡◌, [], IfOk, IfErr};
ghost use Rattle.hfs_blocks.specs.Blocks.{block_at};
ghost use Rattle.hfs_check.specs.Agree.{AgreesBut};
ghost use Rattle.hfs_check.specs.Parts.{mdb_in, catalog_in};
ghost use Rattle.hfs_check.specs.Sound.{IsSound};
ghost use Rattle.hfs_check.specs.VolumeOf.{volume_of};
ghost use Rattle.hfs_space.specs.Results.{GivesItems};
ghost use Rattle.hfs_volume.specs.Image.{patched};
ghost use Rattle.hfs_blocks.specs.Layers.{numbers};
ghost use Rattle.hfs_volume.specs.Sharing.{file_extents, IsFileId, AreForkExtents, BeginWithFork, AreExtentsIn};

use super::Volume;
use crate::base::Base;
use crate::fork::fork_record;
use hfs_catalog::{CatalogRecord, ItemRecord, by_id, read_records};
use hfs_fields::{Extent, FileRecord, Mdb};
use hfs_model::Fork;
use hfs_space::{ChangedBlocks, fork_extents};
use std::alloc::{AllocError, AllocFailed, Global};

impl Volume {
    /// The bytes as they were mounted, without copying them. Fails only when out of memory.
    pub fn base(&self) -> Result<Base, AllocError>
        ensures base { IfOk result (λ base. base ≡ self.now.base) }
        ensures sound { IsSound self.now.base }
        ensures agrees { AgreesBut self.now.written self.now.base self.now.current }
    {
        self.image.base()
    }

    /// Whatever calls were made, the bytes as they were mounted are sound, and the bytes as they are now agree with them, so they
    /// are sound as well. Does nothing.
    pub fn agrees_with_base(&self)
        ensures base { IsSound self.now.base }
        ensures agrees { AgreesBut self.now.written self.now.base self.now.current }
    {
        // Once a proof has seen the image, it knows what the volume keeps to.
        let _image = &self.image;
    }

    /// The blocks that have changed since the volume was mounted, by their numbers. Laid over the bytes as they were mounted,
    /// they give the bytes as they are now. Some may be as they were.
    pub fn changes(&self) -> &ChangedBlocks
        ensures current { self.now.current ≡ patched result.now self.now.base }
        ensures changed { self.now.changed ≡ numbers result.now }
    {
        self.image.changes()
    }

    /// The volume mounted anew: its bytes as they are now count as those that it was mounted with, and no block has changed. When
    /// out of memory, the volume is handed back.
    pub fn mounted_anew(self, alloc: Global) -> Result<Volume, AllocFailed<Volume>>
        ensures base { IfOk result (λ volume. volume.base ≡ self.current) }
        ensures current { IfOk result (λ volume. volume.current ≡ self.current) }
        ensures changed { IfOk result (λ volume. volume.changed ≡ []) }
        ensures written { IfOk result (λ volume. volume.written ≡ []) }
        ensures value_returned { IfErr result (λ failed. failed.value ≡ self) }
    {
        let Volume {
            image,
            mdb,
            extents,
            catalog,
        } = self;
        match image.opened_anew(alloc) {
            Ok(image) => Ok(Volume::new(image, mdb, extents, catalog)),
            Err(failed) => {
                let AllocFailed { value } = failed;
                Err(AllocFailed {
                    value: Volume::new(value, mdb, extents, catalog),
                })
            }
        }
    }

    /// The master directory block as it is now.
    pub fn directory(&self) -> Mdb
        ensures { result ≡ mdb_in (block_at self.now.current) }
    {
        self.mdb
    }

    /// The ID that the next new item gets.
    #[tactic(auto, unfolding(hfs_check::specs::VolumeOf::volume_of, hfs_check::specs::VolumeOf::volume_in))]
    pub fn next_id(&self) -> u32
        ensures { result ≡ (volume_of self.now.current).next_id }
    {
        self.mdb.next_id
    }

    /// The records of the catalog's leaves, in order. Reads each leaf once. Fails only when out of memory.
    pub fn records(&self, alloc: Global) -> Result<Vec<CatalogRecord>, AllocError>
        ensures { IfOk result (λ records. records.items ≡ catalog_in (block_at self.now.current)) }
    {
        read_records(alloc, &self.catalog_nodes())
    }

    /// All extents of a fork of the file with this record, including those in the extents tree. Fails only when out of memory.
    #[tactic(auto, unfolding(crate::specs::Sharing::file_extents))]
    pub fn file_extents(
        &self,
        alloc: Global,
        file: &FileRecord,
        fork: Fork,
    ) -> Result<Vec<Extent>, AllocError>
        ensures { GivesItems (file_extents (block_at self.now.current) fork file.now) result }
    {
        // Once a proof has seen the image, it knows what the volume keeps to.
        let _image = &self.image;
        let (kind, record) = fork_record(file, fork);
        fork_extents(alloc, &self.extents_nodes(), file.id, kind, &record.extents)
    }

    /// All extents of a fork of the file with that ID, including those in the extents tree. Their bytes in the base begin with
    /// those of the fork, which has as many as its logical length. A file without a thread is looked for among all records. Fails
    /// only when out of memory.
    pub fn extents(&self, alloc: Global, id: u32, fork: Fork) -> Result<Vec<Extent>, AllocError>
        requires { IsFileId (volume_of self.now.current) id }
        ensures extents { IfOk result (AreForkExtents self.now.current id fork) }
        ensures within { IfOk result (λ extents. AreExtentsIn self.now.base extents.items) }
        ensures bytes { IfOk result (BeginWithFork self.now id fork) }
    {
        // Once a proof has seen the image, it knows what the volume keeps to.
        let _image = &self.image;
        let Some(item) = by_id(&self.catalog_nodes(), id) else {
            unreachable!()
        };
        match &item.body {
            ItemRecord::File(file) => self.file_extents(alloc, file, fork),
            ItemRecord::Folder(_) => unreachable!(),
        }
    }
}
