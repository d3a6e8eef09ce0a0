//! A mounted volume.

ghost use Rattle.std.specs.Prelude.{◌≡◌, ◌≢◌, ◌++◌, pos, length, nat_eq, false, IsTrue, Ok, IfOk, OnOk, OnErr};
ghost use Rattle.std.specs.List.{IsDistinct};
ghost use Rattle.hfs_model.specs.Replies.{success};
ghost use Rattle.hfs_model.specs.Step.{step, is_reading};
ghost use Rattle.hfs_catalog.specs.Tree.{catalog_of};
ghost use Rattle.hfs_check.specs.Parts.{catalog_in, extents_nodes};
ghost use Rattle.hfs_check.specs.Sound.{IsSound};
ghost use Rattle.hfs_check.specs.VolumeOf.{volume_of};
ghost use Rattle.hfs_blocks.specs.Blocks.{block_at};
ghost use Rattle.hfs_volume.specs.Image.{IsSameBeside};
ghost use Rattle.hfs_volume.specs.Saving.{WritesAll, BreaksOff};
ghost use Rattle.hfs_volume.specs.Serving.{AreEntriesIn};
ghost use Rattle.hfs_volume.specs.Steps.{IsEditIn, IsEditReply, IsImageAfter, IsReplyTo, AreRepliesTo, AreFirstMade, AreFirstServed, AreServedWith, AreWrittenBy, HasWrittenBlocks, IsLaidBy};
ghost use Rattle.hfs_call_patches.specs.CallChanges.{written_blocks};
ghost use Rattle.hfs_items.specs.Told.{IsCatalog};
ghost use Rattle.hfs_volume.specs.Mounted.{IsMounted};

use crate::image::Image;
use crate::image_nodes::ImageNodes;
use crate::replies::refused_by;
use crate::saving::SaveFault;
use crate::written::{written_runs, zero_runs};
use hfs_blocks::Run;
use hfs_call_edits::{Editing, Refusal};
use hfs_call_patches::{Change, with_counts};
use hfs_fields::Mdb;
use hfs_items::{refusal, success};
use hfs_model::{Call, Reply, enough_is_step, reading_leaves};
use std::alloc::{AllocError, Global};
use std::io::Write;
use std::marker::Model;

mod reading;
mod sharing;

/// A mounted volume. Contracts see its image as it was mounted and as it is now. Both are sound, and they differ only in what
/// calls change.
#[derive(Drop)]
pub struct Volume {
    image: Image,
    /// The master directory block.
    mdb: Mdb,
    /// The blocks of the extents tree's nodes.
    extents: Vec<Run>,
    /// The blocks of the catalog's nodes.
    catalog: Vec<Run>,
}

impl Model for Volume {
    ghost use Rattle.hfs_volume.specs.Image.{ImageValue};
    ghost use Rattle.hfs_volume.specs.Mounted.{IsMounted};

    ghost Value = { ImageValue };

    ghost view = { λ v. v.image };

    ghost invariant = { λ v. IsMounted v.image v.mdb v.extents.items v.catalog.items };
}

impl Volume {
    /// The volume of an image, from what mounting found.
    pub(crate) fn new(image: Image, mdb: Mdb, extents: Vec<Run>, catalog: Vec<Run>) -> Volume
        requires { IsMounted image mdb extents.items catalog.items }
        ensures { result ≡ image }
    {
        Volume {
            image,
            mdb,
            extents,
            catalog,
        }
    }

    /// Answers a call that reads (see [`Call::is_reading`]), by the volume as it is now. Fails only when out of memory.
    ///
    /// Source: Inside Macintosh: Files, chapter 2, "High-Level HFS Routines" and "Low-Level HFS Routines".
    pub fn read(&self, alloc: Global, call: &Call) -> Result<Reply, AllocError>
        requires { IsTrue (is_reading call.now) }
        ensures { IfOk result (λ reply. reply ≡ (step (volume_of self.now.current) call.now).1) }
    {
        match call {
            Call::GetDirInfo { dir } => Ok(self.get_dir_info(*dir)),
            Call::GetCatInfo { dir, name } => Ok(self.get_cat_info(*dir, name.as_slice())),
            Call::GetIndexed { dir, index } => Ok(self.get_indexed(*dir, *index)),
            Call::List { dir } => self.list(alloc, *dir),
            Call::ReadFork {
                dir,
                name,
                fork,
                offset,
                count,
            } => self.read_fork(alloc, *dir, name.as_slice(), *fork, *offset, *count),
            Call::ResolveFileId { id } => Ok(self.resolve_file_id(*id)),
            Call::Create { .. }
            | Call::DirCreate { .. }
            | Call::Delete { .. }
            | Call::Rename { .. }
            | Call::CatMove { .. }
            | Call::SetFInfo { .. }
            | Call::SetCatInfo { .. }
            | Call::SetFLock { .. }
            | Call::RstFLock { .. }
            | Call::CreateFileId { .. }
            | Call::DeleteFileId { .. }
            | Call::SetEof { .. }
            | Call::WriteFork { .. } => unreachable!(),
        }
    }

    /// Answers a call, and changes the volume as the call says. If the code isn't 0, or the call only reads, the volume stays as
    /// it is. Fails only when out of memory, and then the bytes stay as they are.
    ///
    /// Source: Inside Macintosh: Files, chapter 2, "High-Level HFS Routines" and "Low-Level HFS Routines".
    #[tactic(auto, using(hfs_model::proofs::ModelLawsProved::reading_needs_none))]
    pub fn call(&mut self, alloc: Global, call: &Call) -> Result<Reply, AllocError>
        ensures outcome { IfOk result (IsReplyTo call.now self.old.current self.new.current) }
        ensures refused { IfOk result (λ reply. reply.code ≢ pos 0 → self.new ≡ self.old) }
        ensures reading { IsTrue (is_reading call.now) → self.new ≡ self.old }
        ensures written { OnOk result (HasWrittenBlocks call.now self.old self.new) }
        ensures unchanged { OnErr result (self.new.current ≡ self.old.current) }
        ensures unwritten { OnErr result (self.new.written ≡ self.old.written) }
        ensures base { self.new.base ≡ self.old.base }
    {
        reading_leaves();
        enough_is_step();
        if call.is_reading() {
            return self.read(alloc, call);
        }
        self.change(alloc, call)
    }

    /// Answers calls one after the other, with their replies in order. Fails only when out of memory; then some of the first
    /// calls have been made, and no others.
    pub fn run(&mut self, alloc: Global, calls: &[Call]) -> Result<Vec<Reply>, AllocError>
        ensures made { IfOk result (AreRepliesTo calls.now self.old.current self.new.current) }
        ensures broken { OnErr result
            (AreFirstMade calls.now self.old.current self.new.current) }
        ensures served { IfOk result (AreServedWith calls.now self.old self.new) }
        ensures broken_off { OnErr result (AreFirstServed calls.now self.old self.new) }
        ensures base { self.new.base ≡ self.old.base }
    {
        let mut replies = Vec::new(alloc);
        for call in calls {
            let reply = self.call(alloc, call)?;
            replies.push(reply)?;
        }
        Ok(replies)
    }

    /// Writes the image's bytes as they are now, including what follows the last whole block. Takes no memory. At a fault, the
    /// first bytes were written, and no others.
    pub fn save<W: Write>(&self, writer: &mut W) -> Result<(), SaveFault>
        ensures ok { WritesAll result W.contents writer.old writer.new self.now.current }
        ensures err { BreaksOff result W.contents writer.old writer.new self.now.current }
    {
        self.image.save(writer)
    }

    /// How many blocks of the image are kept as changed since it was mounted. They include each block that differs from what it
    /// was then, and maybe some that were written back as they were.
    pub fn changed(&self) -> u32
        ensures count { result ≡ length self.now.changed }
        ensures once { IsDistinct nat_eq self.now.changed }
        ensures others { IsSameBeside self.now }
    {
        self.image.changed()
    }

    /// Answers a call that changes the volume.
    fn change(&mut self, alloc: Global, call: &Call) -> Result<Reply, AllocError>
        requires { is_reading call.now ≡ false }
        ensures outcome { IfOk result (IsReplyTo call.now self.old.current self.new.current) }
        ensures refused { IfOk result (λ reply. reply.code ≢ pos 0 → self.new ≡ self.old) }
        ensures written { OnOk result (HasWrittenBlocks call.now self.old self.new) }
        ensures unchanged { OnErr result (self.new.current ≡ self.old.current) }
        ensures unwritten { OnErr result (self.new.written ≡ self.old.written) }
        ensures base { self.new.base ≡ self.old.base }
    {
        let blocks = self.image.blocks();
        let edit = Editing::new(&blocks, &self.mdb, &self.extents, &self.catalog).edit(
            alloc, call,
        )?;
        self.make(alloc, edit)
    }

    /// Makes a call's change to the image, and answers the call.
    fn make(&mut self, alloc: Global, edit: Result<Change, Refusal>) -> Result<Reply, AllocError>
        requires { IsEditIn self.old.current edit }
        ensures outcome { IfOk result (IsEditReply edit self.old.current self.new.current) }
        ensures refused { IfOk result (λ reply. reply.code ≢ pos 0 → self.new ≡ self.old) }
        ensures written { OnOk result (AreWrittenBy edit self.old self.new) }
        ensures laid { OnOk result (IsLaidBy edit self.old self.new) }
        ensures unchanged { OnErr result (self.new.current ≡ self.old.current) }
        ensures unwritten { OnErr result (self.new.written ≡ self.old.written) }
        ensures base { self.new.base ≡ self.old.base }
    {
        match edit {
            Ok(change) => self.commit(alloc, change),
            Err(refusal) => Ok(refused_by(refusal)),
        }
    }

    /// Lays a change over the image. The volume's own master directory block follows once nothing can fail any more.
    fn commit(&mut self, alloc: Global, change: Change) -> Result<Reply, AllocError>
        requires { IsEditIn self.old.current (Ok change) }
        ensures volume { OnOk result (IsImageAfter self.old.current change self.new.current) }
        ensures reply { IfOk result (λ reply. reply ≡ success change.value) }
        ensures written { OnOk result (self.new.written
            ≡ self.old.written ++ written_blocks change.written) }
        ensures laid { OnOk result (IsLaidBy (Ok change) self.old self.new) }
        ensures unchanged { OnErr result (self.new.current ≡ self.old.current) }
        ensures unwritten { OnErr result (self.new.written ≡ self.old.written) }
        ensures base { self.new.base ≡ self.old.base }
    {
        let Change {
            patch,
            counts,
            written,
            value,
        } = change;
        self.image
            .commit(alloc, &patch, zero_runs(&written), written_runs(&written))?;
        self.mdb = with_counts(&counts, &self.mdb);
        Ok(success(value))
    }

    /// The nodes of the catalog, whose records answer the volume's queries.
    fn catalog_nodes(&self) -> ImageNodes<'_>
        ensures sound { IsSound self.now.current }
        ensures catalog { IsCatalog result }
        ensures content { catalog_of result ≡ catalog_in (block_at self.now.current) }
        ensures entries { AreEntriesIn self.now.current (catalog_of result) }
    {
        ImageNodes::new(self.image.blocks(), &self.catalog)
    }

    /// The nodes of the extents tree.
    fn extents_nodes(&self) -> ImageNodes<'_>
        ensures { result ≡ extents_nodes (block_at self.now.current) }
    {
        ImageNodes::new(self.image.blocks(), &self.extents)
    }
}
