//! The bytes of forks, by the needed blocks of an image.
ghost use Rattle.std.specs.Prelude.{◌≡◌, ℕ, ◌/◌, Err, IfOk, OnErr, OnOk};
ghost use Rattle.std.specs.Io.KnownBytes.{Appends};
ghost use Rattle.hfs_blocks.specs.Blocks.{AreRunsWithin};
ghost use Rattle.hfs_texts.specs.Writing.{AppendsFront};
ghost use Rattle.hfs_check.specs.Parts.{mdb_in, catalog_in};
ghost use Rattle.hfs_check.specs.Sound.{AreBlocksSound};
ghost use Rattle.hfs_check.specs.Trees.{HasTrees};
ghost use Rattle.hfs_items.specs.Told as told;
ghost use Rattle.hfs_source.specs.Images.{OfEach};
ghost use Rattle.hfs_source.specs.Seen.{EachKnown};
ghost use Rattle.hfs_source.specs.Sparse.{sparse};
ghost use Rattle.hfs_image.specs.Forks.{AreForkRuns, AreForksIn, HoldsFork, HoldsForkOf, IsForkIn, OfFork, OfForkNamed, OfForkOf, RefusesWriting, WritesForkNamed};
ghost use Rattle.hfs_image.specs.Opened.{IsOpenedOf};
ghost use Rattle.hfs_image.specs.SeenFiles.{HasForkOf, IsForkWritten, IsReadOfEach};

use crate::opening::NeededVolume;
use hfs_blocks::Run;
use hfs_btree::RunNodes;
use hfs_fields::{FileRecord, ForkRecord};
use hfs_items::file_named;
use hfs_model::{Fork, Reply};
use hfs_source::{BlockSource, CopyFault, SparseFault, copy_runs, read_runs};
use hfs_space::{ForkKind, fork_extents, tree_runs};
use std::alloc::{AllocError, Global};
use std::io::Write;

/// One of both forks of a file, as the catalog records it.
#[derive(Clone, Copy)]
pub(crate) struct RecordedFork<'a> {
    /// The file's ID.
    pub(crate) file: u32,
    /// Which of both forks it is.
    pub(crate) kind: ForkKind,
    /// How long it is, and its first extents.
    pub(crate) fields: &'a ForkRecord,
}

/// A fork as a call names it.
#[derive(Clone, Copy)]
pub(crate) struct NamedFork<'a> {
    /// The ID of the file's folder.
    pub(crate) dir: u32,
    /// The file's name.
    pub(crate) name: &'a [u8],
    pub(crate) fork: Fork,
}

/// The runs of those blocks of a file's fork that have one of its bytes, in order; its extents are found in the blocks that were
/// read.
pub(crate) fn kind_runs(
    alloc: Global,
    volume: &NeededVolume,
    fork: &RecordedFork<'_>,
) -> Result<Vec<Run>, AllocError>
    requires sound { AreBlocksSound volume.now.count (sparse volume.now.read) }
    requires directory { volume.now.sound.mdb ≡ mdb_in (sparse volume.now.read) }
    requires trees { HasTrees volume.now.count (sparse volume.now.read) volume.now.sound.trees }
    requires fork { IsForkIn (sparse volume.now.read) fork.now.file fork.now.kind
        fork.now.fields.now }
    ensures runs { IfOk result (λ runs. AreForkRuns volume.now.read volume.now.count
        fork.now.file fork.now.kind fork.now.fields.now runs.items) }
    ensures within { IfOk result (λ runs. AreRunsWithin runs.items 4294967296) }
{
    let count = volume.count;
    let blocks = volume.read.volume(count);
    let nodes = RunNodes {
        blocks: &blocks,
        runs: &volume.sound.trees.extents,
    };
    let extents = fork_extents(alloc, &nodes, fork.file, fork.kind, &fork.fields.extents)?;
    tree_runs(
        alloc,
        &blocks,
        &volume.sound.mdb,
        &extents,
        fork.fields.length,
    )
}

/// The bytes of a file's fork. Of its blocks only those that have one of its bytes are read from the source.
fn read_kind<S: BlockSource>(
    alloc: Global,
    source: &mut S,
    volume: &NeededVolume,
    fork: &RecordedFork<'_>,
) -> Result<Vec<u8>, SparseFault>
    requires sound { AreBlocksSound volume.now.count (sparse volume.now.read) }
    requires directory { volume.now.sound.mdb ≡ mdb_in (sparse volume.now.read) }
    requires trees { HasTrees volume.now.count (sparse volume.now.read) volume.now.sound.trees }
    requires fork { IsForkIn (sparse volume.now.read) fork.now.file fork.now.kind
        fork.now.fields.now }
    ensures bytes { IfOk result (λ bytes. EachKnown (S.Holds source.new)
        (λ known. HoldsFork known volume.now.count volume.now.read
        fork.now.file fork.now.kind fork.now.fields.now bytes)) }
    ensures narrows { OfEach (S.Holds source.new) (S.Holds source.old) }
{
    let Ok(runs) = kind_runs(alloc, volume, fork) else {
        return Err(SparseFault::Memory);
    };
    let mut bytes = read_runs(alloc, source, &runs)?;
    bytes.truncate(fork.fields.length as usize);
    Ok(bytes)
}

/// The bytes of one of a file's two forks.
#[tactic(auto, using(crate::proofs::Named::data_sound, crate::proofs::Named::resource_sound))]
pub(crate) fn read_file<S: BlockSource>(
    alloc: Global,
    source: &mut S,
    volume: &NeededVolume,
    file: &FileRecord,
    fork: Fork,
) -> Result<Vec<u8>, SparseFault>
    requires sound { AreBlocksSound volume.now.count (sparse volume.now.read) }
    requires directory { volume.now.sound.mdb ≡ mdb_in (sparse volume.now.read) }
    requires trees { HasTrees volume.now.count (sparse volume.now.read) volume.now.sound.trees }
    requires forks { AreForksIn (sparse volume.now.read) file.now }
    ensures bytes { IfOk result (λ bytes. EachKnown (S.Holds source.new)
        (λ known. HoldsForkOf known volume.now.count volume.now.read file.now fork bytes)) }
    ensures narrows { OfEach (S.Holds source.new) (S.Holds source.old) }
{
    match fork {
        Fork::DataFork => {
            let data = RecordedFork {
                file: file.id,
                kind: ForkKind::Data,
                fields: &file.data,
            };
            read_kind(alloc, source, volume, &data)
        }
        Fork::ResFork => {
            let resource = RecordedFork {
                file: file.id,
                kind: ForkKind::Resource,
                fields: &file.resource,
            };
            read_kind(alloc, source, volume, &resource)
        }
    }
}

/// The record of the folder's file of that name, or the reply that refuses it.
pub(crate) fn find_file(volume: &NeededVolume, dir: u32, name: &[u8]) -> Result<FileRecord, Reply>
    requires sound { AreBlocksSound volume.now.count (sparse volume.now.read) }
    requires trees { HasTrees volume.now.count (sparse volume.now.read) volume.now.sound.trees }
    ensures found { result ≡ told.file_named (catalog_in (sparse volume.now.read)) dir name.now }
    ensures forks { IfOk result (λ file. AreForksIn (sparse volume.now.read) file) }
{
    let nodes = RunNodes {
        blocks: &volume.read.volume(volume.count),
        runs: &volume.sound.trees.catalog,
    };
    file_named(&nodes, dir, name)
}

/// Writes the bytes of a file's fork piece by piece, while they are read.
fn write_kind<S: BlockSource, W: Write>(
    alloc: Global,
    source: &mut S,
    volume: &NeededVolume,
    fork: &RecordedFork<'_>,
    writer: &mut W,
) -> Result<(), CopyFault>
    requires sound { AreBlocksSound volume.now.count (sparse volume.now.read) }
    requires directory { volume.now.sound.mdb ≡ mdb_in (sparse volume.now.read) }
    requires trees { HasTrees volume.now.count (sparse volume.now.read) volume.now.sound.trees }
    requires fork { IsForkIn (sparse volume.now.read) fork.now.file fork.now.kind
        fork.now.fields.now }
    ensures written { OnOk result (OfFork (S.image source.old) volume.now.count volume.now.read
        fork.now.file fork.now.kind fork.now.fields.now
        (Appends (W.contents writer.old) (W.contents writer.new))) }
    ensures part { OnErr result (OfFork (S.image source.old) volume.now.count volume.now.read
        fork.now.file fork.now.kind fork.now.fields.now
        (AppendsFront (W.contents writer.old) (W.contents writer.new))) }
    ensures none { result ≡ Err CopyFault.ReadFailed → writer.new ≡ writer.old }
    ensures memory { result ≡ Err CopyFault.Memory → writer.new ≡ writer.old }
    ensures image { S.image source.new ≡ S.image source.old }
    ensures each { OnOk result (EachKnown (S.Holds source.new) (λ known. OfFork known
        volume.now.count volume.now.read fork.now.file fork.now.kind fork.now.fields.now
        (Appends (W.contents writer.old) (W.contents writer.new)))) }
    ensures each_part { OnErr result (EachKnown (S.Holds source.new) (λ known. OfFork known
        volume.now.count volume.now.read fork.now.file fork.now.kind fork.now.fields.now
        (AppendsFront (W.contents writer.old) (W.contents writer.new)))) }
    ensures narrows { OfEach (S.Holds source.new) (S.Holds source.old) }
{
    let Ok(runs) = kind_runs(alloc, volume, fork) else {
        return Err(CopyFault::Memory);
    };
    copy_runs(alloc, source, &runs, fork.fields.length, writer)
}

/// Writes the bytes of one of a file's two forks piece by piece, while they are read.
#[tactic(auto, using(crate::proofs::Named::data_sound, crate::proofs::Named::resource_sound))]
fn write_file<S: BlockSource, W: Write>(
    alloc: Global,
    source: &mut S,
    volume: &NeededVolume,
    file: &FileRecord,
    fork: Fork,
    writer: &mut W,
) -> Result<(), CopyFault>
    requires sound { AreBlocksSound volume.now.count (sparse volume.now.read) }
    requires directory { volume.now.sound.mdb ≡ mdb_in (sparse volume.now.read) }
    requires trees { HasTrees volume.now.count (sparse volume.now.read) volume.now.sound.trees }
    requires forks { AreForksIn (sparse volume.now.read) file.now }
    ensures written { OnOk result (OfForkOf (S.image source.old) volume.now.count
        volume.now.read file.now fork (Appends (W.contents writer.old) (W.contents writer.new))) }
    ensures part { OnErr result (OfForkOf (S.image source.old) volume.now.count
        volume.now.read file.now fork
        (AppendsFront (W.contents writer.old) (W.contents writer.new))) }
    ensures none { result ≡ Err CopyFault.ReadFailed → writer.new ≡ writer.old }
    ensures memory { result ≡ Err CopyFault.Memory → writer.new ≡ writer.old }
    ensures image { S.image source.new ≡ S.image source.old }
    ensures each { OnOk result (EachKnown (S.Holds source.new) (λ known. OfForkOf known
        volume.now.count volume.now.read file.now fork
        (Appends (W.contents writer.old) (W.contents writer.new)))) }
    ensures each_part { OnErr result (EachKnown (S.Holds source.new) (λ known. OfForkOf known
        volume.now.count volume.now.read file.now fork
        (AppendsFront (W.contents writer.old) (W.contents writer.new)))) }
    ensures narrows { OfEach (S.Holds source.new) (S.Holds source.old) }
{
    match fork {
        Fork::DataFork => {
            let data = RecordedFork {
                file: file.id,
                kind: ForkKind::Data,
                fields: &file.data,
            };
            write_kind(alloc, source, volume, &data, writer)
        }
        Fork::ResFork => {
            let resource = RecordedFork {
                file: file.id,
                kind: ForkKind::Resource,
                fields: &file.resource,
            };
            write_kind(alloc, source, volume, &resource, writer)
        }
    }
}

/// Writes the bytes of a file's fork piece by piece, while they are read, in an image that was opened this way. If there is no
/// such fork, writes nothing and returns what a call that reads it answers: -37, -120 or -43. Errors: as for [`copy_runs`].
pub(crate) fn write_opened<S: BlockSource, W: Write>(
    alloc: Global,
    source: &mut S,
    volume: &NeededVolume,
    named: &NamedFork<'_>,
    writer: &mut W,
) -> Result<Result<(), Reply>, CopyFault>
    requires { IsOpenedOf (S.image source.old) volume.now.count volume.now }
    ensures written { (len : ℕ) → len / 512 ≡ volume.now.count
        → IfOk result (WritesForkNamed (S.image source.old) len named.now.dir named.now.name.now
        named.now.fork (W.contents writer.old) (W.contents writer.new)) }
    ensures unread { (len : ℕ) → len / 512 ≡ volume.now.count
        → IfOk result (RefusesWriting (S.image source.old) len named.now.dir named.now.name.now
        named.now.fork) }
    ensures part { (len : ℕ) → len / 512 ≡ volume.now.count
        → OnErr result (OfForkNamed (S.image source.old) len named.now.dir named.now.name.now
        named.now.fork (AppendsFront (W.contents writer.old) (W.contents writer.new))) }
    ensures unwritten { IfOk result (λ found. OnErr found (writer.new ≡ writer.old)) }
    ensures none { result ≡ Err CopyFault.ReadFailed → writer.new ≡ writer.old }
    ensures memory { result ≡ Err CopyFault.Memory → writer.new ≡ writer.old }
    ensures image { S.image source.new ≡ S.image source.old }
    ensures each { IsReadOfEach (S.Holds source.old) volume.now → IfOk result (λ found.
        OfEach (S.Holds source.new) (IsForkWritten named.now.dir named.now.name.now
        named.now.fork (W.contents writer.old) (W.contents writer.new) found)) }
    ensures each_part { IsReadOfEach (S.Holds source.old) volume.now → OnErr result
        (OfEach (S.Holds source.new) (HasForkOf named.now.dir named.now.name.now
        named.now.fork (AppendsFront (W.contents writer.old) (W.contents writer.new)))) }
    ensures narrows { OfEach (S.Holds source.new) (S.Holds source.old) }
{
    let file = match find_file(volume, named.dir, named.name) {
        Ok(file) => file,
        Err(reply) => return Ok(Err(reply)),
    };
    match write_file(alloc, source, volume, &file, named.fork, writer) {
        Ok(()) => Ok(Ok(())),
        Err(fault) => Err(fault),
    }
}
