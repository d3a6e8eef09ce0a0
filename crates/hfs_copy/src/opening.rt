//! Volumes of which the working blocks are read.
ghost use Rattle.std.specs.Prelude.{◌≡◌, ◌≢◌, ◌/◌, ◌≤◌, ℕ, None, IfErr, IfOk, OnOk};
ghost use Rattle.std.specs.List.{flat_map};
ghost use Rattle.hfs_blocks.specs.Blocks.{run_of};
ghost use Rattle.hfs_blocks.specs.Layers.{KeepsWithin};
ghost use Rattle.hfs_check.specs.declared.mount_fault.MountFault.{MountFault};
ghost use Rattle.hfs_check.specs.Sound.{IsSound};
ghost use Rattle.hfs_image.specs.Failing.{SomeFailsWithin};
ghost use Rattle.hfs_image.specs.Opened.{AreRefusedFor, IsRefusedFor};
ghost use Rattle.hfs_source.specs.Images.{FailsWhere, OfEach};
ghost use Rattle.hfs_source.specs.Seen.{EachKnown, IsSeen, SeesMore};
ghost use Rattle.hfs_source.specs.Sparse.{HasEach, HasGrown, StaysOf};
ghost use Rattle.hfs_volume.specs.Image.{copy_of};
ghost use Rattle.hfs_copy.specs.Opened.{IsCopyOf, IsWorkingOf, LieWithin};

use crate::noted::{FailingBlocks, NotedSource};
use hfs_check::{MountFault, SoundVolume, VolumeTrees, check_blocks};
use hfs_image::{NeededFault, PickedFailures, gather_needed};
use hfs_source::{BlockSource, SparseBlocks, SparseFault, fetch_runs};
use std::alloc::Global;
use std::marker::Brand;

/// The working blocks of a sound volume, and what its checks found.
#[derive(Drop)]
pub struct WorkingVolume {
    /// The blocks that were read.
    pub read: SparseBlocks,
    /// How many blocks the volume has.
    pub count: u32,
    /// Its master directory block and where its trees lie.
    pub sound: SoundVolume,
}

/// The volume's fault for a read that failed or was refused memory.
fn unread(fault: SparseFault) -> NeededFault
    ensures { (why : MountFault) → result ≢ NeededFault.Refused why }
{
    match fault {
        SparseFault::ReadFailed => NeededFault::ReadFailed,
        SparseFault::Memory => NeededFault::Memory,
    }
}

/// Reads the nodes of both trees, each unless it was read before.
fn read_trees<S: BlockSource>(
    source: &mut S,
    read: &mut SparseBlocks,
    trees: &VolumeTrees,
) -> Result<(), SparseFault>
    requires { LieWithin 4294967296 trees.now }
    ensures extents { OnOk result (HasEach read.new (flat_map run_of trees.now.extents.items)) }
    ensures catalog { OnOk result (HasEach read.new (flat_map run_of trees.now.catalog.items)) }
    ensures grown { HasGrown read.old read.new }
    ensures stays { StaysOf (S.image source.old) read.old read.new }
    ensures within { (total : ℕ) → LieWithin total trees.now
        → KeepsWithin read.old read.new total }
    ensures image { S.image source.new ≡ S.image source.old }
    ensures sees { SeesMore (S.Holds source.old) (S.Holds source.new) read.old read.new }
{
    fetch_runs(source, read, &trees.extents)?;
    fetch_runs(source, read, &trees.catalog)?;
    Ok(())
}

/// Reads the working blocks of an image of `count` blocks, whose length is right, and makes all checks.
fn open_blocks<S: BlockSource>(
    alloc: Global,
    source: &mut S,
    count: u32,
) -> Result<WorkingVolume, NeededFault>
    requires { 3 ≤ count }
    ensures opened { IfOk result (IsWorkingOf (S.image source.old) count) }
    ensures refused { IfErr result (λ fault. AreRefusedFor (S.image source.old) count fault) }
    ensures image { S.image source.new ≡ S.image source.old }
    ensures seen { IfOk result (λ volume. IsSeen (S.Holds source.new) volume.read) }
    ensures each_refused { IfErr result (λ fault. EachKnown (S.Holds source.new)
        (λ known. AreRefusedFor known count fault)) }
    ensures narrows { OfEach (S.Holds source.new) (S.Holds source.old) }
{
    let mut read = match gather_needed(alloc, source, count) {
        Ok(read) => read,
        Err(fault) => return Err(unread(fault)),
    };
    let sound = match check_blocks(alloc, &read.volume(count)) {
        Ok(sound) => sound,
        Err(MountFault::Memory) => return Err(NeededFault::Memory),
        Err(fault) => return Err(NeededFault::Refused(fault)),
    };
    match read_trees(source, &mut read, &sound.trees) {
        Ok(()) => Ok(WorkingVolume { read, count, sound }),
        Err(fault) => Err(unread(fault)),
    }
}

/// Reads the working blocks of an image of `len` bytes, and makes all checks. These are the blocks that the checks need, and the
/// free nodes of both trees. What was read, with zeros elsewhere, is sound, and is a copy of the image over which calls can be
/// made; this holds for every image consistent with the bytes read. Errors: a read failed, memory was refused, or the image is
/// refused.
pub fn open_working<S: BlockSource>(
    alloc: Global,
    source: &mut S,
    len: u64,
) -> Result<WorkingVolume, NeededFault>
    ensures opened { IfOk result (IsWorkingOf (S.image source.old) (len / 512)) }
    ensures mountable { IfOk result (IsWorkingOf None (len / 512)) }
    ensures sound { IfOk result (λ volume. IsSound (copy_of volume.read len)) }
    ensures copy { IfOk result (IsCopyOf (S.image source.old) len) }
    ensures refused { IfErr result (λ fault. IsRefusedFor (S.image source.old) len fault) }
    ensures image { S.image source.new ≡ S.image source.old }
    ensures seen { IfOk result (λ volume. IsSeen (S.Holds source.new) volume.read) }
    ensures each_refused { IfErr result (λ fault. EachKnown (S.Holds source.new)
        (λ known. IsRefusedFor known len fault)) }
    ensures narrows { OfEach (S.Holds source.new) (S.Holds source.old) }
{
    if len > 2_147_483_648 {
        return Err(NeededFault::Refused(MountFault::TooLarge));
    }
    if len < 1_536 {
        return Err(NeededFault::Refused(MountFault::Short));
    }
    open_blocks(alloc, source, (len / 512) as u32)
}

/// Opens an image of `len` bytes as [`open_source`] does, where the reads that may fail are picked.
fn open_noted<K: PickedFailures, S: FailingBlocks>(
    alloc: Global,
    source: S,
    len: u64,
) -> (Result<WorkingVolume, NeededFault>, S)
    requires fails { FailsWhere (S.Fails source) K.fails }
    requires len { len ≡ K.len }
    ensures opened { IfOk result.0 (IsWorkingOf (S.image source) (len / 512)) }
    ensures mountable { IfOk result.0 (IsWorkingOf None (len / 512)) }
    ensures sound { IfOk result.0 (λ volume. IsSound (copy_of volume.read len)) }
    ensures copy { IfOk result.0 (IsCopyOf (S.image source) len) }
    ensures refused { IfErr result.0 (λ fault. IsRefusedFor (S.image source) len fault) }
    ensures failed { IfErr result.0 (λ fault. fault ≡ NeededFault.ReadFailed
        → SomeFailsWithin len K.fails) }
    ensures image { S.image result.1 ≡ S.image source }
    ensures seen { IfOk result.0 (λ volume. IsSeen (S.Holds result.1) volume.read) }
    ensures each_refused { IfErr result.0 (λ fault. EachKnown (S.Holds result.1)
        (λ known. IsRefusedFor known len fault)) }
    ensures narrows { OfEach (S.Holds result.1) (S.Holds source) }
{
    let mut noted = NotedSource::<S, K>::new(source, len);
    let opened = open_working(alloc, &mut noted, len);
    let (source, failed) = noted.into_source();
    match opened {
        Ok(volume) => (Ok(volume), source),
        Err(why) => (Err(why.noted(failed)), source),
    }
}

/// Opens an image of `len` bytes as [`open_working`] does, over a source that says where its reads may fail, and hands the source
/// back. Errors: a read of bytes that it has failed, memory was refused, or the image is refused.
pub fn open_source<S: FailingBlocks>(
    alloc: Global,
    source: S,
    len: u64,
) -> (Result<WorkingVolume, NeededFault>, S)
    ensures opened { IfOk result.0 (IsWorkingOf (S.image source) (len / 512)) }
    ensures mountable { IfOk result.0 (IsWorkingOf None (len / 512)) }
    ensures sound { IfOk result.0 (λ volume. IsSound (copy_of volume.read len)) }
    ensures copy { IfOk result.0 (IsCopyOf (S.image source) len) }
    ensures refused { IfErr result.0 (λ fault. IsRefusedFor (S.image source) len fault) }
    ensures failed { IfErr result.0 (λ fault. fault ≡ NeededFault.ReadFailed
        → SomeFailsWithin len (S.Fails source)) }
    ensures image { S.image result.1 ≡ S.image source }
    ensures seen { IfOk result.0 (λ volume. IsSeen (S.Holds result.1) volume.read) }
    ensures each_refused { IfErr result.0 (λ fault. EachKnown (S.Holds result.1)
        (λ known. IsRefusedFor known len fault)) }
    ensures narrows { OfEach (S.Holds result.1) (S.Holds source) }
{
    open_noted::<Brand, S>(alloc, source, len)
}
