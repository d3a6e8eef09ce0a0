//! Volumes of which only the needed blocks are read.
ghost use Rattle.std.specs.Prelude.{◌≡◌, ◌≢◌, ◌≤◌, ◌/◌, true, IfOk, IfErr};
ghost use Rattle.hfs_check.specs.declared.mount_fault.MountFault.{MountFault};
ghost use Rattle.hfs_source.specs.Images.{OfEach};
ghost use Rattle.hfs_source.specs.Seen.{EachKnown, IsSeen};
ghost use Rattle.hfs_image.specs.Opened.{IsOpenedOf, IsSoundOf, AreRefusedFor, IsRefusedFor};

use crate::gathering::gather_needed;
use hfs_check::{MountFault, SoundVolume, check_blocks};
use hfs_source::{BlockSource, SparseBlocks, SparseFault};
use std::alloc::Global;

/// Why a volume was not opened.
#[derive(Clone, Copy, Debug, PartialEq, Eq)]
pub enum NeededFault {
    /// A read failed, or the reader ended too early.
    ReadFailed,
    /// Memory was refused.
    Memory,
    /// The image is refused for this fault, the first in the order of docs/CHECKS.md.
    Refused(MountFault),
}

impl NeededFault {
    /// The fault of a read that failed or was refused memory.
    pub(crate) fn of_sparse(fault: SparseFault) -> NeededFault
        ensures { (why : MountFault) → result ≢ NeededFault.Refused why }
    {
        match fault {
            SparseFault::ReadFailed => NeededFault::ReadFailed,
            SparseFault::Memory => NeededFault::Memory,
        }
    }

    /// This fault, given whether a read failed: if none did and the image isn't refused, memory was refused.
    pub fn noted(self, failed: bool) -> NeededFault
        ensures read { result ≡ NeededFault.ReadFailed → failed ≡ true }
        ensures refused { (why : MountFault) → result ≡ NeededFault.Refused why
            → self ≡ NeededFault.Refused why }
    {
        match self {
            NeededFault::ReadFailed => {
                if failed {
                    NeededFault::ReadFailed
                } else {
                    NeededFault::Memory
                }
            }
            NeededFault::Memory => NeededFault::Memory,
            NeededFault::Refused(why) => NeededFault::Refused(why),
        }
    }
}

/// The needed blocks of a sound volume, and what its checks found.
#[derive(Drop)]
pub struct NeededVolume {
    /// The blocks that were read.
    pub read: SparseBlocks,
    /// How many blocks the volume has.
    pub count: u32,
    /// Its master directory block and where its trees lie.
    pub sound: SoundVolume,
}

/// Reads the needed blocks of an image of `count` blocks, whose length is right, and makes all checks.
fn open_blocks<S: BlockSource>(
    alloc: Global,
    source: &mut S,
    count: u32,
) -> Result<NeededVolume, NeededFault>
    requires { 3 ≤ count }
    ensures opened { IfOk result (IsOpenedOf (S.image source.old) count) }
    ensures refused { IfErr result (λ fault. AreRefusedFor (S.image source.old) count fault) }
    ensures image { S.image source.new ≡ S.image source.old }
    ensures seen { IfOk result (λ volume. IsSeen (S.Holds source.new) volume.read) }
    ensures each_refused { IfErr result (λ fault. EachKnown (S.Holds source.new)
        (λ known. AreRefusedFor known count fault)) }
    ensures narrows { OfEach (S.Holds source.new) (S.Holds source.old) }
{
    let read = match gather_needed(alloc, source, count) {
        Ok(read) => read,
        Err(fault) => return Err(NeededFault::of_sparse(fault)),
    };
    match check_blocks(alloc, &read.volume(count)) {
        Ok(sound) => Ok(NeededVolume { read, count, sound }),
        Err(MountFault::Memory) => Err(NeededFault::Memory),
        Err(fault) => Err(NeededFault::Refused(fault)),
    }
}

/// Reads the needed blocks of an image of `len` bytes, and makes all checks. Errors: a read failed, memory was refused, or the image
/// is refused.
pub(crate) fn open_needed<S: BlockSource>(
    alloc: Global,
    source: &mut S,
    len: u64,
) -> Result<NeededVolume, NeededFault>
    ensures opened { IfOk result (IsOpenedOf (S.image source.old) (len / 512)) }
    ensures sound { IfOk result (λ volume. IsSoundOf (S.image source.old) len) }
    ensures refused { IfErr result (λ fault. IsRefusedFor (S.image source.old) len fault) }
    ensures image { S.image source.new ≡ S.image source.old }
    ensures seen { IfOk result (λ volume. IsSeen (S.Holds source.new) volume.read) }
    ensures each_refused { IfErr result (λ fault. EachKnown (S.Holds source.new)
        (λ known. IsRefusedFor known len fault)) }
    ensures narrows { OfEach (S.Holds source.new) (S.Holds source.old) }
    ensures each_sound { IfOk result (λ volume. EachKnown (S.Holds source.new)
        (λ known. IsSoundOf known len)) }
{
    if len > 2_147_483_648 {
        return Err(NeededFault::Refused(MountFault::TooLarge));
    }
    if len < 1_536 {
        return Err(NeededFault::Refused(MountFault::Short));
    }
    open_blocks(alloc, source, (len / 512) as u32)
}
