//! Mounting the volume of an image over the blocks that calls read and write.
ghost use Rattle.std.specs.Prelude.{◌≡◌, ◌/◌, None, IfErr, IfOk};
ghost use Rattle.hfs_check.specs.Sound.{IsSound};
ghost use Rattle.hfs_check.specs.declared.mount_fault.MountFault.{MountFault};
ghost use Rattle.hfs_image.specs.Failing.{SomeFailsWithin};
ghost use Rattle.hfs_source.specs.Images.{OfEach};
ghost use Rattle.hfs_volume.specs.Image.{copy_of};
ghost use Rattle.hfs_copy.specs.Opened.{IsRunnable, IsWorkingOf};
ghost use Rattle.hfs_word_put.specs.Put.{IsCopyOfEach, IsRefusedImage, IsUnmounted};

use hfs_commands::Fault;
use hfs_copy::{FailingBlocks, WorkingVolume, mount_read, open_source};
use hfs_image::NeededFault;
use hfs_volume::Volume;
use std::alloc::Global;

/// Reads those blocks of an image of `len` bytes, opened by this path, that calls read and write, and makes all checks.
fn open_image<'a, S: FailingBlocks>(
    alloc: Global,
    source: S,
    len: u64,
    path: &'a str,
) -> (Result<WorkingVolume, Fault<'a>>, S)
    ensures opened { IfOk result.0 (IsRunnable (S.Holds result.1) len) }
    ensures fault { IfErr result.0 (IsUnmounted path.entry (S.Holds result.1) len) }
    ensures failed { IfErr result.0 (λ fault. fault ≡ Fault.CannotRead path.entry
        → SomeFailsWithin len (S.Fails source)) }
    ensures refused { IfErr result.0 (λ fault. (why : MountFault) → fault ≡ Fault.Refused why
        → OfEach (S.Holds result.1) (IsRefusedImage len why)) }
    ensures narrows { OfEach (S.Holds result.1) (S.Holds source) }
{
    let (opened, source) = open_source(alloc, source, len);
    match opened {
        Ok(working) => (Ok(working), source),
        Err(NeededFault::Refused(why)) => (Err(Fault::Refused(why)), source),
        Err(NeededFault::ReadFailed) => (Err(Fault::CannotRead(path)), source),
        Err(NeededFault::Memory) => (Err(Fault::NoMemory), source),
    }
}

/// Mounts a volume over the blocks that were read of its image.
fn mount(alloc: Global, working: WorkingVolume, len: u64) -> Result<Volume, Fault<'static>>
    requires working { IsWorkingOf None (len / 512) working }
    requires sound { IsSound (copy_of working.read len) }
    ensures base { IfOk result (λ volume. volume.base ≡ copy_of working.read len) }
    ensures current { IfOk result (λ volume. volume.current ≡ volume.base) }
    ensures memory { IfErr result (λ fault. fault ≡ Fault.NoMemory) }
{
    match mount_read(alloc, working, len) {
        Ok(volume) => Ok(volume),
        Err(_) => Err(Fault::NoMemory),
    }
}

/// Reads those blocks of an image of `len` bytes, opened by this path, that calls read and write, makes all checks, and mounts
/// its volume over them, with zeros in place of all other blocks. The source is handed back. Faults: `CannotRead` of the path, if
/// a read of bytes that it has failed; `Refused`; `NoMemory`.
pub fn mount_image<'a, S: FailingBlocks>(
    alloc: Global,
    source: S,
    len: u64,
    path: &'a str,
) -> (Result<Volume, Fault<'a>>, S)
    ensures copy { IfOk result.0 (λ volume. IsCopyOfEach (S.Holds result.1) len volume.base) }
    ensures fresh { IfOk result.0 (λ volume. volume.current ≡ volume.base) }
    ensures fault { IfErr result.0 (IsUnmounted path.entry (S.Holds result.1) len) }
    ensures failed { IfErr result.0 (λ fault. fault ≡ Fault.CannotRead path.entry
        → SomeFailsWithin len (S.Fails source)) }
    ensures refused { IfErr result.0 (λ fault. (why : MountFault) → fault ≡ Fault.Refused why
        → OfEach (S.Holds result.1) (IsRefusedImage len why)) }
    ensures narrows { OfEach (S.Holds result.1) (S.Holds source) }
{
    let (opened, source) = open_image(alloc, source, len, path);
    match opened {
        Ok(working) => (mount(alloc, working, len), source),
        Err(fault) => (Err(fault), source),
    }
}
