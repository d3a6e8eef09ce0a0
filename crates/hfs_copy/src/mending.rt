//! What a repair of an image changes, reports and leaves, from the blocks that it needs.
ghost use Rattle.std.specs.Prelude.{◌≡◌, ◌/◌, ◌≤◌, [], Some, None, IfOk};
ghost use Rattle.hfs_blocks.specs.Layers.{changes, AreWithin};
ghost use Rattle.hfs_image.specs.Gathered.{HasRead};
ghost use Rattle.hfs_source.specs.Images.{OfEach};
ghost use Rattle.hfs_source.specs.Seen.{SeesMore};
ghost use Rattle.hfs_copy.specs.Mended.{IsFaultOver, IsMendedOf, MendsBlocksOf};

use crate::gathering::gather_mending;
use crate::laying::lay_puts;
use hfs_blocks::Patch;
use hfs_check::{MountFault, check_blocks};
use hfs_repair::{Fix, Mending};
use hfs_source::{BlockSource, SparseBlocks, SparseFault};
use std::alloc::Global;

/// What a repair of an image changes and reports, and what is then wrong with it.
#[derive(Drop)]
pub struct Mended {
    /// The blocks that the repair changes, as they are afterwards.
    pub patch: Patch,
    /// The numbers that were wrong, each once, in the order of `FixPlace`.
    pub fixes: Vec<Fix>,
    /// The first fault of the repaired image, if it has one.
    pub fault: Option<MountFault>,
}

/// The result for an image whose length is wrong: it is left as it is.
fn unmended(alloc: Global, fault: MountFault) -> Mended
    ensures patch { result.patch ≡ [] }
    ensures fixes { result.fixes.items ≡ [] }
    ensures fault { result.fault ≡ Some fault }
{
    Mended {
        patch: Patch::new(alloc),
        fixes: Vec::new(alloc),
        fault: Some(fault),
    }
}

/// The first fault of an image of `count` blocks with these changed ones.
fn fault_over<S: BlockSource>(
    alloc: Global,
    source: &mut S,
    read: &mut SparseBlocks,
    patch: &Patch,
    count: u32,
) -> Result<Option<MountFault>, SparseFault>
    requires some { 3 ≤ count }
    ensures fault { IfOk result (IsFaultOver read.new count patch.now) }
    ensures reads { HasRead (S.image source.old) count read.old read.new }
    ensures image { S.image source.new ≡ S.image source.old }
    ensures sees { SeesMore (S.Holds source.old) (S.Holds source.new) read.old read.new }
{
    gather_mending(alloc, source, read, patch, count)?;
    match check_blocks(alloc, &patch.over(&read.volume(count))) {
        Ok(_sound) => Ok(None),
        Err(MountFault::Memory) => Err(SparseFault::Memory),
        Err(fault) => Ok(Some(fault)),
    }
}

/// What a repair of an image of `count` blocks changes, reports and leaves.
fn mend_blocks<S: BlockSource>(
    alloc: Global,
    source: &mut S,
    count: u32,
) -> Result<Mended, SparseFault>
    requires { 3 ≤ count }
    ensures mended { IfOk result (MendsBlocksOf (S.Holds source.new) count) }
    ensures within { IfOk result (λ mended. AreWithin (changes mended.patch) count) }
    ensures narrows { OfEach (S.Holds source.new) (S.Holds source.old) }
    ensures image { S.image source.new ≡ S.image source.old }
{
    let mut read = SparseBlocks::new(alloc);
    let none = Patch::new(alloc);
    gather_mending(alloc, source, &mut read, &none, count)?;
    let Ok(mending) = Mending::of_blocks(alloc, &none.over(&read.volume(count))) else {
        return Err(SparseFault::Memory);
    };
    let patch = lay_puts(alloc, source, &mut read, count, &mending.puts)?;
    let fault = fault_over(alloc, source, &mut read, &patch, count)?;
    Ok(Mended {
        patch,
        fixes: mending.fixes,
        fault,
    })
}

/// What a repair of an image of `len` bytes changes, reports and leaves. Only the blocks are read that decide it: the master
/// directory block, the bitmap, and all nodes of both trees. The result holds for every image consistent with the bytes read.
/// Errors: a read failed, or the image ends before that many bytes; memory was refused. A fault of the image is no error: the
/// result has it.
pub fn mend_needed<S: BlockSource>(
    alloc: Global,
    source: &mut S,
    len: u64,
) -> Result<Mended, SparseFault>
    ensures mended { IfOk result (IsMendedOf (S.Holds source.new) len) }
    ensures within { IfOk result (λ mended. AreWithin (changes mended.patch) (len / 512)) }
    ensures small { IfOk result (λ mended. mended.fault ≡ None → len ≤ 2147483648) }
    ensures narrows { OfEach (S.Holds source.new) (S.Holds source.old) }
    ensures image { S.image source.new ≡ S.image source.old }
{
    if len > 2_147_483_648 {
        return Ok(unmended(alloc, MountFault::TooLarge));
    }
    if len < 1_536 {
        return Ok(unmended(alloc, MountFault::Short));
    }
    mend_blocks(alloc, source, (len / 512) as u32)
}
