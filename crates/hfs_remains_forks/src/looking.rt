//! A look at an image: it is sound and opened, or it is refused and what there is of it is found.
ghost use Rattle.std.specs.Prelude.{◌≡◌, ◌≤◌, ◌⊎◌, IfErr, IfOk, IfSome};
ghost use Rattle.hfs_remains_forks.specs.Looks.{AreFindsOfEach, HasFault, IsRefusedAs};
ghost use Rattle.hfs_check.specs.Report.{report_of};
ghost use Rattle.hfs_image.specs.Failing.{SomeFailsWithin, SomeReadFails};
ghost use Rattle.hfs_image.specs.Seen.{HasNoFault, IsRefusedBy};
ghost use Rattle.hfs_source.specs.Images.{FailsWhere, HasLength, OfEach};

use crate::again::{SeenFinds, find_seen};
use crate::finding::find_in;
use crate::finds::Finds;
use crate::needed::{NeededFinds, needed_finds};
use crate::refused::RefusedImage;
use hfs_check::{MountFault, Report};
use hfs_image::{NeededFault, SeenImage, Unopened};
use hfs_source::{BlockSource, PlacedBlocks, SeenBlocks, SparseFault};
use std::alloc::Global;

/// What is found of an image of `len` bytes, all of which are read at once and then let go. Errors: a read failed, memory was
/// refused.
#[tactic(auto, using(crate::proofs::LookLemmas::all_found))]
fn find_by_all<S: BlockSource>(
    alloc: Global,
    source: &mut S,
    len: u64,
) -> Result<Option<Finds>, SparseFault>
    requires { len ≤ 2147483648 }
    ensures found { IfOk result (AreFindsOfEach (S.Holds source.new) len) }
    ensures narrows { OfEach (S.Holds source.new) (S.Holds source.old) }
{
    let Ok(mut all) = vec![in alloc; 0u8; len as usize] else {
        return Err(SparseFault::Memory);
    };
    let Ok(()) = source.read_blocks(0, &mut all) else {
        return Err(SparseFault::ReadFailed);
    };
    match find_in(alloc, &all) {
        Ok(found) => Ok(found),
        Err(_) => Err(SparseFault::Memory),
    }
}

/// What is found of an image of `len` bytes, from the blocks that are needed for that, or from all blocks if others are wanted.
/// None if the image has no directory. Errors: a read failed, memory was refused.
pub fn finds_of<S: BlockSource>(
    alloc: Global,
    source: &mut S,
    len: u64,
) -> Result<Option<Finds>, SparseFault>
    ensures found { IfOk result (AreFindsOfEach (S.Holds source.new) len) }
    ensures few { IfOk result (λ found. IfSome found (λ _. len ≤ 2147483648)) }
    ensures narrows { OfEach (S.Holds source.new) (S.Holds source.old) }
{
    if len > 2_147_483_648 {
        return Ok(None);
    }
    match needed_finds(alloc, source, len)? {
        NeededFinds::Found(found) => Ok(found),
        NeededFinds::Whole => find_by_all(alloc, source, len),
    }
}

/// Why an image was not looked at, and what it was read from.
#[derive(Drop)]
pub struct Unlooked<S: PlacedBlocks> {
    /// A read failed, or memory was refused.
    pub fault: SparseFault,
    /// The source, a part of which was read.
    pub source: SeenBlocks<S>,
}

/// What is found of an image of `len` bytes that is refused for this fault.
fn refused_image<S: PlacedBlocks + Drop>(
    alloc: Global,
    source: SeenBlocks<S>,
    len: u64,
    why: MountFault,
) -> Result<RefusedImage<S>, Unlooked<S>>
    requires fault { OfEach (S.Holds source.blocks) (HasFault why) }
    requires long { OfEach (S.Holds source.blocks) (HasLength len) }
    ensures refused { IfOk result (λ image. IsRefusedAs (S.Holds image.source.blocks) image.len
        image.why image.found) }
    ensures narrows { IfOk result (λ image. OfEach (S.Holds image.source.blocks)
        (S.Holds source.blocks)) }
    ensures later { IfOk result (λ image. FailsWhere (S.Fails image.source.blocks)
        (S.Fails source.blocks)) }
    ensures failed { IfErr result (λ back. back.fault ≡ SparseFault.ReadFailed
        → SomeFailsWithin len (S.Fails source.blocks)) }
    ensures back { IfErr result (λ back. OfEach (S.Holds back.source.blocks)
        (S.Holds source.blocks)) }
    ensures back_later { IfErr result (λ back. FailsWhere (S.Fails back.source.blocks)
        (S.Fails source.blocks)) }
{
    let SeenFinds { source, found } = find_seen(alloc, source, len)?;
    Ok(RefusedImage {
        source,
        len,
        why,
        found,
    })
}

/// What there is of an image of `len` bytes that was not opened, if it is refused.
fn unopened_image<S: PlacedBlocks + Drop>(
    alloc: Global,
    back: Unopened<S>,
    len: u64,
) -> Result<RefusedImage<S>, Unlooked<S>>
    requires refused { OfEach (S.Holds back.source.blocks) (IsRefusedBy back.fault) }
    requires long { OfEach (S.Holds back.source.blocks) (HasLength len) }
    ensures refused { IfOk result (λ image. IsRefusedAs (S.Holds image.source.blocks) image.len
        image.why image.found) }
    ensures narrows { IfOk result (λ image. OfEach (S.Holds image.source.blocks)
        (S.Holds back.source.blocks)) }
    ensures later { IfOk result (λ image. FailsWhere (S.Fails image.source.blocks)
        (S.Fails back.source.blocks)) }
    ensures failed { IfErr result (λ unlooked. unlooked.fault ≡ SparseFault.ReadFailed
        → (back.fault ≡ NeededFault.ReadFailed) ⊎ SomeFailsWithin len (S.Fails back.source.blocks)) }
    ensures back { IfErr result (λ unlooked. OfEach (S.Holds unlooked.source.blocks)
        (S.Holds back.source.blocks)) }
    ensures back_later { IfErr result (λ unlooked. FailsWhere (S.Fails unlooked.source.blocks)
        (S.Fails back.source.blocks)) }
{
    let Unopened { fault, source } = back;
    match fault {
        NeededFault::Refused(why) => refused_image(alloc, source, len, why),
        NeededFault::ReadFailed => Err(Unlooked {
            fault: SparseFault::ReadFailed,
            source,
        }),
        NeededFault::Memory => Err(Unlooked {
            fault: SparseFault::Memory,
            source,
        }),
    }
}

/// Looks at an image: reads the needed blocks, makes all checks, and returns it opened; or, if it is refused, what there is of
/// it, found in the blocks of the same source. Errors: a read failed, memory was refused.
pub fn look<S: PlacedBlocks + Drop>(
    alloc: Global,
    source: SeenBlocks<S>,
) -> Result<Result<SeenImage<S>, RefusedImage<S>>, SparseFault>
    ensures sound { IfOk result (λ looked. IfOk looked (λ image. OfEach (S.Holds image) HasNoFault)) }
    ensures refused { IfOk result (λ looked. IfErr looked (λ image.
        IsRefusedAs (S.Holds image.source.blocks) image.len image.why image.found)) }
    ensures held { IfOk result (λ looked. IfOk looked (λ image. OfEach (S.Holds image)
        (S.Holds source.blocks))) }
    ensures back { IfOk result (λ looked. IfErr looked (λ image.
        OfEach (S.Holds image.source.blocks) (S.Holds source.blocks))) }
    ensures later { IfOk result (λ looked. IfOk looked (λ image. FailsWhere (S.Fails image)
        (S.Fails source.blocks))) }
    ensures back_later { IfOk result (λ looked. IfErr looked (λ image.
        FailsWhere (S.Fails image.source.blocks) (S.Fails source.blocks))) }
    ensures failed { IfErr result (λ fault. fault ≡ SparseFault.ReadFailed
        → SomeReadFails (S.Holds source.blocks) (S.Fails source.blocks)) }
{
    let len = source.blocks.len();
    match SeenImage::open(alloc, source) {
        Ok(image) => Ok(Ok(image)),
        Err(back) => match unopened_image(alloc, back, len) {
            Ok(image) => Ok(Err(image)),
            Err(unlooked) => Err(unlooked.fault),
        },
    }
}

/// As [`look`], but for a sound image also returns the report, which its checks make at the same time. Errors, with the source
/// handed back: a read failed, memory was refused.
pub fn look_reported<S: PlacedBlocks + Drop>(
    alloc: Global,
    source: SeenBlocks<S>,
) -> Result<Result<(SeenImage<S>, Report), RefusedImage<S>>, Unlooked<S>>
    ensures sound { IfOk result (λ looked. IfOk looked (λ told. OfEach (S.Holds told.0) HasNoFault)) }
    ensures report { IfOk result (λ looked. IfOk looked (λ told. OfEach (S.Holds told.0)
        (λ image. told.1 ≡ report_of image))) }
    ensures refused { IfOk result (λ looked. IfErr looked (λ image.
        IsRefusedAs (S.Holds image.source.blocks) image.len image.why image.found)) }
    ensures held { IfOk result (λ looked. IfOk looked (λ told. OfEach (S.Holds told.0)
        (S.Holds source.blocks))) }
    ensures later { IfOk result (λ looked. IfOk looked (λ told. FailsWhere (S.Fails told.0)
        (S.Fails source.blocks))) }
    ensures narrows { IfOk result (λ looked. IfErr looked (λ image.
        OfEach (S.Holds image.source.blocks) (S.Holds source.blocks))) }
    ensures failed { IfErr result (λ back. back.fault ≡ SparseFault.ReadFailed
        → SomeReadFails (S.Holds source.blocks) (S.Fails source.blocks)) }
    ensures back { IfErr result (λ back. OfEach (S.Holds back.source.blocks)
        (S.Holds source.blocks)) }
{
    let len = source.blocks.len();
    match SeenImage::open_reported(alloc, source) {
        Ok(told) => Ok(Ok(told)),
        Err(back) => match unopened_image(alloc, back, len) {
            Ok(image) => Ok(Err(image)),
            Err(unlooked) => Err(unlooked),
        },
    }
}
