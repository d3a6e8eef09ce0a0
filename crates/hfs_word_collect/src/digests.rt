//! The digests of forks.
ghost use Rattle.std.specs.Prelude.{◌≡◌, IfErr, IfOk};
ghost use Rattle.hex.specs.Hex.{encode_lower};
ghost use Rattle.hfs_image.specs.Forks.{named_fork};
ghost use Rattle.hfs_source.specs.Images.{FailsWhere, OfEach};
ghost use Rattle.hfs_model.specs.Children.{entries_of};
ghost use Rattle.hfs_check.specs.VolumeOf.{volume_of};
ghost use Rattle.hfs_database.specs.declared.value.RowValue.TheVariants.{Text};
ghost use Rattle.hfs_bag.specs.Failing.{SomeFail};
ghost use Rattle.hfs_word_collect.specs.Faults.{IsFaultOf};
ghost use Rattle.hfs_word_collect.specs.Items.{found_digest};
ghost use Rattle.hfs_word_collect.specs.Giving.{AreDigests};

use crate::fault::CollectFault;
use core::mem::replace_with;
use hfs_bag::DigestWriter;
use hfs_database::RowValue;
use hfs_image::SeenImage;
use hfs_model::{Fork, Info, ItemKind, OwnedBytes};
use hfs_source::{CopyFault, PlacedBlocks};
use std::alloc::{AllocError, Global};

/// The digests of both forks of an item, as its row has them.
#[derive(Drop)]
pub(crate) struct ForkDigests {
    pub(crate) data_fork: RowValue,
    pub(crate) resource_fork: RowValue,
}

/// A digest as a row has it.
pub(crate) fn digest_text(alloc: Global, digest: &[u8; 32]) -> Result<RowValue, AllocError>
    ensures { IfOk result (λ value. value ≡ Text (encode_lower digest.now)) }
{
    let digits = hex::encode(alloc, digest.as_slice())?;
    Ok(RowValue::Text(OwnedBytes::new(digits.into_bytes())))
}

/// The image, and the digest of a file's fork in it, as its row has it.
#[tactic(auto, using(crate::proofs::FailingReads::read_held))]
fn with_digest<S: PlacedBlocks + Drop>(
    image: SeenImage<S>,
    alloc: Global,
    info: &Info,
    fork: Fork,
) -> (SeenImage<S>, Result<RowValue, CollectFault>)
    ensures digest { IfOk result.1 (λ value. OfEach (S.Holds result.0) (λ bytes. value
        ≡ found_digest (named_fork (entries_of (volume_of bytes)) info.now.parent info.now.name fork))) }
    ensures narrows { OfEach (S.Holds result.0) (S.Holds image) }
    ensures failed { IfErr result.1 (IsFaultOf (SomeFail (S.Holds result.0) (S.Fails image))) }
    ensures later { FailsWhere (S.Fails result.0) (S.Fails image) }
{
    let mut digest = DigestWriter::new();
    let (dir, name) = (info.parent, info.name.bytes());
    let (told, image) = image.write_fork(alloc, dir, name, fork, &mut digest);
    match told {
        Ok(Ok(())) => match digest_text(alloc, &digest.finish()) {
            Ok(value) => (image, Ok(value)),
            Err(_) => (image, Err(CollectFault::NoMemory)),
        },
        Ok(Err(_)) => (image, Ok(RowValue::Empty)),
        Err(CopyFault::Memory) => (image, Err(CollectFault::NoMemory)),
        Err(CopyFault::ReadFailed) => (image, Err(CollectFault::ReadFailed)),
        Err(CopyFault::BrokenOff) => (image, Err(CollectFault::ReadFailed)),
        Err(CopyFault::WriteFailed) => (image, Err(CollectFault::CannotWrite)),
    }
}

/// The digest of a file's fork, as its row has it.
fn fork_digest<S: PlacedBlocks + Drop>(
    alloc: Global,
    image: &mut SeenImage<S>,
    info: &Info,
    fork: Fork,
) -> Result<RowValue, CollectFault>
    ensures digest { IfOk result (λ value. OfEach (S.Holds image.new) (λ bytes. value
        ≡ found_digest (named_fork (entries_of (volume_of bytes)) info.now.parent info.now.name fork))) }
    ensures narrows { OfEach (S.Holds image.new) (S.Holds image.old) }
    ensures failed { IfErr result (IsFaultOf (SomeFail (S.Holds image.new) (S.Fails image.old))) }
    ensures later { FailsWhere (S.Fails image.new) (S.Fails image.old) }
{
    replace_with(
        image,
        info,
        |image, info|
            ensures digest { IfOk result.1 (λ value. OfEach (S.Holds result.0) (λ bytes. value
                ≡ found_digest (named_fork (entries_of (volume_of bytes)) info.now.parent info.now.name fork))) }
            ensures narrows { OfEach (S.Holds result.0) (S.Holds image) }
            ensures failed { IfErr result.1 (IsFaultOf (SomeFail (S.Holds result.0)
                (S.Fails image))) }
            ensures later { FailsWhere (S.Fails result.0) (S.Fails image) }
        { with_digest(image, alloc, info, fork) },
    )
}

/// The digests of both forks of an item, if they are to be taken; a folder has none.
#[tactic(auto, using(crate::proofs::FailingReads::read_handed_on))]
pub(crate) fn fork_digests<S: PlacedBlocks + Drop>(
    alloc: Global,
    image: &mut SeenImage<S>,
    info: &Info,
    taken: bool,
) -> Result<ForkDigests, CollectFault>
    ensures digests { IfOk result (λ found. OfEach (S.Holds image.new)
        (λ bytes. AreDigests taken (entries_of (volume_of bytes)) info.now found)) }
    ensures narrows { OfEach (S.Holds image.new) (S.Holds image.old) }
    ensures failed { IfErr result (IsFaultOf (SomeFail (S.Holds image.new) (S.Fails image.old))) }
    ensures later { FailsWhere (S.Fails image.new) (S.Fails image.old) }
{
    if !taken || info.kind == ItemKind::Folder {
        return Ok(ForkDigests {
            data_fork: RowValue::Empty,
            resource_fork: RowValue::Empty,
        });
    }
    let data_fork = fork_digest(alloc, image, info, Fork::DataFork)?;
    let resource_fork = fork_digest(alloc, image, info, Fork::ResFork)?;
    Ok(ForkDigests {
        data_fork,
        resource_fork,
    })
}
