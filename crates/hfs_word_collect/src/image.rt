//! The rows of an image.
ghost use Rattle.std.specs.Prelude.{◌≡◌, ◌++◌, ℕ, List, length, IfErr, IfOk, OnErr, OnOk};
ghost use Rattle.hfs_database.specs.Taken.{IsBeginning};
ghost use Rattle.hfs_source.specs.Images.{FailsWhere, OfEach};
ghost use Rattle.hfs_source.specs.Raw.{layout_of};
ghost use Rattle.hfs_word_collect.specs.Counts.{image_counts};
ghost use Rattle.hfs_bag.specs.Failing.{SomeFail, SomeFailOf};
ghost use Rattle.hfs_word_collect.specs.Faults.{IsFaultOf};
ghost use Rattle.hfs_word_collect.specs.Images.{image_rows, image_values};
ghost use Rattle.hfs_word_collect.specs.Looking.{IsLook, others_by};
ghost use Rattle.hfs_word_collect.specs.Values.{digest_value, where_taken};

use crate::content::give_content;
use crate::counts::ImageCounts;
use crate::digests::digest_text;
use crate::fault::CollectFault;
use crate::noted::{Sectors, sectors_of};
use crate::source::ImageFile;
use crate::values::{push_number, push_value, push_whole_text};
use core::mem::replace_with;
use hfs_bag::{PickedImage, file_digest};
use hfs_database::{RowTaker, RowValue, Table};
use hfs_source::{Layout, PlacedBytes};
use std::alloc::{AllocError, Global};

/// What is known of an image besides its bytes.
#[derive(Clone, Copy)]
pub struct ImageFacts<'a> {
    /// The path as it was given.
    pub path: &'a str,
    /// The name and version of the program that reads it.
    pub program: &'a str,
    /// Whether digests are taken.
    pub takes_digests: bool,
}

/// What the first opening of an image finds.
#[derive(Drop)]
pub(crate) struct Look {
    /// How many bytes it has.
    pub(crate) len: u64,
    /// Their digest, as the image's row has it.
    pub(crate) digest: RowValue,
    /// How they are laid out.
    pub(crate) layout: Layout,
    /// How many of its raw sectors have no user data.
    pub(crate) others: u64,
}

/// The digest of an image as its row has it, if it is to be taken.
#[tactic(auto, using(crate::proofs::FailingReads::fault_by_memory))]
fn digest_of<S: PlacedBytes>(
    alloc: Global,
    source: &mut S,
    taken: bool,
) -> Result<RowValue, CollectFault>
    ensures digest { IfOk result (λ value. OfEach (S.Holds source.new)
        (λ file. value ≡ where_taken taken (digest_value file))) }
    ensures held { OfEach (S.Holds source.new) (S.Holds source.old) }
    ensures failed { IfErr result (IsFaultOf (SomeFail (S.Holds source.new) (S.Fails source.old))) }
    ensures later { FailsWhere (S.Fails source.new) (S.Fails source.old) }
{
    if !taken {
        return Ok(RowValue::Empty);
    }
    match file_digest(source) {
        Ok(digest) => Ok(digest_text(alloc, &digest)?),
        Err(_) => Err(CollectFault::ReadFailed),
    }
}

/// The source, how its bytes are laid out, and how many of its raw sectors have no user data.
#[tactic(auto, using(crate::proofs::FailingReads::fault_of_sparse))]
fn with_sectors<S: PlacedBytes>(source: S) -> (S, Result<Sectors, CollectFault>)
    ensures layout { IfOk result.1 (λ found. OfEach (S.Holds result.0)
        (λ file. found.layout ≡ layout_of file)) }
    ensures others { IfOk result.1 (λ found. OfEach (S.Holds result.0)
        (λ file. found.others ≡ others_by found.layout file)) }
    ensures held { OfEach (S.Holds result.0) (S.Holds source) }
    ensures failed { IfErr result.1 (IsFaultOf (SomeFail (S.Holds result.0) (S.Fails source))) }
    ensures later { FailsWhere (S.Fails result.0) (S.Fails source) }
{
    let (source, told) = sectors_of(source);
    match told {
        Ok(sectors) => (source, Ok(sectors)),
        Err(fault) => (source, Err(CollectFault::from(fault))),
    }
}

/// How the bytes of an image are laid out, and how many of its raw sectors have no user data; each is looked at.
fn sectors_in<S: PlacedBytes + Drop>(source: &mut S) -> Result<Sectors, CollectFault>
    ensures layout { IfOk result (λ found. OfEach (S.Holds source.new)
        (λ file. found.layout ≡ layout_of file)) }
    ensures others { IfOk result (λ found. OfEach (S.Holds source.new)
        (λ file. found.others ≡ others_by found.layout file)) }
    ensures held { OfEach (S.Holds source.new) (S.Holds source.old) }
    ensures failed { IfErr result (IsFaultOf (SomeFail (S.Holds source.new) (S.Fails source.old))) }
    ensures later { FailsWhere (S.Fails source.new) (S.Fails source.old) }
{
    replace_with(
        source,
        (),
        |source, _|
            ensures layout { IfOk result.1 (λ found. OfEach (S.Holds result.0)
                (λ file. found.layout ≡ layout_of file)) }
            ensures others { IfOk result.1 (λ found. OfEach (S.Holds result.0)
                (λ file. found.others ≡ others_by found.layout file)) }
            ensures held { OfEach (S.Holds result.0) (S.Holds source) }
            ensures failed { IfErr result.1 (IsFaultOf (SomeFail (S.Holds result.0)
                (S.Fails source))) }
            ensures later { FailsWhere (S.Fails result.0) (S.Fails source) }
        { with_sectors(source) },
    )
}

/// What one opening of an image finds.
#[tactic(auto, using(crate::proofs::FailingReads::read_handed_on))]
fn look_at<S: PlacedBytes + Drop>(
    alloc: Global,
    source: &mut S,
    taken: bool,
) -> Result<Look, CollectFault>
    ensures look { IfOk result (λ look. OfEach (S.Holds source.new) (IsLook taken look)) }
    ensures held { OfEach (S.Holds source.new) (S.Holds source.old) }
    ensures failed { IfErr result (IsFaultOf (SomeFail (S.Holds source.new) (S.Fails source.old))) }
    ensures later { FailsWhere (S.Fails source.new) (S.Fails source.old) }
{
    let len = source.len();
    let digest = digest_of(alloc, source, taken)?;
    let Sectors { layout, others } = sectors_in(source)?;
    Ok(Look {
        len,
        digest,
        layout,
        others,
    })
}

/// What an image is; what was read for that is noted.
#[tactic(auto, using(crate::proofs::FailingReads::unopened_fault, crate::proofs::FailingReads::picked_of, crate::proofs::FailingReads::fault_told))]
fn noted_look<S: PlacedBytes + Drop, K: PickedImage, F: ImageFile<S, K>>(
    alloc: Global,
    file: &mut F,
    taken: bool,
) -> Result<Look, CollectFault>
    ensures look { IfOk result (λ look. OfEach (F.Holds file.new) (IsLook taken look)) }
    ensures held { OfEach (F.Holds file.new) (F.Holds file.old) }
    ensures failed { IfErr result (IsFaultOf (SomeFailOf (F.Holds file.new K.image)
        (length K.image) (F.Fails file.old))) }
    ensures later { FailsWhere (F.Fails file.new) (F.Fails file.old) }
{
    let mut source = file.open()?;
    let look = look_at(alloc, &mut source, taken);
    file.note(&source);
    look
}

/// The values of an image's row.
#[tactic(auto, unfolding(crate::specs::Images::image_values))]
fn image_values(
    alloc: Global,
    facts: &ImageFacts<'_>,
    len: u64,
    digest: RowValue,
) -> Result<Vec<RowValue>, AllocError>
    ensures { IfOk result (λ values. (file : List ℕ) → length file ≡ len
        → digest ≡ where_taken facts.now.takes_digests (digest_value file)
        → values.items ≡ image_values facts.now file) }
{
    let mut values = Vec::new(alloc);
    push_whole_text(&mut values, String::from_str(alloc, facts.path)?)?;
    push_number(&mut values, len)?;
    push_value(&mut values, digest)?;
    push_whole_text(&mut values, String::from_str(alloc, facts.program)?)?;
    Ok(values)
}

/// Gives a taker the rows of an image, as [`give_image`] says.
#[tactic(auto, using(crate::proofs::FailingReads::picked_handed_on, crate::proofs::FailingReads::fault_by_memory, crate::proofs::FailingReads::fault_by_taker))]
fn give_rows<S: PlacedBytes + Drop, K: PickedImage, F: ImageFile<S, K>, T: RowTaker>(
    alloc: Global,
    taker: &mut T,
    file: &mut F,
    facts: &ImageFacts<'_>,
) -> Result<ImageCounts, CollectFault>
    ensures whole { OnOk result (F.Holds file.new K.image → T.given taker.new
        ≡ T.given taker.old ++ image_rows facts.now K.image) }
    ensures part { OnErr result (F.Holds file.new K.image → IsBeginning
        (T.given taker.new) (T.given taker.old ++ image_rows facts.now K.image)) }
    ensures counted { IfOk result (λ counts. F.Holds file.new K.image
        → counts ≡ image_counts K.image) }
    ensures held { OfEach (F.Holds file.new) (F.Holds file.old) }
    ensures failed { IfErr result (IsFaultOf (SomeFailOf (F.Holds file.new K.image)
        (length K.image) (F.Fails file.old))) }
    ensures later { FailsWhere (F.Fails file.new) (F.Fails file.old) }
    ensures reference { T.reference taker.new ≡ T.reference taker.old }
    ensures place { T.place taker.new ≡ T.place taker.old }
{
    let look = noted_look::<S, K, F>(alloc, file, facts.takes_digests)?;
    let Look {
        len,
        digest,
        layout,
        others,
    } = look;
    let values = image_values(alloc, facts, len, digest)?;
    taker.take(Table::Image, &values)?;
    give_content::<S, K, F, T>(alloc, taker, file, layout, others, facts.takes_digests)
}

/// Gives a taker the rows of an image: its own, and for each volume in it, or in the user data of its raw CD sectors, that
/// volume's, with those of its items, or of what remains of them if it is refused; if there is no volume, those of the lost one.
/// At a fault, what was given is a beginning of them. This holds for every picked image consistent with the bytes read. Faults:
/// `ReadFailed`, and then the file is given up; `CannotWrite`; `NoMemory`.
#[tactic(auto, using(crate::proofs::FailingReads::picked_before))]
pub fn give_image<S: PlacedBytes + Drop, K: PickedImage, F: ImageFile<S, K>, T: RowTaker>(
    alloc: Global,
    taker: &mut T,
    file: &mut F,
    facts: &ImageFacts<'_>,
) -> Result<ImageCounts, CollectFault>
    ensures whole { OnOk result (F.Holds file.new K.image → T.given taker.new
        ≡ T.given taker.old ++ image_rows facts.now K.image) }
    ensures part { OnErr result (F.Holds file.new K.image → IsBeginning
        (T.given taker.new) (T.given taker.old ++ image_rows facts.now K.image)) }
    ensures counted { IfOk result (λ counts. F.Holds file.new K.image
        → counts ≡ image_counts K.image) }
    ensures fault { IfErr result (IsFaultOf (F.IsUnread file.new)) }
    ensures failed { IfErr result (IsFaultOf (SomeFailOf (F.Holds file.new K.image)
        (length K.image) (F.Fails file.old))) }
    ensures held { OfEach (F.Holds file.new) (F.Holds file.old) }
    ensures later { FailsWhere (F.Fails file.new) (F.Fails file.old) }
    ensures reference { T.reference taker.new ≡ T.reference taker.old }
    ensures place { T.place taker.new ≡ T.place taker.old }
{
    match give_rows::<S, K, F, T>(alloc, taker, file, facts) {
        Ok(counts) => Ok(counts),
        Err(CollectFault::ReadFailed) => {
            file.give_up();
            Err(CollectFault::ReadFailed)
        }
        Err(CollectFault::CannotWrite) => Err(CollectFault::CannotWrite),
        Err(CollectFault::NoMemory) => Err(CollectFault::NoMemory),
    }
}
