//! An image's rows as text.
ghost use Rattle.std.specs.Prelude.{◌≡◌, ◌++◌, length, IfErr, IfNone, IfOk, IfSome, OnErr, ⊤};
ghost use Rattle.hfs_bag.specs.Failing.{SomeFailOf};
ghost use Rattle.hfs_word_collect.specs.Answers.{IsUnwritten};
ghost use Rattle.hfs_word_collect.specs.Counts.{image_counts};
ghost use Rattle.hfs_word_collect.specs.Images.{image_rows};
ghost use Rattle.hfs_word_collect.specs.Writing.{WritesPart, WritesSome, WritesWhole};

use crate::collect_fault::RunFault;
use crate::collecting::ImageRows;
use crate::{ImageCounts, ImageFile, give_image};
use hfs_bag::PickedImage;
use hfs_database::TextTaker;
use hfs_source::PlacedBytes;
use std::io::Write;

/// Writes the rows of an image, and its end, and returns how much the image holds if all of them came. None if they didn't,
/// because the image can't be opened, or not be read as far as needed. At a fault, a beginning of this was written. Faults:
/// `CannotWrite` of the writer, `NoMemory`.
#[tactic(auto, using(crate::proofs::WrittenImages::unread_by, crate::proofs::WrittenImages::unwritten_taker, crate::proofs::WrittenImages::unwritten_image))]
pub fn write_image<W: Write + Drop, S: PlacedBytes + Drop, K: PickedImage, F: ImageFile<S, K>>(
    taker: &mut TextTaker<W>,
    rows: &mut ImageRows<'_, S, K, F>,
) -> Result<Option<ImageCounts>, RunFault>
    ensures whole { IfOk result (λ counts. IfSome counts (λ _. F.Holds rows.new.file K.image →
        WritesWhole (W.contents taker.old.start.value) (W.contents taker.new.writer)
        taker.old.form (taker.old.given.rows ++ image_rows rows.old.facts.now K.image))) }
    ensures counted { IfOk result (λ counts. IfSome counts (λ told. F.Holds rows.new.file K.image
        → told ≡ image_counts K.image)) }
    ensures unread { IfOk result (λ counts. IfNone counts (F.IsUnread rows.new.file)) }
    ensures failed { IfOk result (λ counts. IfNone counts (SomeFailOf
        (F.Holds rows.new.file K.image) (length K.image) (F.Fails rows.old.file))) }
    ensures some { IfOk result (λ counts. IfNone counts (F.Holds rows.new.file K.image →
        WritesSome (W.contents taker.old.start.value) (W.contents taker.new.writer)
        taker.old.form (taker.old.given.rows ++ image_rows rows.old.facts.now K.image))) }
    ensures part { OnErr result (F.Holds rows.new.file K.image →
        WritesPart (W.contents taker.old.start.value) (W.contents taker.new.writer)
        taker.old.form (taker.old.given.rows ++ image_rows rows.old.facts.now K.image)) }
    ensures fault { IfErr result (IsUnwritten ⊤) }
{
    match give_image::<S, K, F, TextTaker<W>>(rows.alloc, taker, &mut rows.file, rows.facts) {
        Ok(counts) => {
            taker.end(true)?;
            Ok(Some(counts))
        }
        Err(fault) => {
            let ended = taker.end(false);
            match RunFault::of_image(fault) {
                Some(fault) => Err(fault),
                None => {
                    ended?;
                    Ok(None)
                }
            }
        }
    }
}
