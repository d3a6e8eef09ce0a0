//! Putting an image's rows into the database.
ghost use Rattle.std.specs.Prelude.{◌≡◌, ◌++◌, false, length, IfErr, IfNone, IfOk, IfSome, OnErr};
ghost use Rattle.hfs_bag.specs.Failing.{SomeFailOf};
ghost use Rattle.hfs_word_collect.specs.Counts.{image_counts};
ghost use Rattle.hfs_word_collect.specs.Images.{image_rows};
ghost use Rattle.hfs_word_collect.specs.Faults.{IsFaultOf};
ghost use Rattle.hfs_word_collect.specs.Answers.{IsUnwritten};
ghost use Rattle.hfs_word_collect.specs.Collecting.{AreFirstRowsOf, AreRowsOf};
ghost use Rattle.hfs_database.specs.Refusals.{FailsToPut};
ghost use Rattle.hfs_database.specs.Taken.{IsBeginning};
ghost use Rattle.hfs_database.specs.Transactions.{LeavesAllOrNone, LeavesAsBefore, LeavesFile, PutsAllInOne};

use crate::collect_fault::RunFault;
use crate::{CollectFault, ImageCounts, ImageFacts, ImageFile, give_image};
use hfs_bag::PickedImage;
use hfs_database::{Collection, PutFault, RowSource, RowTaker};
use hfs_source::PlacedBytes;
use sqlite::Alter;
use std::alloc::Global;
use std::marker::PhantomData;

/// An image, as a source of its rows; what it gives holds for the picked image, if that is consistent with the bytes read.
#[derive(Drop)]
pub struct ImageRows<'a, S, K, F> {
    pub(crate) alloc: Global,
    pub(crate) file: F,
    pub(crate) facts: &'a ImageFacts<'a>,
    of: PhantomData<(S, K)>,
}

impl<'a, S: PlacedBytes + Drop, K: PickedImage, F: ImageFile<S, K>> ImageRows<'a, S, K, F> {
    /// The rows of a file's image.
    pub fn new(alloc: Global, file: F, facts: &'a ImageFacts<'a>) -> ImageRows<'a, S, K, F>
        ensures file { result.file ≡ file }
        ensures facts { result.facts.now ≡ facts.now }
    {
        ImageRows {
            alloc,
            file,
            facts,
            of: PhantomData,
        }
    }
}

impl<S: PlacedBytes + Drop, K: PickedImage, F: ImageFile<S, K>> RowSource
    for ImageRows<'_, S, K, F> {
    type Told = ImageCounts;

    type Fault = CollectFault;

    ghost Gives = { λ old new before after. F.Holds new.file K.image
        → after ≡ before ++ image_rows old.facts.now K.image };

    ghost Begins = { λ old new before after. F.Holds new.file K.image
        → IsBeginning after (before ++ image_rows old.facts.now K.image) };

    ghost Tells = { λ old new counts. F.Holds new.file K.image → counts ≡ image_counts K.image };

    ghost Fails = { λ old new. IsFaultOf (F.IsUnread new.file
        × SomeFailOf (F.Holds new.file K.image) (length K.image) (F.Fails old.file)) };

    #[tactic(auto, using(crate::proofs::FailingReads::both_told, crate::proofs::WrittenImages::either_begins))]
    fn give<T: RowTaker>(&mut self, taker: &mut T) -> Result<ImageCounts, CollectFault> {
        give_image::<S, K, F, T>(self.alloc, taker, &mut self.file, self.facts)
    }
}

/// Puts the rows of an image into the database, in place of those that it had for the same path, and returns how much the image
/// holds. None if it can't be opened or not be read as far as needed: then nothing has changed, and no transaction is open. At a
/// fault, the open database shows what it showed before; the file has all rows, or nothing in it has changed. Faults:
/// `CannotWrite` if the database doesn't begin a transaction, take a row of the image, commit or roll back; `NoMemory`.
#[tactic(auto, using(crate::proofs::WrittenImages::unwritten_database))]
pub fn collect_image<D: Alter + Drop, S: PlacedBytes + Drop, K: PickedImage, F: ImageFile<S, K>>(
    collection: &mut Collection<D>,
    rows: &mut ImageRows<'_, S, K, F>,
) -> Result<Option<ImageCounts>, RunFault>
    ensures put { IfOk result (λ found. IfSome found (λ _. PutsAllInOne D.Store
        (AreRowsOf (F.Holds rows.new.file) K.image rows.old.facts.now)
        collection.old.conn collection.new.conn)) }
    ensures counted { IfOk result (λ found. IfSome found (λ counts. F.Holds rows.new.file K.image
        → counts ≡ image_counts K.image)) }
    ensures unread { IfOk result (λ found. IfNone found (F.IsUnread rows.new.file)) }
    ensures failed { IfOk result (λ found. IfNone found (SomeFailOf
        (F.Holds rows.new.file K.image) (length K.image) (F.Fails rows.old.file))) }
    ensures left { IfOk result (λ found. IfNone found
        (LeavesFile D.Store collection.old.conn collection.new.conn)) }
    ensures ended { IfOk result (λ found. IfNone found
        (collection.new.conn.in_transaction ≡ false)) }
    ensures back { IfOk result (λ found. IfNone found
        (LeavesAsBefore D.Store collection.old.conn collection.new.conn)) }
    ensures undone { OnErr result
        (LeavesAsBefore D.Store collection.old.conn collection.new.conn) }
    ensures fault { IfErr result (IsUnwritten (FailsToPut D.Store
        (AreFirstRowsOf (F.Holds rows.new.file) K.image rows.old.facts.now)
        (AreRowsOf (F.Holds rows.new.file) K.image rows.old.facts.now)
        collection.old.conn collection.new.conn)) }
    ensures all_or_none { LeavesAllOrNone D.Store
        (AreRowsOf (F.Holds rows.new.file) K.image rows.old.facts.now)
        collection.old.conn collection.new.conn }
{
    match collection.put(rows) {
        Ok(counts) => Ok(Some(counts)),
        Err(PutFault::Database(fault)) => Err(RunFault::from(fault)),
        Err(PutFault::Source(CollectFault::ReadFailed)) => Ok(None),
        // No row was refused, so this is told as a lack of memory.
        Err(PutFault::Source(CollectFault::CannotWrite | CollectFault::NoMemory)) => Err(
            RunFault::NoMemory,
        ),
    }
}
