//! The rows of a refused volume, and of what remains of it.
ghost use Rattle.std.specs.Prelude.{◌≡◌, ◌++◌, ◌*◌, [], ◌∷◌, Some, IfErr, IfOk, IfSome, OnErr, OnOk};
ghost use Rattle.hfs_bag.specs.Failing.{SomeFail};
ghost use Rattle.hfs_source.specs.Images.{FailsWhere, OfEach};
ghost use Rattle.hfs_word_collect.specs.Faults.{IsFaultOf};
ghost use Rattle.hfs_rescue_items.specs.Found.{told};
ghost use Rattle.hfs_database.specs.declared.value.Table.TheVariants as table;
ghost use Rattle.hfs_database.specs.Taken.{IsBeginning, row_of};
ghost use Rattle.hfs_word_collect.specs.Counts.{counts_by_directory, fault_counts, files_by, remains_files, remains_files_from};
ghost use Rattle.hfs_word_collect.specs.Refused.{IsFoundOf, image_of, rows_found};
ghost use Rattle.hfs_word_collect.specs.Remains.{remains_row, remains_rows_by, remains_rows_from};
ghost use Rattle.hfs_word_collect.specs.Volumes.{fault_rows, rows_by_directory, volume_values};
ghost use Rattle.hfs_remains_forks.specs.Finds.{found_directory};
ghost use Rattle.hfs_remains_forks.specs.Looks.{IsRefusedAs};

use crate::counts::{FileCounts, ImageCounts};
use crate::fault::CollectFault;
use crate::places::VolumePlace;
use crate::telling::told_item;
use crate::volumes::volume_values;
use hfs_check::MountFault;
use hfs_database::{RowTaker, Table};
use hfs_fields::Mdb;
use hfs_remains::FoundRecord;
use hfs_remains_forks::{Finds, RefusedImage, salvage_of, usual_limit};
use hfs_rescue_items::{Found, told_of};
use hfs_source::{PlacedBlocks, SeenBlocks};
use std::alloc::Global;

/// Gives the row of a volume.
#[tactic(auto, using(hfs_database::proofs::GivenLemmas::begins_itself, hfs_database::proofs::GivenLemmas::begins_with, crate::proofs::FailingReads::fault_by_memory, crate::proofs::FailingReads::fault_by_taker))]
pub(crate) fn give_volume_row<T: RowTaker>(
    alloc: Global,
    taker: &mut T,
    place: &VolumePlace,
    fault: Option<MountFault>,
    directory: &Option<Mdb>,
) -> Result<(), CollectFault>
    ensures whole { OnOk result (T.given taker.new ≡ T.given taker.old
        ++ row_of table.Volume (volume_values place.now fault directory.now) ∷ []) }
    ensures part { OnErr result (IsBeginning (T.given taker.new) (T.given taker.old
        ++ row_of table.Volume (volume_values place.now fault directory.now) ∷ [])) }
    ensures failed { IfErr result (IsFaultOf ⊥) }
    ensures reference { T.reference taker.new ≡ T.reference taker.old }
    ensures place { T.place taker.new ≡ T.place taker.old }
{
    let values = volume_values(alloc, place, fault, directory)?;
    taker.take(Table::Volume, &values)?;
    Ok(())
}

/// Gives the row of an item that remains, with this number, and returns whether it is a file, and whether it is whole.
#[tactic(auto, using(crate::proofs::RemainsGoing::none_told, crate::proofs::RemainsGoing::row_told, crate::proofs::Counting::none_counted, crate::proofs::Counting::row_counted, crate::proofs::FailingReads::read_handed_on, crate::proofs::FailingReads::fault_by_taker))]
fn give_remaining_item<S: PlacedBlocks + Drop, T: RowTaker>(
    alloc: Global,
    taker: &mut T,
    source: &mut SeenBlocks<S>,
    found: &Found<'_>,
    i: usize,
    item: &FoundRecord,
    taken: bool,
) -> Result<FileCounts, CollectFault>
    ensures whole { OnOk result (OfEach (S.Holds source.new.blocks) (λ image. T.given taker.new
        ≡ T.given taker.old ++ remains_row taken (image_of found.now image) i (told item.now))) }
    ensures counted { IfOk result (λ more. OfEach (S.Holds source.new.blocks) (λ image. more
        ≡ remains_files (image_of found.now image) i (told item.now))) }
    ensures part { OnErr result (OfEach (S.Holds source.new.blocks) (λ image. IsBeginning
        (T.given taker.new) (T.given taker.old
        ++ remains_row taken (image_of found.now image) i (told item.now)))) }
    ensures narrows { OfEach (S.Holds source.new.blocks) (S.Holds source.old.blocks) }
    ensures failed { IfErr result (IsFaultOf (SomeFail (S.Holds source.new.blocks)
        (S.Fails source.old.blocks))) }
    ensures later { FailsWhere (S.Fails source.new.blocks) (S.Fails source.old.blocks) }
    ensures reference { T.reference taker.new ≡ T.reference taker.old }
    ensures place { T.place taker.new ≡ T.place taker.old }
{
    let Some(info) = told_of(item) else {
        return Ok(FileCounts::none());
    };
    let told = told_item(alloc, source, found, i, &info, taken)?;
    taker.take(Table::Item, &told.values)?;
    Ok(told.counts)
}

/// Gives the rows of items that remain, with numbers from 0 on, and returns how many files are among them.
#[tactic(auto, using(crate::proofs::FailingReads::read_handed_on))]
fn give_remaining<S: PlacedBlocks + Drop, T: RowTaker>(
    alloc: Global,
    taker: &mut T,
    source: &mut SeenBlocks<S>,
    found: &Found<'_>,
    items: &[FoundRecord],
    taken: bool,
) -> Result<FileCounts, CollectFault>
    ensures whole { OnOk result (OfEach (S.Holds source.new.blocks) (λ image. T.given taker.new
        ≡ T.given taker.old ++ remains_rows_from taken (image_of found.now image) 0 items.now)) }
    ensures part { OnErr result (OfEach (S.Holds source.new.blocks) (λ image. IsBeginning
        (T.given taker.new) (T.given taker.old
        ++ remains_rows_from taken (image_of found.now image) 0 items.now))) }
    ensures counted { IfOk result (λ counts. OfEach (S.Holds source.new.blocks) (λ image. counts
        ≡ remains_files_from (image_of found.now image) 0 items.now)) }
    ensures narrows { OfEach (S.Holds source.new.blocks) (S.Holds source.old.blocks) }
    ensures failed { IfErr result (IsFaultOf (SomeFail (S.Holds source.new.blocks)
        (S.Fails source.old.blocks))) }
    ensures later { FailsWhere (S.Fails source.new.blocks) (S.Fails source.old.blocks) }
    ensures reference { T.reference taker.new ≡ T.reference taker.old }
    ensures place { T.place taker.new ≡ T.place taker.old }
{
    let mut counts = FileCounts::none();
    for i in 0..items.len() {
        let more = give_remaining_item(alloc, taker, source, found, i, &items[i], taken)?;
        let Some(sum) = counts.with(more) else {
            return Err(CollectFault::NoMemory);
        };
        counts = sum;
    }
    Ok(counts)
}

/// Gives the rows of what was found of a volume, and returns how many files are among them. At most `limit` bytes are taken of
/// all forks.
#[tactic(auto, using(crate::proofs::FailingReads::read_told_on, crate::proofs::FailingReads::fault_by_memory))]
fn give_remains<S: PlacedBlocks + Drop, T: RowTaker>(
    alloc: Global,
    taker: &mut T,
    source: &mut SeenBlocks<S>,
    finds: &Finds,
    limit: u64,
    taken: bool,
) -> Result<FileCounts, CollectFault>
    ensures whole { OnOk result (OfEach (S.Holds source.new.blocks) (λ image.
        IsFoundOf finds.now limit image → T.given taker.new
        ≡ T.given taker.old ++ remains_rows_by taken image (Some finds.now.mdb))) }
    ensures part { OnErr result (OfEach (S.Holds source.new.blocks) (λ image.
        IsFoundOf finds.now limit image → IsBeginning (T.given taker.new)
        (T.given taker.old ++ remains_rows_by taken image (Some finds.now.mdb)))) }
    ensures counted { IfOk result (λ counts. OfEach (S.Holds source.new.blocks) (λ image.
        IsFoundOf finds.now limit image → counts ≡ files_by image (Some finds.now.mdb))) }
    ensures narrows { OfEach (S.Holds source.new.blocks) (S.Holds source.old.blocks) }
    ensures failed { IfErr result (IsFaultOf (SomeFail (S.Holds source.new.blocks)
        (S.Fails source.old.blocks))) }
    ensures later { FailsWhere (S.Fails source.new.blocks) (S.Fails source.old.blocks) }
    ensures reference { T.reference taker.new ≡ T.reference taker.old }
    ensures place { T.place taker.new ≡ T.place taker.old }
{
    let salvage = salvage_of(alloc, finds, limit)?;
    let found = Found {
        mdb: &finds.mdb,
        items: &finds.items,
        places: &finds.places,
        salvage: &salvage,
    };
    give_remaining(alloc, taker, source, &found, &finds.items, taken)
}

/// What is known of a refused volume of which something was found.
#[derive(Drop)]
struct FoundRemains<'a> {
    /// Why it is refused.
    why: MountFault,
    finds: &'a Finds,
    /// How many bytes may be taken of all forks.
    limit: u64,
}

/// Gives the row of a refused volume of which something was found, and those of what remains of it, and returns how many files
/// are among the latter.
#[tactic(auto, using(crate::proofs::FailingReads::read_told_on, crate::proofs::FailingReads::fault_means))]
fn give_found<S: PlacedBlocks + Drop, T: RowTaker>(
    alloc: Global,
    taker: &mut T,
    source: &mut SeenBlocks<S>,
    place: &VolumePlace,
    remains: &FoundRemains<'_>,
    taken: bool,
) -> Result<FileCounts, CollectFault>
    ensures whole { OnOk result (OfEach (S.Holds source.new.blocks) (λ image.
        IsFoundOf remains.now.finds.now remains.now.limit image → T.given taker.new
        ≡ T.given taker.old ++ rows_found taken place.now remains.now.why
        remains.now.finds.now image)) }
    ensures part { OnErr result (OfEach (S.Holds source.new.blocks) (λ image.
        IsFoundOf remains.now.finds.now remains.now.limit image → IsBeginning (T.given taker.new)
        (T.given taker.old ++ rows_found taken place.now remains.now.why
        remains.now.finds.now image))) }
    ensures counted { IfOk result (λ counts. OfEach (S.Holds source.new.blocks) (λ image.
        IsFoundOf remains.now.finds.now remains.now.limit image → counts ≡ files_by image (Some remains.now.finds.now.mdb))) }
    ensures narrows { OfEach (S.Holds source.new.blocks) (S.Holds source.old.blocks) }
    ensures failed { IfErr result (IsFaultOf (SomeFail (S.Holds source.new.blocks)
        (S.Fails source.old.blocks))) }
    ensures later { FailsWhere (S.Fails source.new.blocks) (S.Fails source.old.blocks) }
    ensures reference { T.reference taker.new ≡ T.reference taker.old }
    ensures place { T.place taker.new ≡ T.place taker.old }
{
    let directory = Some(remains.finds.mdb);
    give_volume_row(alloc, taker, place, Some(remains.why), &directory)?;
    give_remains(alloc, taker, source, remains.finds, remains.limit, taken)
}

/// How many bytes are taken of a refused image's forks by default: none if nothing is found of it.
fn limit_of<S: PlacedBlocks>(image: &RefusedImage<S>) -> u64
    ensures { IfSome image.now.found (λ _. result ≡ 4 * image.now.len) }
{
    match &image.found {
        Some(_) => usual_limit(image.len as u32),
        None => 0,
    }
}

/// Gives the row of a volume that is refused, and those of what remains of it, and returns how much that is.
pub(crate) fn give_refused<S: PlacedBlocks + Drop, T: RowTaker>(
    alloc: Global,
    taker: &mut T,
    image: &mut RefusedImage<S>,
    place: &VolumePlace,
    taken: bool,
) -> Result<ImageCounts, CollectFault>
    requires { IsRefusedAs (S.Holds image.old.source.blocks) image.old.len image.old.why image.old.found }
    ensures whole { OnOk result (OfEach (S.Holds image.new.source.blocks) (λ bytes.
        T.given taker.new ≡ T.given taker.old
        ++ fault_rows taken place.now (Some image.old.why) bytes)) }
    ensures part { OnErr result (OfEach (S.Holds image.new.source.blocks) (λ bytes.
        IsBeginning (T.given taker.new) (T.given taker.old
        ++ fault_rows taken place.now (Some image.old.why) bytes))) }
    ensures counted { IfOk result (λ counts. OfEach (S.Holds image.new.source.blocks)
        (λ bytes. counts ≡ fault_counts (Some image.old.why) bytes)) }
    ensures narrows { OfEach (S.Holds image.new.source.blocks) (S.Holds image.old.source.blocks) }
    ensures failed { IfErr result (IsFaultOf (SomeFail (S.Holds image.new.source.blocks)
        (S.Fails image.old.source.blocks))) }
    ensures later { FailsWhere (S.Fails image.new.source.blocks) (S.Fails image.old.source.blocks) }
    ensures reference { T.reference taker.new ≡ T.reference taker.old }
    ensures place { T.place taker.new ≡ T.place taker.old }
{
    let limit = limit_of(image);
    let why = image.why;
    let (source, found) = (&mut image.source, &image.found);
    match found {
        Some(finds) => {
            let remains = FoundRemains { why, finds, limit };
            let counts = give_found(alloc, taker, source, place, &remains, taken)?;
            Ok(ImageCounts::refused(counts))
        }
        None => {
            give_volume_row(alloc, taker, place, Some(why), &None)?;
            Ok(ImageCounts::refused(FileCounts::none()))
        }
    }
}

/// Gives the row of a volume that is refused, and those of what remains of it, if it has a directory; otherwise no row. Returns
/// how much that is.
pub(crate) fn give_where_found<S: PlacedBlocks + Drop, T: RowTaker>(
    alloc: Global,
    taker: &mut T,
    image: &mut RefusedImage<S>,
    place: &VolumePlace,
    taken: bool,
) -> Result<ImageCounts, CollectFault>
    requires { IsRefusedAs (S.Holds image.old.source.blocks) image.old.len image.old.why image.old.found }
    ensures whole { OnOk result (OfEach (S.Holds image.new.source.blocks) (λ bytes.
        T.given taker.new ≡ T.given taker.old
        ++ rows_by_directory taken place.now image.old.why (found_directory bytes) bytes)) }
    ensures part { OnErr result (OfEach (S.Holds image.new.source.blocks) (λ bytes.
        IsBeginning (T.given taker.new) (T.given taker.old
        ++ rows_by_directory taken place.now image.old.why (found_directory bytes) bytes))) }
    ensures counted { IfOk result (λ counts. OfEach (S.Holds image.new.source.blocks)
        (λ bytes. counts ≡ counts_by_directory (found_directory bytes) bytes)) }
    ensures narrows { OfEach (S.Holds image.new.source.blocks) (S.Holds image.old.source.blocks) }
    ensures failed { IfErr result (IsFaultOf (SomeFail (S.Holds image.new.source.blocks)
        (S.Fails image.old.source.blocks))) }
    ensures later { FailsWhere (S.Fails image.new.source.blocks) (S.Fails image.old.source.blocks) }
    ensures reference { T.reference taker.new ≡ T.reference taker.old }
    ensures place { T.place taker.new ≡ T.place taker.old }
{
    let limit = limit_of(image);
    let why = image.why;
    let (source, found) = (&mut image.source, &image.found);
    match found {
        Some(finds) => {
            let remains = FoundRemains { why, finds, limit };
            let counts = give_found(alloc, taker, source, place, &remains, taken)?;
            Ok(ImageCounts::refused(counts))
        }
        None => Ok(ImageCounts::none()),
    }
}
