//! The row of a volume, and those of its items.
ghost use Rattle.std.specs.Prelude.{◌≡◌, ◌++◌, ◌∷◌, length, None, Some, IfErr, IfOk, OnErr, OnOk};
ghost use Rattle.hfs_model.specs.Children.{entries_of};
ghost use Rattle.hfs_check.specs.Faults.{fault_of};
ghost use Rattle.hfs_check.specs.VolumeOf.{volume_of};
ghost use Rattle.hfs_bag.specs.Parts.{content_of, LiesIn};
ghost use Rattle.hfs_source.specs.Ranges.{bytes_in, found_as, range_of};
ghost use Rattle.hfs_items.specs.ToldRows.{told_rows};
ghost use Rattle.hfs_database.specs.declared.value.Table.TheVariants as table;
ghost use Rattle.hfs_database.specs.Taken.{IsBeginning, row_of};
ghost use Rattle.hfs_source.specs.Images.{FailsWhere, OfEach};
ghost use Rattle.hfs_word_collect.specs.Counts.{file_total, lost_counts, range_counts, volume_counts};
ghost use Rattle.hfs_bag.specs.Failing.{SomeFail, SomeFailOf};
ghost use Rattle.hfs_word_collect.specs.Faults.{IsFaultOf};
ghost use Rattle.hfs_word_collect.specs.Items.{item_rows};
ghost use Rattle.hfs_word_collect.specs.Volumes.{lost_place, lost_rows, place_in, range_rows, volume_rows, volume_values};

use crate::counts::ImageCounts;
use crate::fault::CollectFault;
use crate::giving::give_items;
use crate::giving_remains::{give_refused, give_volume_row, give_where_found};
use crate::noted::sum_of;
use crate::places::{FoundVolume, VolumePlace};
use crate::source::ImageFile;
use hfs_bag::{ImagePart, PickedImage};
use hfs_database::RowTaker;
use hfs_fields::Mdb;
use hfs_image::SeenImage;
use hfs_remains_forks::look;
use hfs_source::{BlocksOf, ByteRange, FoundRange, Layout, PlacedBlocks, PlacedBytes, SeenBlocks};
use std::alloc::Global;

/// Gives the row of a sound volume and those of its items, and returns how many files are among them.
#[tactic(auto, using(crate::proofs::FailingReads::read_told_on))]
fn give_sound<S: PlacedBlocks + Drop, T: RowTaker>(
    alloc: Global,
    taker: &mut T,
    image: &mut SeenImage<S>,
    place: &VolumePlace,
    mdb: &Mdb,
    taken: bool,
) -> Result<u64, CollectFault>
    ensures whole { OnOk result (OfEach (S.Holds image.new) (λ bytes. T.given taker.new
        ≡ T.given taker.old ++ row_of table.Volume (volume_values place.now None (Some mdb.now))
        ∷ item_rows taken (entries_of (volume_of bytes)))) }
    ensures part { OnErr result (OfEach (S.Holds image.new) (λ bytes. IsBeginning
        (T.given taker.new) (T.given taker.old
        ++ row_of table.Volume (volume_values place.now None (Some mdb.now))
        ∷ item_rows taken (entries_of (volume_of bytes))))) }
    ensures counted { IfOk result (λ files. OfEach (S.Holds image.new) (λ bytes.
        files ≡ file_total (told_rows (entries_of (volume_of bytes))))) }
    ensures narrows { OfEach (S.Holds image.new) (S.Holds image.old) }
    ensures failed { IfErr result (IsFaultOf (SomeFail (S.Holds image.new) (S.Fails image.old))) }
    ensures later { FailsWhere (S.Fails image.new) (S.Fails image.old) }
    ensures reference { T.reference taker.new ≡ T.reference taker.old }
    ensures place { T.place taker.new ≡ T.place taker.old }
{
    let directory = Some(*mdb);
    give_volume_row(alloc, taker, place, None, &directory)?;
    give_items(alloc, taker, image, taken)
}

/// Gives the row of the volume in a range of an image, and those of its items, or of what remains of them if it is refused.
/// Returns how much that is.
#[tactic(auto, using(crate::proofs::FailingReads::unopened_fault))]
fn give_volume<S: PlacedBytes + Drop, K: PickedImage, F: ImageFile<S, K>, T: RowTaker>(
    alloc: Global,
    taker: &mut T,
    file: &mut F,
    layout: Layout,
    place: &VolumePlace,
    taken: bool,
) -> Result<ImageCounts, CollectFault>
    ensures whole { OnOk result (F.Holds file.new K.image → T.given taker.new ≡ T.given taker.old
        ++ volume_rows taken place.now (bytes_in place.now.range (content_of layout K.image))) }
    ensures part { OnErr result (F.Holds file.new K.image → IsBeginning (T.given taker.new)
        (T.given taker.old
        ++ volume_rows taken place.now (bytes_in place.now.range (content_of layout K.image)))) }
    ensures counted { IfOk result (λ counts. F.Holds file.new K.image
        → counts ≡ volume_counts (bytes_in place.now.range (content_of layout K.image))) }
    ensures held { OfEach (F.Holds file.new) (F.Holds file.old) }
    ensures failed { IfErr result (IsFaultOf (SomeFailOf (F.Holds file.new K.image
        × LiesIn place.now.range (content_of layout K.image))
        (length K.image) (F.Fails file.old))) }
    ensures later { FailsWhere (F.Fails file.new) (F.Fails file.old) }
    ensures reference { T.reference taker.new ≡ T.reference taker.old }
    ensures place { T.place taker.new ≡ T.place taker.old }
{
    let source = file.open()?;
    let Some(bytes) = ImagePart::<S, K>::range(source, layout, place.range) else {
        return Err(CollectFault::ReadFailed);
    };
    let blocks = BlocksOf { bytes };
    match look(alloc, SeenBlocks { blocks })? {
        Ok(mut image) => {
            let mdb = image.volume().sound.mdb;
            let given = give_sound(alloc, taker, &mut image, place, &mdb, taken);
            file.note_volume(&image);
            match given {
                Ok(files) => Ok(ImageCounts::sound(files)),
                Err(fault) => Err(fault),
            }
        }
        Err(mut image) => {
            let given = give_refused(alloc, taker, &mut image, place, taken);
            file.note(image.source.blocks.bytes.source());
            given
        }
    }
}

/// What was found in an image, as it lies in its own range.
fn alone(found: &FoundRange) -> FoundRange
    ensures { result ≡ found_as found.now.container (range_of 0 found.now.range.len) }
{
    FoundRange {
        container: found.container,
        range: ByteRange {
            start: 0,
            len: found.range.len,
        },
    }
}

/// Where a volume that was found in an image lies. All bytes of a disk copy are read, to say whether its sum is right.
fn place_in<S: PlacedBytes + Drop, K: PickedImage, F: ImageFile<S, K>>(
    file: &mut F,
    layout: Layout,
    volume: FoundVolume,
) -> Result<VolumePlace, CollectFault>
    ensures place { IfOk result (λ place. F.Holds file.new K.image
        → place ≡ place_in volume.others volume.number volume.found
        (content_of layout K.image)) }
    ensures range { IfOk result (λ place. place.range ≡ volume.found.range) }
    ensures held { OfEach (F.Holds file.new) (F.Holds file.old) }
    ensures failed { IfErr result (IsFaultOf (SomeFailOf (F.Holds file.new K.image
        × LiesIn volume.found.range (content_of layout K.image))
        (length K.image) (F.Fails file.old))) }
    ensures later { FailsWhere (F.Fails file.new) (F.Fails file.old) }
{
    let source = file.open()?;
    let Some(part) = ImagePart::<S, K>::range(source, layout, volume.found.range) else {
        return Err(CollectFault::ReadFailed);
    };
    let (part, sum) = sum_of(part, &alone(&volume.found));
    file.note(part.source());
    match sum {
        Ok(sum) => Ok(VolumePlace::of(volume.others, volume.number, &volume.found, sum)),
        Err(fault) => Err(CollectFault::from(fault)),
    }
}

/// Gives the row of the volume in a range of an image, with this number, and those of its items, or of what remains of them if it
/// is refused. Returns how much that is.
#[tactic(auto, using(crate::proofs::FailingReads::picked_told_on, crate::proofs::FailingReads::picked_handed_on))]
pub(crate) fn give_range<S: PlacedBytes + Drop, K: PickedImage, F: ImageFile<S, K>, T: RowTaker>(
    alloc: Global,
    taker: &mut T,
    file: &mut F,
    layout: Layout,
    volume: FoundVolume,
    taken: bool,
) -> Result<ImageCounts, CollectFault>
    ensures whole { OnOk result (F.Holds file.new K.image → T.given taker.new ≡ T.given taker.old
        ++ range_rows taken volume.others volume.number volume.found
        (content_of layout K.image)) }
    ensures part { OnErr result (F.Holds file.new K.image → IsBeginning (T.given taker.new)
        (T.given taker.old
        ++ range_rows taken volume.others volume.number volume.found
        (content_of layout K.image))) }
    ensures counted { IfOk result (λ counts. F.Holds file.new K.image
        → counts ≡ range_counts volume.found (content_of layout K.image)) }
    ensures held { OfEach (F.Holds file.new) (F.Holds file.old) }
    ensures failed { IfErr result (IsFaultOf (SomeFailOf (F.Holds file.new K.image
        × LiesIn volume.found.range (content_of layout K.image))
        (length K.image) (F.Fails file.old))) }
    ensures later { FailsWhere (F.Fails file.new) (F.Fails file.old) }
    ensures reference { T.reference taker.new ≡ T.reference taker.old }
    ensures place { T.place taker.new ≡ T.place taker.old }
{
    let place = place_in::<S, K, F>(file, layout, volume)?;
    let counts = give_volume::<S, K, F, T>(alloc, taker, file, layout, &place, taken)?;
    Ok(counts.lying(place.way))
}

/// Gives the row of the volume that is lost in an image, and those of what remains of it, if it has a directory; otherwise no
/// row. Returns how much that is.
#[tactic(auto, using(crate::proofs::FailingReads::unopened_fault))]
pub(crate) fn give_lost<S: PlacedBytes + Drop, K: PickedImage, F: ImageFile<S, K>, T: RowTaker>(
    alloc: Global,
    taker: &mut T,
    file: &mut F,
    layout: Layout,
    others: u64,
    taken: bool,
) -> Result<ImageCounts, CollectFault>
    ensures whole { OnOk result (F.Holds file.new K.image → T.given taker.new ≡ T.given taker.old
        ++ lost_rows taken (lost_place others (length (content_of layout K.image)))
        (fault_of (content_of layout K.image)) (content_of layout K.image)) }
    ensures part { OnErr result (F.Holds file.new K.image → IsBeginning (T.given taker.new)
        (T.given taker.old
        ++ lost_rows taken (lost_place others (length (content_of layout K.image)))
        (fault_of (content_of layout K.image)) (content_of layout K.image))) }
    ensures counted { IfOk result (λ counts. F.Holds file.new K.image
        → counts ≡ lost_counts (fault_of (content_of layout K.image)) (content_of layout K.image)) }
    ensures held { OfEach (F.Holds file.new) (F.Holds file.old) }
    ensures failed { IfErr result (IsFaultOf (SomeFailOf (F.Holds file.new K.image)
        (length K.image) (F.Fails file.old))) }
    ensures later { FailsWhere (F.Fails file.new) (F.Fails file.old) }
    ensures reference { T.reference taker.new ≡ T.reference taker.old }
    ensures place { T.place taker.new ≡ T.place taker.old }
{
    let source = file.open()?;
    let Some(bytes) = ImagePart::<S, K>::whole(source, layout) else {
        return Err(CollectFault::ReadFailed);
    };
    let place = VolumePlace::lost(others, bytes.len());
    let blocks = BlocksOf { bytes };
    match look(alloc, SeenBlocks { blocks })? {
        Ok(image) => {
            file.note_volume(&image);
            Ok(ImageCounts::none())
        }
        Err(mut image) => {
            let given = give_where_found(alloc, taker, &mut image, &place, taken);
            file.note(image.source.blocks.bytes.source());
            given
        }
    }
}
