//! The rows of the volumes in an image.
ghost use Rattle.std.specs.Prelude.{◌≡◌, ◌++◌, length, IfErr, IfOk, OnErr, OnOk};
ghost use Rattle.hfs_bag.specs.Failing.{SomeFailOf};
ghost use Rattle.hfs_source.specs.Found.{found_by};
ghost use Rattle.hfs_bag.specs.Parts.{content_of, LieIn};
ghost use Rattle.hfs_database.specs.Taken.{IsBeginning};
ghost use Rattle.hfs_source.specs.Images.{FailsWhere, OfEach};
ghost use Rattle.hfs_word_collect.specs.Faults.{IsFaultOf};
ghost use Rattle.hfs_word_collect.specs.Counts.{all_volume_counts, volume_counts_from};
ghost use Rattle.hfs_word_collect.specs.Volumes.{all_volume_rows, volume_rows_from};

use crate::counts::ImageCounts;
use crate::fault::CollectFault;
use crate::giving_volumes::{give_lost, give_range};
use crate::places::FoundVolume;
use crate::source::ImageFile;
use hfs_bag::{ImagePart, PickedImage, find_contents};
use hfs_database::RowTaker;
use hfs_source::{FoundRange, Layout, PlacedBytes};
use std::alloc::Global;

/// Gives the rows of the volumes in these ranges of an image, with numbers from 1 on.
fn give_volumes<S: PlacedBytes + Drop, K: PickedImage, F: ImageFile<S, K>, T: RowTaker>(
    alloc: Global,
    taker: &mut T,
    file: &mut F,
    layout: Layout,
    others: u64,
    ranges: &[FoundRange],
    taken: bool,
) -> Result<ImageCounts, CollectFault>
    ensures whole { OnOk result (F.Holds file.new K.image → T.given taker.new ≡ T.given taker.old
        ++ volume_rows_from taken others 1 ranges.now (content_of layout K.image)) }
    ensures part { OnErr result (F.Holds file.new K.image → IsBeginning (T.given taker.new)
        (T.given taker.old
        ++ volume_rows_from taken others 1 ranges.now (content_of layout K.image))) }
    ensures counted { IfOk result (λ counts. F.Holds file.new K.image
        → counts ≡ volume_counts_from ranges.now (content_of layout K.image)) }
    ensures held { OfEach (F.Holds file.new) (F.Holds file.old) }
    ensures failed { IfErr result (IsFaultOf (SomeFailOf (F.Holds file.new K.image
        × LieIn ranges.now (content_of layout K.image)) (length K.image) (F.Fails file.old))) }
    ensures later { FailsWhere (F.Fails file.new) (F.Fails file.old) }
    ensures reference { T.reference taker.new ≡ T.reference taker.old }
    ensures place { T.place taker.new ≡ T.place taker.old }
{
    let mut counts = ImageCounts::none();
    for i in 0..ranges.len() {
        let volume = FoundVolume {
            number: i as u64 + 1,
            others,
            found: ranges[i],
        };
        let more = give_range::<S, K, F, T>(alloc, taker, file, layout, volume, taken)?;
        let Some(sum) = counts.with(more) else {
            return Err(CollectFault::NoMemory);
        };
        counts = sum;
    }
    Ok(counts)
}

/// Gives the rows of the volumes in these ranges of an image, or of the lost one if there are none.
fn give_all<S: PlacedBytes + Drop, K: PickedImage, F: ImageFile<S, K>, T: RowTaker>(
    alloc: Global,
    taker: &mut T,
    file: &mut F,
    layout: Layout,
    others: u64,
    ranges: &[FoundRange],
    taken: bool,
) -> Result<ImageCounts, CollectFault>
    ensures whole { OnOk result (F.Holds file.new K.image → T.given taker.new ≡ T.given taker.old
        ++ all_volume_rows taken others ranges.now (content_of layout K.image)) }
    ensures part { OnErr result (F.Holds file.new K.image → IsBeginning (T.given taker.new)
        (T.given taker.old
        ++ all_volume_rows taken others ranges.now (content_of layout K.image))) }
    ensures counted { IfOk result (λ counts. F.Holds file.new K.image
        → counts ≡ all_volume_counts ranges.now (content_of layout K.image)) }
    ensures held { OfEach (F.Holds file.new) (F.Holds file.old) }
    ensures failed { IfErr result (IsFaultOf (SomeFailOf (F.Holds file.new K.image
        × LieIn ranges.now (content_of layout K.image)) (length K.image) (F.Fails file.old))) }
    ensures later { FailsWhere (F.Fails file.new) (F.Fails file.old) }
    ensures reference { T.reference taker.new ≡ T.reference taker.old }
    ensures place { T.place taker.new ≡ T.place taker.old }
{
    match ranges {
        [] => give_lost::<S, K, F, T>(alloc, taker, file, layout, others, taken),
        [_, ..] => give_volumes::<S, K, F, T>(alloc, taker, file, layout, others, ranges, taken),
    }
}

/// The ranges of an image in which volumes lie, from a noted opening of it.
#[tactic(auto, using(crate::proofs::FailingReads::unopened_fault))]
fn find_ranges<S: PlacedBytes + Drop, K: PickedImage, F: ImageFile<S, K>>(
    alloc: Global,
    file: &mut F,
    layout: Layout,
) -> Result<Vec<FoundRange>, CollectFault>
    ensures found { IfOk result (λ ranges. F.Holds file.new K.image
        → ranges.items ≡ found_by layout (content_of layout K.image)) }
    ensures held { OfEach (F.Holds file.new) (F.Holds file.old) }
    ensures failed { IfErr result (IsFaultOf (SomeFailOf (F.Holds file.new K.image)
        (length K.image) (F.Fails file.old))) }
    ensures later { FailsWhere (F.Fails file.new) (F.Fails file.old) }
{
    let source = file.open()?;
    let Some(mut part) = ImagePart::<S, K>::whole(source, layout) else {
        return Err(CollectFault::ReadFailed);
    };
    let ranges = find_contents(alloc, &mut part, layout);
    file.note(part.source());
    match ranges {
        Ok(ranges) => Ok(ranges),
        Err(fault) => Err(CollectFault::from(fault)),
    }
}

/// Gives the rows of the volumes in an image, or in the user data of its raw sectors, or of the lost one if there are none.
/// Returns how much that is.
#[tactic(auto, using(crate::proofs::FailingReads::picked_handed_on))]
pub(crate) fn give_content<S: PlacedBytes + Drop, K: PickedImage, F: ImageFile<S, K>, T: RowTaker>(
    alloc: Global,
    taker: &mut T,
    file: &mut F,
    layout: Layout,
    others: u64,
    taken: bool,
) -> Result<ImageCounts, CollectFault>
    ensures whole { OnOk result (F.Holds file.new K.image → T.given taker.new ≡ T.given taker.old
        ++ all_volume_rows taken others (found_by layout (content_of layout K.image))
        (content_of layout K.image)) }
    ensures part { OnErr result (F.Holds file.new K.image → IsBeginning (T.given taker.new)
        (T.given taker.old ++ all_volume_rows taken others
        (found_by layout (content_of layout K.image)) (content_of layout K.image))) }
    ensures counted { IfOk result (λ counts. F.Holds file.new K.image → counts
        ≡ all_volume_counts (found_by layout (content_of layout K.image))
        (content_of layout K.image)) }
    ensures held { OfEach (F.Holds file.new) (F.Holds file.old) }
    ensures failed { IfErr result (IsFaultOf (SomeFailOf (F.Holds file.new K.image)
        (length K.image) (F.Fails file.old))) }
    ensures later { FailsWhere (F.Fails file.new) (F.Fails file.old) }
    ensures reference { T.reference taker.new ≡ T.reference taker.old }
    ensures place { T.place taker.new ≡ T.place taker.old }
{
    let ranges = find_ranges::<S, K, F>(alloc, file, layout)?;
    give_all::<S, K, F, T>(alloc, taker, file, layout, others, &ranges, taken)
}
