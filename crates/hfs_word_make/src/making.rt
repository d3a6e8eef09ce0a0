//! A new volume is made of files and folders.
ghost use Rattle.std.specs.Prelude.{◌≡◌, ◌/◌, ◌<◌, ◌≤◌, ◌^◌, IfErr, IfOk, OnOk, length};
ghost use Rattle.hfs_blocks.specs.Layers.{changes, AreWithin};
ghost use Rattle.hfs_format.specs.Image.{image_bytes};
ghost use Rattle.hfs_put.specs.Files.{IsReadOf};
ghost use Rattle.hfs_put_sources.specs.Trees.{OfEachTree};
ghost use Rattle.hfs_word_make.specs.Made.{IsMadeFile, IsMadeOf, IsUnmade, IsUnmadeList, own_place};

use crate::filling::{FilledImage, filled_image};
use crate::listing::list_all_new;
use crate::naming::{made_name, made_size};
use crate::new_items;
use crate::order::MakeOrder;
use crate::settled_image::SettledImage;
use hfs_commands::ByteRange;
use hfs_format::{NewImage, NewItem, NewVolume, VolumeName, VolumeSize};
use hfs_put::HostFiles;
use hfs_put_sources::HostTree;
use hfs_source::PlacedBytes;
use hfs_volume::ImagePlace;
use hfs_word_put::{Listed, PutFault, PutImage, PutItems, Watch, need_digests, put_image};
use std::alloc::Global;

/// A new volume's image, and what was put on it.
#[derive(Drop)]
struct MadeList {
    image: NewImage,
    put: PutItems,
}

/// The volume that is wanted for these items, its catalog with as many nodes as they want.
fn wanted_volume(
    name: VolumeName,
    size: Option<VolumeSize>,
    items: &[NewItem],
    moment: u32,
) -> NewVolume<'_>
    ensures name { result.name ≡ name }
    ensures size { result.size ≡ size }
    ensures items { result.items.now ≡ items.now }
    ensures moment { result.moment ≡ moment }
    ensures once { result.catalog_times ≡ 1 }
    ensures dated { moment < 2 ^ 32 }
{
    NewVolume {
        name,
        size,
        items,
        catalog_times: 1,
        moment,
    }
}

/// Puts what comes on a new volume, by all calls but those that write forks. Faults: those of [`make_volume`].
#[tactic(auto, using(hfs_word_put::proofs::Unread::unlisted_before))]
fn make_list<'a, T: HostTree>(
    alloc: Global,
    tree: &mut T,
    path: &'a str,
    order: &MakeOrder<'_>,
) -> Result<MadeList, PutFault<'a>>
    ensures small { IfOk result (λ made.
        length (image_bytes made.image.planned) ≤ 2147483648) }
    ensures within { IfOk result (λ made. AreWithin (changes made.put.list.blocks.patch)
        (length (image_bytes made.image.planned) / 512)) }
    ensures held { OfEachTree (T.Holds tree.new) (T.Holds tree.old) }
    ensures dated { OnOk result (order.entry.now.now < 2 ^ 32) }
    ensures made { IfOk result (λ made. IsMadeOf (T.Holds tree.new) order.entry.now
        made.put.items.items made.image.planned made.put.list) }
    ensures fault { IfErr result
        (IsUnmadeList path.entry (T.Fails tree.old) (T.Holds tree.new) order.entry.now) }
{
    let name = made_name(alloc, tree, order)?;
    let size = made_size(order)?;
    let Listed { items, digests } = list_all_new(alloc, tree, order)?;
    let new = new_items(alloc, &items)?;
    let wanted = wanted_volume(name, size, &new, order.now);
    let filled = match filled_image(alloc, &wanted, path, order, &items) {
        Ok(filled) => filled,
        Err(fault) => return Err(fault),
    };
    let FilledImage { image, list } = filled;
    match need_digests(alloc, tree, &digests, &items) {
        Ok(()) => {
            let put = PutItems { items, list };
            Ok(MadeList { image, put })
        }
        Err(fault) => Err(fault),
    }
}

/// The place of a new volume's image, which is a file of its own.
fn own_place(image: &SettledImage) -> ImagePlace
    ensures { result ≡ own_place image.now.image.planned }
{
    let len = PlacedBytes::len(image);
    ImagePlace {
        range: ByteRange { start: 0, len },
        sum_at: None,
    }
}

/// Makes a new volume with what comes: what the file with this path is to hold. The bytes of forks are read as it is written, of
/// which a watch is told. Faults, in this order:
/// `BadName`, `BadSize`; what can't be read of what comes; what can't come to its place; `NoRoom`, or the first call that is refused;
/// the first file with another digest than its bag tells; `CannotRead` of the path, where the forks don't lie in the volume. Or want
/// of memory.
pub fn make_volume<'a, 'w, T: HostTree + Drop, W: Watch>(
    alloc: Global,
    tree: T,
    path: &'a str,
    order: &MakeOrder<'_>,
    watch: &'w W,
) -> Result<PutImage<'w, SettledImage, HostFiles<T>, W>, PutFault<'a>>
    ensures made { IfOk result (IsMadeFile (IsReadOf T.Holds T.File.Holds) order.entry.now) }
    ensures held { IfOk result (λ made. OfEachTree
        (IsReadOf T.Holds T.File.Holds made.contents.file.forks.files) (T.Holds tree)) }
    ensures fault { IfErr result (IsUnmade T.Fails T.Holds path.entry order.entry.now tree) }
{
    let mut tree = tree;
    let list = match make_list(alloc, &mut tree, path, order) {
        Ok(list) => list,
        Err(fault) => return Err(fault),
    };
    let MadeList { image, put } = list;
    let image = SettledImage { image };
    let place = own_place(&image);
    let files = HostFiles::new(alloc, tree);
    match put_image(alloc, image, place, path, files, put, watch) {
        Ok(made) => Ok(made),
        Err(fault) => Err(PutFault::Image(fault)),
    }
}
