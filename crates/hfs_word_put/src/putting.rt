//! Putting the sources on a volume in a file: what the file is to hold.
ghost use Rattle.std.specs.Prelude.{◌≡◌, ◌≤◌, ◌/◌, IfErr, IfOk, OnOk};
ghost use Rattle.hfs_blocks.specs.Blocks.{block_at, block_count};
ghost use Rattle.hfs_check.specs.Parts.{mdb_in};
ghost use Rattle.hfs_image.specs.Failing.{SomeFailsWithin};
ghost use Rattle.hfs_source.specs.Images.{OfEach};
ghost use Rattle.hfs_blocks.specs.Layers.{changes, AreWithin};
ghost use Rattle.hfs_put_sources.specs.Trees.{OfEachTree};
ghost use Rattle.hfs_put.specs.Files.{IsReadOf};
ghost use Rattle.hfs_word_put.specs.Faults.{IsUnsavedBy, SparesImage};
ghost use Rattle.hfs_word_put.specs.Files.{IsPutFile};
ghost use Rattle.hfs_word_put.specs.Put.{IsPutFrom, IsPutOf, IsPutOn, IsUnput, IsUnputFrom, IsUnputOn, IsUnputSources, range_failures, range_images};
ghost use Rattle.hfs_word_put.specs.Sums.{put_sums};

use crate::contents::LaidFile;
use crate::fault::PutFault;
use crate::laying::lay_all;
use crate::lines::PutSums;
use crate::listing::{Listed, list_all, need_digests};
use crate::mounting::mount_image;
use crate::order::PutOrder;
use crate::placing::place_all;
use crate::wants::put_sums;
use hfs_bag::Watch;
use hfs_commands::{ByteRange, Fault, ImageInFile, WatchedBytes, WatchedRange};
use hfs_copy::FailingBlocks;
use hfs_put::{HostFiles, LaidForks, PlacedFiles, PutBlocks};
use hfs_put_plan::PutItem;
use hfs_put_sources::{HostTree, SourceItem};
use hfs_source::RangeBytes;
use hfs_volume::{ImagePlace, Volume};
use std::alloc::Global;

/// A list that was put on a volume.
#[derive(Drop)]
pub struct PutList {
    /// The blocks to be written, and where the forks are to be laid.
    pub blocks: PutBlocks,
    /// How much was put.
    pub sums: PutSums,
}

/// What was put on a volume.
#[derive(Drop)]
pub struct PutItems {
    pub items: Vec<SourceItem>,
    pub list: PutList,
}

/// The contents of a file with what was put on a volume in it, and how much was put.
#[derive(Drop)]
pub struct PutImage<'w, S, H, W> {
    pub contents: ImageInFile<LaidFile<'w, S, H, W>>,
    pub sums: PutSums,
}

/// How much of a list was put on a volume.
fn sums_of(volume: &Volume, places: &[PutItem]) -> PutSums
    ensures { result ≡ put_sums places.now (mdb_in (block_at volume.now.current)).free_blocks }
{
    put_sums(places, u32::from(volume.directory().free_blocks))
}

/// Puts a list on a volume that has just been mounted. Faults, in this order: items that can't be placed; the first call that is
/// refused. Also out of memory.
#[tactic(auto, using(crate::proofs::Spared::unput))]
fn put_list(
    alloc: Global,
    volume: &mut Volume,
    order: &PutOrder<'_>,
    items: &[SourceItem],
) -> Result<PutList, PutFault<'static>>
    requires { volume.old.current ≡ volume.old.base }
    ensures put { IfOk result (λ put. IsPutOn order.entry.now volume.old.base volume.new.current
        items.now put.blocks put.sums) }
    ensures within { IfOk result (λ put. AreWithin (changes put.blocks.patch)
        (block_count volume.old.base)) }
    ensures fault { IfErr result (IsUnputOn order.entry.now volume.old.base items.now) }
    ensures spares { IfErr result SparesImage }
{
    let list = place_all(alloc, volume, order, items)?;
    match lay_all(alloc, volume, &list, items, order.now) {
        Ok(blocks) => {
            let sums = sums_of(volume, &list.places);
            Ok(PutList { blocks, sums })
        }
        Err(fault) => Err(fault),
    }
}

/// Puts the sources on a volume that has just been mounted, with all calls except those that write forks. Faults, in this order:
/// sources that can't be read; items that can't be placed; the first call that is refused; the first file with another digest
/// than its bag gives. Also out of memory.
pub fn put_items<T: HostTree>(
    alloc: Global,
    volume: &mut Volume,
    tree: &mut T,
    order: &PutOrder<'_>,
) -> Result<PutItems, PutFault<'static>>
    requires { volume.old.current ≡ volume.old.base }
    ensures put { IfOk result (λ put. IsPutOf (T.Holds tree.new) order.entry.now volume.old.base
        put.items.items put.list.blocks put.list.sums) }
    ensures within { IfOk result (λ put. AreWithin (changes put.list.blocks.patch)
        (block_count volume.old.base)) }
    ensures held { OfEachTree (T.Holds tree.new) (T.Holds tree.old) }
    ensures fault { IfErr result (IsUnput (T.Fails tree.old) (T.Holds tree.new)
        order.entry.now volume.old.base) }
    ensures spares { IfErr result SparesImage }
{
    let Listed { items, digests } = list_all(alloc, tree, order)?;
    let list = put_list(alloc, volume, order, &items)?;
    match need_digests(alloc, tree, &digests, &items) {
        Ok(()) => Ok(PutItems { items, list }),
        Err(fault) => Err(fault),
    }
}

/// Puts the sources on the volume of an image of `len` bytes, opened by this path. Faults, in this order: those of
/// [`mount_image`], then those of [`put_items`]. What the image is read from is handed back.
pub fn put_on<'a, S: FailingBlocks, T: HostTree>(
    alloc: Global,
    image: S,
    len: u64,
    path: &'a str,
    tree: &mut T,
    order: &PutOrder<'_>,
) -> (Result<PutItems, PutFault<'a>>, S)
    ensures put { IfOk result.0 (λ put. IsPutFrom (S.Holds result.1) (T.Holds tree.new)
        order.entry.now len put.items.items put.list.blocks put.list.sums) }
    ensures small { OnOk result.0 (len ≤ 2147483648) }
    ensures within { IfOk result.0 (λ put. AreWithin (changes put.list.blocks.patch) (len / 512)) }
    ensures fault { IfErr result.0 (IsUnputFrom path.entry (S.Holds result.1) (T.Fails tree.old)
        (T.Holds tree.new) order.entry.now len) }
    ensures failed { IfErr result.0 (λ fault. fault ≡ PutFault.Image (Fault.CannotRead path.entry)
        → SomeFailsWithin len (S.Fails image)) }
    ensures narrows { OfEach (S.Holds result.1) (S.Holds image) }
    ensures held { OfEachTree (T.Holds tree.new) (T.Holds tree.old) }
{
    let (mounted, image) = mount_image(alloc, image, len, path);
    let mut volume = match mounted {
        Ok(volume) => volume,
        Err(fault) => return (Err(PutFault::Image(fault)), image),
    };
    match put_items(alloc, &mut volume, tree, order) {
        Ok(put) => (Ok(put), image),
        Err(fault) => (Err(fault), image),
    }
}

/// The contents of a file, opened by this path, in which an image lies at a place, after this was put on its volume. Fault:
/// `CannotRead` of the path, if the forks don't lie in the file.
pub fn put_image<'a, 'w, S: WatchedBytes + Drop, H: PlacedFiles + Drop, W: Watch>(
    alloc: Global,
    file: S,
    place: ImagePlace,
    path: &'a str,
    files: H,
    put: PutItems,
    watch: &'w W,
) -> Result<PutImage<'w, S, H, W>, Fault<'a>>
    requires small { place.range.len ≤ 2147483648 }
    requires within { AreWithin (changes put.list.blocks.patch) (place.range.len / 512) }
    ensures file { IfOk result (λ made. made.contents.file.forks.bytes ≡ file) }
    ensures files { IfOk result (λ made. made.contents.file.forks.files ≡ files) }
    ensures items { IfOk result (λ made. made.contents.file.forks.items ≡ put.items) }
    ensures runs { IfOk result (λ made. made.contents.file.forks.runs ≡ put.list.blocks.runs) }
    ensures start { IfOk result (λ made. made.contents.file.forks.start ≡ place.range.start) }
    ensures patch { IfOk result (λ made. made.contents.patch ≡ put.list.blocks.patch) }
    ensures place { IfOk result (λ made. made.contents.place ≡ place) }
    ensures sums { IfOk result (λ made. made.sums ≡ put.list.sums) }
    ensures fault { IfErr result (λ fault. fault ≡ Fault.CannotRead path.entry) }
{
    let PutItems { items, list } = put;
    let PutList { blocks, sums } = list;
    let PutBlocks {
        patch,
        runs,
        ids: _,
    } = blocks;
    let start = place.range.start;
    let Some(forks) = LaidForks::new(alloc, file, files, items, runs, start) else {
        return Err(Fault::CannotRead(path));
    };
    Ok(PutImage {
        contents: ImageInFile {
            alloc,
            file: LaidFile { forks, watch },
            place,
            patch,
        },
        sums,
    })
}

/// Puts the sources on the volume of an image in a file, opened by this path, and returns what the file is to hold. The bytes of
/// forks are read while it is written, and reported to a watch. Faults: those of [`put_on`]. Out of memory
/// if the forks don't lie in the file, or the image's range isn't as long as it was: no source of bytes lets that happen.
pub fn put_sources<'a, 'w, S: WatchedBytes + Drop, T: HostTree + Drop, W: Watch>(
    alloc: Global,
    image: WatchedRange<S>,
    sum_at: Option<u64>,
    path: &'a str,
    tree: T,
    order: &PutOrder<'_>,
    watch: &'w W,
) -> Result<PutImage<'w, S, HostFiles<T>, W>, PutFault<'a>>
    ensures file { IfOk result (IsPutFile S.Holds (IsReadOf T.Holds T.File.Holds)
        order.entry.now image.bytes.len sum_at) }
    ensures fault { IfErr result (IsUnputSources S.Holds T.Fails T.Holds image tree
        path.entry order.entry.now) }
    ensures failed { IfErr result (λ fault. fault ≡ PutFault.Image (Fault.CannotRead path.entry)
        → SomeFailsWithin image.bytes.len (range_failures S.Fails image)) }
{
    let mut tree = tree;
    let len = image.bytes.len;
    let (put, image) = put_on(alloc, image, len, path, &mut tree, order);
    let put = match put {
        Ok(put) => put,
        Err(fault) => return Err(fault),
    };
    if image.bytes.len != len {
        return Err(PutFault::Image(Fault::NoMemory));
    }
    let WatchedRange { bytes } = image;
    let RangeBytes {
        bytes: file,
        start,
        ..
    } = bytes;
    let range = ByteRange { start, len };
    let place = ImagePlace { range, sum_at };
    let files = HostFiles::new(alloc, tree);
    match put_image(alloc, file, place, path, files, put, watch) {
        Ok(made) => Ok(made),
        Err(_) => Err(PutFault::Image(Fault::NoMemory)),
    }
}

/// The fault for a file that was not written: why the sources couldn't be read or had changed, if so; otherwise the given fault.
pub fn unsaved<'a, S: WatchedBytes + Drop, H: PlacedFiles + Drop, W: Watch>(
    alloc: Global,
    contents: ImageInFile<LaidFile<'_, S, H, W>>,
    fault: Fault<'a>,
) -> PutFault<'a>
    ensures { IsUnsavedBy contents.entry.file.forks.fault fault.entry result }
{
    let ImageInFile { file, .. } = contents;
    match file.into_fault() {
        Some(why) => PutFault::of_host(alloc, why),
        None => PutFault::Image(fault),
    }
}
