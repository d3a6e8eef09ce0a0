//! A volume in a file that was opened to be changed.
ghost use Rattle.std.specs.Prelude.{◌≡◌, false, IfErr, IfOk, OnOk, Some};
ghost use Rattle.hfs_source.specs.Asking.{IsAnswerTo, asked_in};
ghost use Rattle.hfs_source.specs.declared.asking.Counted.TheVariants.{Ranges};
ghost use Rattle.hfs_source.specs.declared.ranges.Layout.TheVariants.{Plain};
ghost use Rattle.hfs_source.specs.Images.{FailsWhere, OfEach};
ghost use Rattle.hfs_commands.specs.Faults.{IsUnopenedVolume};
ghost use Rattle.hfs_commands.specs.OpenedFiles.{ArePlain, AreRaw, IsWholeRange, StaysHeld, stored_bytes, stored_images};
ghost use Rattle.hfs_commands.specs.Parts.{IsRangeAt, IsWholeAt, asked_at};
ghost use Rattle.hfs_commands.specs.Unopened.{TellsWhy, WasNotRead};
ghost use Rattle.hfs_commands.specs.WatchedVolumes.{HasNoVolume, IsWrongSum, has_wrong_sum, has_wrong_sum_at, lies_in, range_at, sum_at_of};

use crate::fault::Fault;
use crate::opened_file::{OpenedFile, StoredFile, content_of};
use crate::unopened::{UnopenedFile, with_file};
use crate::volume_files::{place_asked, place_in};
use crate::watched_image::{LookedFile, WatchedImage, open_looked};
use crate::watched_range::WatchedRange;
use hfs_source::{
    Counted, FoundRange, Layout, NumberedRange, PlacedBytes, RangeBytes, TrustedLooks, UserData,
    Window, sum_told,
};
use hfs_volume::sum_place;
use std::alloc::Global;
use std::io::{Read, Seek};
use std::rt::Files;

/// A volume in a file that was opened to be changed.
#[derive(Drop)]
pub struct WatchedVolume<F: Read + Seek> {
    /// Its blocks.
    pub blocks: WatchedRange<WatchedImage<F>>,
    /// Where it lies in the file; `None` if it is the file as it is.
    pub place: Option<NumberedRange>,
    /// Where the file holds its sum; `None` if it holds none.
    pub sum_at: Option<u64>,
}

impl<F: Read + Seek> WatchedVolume<F> {
    /// How many bytes the volume has.
    pub fn len(&self) -> u64
        ensures { result ≡ self.now.blocks.bytes.len }
    {
        self.blocks.bytes.len
    }
}

/// Checks that the sum in a disk copy's header is that of its data; a range that is no disk copy has none. Faults: `SumWrong`; a
/// read failed.
fn need_right_sum<'a, S: PlacedBytes>(
    source: &mut S,
    found: &FoundRange,
    path: &'a str,
) -> Result<(), Fault<'a>>
    ensures right { OnOk result (OfEach (S.Holds source.new)
        (λ file. false ≡ has_wrong_sum found.now file)) }
    ensures fault { IfErr result (IsWrongSum (S.Holds source.new) found.now path.entry) }
    ensures held { OfEach (S.Holds source.new) (S.Holds source.old) }
    ensures later { FailsWhere (S.Fails source.new) (S.Fails source.old) }
{
    match sum_told(source, found) {
        Ok(Some(false)) => Err(Fault::SumWrong),
        Ok(Some(true)) | Ok(None) => Ok(()),
        Err(fault) => Err(Fault::of_sparse(fault, path)),
    }
}

/// The volume with this number in a file's bytes. Faults: as for [`open_volume`].
#[tactic(auto, using(crate::proofs::HeldBytes::stays_held, crate::proofs::UnopenedVolumes::wrong_sum, crate::proofs::UnopenedVolumes::same_fault, crate::proofs::UnopenedVolumes::sum_fault, crate::proofs::UnopenedVolumes::placed_range, crate::proofs::UnopenedVolumes::placed_whole, crate::proofs::PartLemmas::plain_laid))]
fn volume_in<'a, F: Read + Seek + Drop>(
    alloc: Global,
    file: Window<StoredFile<F>>,
    looks: Option<TrustedLooks<F, StoredFile<F>>>,
    path: &'a str,
    number: u64,
) -> Result<WatchedVolume<F>, UnopenedFile<'a, F>>
    requires plain { ArePlain (stored_images file.source) }
    requires all { IsWholeRange (stored_images file.source) file.range }
    ensures plain { IfOk result (λ volume. ArePlain (stored_images volume.blocks.bytes.bytes.file)) }
    ensures asked { IfOk result (λ volume. OfEach (stored_images volume.blocks.bytes.bytes.file)
        (λ bytes. asked_at volume.place ≡ asked_in Plain Ranges (Some number) bytes)) }
    ensures answer { IfOk result (λ volume. IsAnswerTo (Some number) (asked_at volume.place)) }
    ensures lies { IfOk result (λ volume. lies_in volume.blocks.bytes
        ≡ range_at volume.place file.range) }
    ensures range { IfOk result (λ volume. IsRangeAt volume.place (lies_in volume.blocks.bytes)) }
    ensures all { IfOk result (λ volume. IsWholeAt (stored_images volume.blocks.bytes.bytes.file)
        volume.place (lies_in volume.blocks.bytes)) }
    ensures sum_at { IfOk result (λ volume. volume.sum_at ≡ sum_at_of volume.place) }
    ensures right { IfOk result (λ volume. OfEach (stored_images volume.blocks.bytes.bytes.file)
        (λ bytes. false ≡ has_wrong_sum_at volume.place bytes)) }
    ensures held { IfOk result (λ volume. OfEach (stored_images volume.blocks.bytes.bytes.file)
        (stored_images file.source)) }
    ensures stays { IfOk result (λ volume. StaysHeld (stored_bytes file.source)
        (stored_bytes volume.blocks.bytes.bytes.file)) }
    ensures told { IfErr result (TellsWhy path.entry (HasNoVolume number) WasNotRead) }
    ensures fault { IfErr result (λ back. IsUnopenedVolume path.entry number back.fault) }
{
    let Window { mut source, range } = file;
    let (layout, ranges, volume) = (Layout::Plain, Counted::Ranges, Some(number));
    let place = match place_asked(alloc, &mut source, layout, path, ranges, volume) {
        Ok(place) => place,
        Err(fault) => return Err(with_file(fault, OpenedFile::Plain(source))),
    };
    let (range, sum_at) = match place {
        None => (range, None),
        Some(place) => {
            if let Err(fault) = need_right_sum(&mut source, &place.found, path) {
                return Err(with_file(fault, OpenedFile::Plain(source)));
            }
            (place.found.range, sum_place(&place.found))
        }
    };
    let file = WatchedImage {
        file: source,
        looks,
    };
    match RangeBytes::new(file, range.start, range.len) {
        Ok(bytes) => Ok(WatchedVolume {
            blocks: WatchedRange { bytes },
            place,
            sum_at,
        }),
        Err(_) => Err(UnopenedFile::from(Fault::CannotRead(path))),
    }
}

/// Why a volume with this number in the user data of raw sectors can't be opened to be changed: there is none, or it is never
/// written.
#[tactic(auto, using(crate::proofs::UnopenedVolumes::missing_volume, crate::proofs::UnopenedVolumes::raw_volume, crate::proofs::UnopenedVolumes::raw_told))]
fn raw_fault<'a, F: Read + Seek + Drop>(
    alloc: Global,
    user: UserData<StoredFile<F>>,
    path: &'a str,
    number: u64,
) -> UnopenedFile<'a, F>
    requires { AreRaw (stored_images user.bytes) }
    ensures told { TellsWhy path.entry (HasNoVolume number) WasNotRead result }
    ensures fault { IsUnopenedVolume path.entry number result.fault }
{
    let user = OpenedFile::Raw(user);
    match place_in(alloc, user, path, Counted::Ranges, Some(number)) {
        Ok(found) => with_file(Fault::NotWritten, found.file),
        Err(back) => back,
    }
}

/// Opens the volume with this number in a file, counted from 1, to write the file again with changes to that volume; 0 is the
/// file as it is. The file is opened as by [`open_watched`](crate::open_watched). Faults, with what was read: as for
/// [`open_file`](crate::open_file), and `NoVolume` if there is none; `NotWritten` if it lies in raw CD sectors; `SumWrong` if the
/// file is a disk copy whose sum isn't that of its data.
#[tactic(auto, using(crate::proofs::UnopenedLemmas::told_of_file, crate::proofs::UnopenedLemmas::unopened_file))]
pub fn open_volume<'a, R: Files + AllocGlobal>(
    rt: &R,
    path: &'a str,
    number: u64,
) -> Result<WatchedVolume<R::File>, UnopenedFile<'a, R::File>>
    ensures plain { IfOk result (λ volume. ArePlain (stored_images volume.blocks.bytes.bytes.file)) }
    ensures asked { IfOk result (λ volume. OfEach (stored_images volume.blocks.bytes.bytes.file)
        (λ bytes. asked_at volume.place ≡ asked_in Plain Ranges (Some number) bytes)) }
    ensures answer { IfOk result (λ volume. IsAnswerTo (Some number) (asked_at volume.place)) }
    ensures range { IfOk result (λ volume. IsRangeAt volume.place (lies_in volume.blocks.bytes)) }
    ensures all { IfOk result (λ volume. IsWholeAt (stored_images volume.blocks.bytes.bytes.file)
        volume.place (lies_in volume.blocks.bytes)) }
    ensures sum_at { IfOk result (λ volume. volume.sum_at ≡ sum_at_of volume.place) }
    ensures right { IfOk result (λ volume. OfEach (stored_images volume.blocks.bytes.bytes.file)
        (λ bytes. false ≡ has_wrong_sum_at volume.place bytes)) }
    ensures told { IfErr result (TellsWhy path.entry (HasNoVolume number) WasNotRead) }
    ensures fault { IfErr result (λ back. IsUnopenedVolume path.entry number back.fault) }
{
    let LookedFile { bytes, looks } = open_looked(rt, path)?;
    let Window { source, range } = content_of(bytes, path)?;
    match source {
        OpenedFile::Plain(source) => {
            volume_in(rt.alloc(), Window { source, range }, looks, path, number)
        }
        OpenedFile::Raw(user) => Err(raw_fault(rt.alloc(), user, path, number)),
    }
}
