//! The bag of an image, given to any shelf.
ghost use Rattle.std.specs.Prelude.{◌≡◌, ◌++◌, Bool, IfErr, IfOk, OnErr, OnOk, string_bytes};
ghost use Rattle.std.specs.Option.{option_map};
ghost use Rattle.hfs_bag.specs.Sums.{IsSumOf};
ghost use Rattle.hfs_check.specs.Report.{report_of};
ghost use Rattle.hfs_word_take.specs.Items.{bag_items, entries_in};
ghost use Rattle.hfs_word_take.specs.Reading.{BeginsWith};
ghost use Rattle.hfs_items.specs.ToldRows.{told_rows};
ghost use Rattle.hfs_bag.specs.Entries.{IsBeginning};
ghost use Rattle.hfs_source.specs.Images.{HasAt, HasLength, OfEach};
ghost use Rattle.hfs_word_take.specs.Bags.{OfBag, report_text, text_in};
ghost use Rattle.hfs_word_take.specs.Digests.{HoldsBeside};
ghost use Rattle.hfs_word_take.specs.TakeFaults.{IsFillFault};
ghost use Rattle.hfs_word_take.specs.Planned.{IsPlanned};
ghost use Rattle.hfs_word_take.specs.Told.{IsToldOf};

use crate::ImageItems;
use crate::beside::{DigestPlan, digest_at_once, give_first, plan_digest};
use crate::facts::{image_name, plain_name, report_text};
use crate::image::TakenImage;
use crate::words::TakeWords;
use hfs_bag::{
    BagFacts, BagFault, BagSums, Shelf, SourceFault, Watch, WatchedItems, give_tag_files,
};
use hfs_check::Report;
use hfs_commands::report_answer;
use hfs_image::SeenImage;
use hfs_source::{PlacedBlocks, SeenBlocks};
use std::alloc::Global;
use std::thread::Threads;

/// The first 1,536 bytes of an image.
fn head_of<S: PlacedBlocks>(image: &mut SeenImage<S>) -> Result<[u8; 1536], SourceFault>
    ensures head { IfOk result (λ head. OfEach (S.Holds image.new) (HasAt 0 head)) }
    ensures narrows { OfEach (S.Holds image.new) (S.Holds image.old) }
{
    let mut head = [0; 1536];
    match image.read_blocks(0, &mut head) {
        Ok(()) => Ok(head),
        Err(_) => Err(SourceFault::ReadFailed),
    }
}

/// The lines of `info` and of `check` of an image with this report.
fn report_of<S: PlacedBlocks>(
    alloc: Global,
    image: &mut SeenImage<S>,
    report: &Report,
) -> Result<String, SourceFault>
    requires { OfEach (S.Holds image.old) (λ bytes. report.now ≡ report_of bytes) }
    ensures text { IfOk result (λ text. OfEach (S.Holds image.new)
        (λ bytes. string_bytes text ≡ report_text bytes)) }
    ensures narrows { OfEach (S.Holds image.new) (S.Holds image.old) }
{
    let head = head_of(image)?;
    let Ok(answer) = report_answer(alloc, report) else {
        return Err(SourceFault::Memory);
    };
    let text = report_text(alloc, &head, answer.lines.as_str())?;
    Ok(text)
}

/// How many items an image with this report has, without the root.
fn item_count(report: &Report) -> u64 {
    u64::from(report.files) + u64::from(report.folders)
}

/// What a bag says about an image before its items are read.
#[derive(Drop)]
struct Told {
    /// The last part of its path.
    name: String,
    /// The lines of `info` and of `check`.
    report: String,
    /// Its digest, if that was made first.
    digest: Option<[u8; 32]>,
}

/// What a bag says about an image with this report before its items are read, with its digest if that is to be made first.
fn told_of<S: PlacedBlocks>(
    alloc: Global,
    image: &mut SeenImage<S>,
    len: u64,
    report: &Report,
    words: &TakeWords<'_>,
    is_made: bool,
) -> Result<Told, SourceFault>
    requires report { OfEach (S.Holds image.old) (λ bytes. report.now ≡ report_of bytes) }
    requires len { OfEach (S.Holds image.old) (HasLength len) }
    ensures told { IfOk result (λ told. OfEach (S.Holds image.new) (IsToldOf words.now is_made told)) }
    ensures narrows { OfEach (S.Holds image.new) (S.Holds image.old) }
{
    let Ok(name) = image_name(alloc, words.image) else {
        return Err(SourceFault::Memory);
    };
    let lines = report_of(alloc, image, report)?;
    let digest = digest_at_once(alloc, image, len, is_made)?;
    Ok(Told {
        name,
        report: lines,
        digest,
    })
}

/// What a bag says about an image besides its items.
#[derive(Drop)]
struct ImageFacts {
    /// How many bytes the image has.
    len: u64,
    /// Where it lies in its file, if it was looked for there.
    volume: Option<String>,
    told: Told,
}

/// A text, if there is one.
fn text_in(text: &Option<String>) -> Option<&str>
    ensures { text_in result ≡ option_map string_bytes text.now }
{
    match text {
        Some(text) => Some(text.as_str()),
        None => None,
    }
}

/// Gives a shelf the bag of these items of an image, with what it says about the image.
fn give_items<R: Threads, S: PlacedBlocks + Drop + Send, T: Shelf, W: Watch>(
    threads: &R,
    alloc: Global,
    shelf: &mut T,
    watched: &mut WatchedItems<'_, ImageItems<S>, W>,
    beside: &mut Option<SeenBlocks<S>>,
    words: &TakeWords<'_>,
    about: &ImageFacts,
) -> Result<BagSums, BagFault>
    requires len { OfEach (S.Holds watched.old.items.source.image) (HasLength about.now.len) }
    requires root { OfEach (S.Holds watched.old.items.source.image)
        (λ bytes. BeginsWith watched.old.items.root (told_rows (entries_in bytes))) }
    requires told { (is_made : Bool) × OfEach (S.Holds watched.old.items.source.image)
        (IsToldOf words.now is_made about.now.told) }
    requires planned { OfEach (S.Holds watched.old.items.source.image)
        (IsPlanned beside.old words.now.is_digested about.now.told.digest) }
    ensures whole { OnOk result (OfEach (S.Holds watched.new.items.source.image)
        (OfBag (option_map string_bytes about.now.volume) words.now (HoldsBeside S.Holds beside.new)
        (λ bag. T.given shelf.new ≡ T.given shelf.old ++ bag))) }
    ensures part { OnErr result (OfEach (S.Holds watched.new.items.source.image)
        (OfBag (option_map string_bytes about.now.volume) words.now (HoldsBeside S.Holds beside.new)
        (λ bag. IsBeginning (T.given shelf.new) (T.given shelf.old ++ bag)))) }
    ensures sums { IfOk result (λ sums. OfEach (S.Holds watched.new.items.source.image)
        (λ bytes. IsSumOf sums (bag_items (entries_in bytes)))) }
    ensures fault { IfErr result (IsFillFault (T.Fails (T.place shelf.old)) (S.Holds watched.new.items.source.image)) }
    ensures place { T.place shelf.new ≡ T.place shelf.old }
    ensures narrows { OfEach (S.Holds watched.new.items.source.image) (S.Holds watched.old.items.source.image) }
{
    let identifier = plain_name(alloc, watched.items.root.name.bytes())?;
    let told = &about.told;
    let plan = DigestPlan {
        told: told.digest,
        len: about.len,
        is_digested: words.is_digested,
    };
    let first = give_first(threads, alloc, shelf, watched, beside, &plan)?;
    let directory = None;
    let facts = BagFacts {
        identifier: identifier.as_str(),
        program: words.program,
        image: told.name.as_str(),
        volume: text_in(&about.volume),
        directory,
        bytes: about.len,
        digest: first.1,
        report: told.report.as_str(),
    };
    let sums = give_tag_files(alloc, shelf, watched, &facts, &first.0)?;
    Ok(sums)
}

/// The result of giving the bag of an image, and what it was read from.
#[derive(Drop)]
pub struct GivenBag<S: PlacedBlocks> {
    /// How much the bag holds, or why it was not given.
    pub sums: Result<BagSums, BagFault>,
    pub image: SeenImage<S>,
    /// What its digest was made of, if that is another source.
    pub beside: Option<SeenBlocks<S>>,
}

/// Gives a shelf the bag of an image: the items of its volume, and what these words say about it. The digest is made in a thread
/// of its own if the image was opened a second time, and is that of each image that has what was read by both openings. At a
/// fault, what was given is a beginning of the bag. All this holds for every image consistent with the bytes read. Faults:
/// reading the image, those of the shelf, memory was refused; `TooLarge`.
#[tactic(auto, using(crate::proofs::BagLemmas::nothing_given))]
pub fn give_image<R: Threads, S: PlacedBlocks + Drop + Send, T: Shelf, W: Watch>(
    threads: &R,
    alloc: Global,
    shelf: &mut T,
    image: TakenImage<S>,
    words: &TakeWords<'_>,
    watch: &W,
) -> GivenBag<S>
    ensures whole { OnOk result.sums (OfEach (S.Holds result.image)
        (OfBag (option_map string_bytes image.volume) words.now (HoldsBeside S.Holds result.beside)
        (λ bag. T.given shelf.new ≡ T.given shelf.old ++ bag))) }
    ensures part { OnErr result.sums (OfEach (S.Holds result.image)
        (OfBag (option_map string_bytes image.volume) words.now (HoldsBeside S.Holds result.beside)
        (λ bag. IsBeginning (T.given shelf.new) (T.given shelf.old ++ bag)))) }
    ensures sums { IfOk result.sums (λ sums. OfEach (S.Holds result.image)
        (λ bytes. IsSumOf sums (bag_items (entries_in bytes)))) }
    ensures fault { IfErr result.sums (IsFillFault (T.Fails (T.place shelf.old)) (S.Holds result.image)) }
    ensures place { T.place shelf.new ≡ T.place shelf.old }
    ensures narrows { OfEach (S.Holds result.image) (S.Holds image.opened) }
{
    let TakenImage {
        mut opened,
        beside,
        len,
        report,
        volume,
    } = image;
    let (mut beside, is_made) = plan_digest(beside, words.is_digested);
    let told = match told_of(alloc, &mut opened, len, &report, words, is_made) {
        Ok(told) => told,
        Err(fault) => {
            return GivenBag {
                sums: Err(BagFault::Source(fault)),
                image: opened,
                beside,
            };
        }
    };
    let items = match ImageItems::new(alloc, opened) {
        Ok(items) => items,
        Err(back) => {
            return GivenBag {
                sums: Err(BagFault::Source(back.fault)),
                image: back.image,
                beside,
            };
        }
    };
    let mut watched = WatchedItems::new(items, watch, item_count(&report));
    let about = ImageFacts { len, volume, told };
    let sums = give_items(
        threads,
        alloc,
        shelf,
        &mut watched,
        &mut beside,
        words,
        &about,
    );
    GivenBag {
        sums,
        image: watched.into_items().into_image(),
        beside,
    }
}
