//! The bag of what remains.
ghost use Rattle.std.specs.Prelude.{◌≡◌, ◌++◌, Err, IfErr, IfOk, OnErr, OnOk, string_bytes};
ghost use Rattle.std.specs.Option.{option_map};
ghost use Rattle.hfs_image.specs.Known.{OfKnown};
ghost use Rattle.hfs_bag.specs.Entries.{IsBeginning};
ghost use Rattle.hfs_word_take.specs.Bags.{text_in};
ghost use Rattle.hfs_source.specs.Images.{OfEach};
ghost use Rattle.hfs_source.specs.Seen.{EachKnown};
ghost use Rattle.hfs_word_rescue.specs.Answers.{IsKnownAnswer, told_after};
ghost use Rattle.hfs_word_rescue.specs.Bags.{IsToldOf, IsUnfilled, OfKnownBag};
ghost use Rattle.hfs_word_rescue.specs.Found.{IsFoundOf};
ghost use Rattle.hfs_word_rescue.specs.Words.{limit_of};

use crate::answer::RescueAnswer;
use crate::facts::{Told, told_of};
use crate::found::found_in;
use crate::image::RescuedImage;
use crate::words::BagWords;
use hfs_bag::{BagFacts, BagFault, BagSums, Shelf, SourceFault, Watch, WatchedItems, give_bag};
use hfs_remains_forks::salvage_of;
use hfs_rescue_items::{Found, RescueItems};
use hfs_source::{PlacedBlocks, SeenBlocks};
use std::alloc::Global;

/// A text, if there is one.
fn text_in(text: &Option<String>) -> Option<&str>
    ensures { text_in result ≡ option_map string_bytes text.now }
{
    match text {
        Some(text) => Some(text.as_str()),
        None => None,
    }
}

/// The result of giving a shelf a bag, and what the image was read from.
#[derive(Drop)]
struct GivenFound<S: PlacedBlocks> {
    came: Result<BagSums, BagFault>,
    source: SeenBlocks<S>,
}

/// What a bag says about an image besides what was found of it.
#[derive(Drop)]
struct ImageFacts {
    /// How many bytes the image has.
    len: u64,
    /// Where the volume lies in its file, if it was looked for there.
    line: Option<String>,
    told: Told,
}

/// Gives a shelf the bag of what was found of an image, with what it says about the image.
fn give_found<S: PlacedBlocks + Drop, T: Shelf, W: Watch>(
    alloc: Global,
    shelf: &mut T,
    source: SeenBlocks<S>,
    found: &Found<'_>,
    words: &BagWords<'_>,
    about: &ImageFacts,
    watch: &W,
) -> GivenFound<S>
    requires found { EachKnown (S.Holds source.blocks) (λ known. OfKnown known about.now.len
        (λ bytes. IsFoundOf bytes (limit_of words.now.words bytes) found.now)) }
    requires told { EachKnown (S.Holds source.blocks) (λ known. IsToldOf known about.now.len
        found.now.mdb.now words.now about.now.told) }
    ensures whole { OnOk result.came (EachKnown (S.Holds result.source.blocks)
        (λ known. OfKnownBag known about.now.len (option_map string_bytes about.now.line) words.now
        (λ bag. T.given shelf.new ≡ T.given shelf.old ++ bag))) }
    ensures part { OnErr result.came (EachKnown (S.Holds result.source.blocks)
        (λ known. OfKnownBag known about.now.len (option_map string_bytes about.now.line) words.now
        (λ bag. IsBeginning (T.given shelf.new) (T.given shelf.old ++ bag)))) }
    ensures fault { IfErr result.came (IsUnfilled (T.Fails (T.place shelf.old))
        (S.Holds result.source.blocks) about.now.len (option_map string_bytes about.now.line) words.now) }
    ensures place { T.place shelf.new ≡ T.place shelf.old }
    ensures narrows { OfEach (S.Holds result.source.blocks) (S.Holds source.blocks) }
{
    let told = &about.told;
    let facts = BagFacts {
        identifier: told.identifier.as_str(),
        program: words.program,
        image: told.name.as_str(),
        volume: text_in(&about.line),
        directory: text_in(&told.directory),
        bytes: about.len,
        digest: told.digest,
        report: told.report.as_str(),
    };
    let items = match RescueItems::new(alloc, *found, source) {
        Ok(items) => items,
        Err(source) => {
            return GivenFound {
                came: Err(BagFault::Source(SourceFault::Memory)),
                source,
            };
        }
    };
    let mut watched = WatchedItems::new(items, watch, found.items.len() as u64);
    let came = give_bag(alloc, shelf, &mut watched, &facts);
    GivenFound {
        came,
        source: watched.into_items().into_source(),
    }
}

/// The result of giving a shelf the bag of what remains of an image, and what that was read from.
#[derive(Drop)]
pub struct GivenRemains<S: PlacedBlocks> {
    /// What is printed about the image, or why its bag was not given.
    pub answer: Result<RescueAnswer, BagFault>,
    pub source: SeenBlocks<S>,
}

/// Gives a shelf the bag of what remains of an image, as these words ask for it, and returns what is printed about the image. At
/// a fault, what was given is a beginning of the bag. All this holds for every image consistent with the bytes read. Faults:
/// reading the image, those of the shelf, memory was refused; `TooLarge`.
pub fn give_remains<S: PlacedBlocks + Drop, T: Shelf, W: Watch>(
    alloc: Global,
    shelf: &mut T,
    image: RescuedImage<S>,
    words: &BagWords<'_>,
    watch: &W,
) -> GivenRemains<S>
    ensures whole { OnOk result.answer (EachKnown (S.Holds result.source.blocks)
        (λ known. OfKnownBag known image.len (option_map string_bytes image.line) words.now (λ bag. T.given shelf.new ≡ T.given shelf.old ++ bag))) }
    ensures part { OnErr result.answer (EachKnown (S.Holds result.source.blocks)
        (λ known. OfKnownBag known image.len (option_map string_bytes image.line) words.now (λ bag. IsBeginning (T.given shelf.new) (T.given shelf.old ++ bag)))) }
    ensures answer { IfOk result.answer (λ answer. EachKnown (S.Holds result.source.blocks)
        (λ known. IsKnownAnswer known image.len words.now.words answer)) }
    ensures fault { IfErr result.answer (IsUnfilled (T.Fails (T.place shelf.old))
        (S.Holds result.source.blocks) image.len (option_map string_bytes image.line) words.now) }
    ensures place { T.place shelf.new ≡ T.place shelf.old }
    ensures narrows { OfEach (S.Holds result.source.blocks) (S.Holds image.source.blocks) }
{
    let RescuedImage {
        mut source,
        len,
        line,
        check,
        finds,
    } = image;
    let limit = words.words.limit_for(len);
    let salvage = match salvage_of(alloc, &finds, limit) {
        Ok(salvage) => salvage,
        Err(_) => return not_given(SourceFault::Memory, source),
    };
    let found = found_in(&finds, &salvage);
    let answer = match RescueAnswer::of(alloc, &check, &finds, &found) {
        Ok(answer) => answer,
        Err(_) => return not_given(SourceFault::Memory, source),
    };
    let told = match told_of(alloc, &mut source, len, &check, &finds, words) {
        Ok(told) => told,
        Err(fault) => return not_given(fault, source),
    };
    let about = ImageFacts { len, line, told };
    let GivenFound { came, source } = give_found(
        alloc, shelf, source, &found, words, &about, watch,
    );
    GivenRemains {
        answer: answered(came, answer),
        source,
    }
}

/// Nothing was given.
fn not_given<S: PlacedBlocks>(fault: SourceFault, source: SeenBlocks<S>) -> GivenRemains<S>
    ensures answer { result.answer ≡ Err (BagFault.Source fault) }
    ensures source { result.source ≡ source }
{
    GivenRemains {
        answer: Err(BagFault::Source(fault)),
        source,
    }
}

/// What is printed about an image, if its bag was given.
fn answered(came: Result<BagSums, BagFault>, answer: RescueAnswer) -> Result<RescueAnswer, BagFault>
    ensures { result ≡ told_after came answer }
{
    match came {
        Ok(_) => Ok(answer),
        Err(fault) => Err(fault),
    }
}
