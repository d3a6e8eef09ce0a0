//! The word that rescues what remains of an image.
ghost use Rattle.std.specs.Prelude.{◌≡◌, ◌∷◌, false, IfErr, IfOk, string_bytes};
ghost use Rattle.std.specs.Option.{option_map};
ghost use Rattle.hfs_bag.specs.MadeFolders.{given_by};
ghost use Rattle.hfs_bag.specs.Removals.{IsPlaced};
ghost use Rattle.hfs_bag.specs.ShelfPlaces.{others_in};
ghost use Rattle.hfs_bag.specs.SystemSteps.{done, looked};
ghost use Rattle.hfs_word_take.specs.TakeFaults.{IsTakeFault};
ghost use Rattle.hfs_source.specs.Images.{OfEach};
ghost use Rattle.hfs_source.specs.Seen.{EachKnown};
ghost use Rattle.hfs_word_rescue.specs.Answers.{IsKnownAnswer};
ghost use Rattle.hfs_word_take.specs.Placed.{IsAwayFor, IsBagAway, IsBagUnplaced, IsUnplaced, StaysOrNoMemory};
ghost use Rattle.hfs_word_rescue.specs.Bags.{IsUngiven};
ghost use Rattle.hfs_word_rescue.specs.Placed.{IsBagPlaced};
ghost use Rattle.hfs_word_rescue.specs.Words.{as_take_words};

use crate::answer::{RescueAnswer, Rescued};
use crate::filling::{GivenRemains, give_remains};
use crate::image::RescuedImage;
use crate::loading::{LoadedImage, load_image};
use crate::words::BagWords;
use hfs_bag::{FileShelf, FileSystem, SystemFiles, Watch};
use hfs_commands::Fault;
use hfs_source::{PlacedBlocks, SeenBlocks};
use hfs_word_take::TakeFault;
use std::alloc::Global;
use std::rt::Files;

/// A bag that is in its place: what is printed about its image, the system that the bag is on, and what the image was read from.
#[derive(Drop)]
pub struct PlacedBag<Y, S: PlacedBlocks> {
    pub answer: RescueAnswer,
    pub system: Y,
    pub source: SeenBlocks<S>,
}

/// Why a bag is not in its place, the system that it was to be on, and what the image was read from.
#[derive(Drop)]
pub struct UnplacedBag<'a, Y, S: PlacedBlocks> {
    pub fault: TakeFault<'a>,
    pub system: Y,
    pub source: SeenBlocks<S>,
}

/// Why what was written of a bag was removed, with the system handed back.
#[derive(Drop)]
struct RemovedBag<'a, Y> {
    fault: TakeFault<'a>,
    system: Y,
}

/// Gives a whole bag its place. At a fault, it is removed.
fn place_bag<'a, Y: FileSystem + Drop, S: PlacedBlocks + Drop>(
    shelf: FileShelf<Y>,
    answer: RescueAnswer,
    source: SeenBlocks<S>,
    words: &BagWords<'a>,
) -> Result<PlacedBag<Y, S>, UnplacedBag<'a, Y, S>>
    ensures placed { IfOk result (λ placed. IsPlaced words.now.folder.now (string_bytes shelf.folder)
        (given_by (string_bytes shelf.folder) shelf.modified (Y.did shelf.system))
        (others_in (string_bytes shelf.folder) (Y.did shelf.system)) (Y.did placed.system)) }
    ensures answer { IfOk result (λ placed. placed.answer ≡ answer) }
    ensures source { IfOk result (λ placed. placed.source ≡ source) }
    ensures fault { IfErr result (λ back. IsTakeFault (as_take_words words.now) back.fault) }
    ensures told { IfErr result (λ back. IsUnplaced words.now.folder.now back.fault) }
    ensures back { IfErr result (λ back. back.source ≡ source) }
    ensures away { IfErr result (λ back. IsAwayFor back.fault (string_bytes shelf.folder)
        (Y.did shelf.system) (Y.did back.system)) }
{
    match shelf.place(words.folder) {
        Ok(system) => Ok(PlacedBag {
            answer,
            system,
            source,
        }),
        Err(back) => Err(UnplacedBag {
            fault: TakeFault::of_shelf(back.fault),
            system: back.system,
            source,
        }),
    }
}

/// Removes what was written of a bag. The fault stays the same, unless memory is refused for that.
fn take_away<'a, Y: FileSystem + Drop>(
    shelf: FileShelf<Y>,
    fault: TakeFault<'a>,
) -> RemovedBag<'a, Y>
    ensures fault { StaysOrNoMemory fault.entry result.fault }
    ensures away { IsAwayFor result.fault (string_bytes shelf.folder) (Y.did shelf.system)
        (Y.did result.system) }
{
    match shelf.take_away() {
        Ok(system) => RemovedBag { fault, system },
        Err(system) => RemovedBag {
            fault: TakeFault::Image(Fault::NoMemory),
            system,
        },
    }
}

/// Writes the bag of an image to a folder next to its place; the folder gets its place once it is whole, and is removed at a
/// fault, with the source handed back. Faults: `CannotWrite` of the path that isn't written, a later read of the image failed, the
/// bag is too large, memory was refused.
fn write_bag<'a, Y: FileSystem + Drop, S: PlacedBlocks + Drop, W: Watch>(
    alloc: Global,
    system: Y,
    image: RescuedImage<S>,
    words: &BagWords<'a>,
    watch: &W,
) -> Result<PlacedBag<Y, S>, UnplacedBag<'a, Y, S>>
    ensures placed { IfOk result (λ placed. IsBagPlaced (S.Holds placed.source.blocks) image.len
        (option_map string_bytes image.line) words.now (Y.did system) (Y.did placed.system)) }
    ensures answer { IfOk result (λ placed. EachKnown (S.Holds placed.source.blocks)
        (λ known. IsKnownAnswer known image.len words.now.words placed.answer)) }
    ensures narrows { IfOk result (λ placed. OfEach (S.Holds placed.source.blocks)
        (S.Holds image.source.blocks)) }
    ensures fault { IfErr result (λ back. IsTakeFault (as_take_words words.now) back.fault) }
    ensures away { IfErr result (λ back. IsBagAway (as_take_words words.now)
        (IsUngiven (S.Holds back.source.blocks) image.len (option_map string_bytes image.line) words.now)
        back.fault (Y.did system) (Y.did back.system)) }
    ensures back { IfErr result (λ back. OfEach (S.Holds back.source.blocks)
        (S.Holds image.source.blocks)) }
{
    let mut shelf = match FileShelf::create(alloc, system, words.folder) {
        Ok(shelf) => shelf,
        Err(back) => {
            return Err(UnplacedBag {
                fault: TakeFault::of_shelf(back.fault),
                system: back.system,
                source: image.into_source(),
            });
        }
    };
    let GivenRemains { answer, source } = give_remains(alloc, &mut shelf, image, words, watch);
    match answer {
        Ok(answer) => place_bag(shelf, answer, source, words),
        Err(fault) => {
            let told = TakeFault::of_bag(fault, words.words.image);
            let RemovedBag { fault, system } = take_away(shelf, told);
            Err(UnplacedBag {
                fault,
                system,
                source,
            })
        }
    }
}

/// Rescues what remains of an opened image, over any system, if nothing has the folder's name, and returns what is printed about
/// the image.
///
/// As the last thing that the system does, exactly the bag of every image consistent with the bytes read gets this place. At a
/// fault the place is as free as it was, what was written is removed, and the source is handed back. Faults: `IsThere`; as for
/// [`write_bag`].
pub fn rescue_opened<'a, Y: FileSystem + Drop, S: PlacedBlocks + Drop, W: Watch>(
    alloc: Global,
    system: Y,
    image: RescuedImage<S>,
    words: &BagWords<'a>,
    watch: &W,
) -> Result<PlacedBag<Y, S>, UnplacedBag<'a, Y, S>>
    ensures placed { IfOk result (λ placed. IsBagPlaced (S.Holds placed.source.blocks) image.len
        (option_map string_bytes image.line) words.now
        (done (looked words.now.folder.now false) ∷ Y.did system) (Y.did placed.system)) }
    ensures answer { IfOk result (λ placed. EachKnown (S.Holds placed.source.blocks)
        (λ known. IsKnownAnswer known image.len words.now.words placed.answer)) }
    ensures narrows { IfOk result (λ placed. OfEach (S.Holds placed.source.blocks)
        (S.Holds image.source.blocks)) }
    ensures fault { IfErr result (λ back. IsTakeFault (as_take_words words.now) back.fault) }
    ensures unplaced { IfErr result (λ back. IsBagUnplaced (as_take_words words.now)
        (IsUngiven (S.Holds back.source.blocks) image.len (option_map string_bytes image.line) words.now)
        back.fault (Y.did system) (Y.did back.system)) }
    ensures back { IfErr result (λ back. OfEach (S.Holds back.source.blocks)
        (S.Holds image.source.blocks)) }
{
    let mut system = system;
    if system.is_there(words.folder) {
        return Err(UnplacedBag {
            fault: TakeFault::IsThere(words.folder),
            system,
            source: image.into_source(),
        });
    }
    write_bag(alloc, system, image, words, watch)
}

/// The same with the system's own files, about whose state nothing is stated then.
fn rescue_loaded<'a, R: Files + AllocGlobal, S: PlacedBlocks + Drop, W: Watch>(
    rt: &R,
    image: RescuedImage<S>,
    words: &BagWords<'a>,
    watch: &W,
) -> Result<RescueAnswer, TakeFault<'a>>
    ensures { IfErr result (IsTakeFault (as_take_words words.now)) }
{
    match rescue_opened(rt.alloc(), SystemFiles::new(rt), image, words, watch) {
        Ok(placed) => Ok(placed.answer),
        Err(back) => Err(back.fault),
    }
}

/// Makes the folder a bag of what remains of an image, and returns what is printed about the image. Faults, the first that holds:
/// the image can't be read; `NoVolume`, `SeveralVolumes`; the image's own, if it has no directory; `IsThere`; `CannotWrite` of
/// the path that isn't written, a later read of the image failed, memory was refused. At a fault the folder doesn't exist, and
/// what was written is removed, as far as the system and memory allow.
pub fn rescue<'a, R: Files + AllocGlobal, W: Watch>(
    rt: &R,
    words: &BagWords<'a>,
    watch: &W,
) -> Result<Rescued, TakeFault<'a>>
    ensures { IfErr result (IsTakeFault (as_take_words words.now)) }
{
    let LoadedImage { image, sum } = match load_image(rt, &words.words) {
        Ok(loaded) => loaded,
        Err(unopened) => return Err(TakeFault::Image(unopened.fault)),
    };
    let answer = rescue_loaded(rt, image, words, watch)?;
    Ok(Rescued { answer, sum })
}
