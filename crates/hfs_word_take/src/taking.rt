//! The word that takes the items off a disk.
ghost use Rattle.std.specs.Prelude.{◌≡◌, ◌∷◌, false, IfErr, IfOk, string_bytes};
ghost use Rattle.std.specs.Option.{option_map};
ghost use Rattle.hfs_bag.specs.Sums.{IsSumOf};
ghost use Rattle.hfs_word_take.specs.Items.{bag_items, entries_in};
ghost use Rattle.hfs_source.specs.Images.{OfEach};
ghost use Rattle.hfs_bag.specs.MadeFolders.{given_by};
ghost use Rattle.hfs_bag.specs.Removals.{IsPlaced};
ghost use Rattle.hfs_bag.specs.ShelfPlaces.{others_in};
ghost use Rattle.hfs_bag.specs.SystemSteps.{done, looked};
ghost use Rattle.hfs_word_take.specs.Bags.{OfBag};
ghost use Rattle.hfs_word_take.specs.Digests.{HoldsBeside};
ghost use Rattle.hfs_word_take.specs.TakeFaults.{IsTakeFault, IsUngiven, taken_text};
ghost use Rattle.hfs_word_take.specs.Folders.{IsFolderPath};
ghost use Rattle.hfs_word_take.specs.Placed.{HasPlaced, IsAwayFor, IsBagAway, IsBagUnplaced, IsUnplaced, StaysOrNoMemory};

use crate::fault::TakeFault;
use crate::giving::{GivenBag, give_image};
use crate::image::TakenImage;
use crate::opening::{OpenedTake, open_image};
use crate::words::TakeWords;
use hfs_bag::{BagSums, FileShelf, FileSystem, SystemFiles, Watch};
use hfs_commands::Fault;
use hfs_image::SeenImage;
use hfs_source::{PlacedBlocks, SeenBlocks};
use hfs_texts::push_line;
use std::alloc::{AllocError, Global};
use std::rt::Files;
use std::thread::Threads;

/// The result of taking a volume.
#[derive(Drop)]
pub struct Taken {
    /// How much its bag holds.
    pub sums: BagSums,
    /// Whether the sum of the disk copy that it came from is right, if it came from one.
    pub sum: Option<bool>,
}

/// A bag that is in its place, the system that it is on, and what it was taken from.
#[derive(Drop)]
pub struct PlacedBag<Y, S: PlacedBlocks> {
    /// How much it holds.
    pub sums: BagSums,
    pub system: Y,
    pub image: SeenImage<S>,
    /// What the image's digest was made of, if that is another source.
    pub beside: Option<SeenBlocks<S>>,
}

/// Why a bag is not in its place, the system that it was to be on, and what it was to be taken from.
#[derive(Drop)]
pub struct UnplacedBag<'a, Y, S: PlacedBlocks> {
    pub fault: TakeFault<'a>,
    pub system: Y,
    pub image: SeenImage<S>,
}

/// Why what was written of a bag was removed, with the system handed back.
#[derive(Drop)]
struct RemovedBag<'a, Y> {
    fault: TakeFault<'a>,
    system: Y,
}

/// Gives a whole bag its place. At a fault, it is removed.
fn place_bag<'a, Y: FileSystem + Drop>(
    shelf: FileShelf<Y>,
    words: &TakeWords<'a>,
) -> Result<Y, RemovedBag<'a, Y>>
    ensures placed { IfOk result (λ system. IsPlaced words.now.folder.now (string_bytes shelf.folder)
        (given_by (string_bytes shelf.folder) shelf.modified (Y.did shelf.system))
        (others_in (string_bytes shelf.folder) (Y.did shelf.system)) (Y.did system)) }
    ensures fault { IfErr result (λ back. IsTakeFault words.now back.fault) }
    ensures told { IfErr result (λ back. IsUnplaced words.now.folder.now back.fault) }
    ensures away { IfErr result (λ back. IsAwayFor back.fault (string_bytes shelf.folder)
        (Y.did shelf.system) (Y.did back.system)) }
{
    match shelf.place(words.folder) {
        Ok(system) => Ok(system),
        Err(back) => Err(RemovedBag {
            fault: TakeFault::of_shelf(back.fault),
            system: back.system,
        }),
    }
}

/// Removes what was written of a bag. The fault stays the same, unless memory is refused for that.
fn take_away<'a, Y: FileSystem + Drop>(
    shelf: FileShelf<Y>,
    fault: TakeFault<'a>,
) -> RemovedBag<'a, Y>
    ensures fault { StaysOrNoMemory fault.entry result.fault }
    ensures away { IsAwayFor result.fault (string_bytes shelf.folder) (Y.did shelf.system)
        (Y.did result.system) }
{
    match shelf.take_away() {
        Ok(system) => RemovedBag { fault, system },
        Err(system) => RemovedBag {
            fault: TakeFault::Image(Fault::NoMemory),
            system,
        },
    }
}

/// Writes the bag of an image to a folder next to its place; the folder gets its place once it is whole, and is removed at a
/// fault, with the image handed back. Faults: `CannotWrite` of the path that isn't written, a later read of the image failed, its
/// payload is too large, memory was refused.
fn write_bag<'a, Y: FileSystem + Drop, H: Threads, S: PlacedBlocks + Drop + Send, W: Watch>(
    alloc: Global,
    system: Y,
    threads: &H,
    image: TakenImage<S>,
    words: &TakeWords<'a>,
    watch: &W,
) -> Result<PlacedBag<Y, S>, UnplacedBag<'a, Y, S>>
    ensures fault { IfErr result (λ back. IsTakeFault words.now back.fault) }
    ensures away { IfErr result (λ back. IsBagAway words.now (IsUngiven (S.Holds back.image))
        back.fault (Y.did system) (Y.did back.system)) }
    ensures back { IfErr result (λ back. OfEach (S.Holds back.image) (S.Holds image.opened)) }
    ensures sums { IfOk result (λ placed. OfEach (S.Holds placed.image)
        (λ bytes. IsSumOf placed.sums (bag_items (entries_in bytes)))) }
    ensures placed { IfOk result (λ placed. OfEach (S.Holds placed.image)
        (OfBag (option_map string_bytes image.volume) words.now (HoldsBeside S.Holds placed.beside)
        (λ bag. HasPlaced words.now.folder.now bag (Y.did system) (Y.did placed.system)))) }
    ensures narrows { IfOk result (λ placed. OfEach (S.Holds placed.image) (S.Holds image.opened)) }
{
    let mut shelf = match FileShelf::create(alloc, system, words.folder) {
        Ok(shelf) => shelf,
        Err(back) => {
            return Err(UnplacedBag {
                fault: TakeFault::of_shelf(back.fault),
                system: back.system,
                image: image.into_opened(),
            });
        }
    };
    let GivenBag {
        sums,
        image,
        beside,
    } = give_image(threads, alloc, &mut shelf, image, words, watch);
    match sums {
        Ok(sums) => match place_bag(shelf, words) {
            Ok(system) => Ok(PlacedBag {
                sums,
                system,
                image,
                beside,
            }),
            Err(RemovedBag { fault, system }) => Err(UnplacedBag {
                fault,
                system,
                image,
            }),
        },
        Err(fault) => {
            let told = TakeFault::of_bag(fault, words.image);
            let RemovedBag { fault, system } = take_away(shelf, told);
            Err(UnplacedBag {
                fault,
                system,
                image,
            })
        }
    }
}

/// Takes the volume of an opened image, over any system, if nothing has the folder's name. As the last thing that the system
/// does, exactly the bag of every image consistent with the bytes read gets this place. At a fault the place is as free as it
/// was, what was written is removed, as far as the system and memory allow, and the image is handed back. Faults: `IsThere`; as
/// for [`write_bag`].
pub fn take_opened<'a, Y: FileSystem + Drop, H: Threads, S: PlacedBlocks + Drop + Send, W: Watch>(
    alloc: Global,
    system: Y,
    threads: &H,
    image: TakenImage<S>,
    words: &TakeWords<'a>,
    watch: &W,
) -> Result<PlacedBag<Y, S>, UnplacedBag<'a, Y, S>>
    ensures fault { IfErr result (λ back. IsTakeFault words.now back.fault) }
    ensures unplaced { IfErr result (λ back. IsBagUnplaced words.now (IsUngiven (S.Holds back.image))
        back.fault (Y.did system) (Y.did back.system)) }
    ensures back { IfErr result (λ back. OfEach (S.Holds back.image) (S.Holds image.opened)) }
    ensures sums { IfOk result (λ placed. OfEach (S.Holds placed.image)
        (λ bytes. IsSumOf placed.sums (bag_items (entries_in bytes)))) }
    ensures placed { IfOk result (λ placed. OfEach (S.Holds placed.image)
        (OfBag (option_map string_bytes image.volume) words.now (HoldsBeside S.Holds placed.beside)
        (λ bag. HasPlaced words.now.folder.now bag
        (done (looked words.now.folder.now false) ∷ Y.did system) (Y.did placed.system)))) }
    ensures narrows { IfOk result (λ placed. OfEach (S.Holds placed.image) (S.Holds image.opened)) }
{
    let mut system = system;
    if system.is_there(words.folder) {
        return Err(UnplacedBag {
            fault: TakeFault::IsThere(words.folder),
            system,
            image: image.into_opened(),
        });
    }
    write_bag(alloc, system, threads, image, words, watch)
}

/// Takes the volume of an image: makes the folder a bag of all its items. Faults, the first that holds: the image can't be read;
/// `NoVolume`, `SeveralVolumes`; the image's own; `IsThere`; `CannotWrite` of the path that isn't written, a later read of the
/// image failed, memory was refused. At a fault the folder doesn't exist, and what was written is removed, as far as the system
/// and memory allow.
pub fn take<'a, R: Files + AllocGlobal, H: Threads, W: Watch>(
    rt: &R,
    threads: &H,
    words: &TakeWords<'a>,
    watch: &W,
) -> Result<Taken, TakeFault<'a>>
where
    R::File: Send,
    ensures { IfErr result (IsTakeFault words.now) }
{
    let OpenedTake { image, sum } = match open_image(rt, words) {
        Ok(opened) => opened,
        Err(unopened) => return Err(TakeFault::Image(unopened.fault)),
    };
    let system = SystemFiles::new(rt);
    match take_opened(rt.alloc(), system, threads, image, words, watch) {
        Ok(placed) => Ok(Taken {
            sums: placed.sums,
            sum,
        }),
        Err(back) => Err(back.fault),
    }
}

/// A folder's path without slashes at its end; a single slash stays.
pub fn folder_path(path: &str) -> &str
    ensures { IsFolderPath path.now result.now }
{
    let trimmed = path.trim_end_matches('/');
    if trimmed.is_empty() && !path.is_empty() {
        return "/";
    }
    trimmed
}

/// The lines of a bag that was made.
#[tactic(auto, unfolding(crate::specs::TakeFaults::taken_text))]
pub fn taken_text(alloc: Global, sums: &BagSums) -> Result<String, AllocError>
    ensures { IfOk result (λ text. string_bytes text ≡ taken_text sums.now) }
{
    let mut text = String::new(alloc);
    text.push_str("taken\n")?;
    push_line(&mut text, "files", sums.files as u64)?;
    push_line(&mut text, "folders", sums.folders as u64)?;
    push_line(&mut text, "bytes", sums.bytes)?;
    Ok(text)
}
