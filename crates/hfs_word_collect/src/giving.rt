//! The rows of a volume's items, one after the other.
ghost use Rattle.std.specs.Prelude.{◌≡◌, ◌+◌, ◌++◌, [], ◌∷◌, false, IfErr, IfOk, IfSome, OnErr, OnOk};
ghost use Rattle.hfs_model.specs.Children.{entries_of};
ghost use Rattle.hfs_check.specs.VolumeOf.{volume_of};
ghost use Rattle.hfs_source.specs.Images.{FailsWhere, OfEach};
ghost use Rattle.hfs_database.specs.Taken.{IsBeginning};
ghost use Rattle.hfs_word_collect.specs.Items.{item_row, item_rows, item_rows_from};
ghost use Rattle.hfs_items.specs.ToldRows.{told_rows};
ghost use Rattle.hfs_word_collect.specs.Counts.{file_number, file_total};
ghost use Rattle.hfs_bag.specs.Failing.{SomeFail};
ghost use Rattle.hfs_word_collect.specs.Faults.{IsFaultOf};
ghost use Rattle.hfs_word_collect.specs.Giving.{GivesItem, GivesNext, told_row};

use crate::digests::fork_digests;
use crate::fault::CollectFault;
use crate::items::item_values;
use hfs_database::{RowTaker, Table};
use hfs_fields::Name;
use hfs_image::SeenImage;
use hfs_items::Inventory;
use hfs_model::{Info, ItemKind};
use hfs_source::PlacedBlocks;
use std::alloc::Global;

/// How many items were given, and how many of them are files.
#[derive(Clone, Copy, Debug, PartialEq, Eq)]
pub(crate) struct ItemCounts {
    pub(crate) items: u64,
    pub(crate) files: u64,
}

/// How many files an item is.
fn file_number(kind: ItemKind) -> u64
    ensures { result ≡ file_number kind }
{
    match kind {
        ItemKind::Folder => 0,
        ItemKind::File => 1,
    }
}

impl ItemCounts {
    /// One more item. None if there would be 2^64.
    fn after(self, kind: ItemKind) -> Option<ItemCounts>
        ensures items { IfSome result (λ counts. counts.items ≡ self.items + 1) }
        ensures files { IfSome result (λ counts. counts.files ≡ self.files + file_number kind) }
    {
        Some(ItemCounts {
            items: self.items.checked_add(1)?,
            files: self.files.checked_add(file_number(kind))?,
        })
    }
}

/// Gives the row of the item that these names lead to.
#[tactic(auto, using(hfs_database::proofs::GivenLemmas::begins_itself, crate::proofs::FailingReads::read_handed_on, crate::proofs::FailingReads::fault_by_memory, crate::proofs::FailingReads::fault_by_taker))]
fn give_item<S: PlacedBlocks + Drop, T: RowTaker>(
    alloc: Global,
    taker: &mut T,
    image: &mut SeenImage<S>,
    number: u64,
    names: &[Name],
    info: &Info,
    taken: bool,
) -> Result<(), CollectFault>
    ensures whole { OnOk result (OfEach (S.Holds image.new) (GivesItem taken number
        (told_row names.now info.now) (T.given taker.old) (T.given taker.new))) }
    ensures part { OnErr result (OfEach (S.Holds image.new) (λ bytes. IsBeginning (T.given taker.new)
        (T.given taker.old ++ item_row taken (entries_of (volume_of bytes)) number
        (told_row names.now info.now) ∷ []))) }
    ensures narrows { OfEach (S.Holds image.new) (S.Holds image.old) }
    ensures failed { IfErr result (IsFaultOf (SomeFail (S.Holds image.new) (S.Fails image.old))) }
    ensures later { FailsWhere (S.Fails image.new) (S.Fails image.old) }
    ensures reference { T.reference taker.new ≡ T.reference taker.old }
    ensures place { T.place taker.new ≡ T.place taker.old }
{
    let digests = fork_digests(alloc, image, info, taken)?;
    let values = item_values(alloc, number, names, info, digests)?;
    taker.take(Table::Item, &values)?;
    Ok(())
}

/// Gives the row of the next item, and returns whether there was one.
#[tactic(auto, using(hfs_database::proofs::GivenLemmas::begins_itself, crate::proofs::Counting::files_more, crate::proofs::Counting::files_none, crate::proofs::FailingReads::read_handed_on, crate::proofs::FailingReads::fault_by_memory))]
fn give_next<S: PlacedBlocks + Drop, T: RowTaker>(
    alloc: Global,
    taker: &mut T,
    image: &mut SeenImage<S>,
    inventory: &mut Inventory,
    counts: &mut ItemCounts,
    taken: bool,
) -> Result<bool, CollectFault>
    ensures given { IfOk result (λ more. GivesNext taken (S.Holds image.new)
        counts.old.items counts.new.items more inventory.old.left inventory.new.left
        (T.given taker.old) (T.given taker.new)) }
    ensures counted { OnOk result (counts.new.files + file_total inventory.new.left
        ≡ counts.old.files + file_total inventory.old.left) }
    ensures ended { IfOk result (λ more. more ≡ false → inventory.new.left ≡ []) }
    ensures part { OnErr result (OfEach (S.Holds image.new) (λ bytes. IsBeginning (T.given taker.new)
        (T.given taker.old ++ item_rows_from taken (entries_of (volume_of bytes)) counts.old.items
        inventory.old.left))) }
    ensures narrows { OfEach (S.Holds image.new) (S.Holds image.old) }
    ensures failed { IfErr result (IsFaultOf (SomeFail (S.Holds image.new) (S.Fails image.old))) }
    ensures later { FailsWhere (S.Fails image.new) (S.Fails image.old) }
    ensures reference { T.reference taker.new ≡ T.reference taker.old }
    ensures place { T.place taker.new ≡ T.place taker.old }
{
    let Some(info) = inventory.next()? else {
        return Ok(false);
    };
    let Some(after) = counts.after(info.kind) else {
        return Err(CollectFault::NoMemory);
    };
    give_item(
        alloc,
        taker,
        image,
        counts.items,
        inventory.path(),
        &info,
        taken,
    )?;
    *counts = after;
    Ok(true)
}

/// Gives the rows of all items that are left, and returns how many files are among them.
#[tactic(auto, using(crate::proofs::Counting::files_all, crate::proofs::FailingReads::read_handed_on))]
fn give_inventory<S: PlacedBlocks + Drop, T: RowTaker>(
    alloc: Global,
    taker: &mut T,
    image: &mut SeenImage<S>,
    inventory: &mut Inventory,
    taken: bool,
) -> Result<u64, CollectFault>
    ensures whole { OnOk result (OfEach (S.Holds image.new) (λ bytes. T.given taker.new
        ≡ T.given taker.old ++ item_rows_from taken (entries_of (volume_of bytes)) 0 inventory.old.left)) }
    ensures part { OnErr result (OfEach (S.Holds image.new) (λ bytes. IsBeginning
        (T.given taker.new)
        (T.given taker.old ++ item_rows_from taken (entries_of (volume_of bytes)) 0 inventory.old.left))) }
    ensures counted { IfOk result (λ files. files ≡ file_total inventory.old.left) }
    ensures narrows { OfEach (S.Holds image.new) (S.Holds image.old) }
    ensures failed { IfErr result (IsFaultOf (SomeFail (S.Holds image.new) (S.Fails image.old))) }
    ensures later { FailsWhere (S.Fails image.new) (S.Fails image.old) }
    ensures reference { T.reference taker.new ≡ T.reference taker.old }
    ensures place { T.place taker.new ≡ T.place taker.old }
{
    let mut counts = ItemCounts { items: 0, files: 0 };
    while give_next(alloc, taker, image, inventory, &mut counts, taken)? {}
    Ok(counts.files)
}

/// Gives the rows of all items of a volume, and returns how many files are among them.
#[tactic(auto, using(crate::proofs::Counting::files_of, crate::proofs::FailingReads::read_told_on, crate::proofs::FailingReads::fault_by_memory))]
pub(crate) fn give_items<S: PlacedBlocks + Drop, T: RowTaker>(
    alloc: Global,
    taker: &mut T,
    image: &mut SeenImage<S>,
    taken: bool,
) -> Result<u64, CollectFault>
    ensures whole { OnOk result (OfEach (S.Holds image.new) (λ bytes. T.given taker.new
        ≡ T.given taker.old ++ item_rows taken (entries_of (volume_of bytes)))) }
    ensures part { OnErr result (OfEach (S.Holds image.new) (λ bytes. IsBeginning
        (T.given taker.new) (T.given taker.old ++ item_rows taken (entries_of (volume_of bytes))))) }
    ensures counted { IfOk result (λ files. OfEach (S.Holds image.new) (λ bytes.
        files ≡ file_total (told_rows (entries_of (volume_of bytes))))) }
    ensures narrows { OfEach (S.Holds image.new) (S.Holds image.old) }
    ensures failed { IfErr result (IsFaultOf (SomeFail (S.Holds image.new) (S.Fails image.old))) }
    ensures later { FailsWhere (S.Fails image.new) (S.Fails image.old) }
    ensures reference { T.reference taker.new ≡ T.reference taker.old }
    ensures place { T.place taker.new ≡ T.place taker.old }
{
    let mut inventory = image.inventory(alloc)?;
    give_inventory(alloc, taker, image, &mut inventory, taken)
}
