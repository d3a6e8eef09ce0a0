//! The payload of a bag.
ghost use Rattle.std.specs.Prelude.{◌≡◌, ◌+◌, ◌++◌, [], ◌∷◌, map, IfErr, IfOk, OnErr, OnOk};
ghost use Rattle.hfs_bag.specs.Entries.{IsBeginning};
ghost use Rattle.hfs_bag.specs.Items.{item_digests};
ghost use Rattle.hfs_source.specs.Images.{OfEach};
ghost use Rattle.hfs_bag.specs.Bags.{bytes_in, items_entries};
ghost use Rattle.hfs_bag.specs.Faults.{AreTooMany, IsBagFault};
ghost use Rattle.hfs_bag.specs.Filling.{IsMore};
ghost use Rattle.hfs_bag.specs.Giving.{HasGiven};

use crate::Shelf;
use crate::fault::BagFault;
use crate::item::ItemDigests;
use crate::items::give_item;
use crate::source::{BagSource, SourceFault};
use crate::sums::item_bytes;
use std::alloc::Global;

/// What is kept of a payload that was given, until its tag files are given.
#[derive(Drop)]
pub struct GivenPayload {
    /// The digests of the items' files, in the order of the items.
    pub(crate) digests: Vec<ItemDigests>,
    /// How many bytes all these files have.
    pub(crate) bytes: u64,
}

/// Keeps the digests of an item that was given, and counts its bytes.
fn keep(given: &mut GivenPayload, told: ItemDigests, bytes: u64) -> Result<(), BagFault>
    ensures digests { OnOk result (given.new.digests.items ≡ given.old.digests.items ++ told ∷ []) }
    ensures bytes { OnOk result (given.new.bytes ≡ given.old.bytes + bytes) }
    ensures fault { IfErr result (IsBagFault (λ _. ⊥) (λ _. ⊥) (AreTooMany (given.old.bytes + bytes))) }
{
    let Some(sum) = given.bytes.checked_add(bytes) else {
        return Err(BagFault::TooLarge);
    };
    let Ok(()) = given.digests.push(told) else {
        return Err(BagFault::Source(SourceFault::Memory));
    };
    given.bytes = sum;
    Ok(())
}

/// Gives everything of the next item, and returns whether there was one.
fn give_next<S: Shelf, B: BagSource>(
    alloc: Global,
    shelf: &mut S,
    source: &mut B,
    given: &mut GivenPayload,
) -> Result<bool, BagFault>
    ensures given { OnOk result (OfEach (B.Holds source.new)
        (λ image. HasGiven (S.given shelf.old) (S.given shelf.new) (B.state source.old image) (B.state source.new image)
        given.old.digests.items given.new.digests.items given.old.bytes given.new.bytes)) }
    ensures more { IfOk result (IsMore (B.items_left source.old) (B.items_left source.new)
        (OfEach (B.Holds source.new) (λ image. (B.state source.new image).left ≡ []))) }
    ensures part { OnErr result (OfEach (B.Holds source.new)
        (λ image. IsBeginning (S.given shelf.new) (S.given shelf.old ++ items_entries (B.state source.old image).left))) }
    ensures fault { IfErr result (IsBagFault B.Fails (S.Fails (S.place shelf.old))
        (OfEach (B.Holds source.new)
        (λ image. AreTooMany (given.old.bytes + bytes_in (items_entries (B.state source.old image).left))))) }
    ensures place { S.place shelf.new ≡ S.place shelf.old }
    ensures narrows { OfEach (B.Holds source.new) (B.Holds source.old) }
{
    let Some(head) = source.next_item()? else {
        return Ok(false);
    };
    let told = give_item(alloc, shelf, source, &head)?;
    keep(given, told, item_bytes(&head))?;
    Ok(true)
}

/// Gives everything of all items that are left.
pub(crate) fn give_items<S: Shelf, B: BagSource>(
    alloc: Global,
    shelf: &mut S,
    source: &mut B,
) -> Result<GivenPayload, BagFault>
    ensures whole { OnOk result (OfEach (B.Holds source.new)
        (λ image. S.given shelf.new ≡ S.given shelf.old ++ items_entries (B.state source.old image).left)) }
    ensures part { OnErr result (OfEach (B.Holds source.new)
        (λ image. IsBeginning (S.given shelf.new) (S.given shelf.old ++ items_entries (B.state source.old image).left))) }
    ensures digests { IfOk result (λ given. OfEach (B.Holds source.new)
        (λ image. given.digests.items ≡ map item_digests (B.state source.old image).left)) }
    ensures bytes { IfOk result (λ given. OfEach (B.Holds source.new)
        (λ image. given.bytes ≡ bytes_in (items_entries (B.state source.old image).left))) }
    ensures all { OnOk result (OfEach (B.Holds source.new)
        (λ image. (B.state source.new image).all ≡ (B.state source.old image).all)) }
    ensures tables { OnOk result (OfEach (B.Holds source.new)
        (λ image. (B.state source.new image).tables ≡ (B.state source.old image).tables)) }
    ensures fault { IfErr result (IsBagFault B.Fails (S.Fails (S.place shelf.old))
        (OfEach (B.Holds source.new)
        (λ image. AreTooMany (bytes_in (items_entries (B.state source.old image).left))))) }
    ensures place { S.place shelf.new ≡ S.place shelf.old }
    ensures narrows { OfEach (B.Holds source.new) (B.Holds source.old) }
{
    let mut given = GivenPayload {
        digests: Vec::new(alloc),
        bytes: 0,
    };
    while give_next(alloc, shelf, source, &mut given)? {}
    Ok(given)
}
