//! The whole of a bag, and its halves: the payload, and the tag files after it.
ghost use Rattle.std.specs.Prelude.{◌≡◌, ◌++◌, IfErr, IfOk, OnErr, OnOk};
ghost use Rattle.hfs_bag.specs.Entries.{IsBeginning};
ghost use Rattle.hfs_source.specs.Images.{OfEach};
ghost use Rattle.hfs_bag.specs.Sources.{KeepsItems};
ghost use Rattle.hfs_bag.specs.Bags.{payload};
ghost use Rattle.hfs_bag.specs.Faults.{HasFailed, IsFillFault, IsPassedOn, IsPayloadFault};
ghost use Rattle.hfs_bag.specs.Payloads.{IsPayloadOf};
ghost use Rattle.hfs_bag.specs.Sums.{IsSumOf};
ghost use Rattle.hfs_bag.specs.Tags.{bag_of, tag_files};

use crate::Shelf;
use crate::facts::BagFacts;
use crate::fault::BagFault;
use crate::giving::{GivenPayload, give_items};
use crate::source::BagSource;
use crate::sums::{BagSums, count_files, count_streams};
use crate::tags::give_tags;
use std::alloc::Global;

/// Gives a shelf the payload of a bag, in the order of the source's items, and returns what the tag files need of it;
/// [`give_tag_files`] gives them next. At a fault, what was given is a beginning of the payload. Faults: those of the source and
/// of the shelf, memory was refused; `TooLarge`.
pub fn give_payload<S: Shelf, B: BagSource>(
    alloc: Global,
    shelf: &mut S,
    source: &mut B,
) -> Result<GivenPayload, BagFault>
    ensures whole { OnOk result (OfEach (B.Holds source.new)
        (λ image. S.given shelf.new ≡ S.given shelf.old ++ payload (B.state source.old image).all)) }
    ensures part { OnErr result (OfEach (B.Holds source.new)
        (λ image. IsBeginning (S.given shelf.new) (S.given shelf.old ++ payload (B.state source.old image).all))) }
    ensures told { IfOk result (λ given. OfEach (B.Holds source.new)
        (λ image. IsPayloadOf given (B.state source.old image).all)) }
    ensures kept { OnOk result (OfEach (B.Holds source.new)
        (λ image. KeepsItems (B.state source.old image) (B.state source.new image))) }
    ensures fault { IfErr result (IsPayloadFault B.Fails (S.Fails (S.place shelf.old))
        (B.Holds source.new) (B.state source.old)) }
    ensures place { S.place shelf.new ≡ S.place shelf.old }
    ensures narrows { OfEach (B.Holds source.new) (B.Holds source.old) }
{
    source.restart()?;
    shelf.make_folder("data")?;
    let given = give_items(alloc, shelf, source)?;
    Ok(given)
}

/// Gives a shelf the tag files of a bag whose payload was given, and returns how much the bag holds. At a fault, what was given
/// is a beginning of them. Faults: those of the source and of the shelf, memory was refused; `ReadFailed` also if a source has
/// fewer items than before.
pub fn give_tag_files<S: Shelf, B: BagSource>(
    alloc: Global,
    shelf: &mut S,
    source: &mut B,
    facts: &BagFacts<'_>,
    given: &GivenPayload,
) -> Result<BagSums, BagFault>
    requires { OfEach (B.Holds source.old)
        (λ image. IsPayloadOf given.now (B.state source.old image).all) }
    ensures whole { OnOk result (OfEach (B.Holds source.new)
        (λ image. S.given shelf.new ≡ S.given shelf.old ++ tag_files (B.state source.old image).all (B.state source.old image).tables facts.now)) }
    ensures part { OnErr result (OfEach (B.Holds source.new)
        (λ image. IsBeginning (S.given shelf.new) (S.given shelf.old ++ tag_files (B.state source.old image).all (B.state source.old image).tables facts.now))) }
    ensures sums { IfOk result (λ sums. OfEach (B.Holds source.new)
        (λ image. IsSumOf sums (B.state source.old image).all)) }
    ensures fault { IfErr result (IsPassedOn (HasFailed B.Fails (B.Holds source.new))
        (S.Fails (S.place shelf.old))) }
    ensures place { S.place shelf.new ≡ S.place shelf.old }
    ensures narrows { OfEach (B.Holds source.new) (B.Holds source.old) }
{
    let streams = count_streams(&given.digests);
    give_tags(alloc, shelf, source, facts, given, streams)?;
    let items = given.digests.len();
    let files = count_files(&given.digests);
    Ok(BagSums {
        files,
        folders: items - files,
        bytes: given.bytes,
    })
}

/// Gives a shelf the bag of all items of a source, and returns how much it holds: the payload, in the order of the items, and
/// then the tag files. At a fault, what was given is a beginning of the bag. All this holds for every image consistent with the
/// bytes read. Faults: as for both halves.
pub fn give_bag<S: Shelf, B: BagSource>(
    alloc: Global,
    shelf: &mut S,
    source: &mut B,
    facts: &BagFacts<'_>,
) -> Result<BagSums, BagFault>
    ensures whole { OnOk result (OfEach (B.Holds source.new)
        (λ image. S.given shelf.new ≡ S.given shelf.old ++ bag_of (B.state source.old image).all (B.state source.old image).tables facts.now)) }
    ensures part { OnErr result (OfEach (B.Holds source.new)
        (λ image. IsBeginning (S.given shelf.new) (S.given shelf.old ++ bag_of (B.state source.old image).all (B.state source.old image).tables facts.now))) }
    ensures sums { IfOk result (λ sums. OfEach (B.Holds source.new)
        (λ image. IsSumOf sums (B.state source.old image).all)) }
    ensures fault { IfErr result (IsFillFault B.Fails (S.Fails (S.place shelf.old))
        (B.Holds source.new) (B.state source.old)) }
    ensures place { S.place shelf.new ≡ S.place shelf.old }
    ensures narrows { OfEach (B.Holds source.new) (B.Holds source.old) }
{
    let given = give_payload(alloc, shelf, source)?;
    let sums = give_tag_files(alloc, shelf, source, facts, &given)?;
    Ok(sums)
}
