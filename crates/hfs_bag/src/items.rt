//! The files and the folder of an item.
ghost use Rattle.std.specs.Prelude.{◌≡◌, ◌++◌, [], ◌∷◌, codes, IfErr, IfOk, OnErr, OnOk, string_bytes};
ghost use Rattle.sha2.specs.Sha256.{sha256};
ghost use Rattle.hfs_encodings.specs.AppleDouble.{apple_double_head_bytes};
ghost use Rattle.hfs_bag.specs.Entries.{IsBeginning};
ghost use Rattle.hfs_bag.specs.declared.item.BagKind.TheVariants as kind;
ghost use Rattle.hfs_bag.specs.Faults.{IsOfShelf, IsPassedOn};
ghost use Rattle.hfs_bag.specs.Items.{BagItem, IsHead, folder_entry, double_head, double_bytes, double_entry, entries_of_kind, item_digests, item_entries, digests_of_kind};
ghost use Rattle.hfs_source.specs.Images.{OfEach};
ghost use Rattle.hfs_bag.specs.Sources.{SameItems};

use crate::Shelf;
use crate::fault::BagFault;
use crate::filling::put_file;
use crate::item::{BagHead, BagKind, ItemDigests};
use crate::source::{BagSource, Stream};
use hfs_encodings::AppleDoubleHead;
use std::alloc::{AllocError, Global};

/// The prefix of an item's name in that of its AppleDouble file.
pub(crate) const DOUBLE: &str = "._";

/// The path of the item that came last, with this prefix before its name.
pub(crate) fn marked_path<B: BagSource>(
    alloc: Global,
    source: &B,
    mark: &str,
) -> Result<String, AllocError>
    ensures { IfOk result (λ path. OfEach (B.Holds source.now)
        (λ image. string_bytes path ≡ codes "data/" ++ ((B.state source.now image).item.above ++ (mark.now ++ (B.state source.now image).item.name)))) }
{
    let mut path = String::from_str(alloc, "data/")?;
    source.push_above(&mut path)?;
    path.push_str(mark)?;
    source.push_name(&mut path)?;
    Ok(path)
}

/// The head of the AppleDouble file of an item.
pub(crate) fn double_head(head: &BagHead) -> [u8; 82]
    ensures { (item : BagItem) → IsHead head.now item → result ≡ apple_double_head_bytes
        (double_head item) }
{
    AppleDoubleHead {
        finder: head.finder,
        resource_length: head.resource_length,
    }
    .bytes()
}

/// Gives the AppleDouble file of the item that came last, and returns its digest.
fn give_double<S: Shelf, B: BagSource>(
    alloc: Global,
    shelf: &mut S,
    source: &mut B,
    head: &BagHead,
) -> Result<[u8; 32], BagFault>
    requires { OfEach (B.Holds source.old)
        (λ image. IsHead head.now (B.state source.old image).item) }
    ensures whole { OnOk result (OfEach (B.Holds source.new)
        (λ image. S.given shelf.new ≡ S.given shelf.old ++ double_entry (B.state source.old image).item ∷ [])) }
    ensures part { OnErr result (OfEach (B.Holds source.new)
        (λ image. IsBeginning (S.given shelf.new) (S.given shelf.old ++ double_entry (B.state source.old image).item ∷ []))) }
    ensures digest { IfOk result (λ digest. OfEach (B.Holds source.new)
        (λ image. digest ≡ sha256 (double_bytes (B.state source.old image).item))) }
    ensures same { OnOk result (OfEach (B.Holds source.new)
        (λ image. SameItems (B.state source.old image) (B.state source.new image))) }
    ensures stays { B.items_left source.new ≡ B.items_left source.old }
    ensures fault { IfErr result (IsPassedOn B.Fails (S.Fails (S.place shelf.old))) }
    ensures place { S.place shelf.new ≡ S.place shelf.old }
    ensures narrows { OfEach (B.Holds source.new) (B.Holds source.old) }
{
    let path = marked_path(alloc, source, DOUBLE)?;
    let bytes = double_head(head);
    put_file(
        alloc,
        shelf,
        source,
        path.as_str(),
        None,
        &bytes,
        Stream::ResourceFork,
    )
}

/// Gives the data fork of the item that came last, and then its AppleDouble file, and returns their digests.
fn give_file<S: Shelf, B: BagSource>(
    alloc: Global,
    shelf: &mut S,
    source: &mut B,
    head: &BagHead,
) -> Result<ItemDigests, BagFault>
    requires { OfEach (B.Holds source.old)
        (λ image. IsHead head.now (B.state source.old image).item) }
    ensures whole { OnOk result (OfEach (B.Holds source.new)
        (λ image. S.given shelf.new ≡ S.given shelf.old ++ entries_of_kind kind.File (B.state source.old image).item)) }
    ensures part { OnErr result (OfEach (B.Holds source.new)
        (λ image. IsBeginning (S.given shelf.new) (S.given shelf.old ++ entries_of_kind kind.File (B.state source.old image).item))) }
    ensures digests { IfOk result (λ digests. OfEach (B.Holds source.new)
        (λ image. digests ≡ digests_of_kind kind.File (B.state source.old image).item)) }
    ensures same { OnOk result (OfEach (B.Holds source.new)
        (λ image. SameItems (B.state source.old image) (B.state source.new image))) }
    ensures stays { B.items_left source.new ≡ B.items_left source.old }
    ensures fault { IfErr result (IsPassedOn B.Fails (S.Fails (S.place shelf.old))) }
    ensures place { S.place shelf.new ≡ S.place shelf.old }
    ensures narrows { OfEach (B.Holds source.new) (B.Holds source.old) }
{
    let path = marked_path(alloc, source, "")?;
    let data = put_file(
        alloc,
        shelf,
        source,
        path.as_str(),
        head.modified,
        &[],
        Stream::DataFork,
    )?;
    let double = give_double(alloc, shelf, source, head)?;
    Ok(ItemDigests::File(data, double))
}

/// Gives the AppleDouble file of the folder that came last, and then the folder, and returns the file's digest.
fn give_folder<S: Shelf, B: BagSource>(
    alloc: Global,
    shelf: &mut S,
    source: &mut B,
    head: &BagHead,
) -> Result<ItemDigests, BagFault>
    requires { OfEach (B.Holds source.old)
        (λ image. IsHead head.now (B.state source.old image).item) }
    ensures whole { OnOk result (OfEach (B.Holds source.new)
        (λ image. S.given shelf.new ≡ S.given shelf.old ++ entries_of_kind kind.Folder (B.state source.old image).item)) }
    ensures part { OnErr result (OfEach (B.Holds source.new)
        (λ image. IsBeginning (S.given shelf.new) (S.given shelf.old ++ entries_of_kind kind.Folder (B.state source.old image).item))) }
    ensures digests { IfOk result (λ digests. OfEach (B.Holds source.new)
        (λ image. digests ≡ digests_of_kind kind.Folder (B.state source.old image).item)) }
    ensures same { OnOk result (OfEach (B.Holds source.new)
        (λ image. SameItems (B.state source.old image) (B.state source.new image))) }
    ensures stays { B.items_left source.new ≡ B.items_left source.old }
    ensures fault { IfErr result (IsPassedOn B.Fails (S.Fails (S.place shelf.old))) }
    ensures place { S.place shelf.new ≡ S.place shelf.old }
    ensures narrows { OfEach (B.Holds source.new) (B.Holds source.old) }
{
    let double = give_double(alloc, shelf, source, head)?;
    let path = marked_path(alloc, source, "")?;
    shelf.make_folder(path.as_str())?;
    Ok(ItemDigests::Double(double))
}

/// Gives the folder of the item that came last, and nothing else.
fn give_folder_alone<S: Shelf, B: BagSource>(
    alloc: Global,
    shelf: &mut S,
    source: &B,
) -> Result<ItemDigests, BagFault>
    ensures whole { OnOk result (OfEach (B.Holds source.now)
        (λ image. S.given shelf.new ≡ S.given shelf.old ++ folder_entry (B.state source.now image).item ∷ [])) }
    ensures part { OnErr result (OfEach (B.Holds source.now)
        (λ image. IsBeginning (S.given shelf.new) (S.given shelf.old ++ folder_entry (B.state source.now image).item ∷ []))) }
    ensures digests { IfOk result (λ digests. OfEach (B.Holds source.now)
        (λ image. digests ≡ digests_of_kind kind.FolderAlone (B.state source.now image).item)) }
    ensures fault { IfErr result (IsOfShelf (S.Fails (S.place shelf.old))) }
    ensures place { S.place shelf.new ≡ S.place shelf.old }
{
    let path = marked_path(alloc, source, "")?;
    shelf.make_folder(path.as_str())?;
    Ok(ItemDigests::NoFile)
}

/// Gives only the AppleDouble file of the item that came last, and returns its digest.
fn give_double_alone<S: Shelf, B: BagSource>(
    alloc: Global,
    shelf: &mut S,
    source: &mut B,
    head: &BagHead,
) -> Result<ItemDigests, BagFault>
    requires { OfEach (B.Holds source.old)
        (λ image. IsHead head.now (B.state source.old image).item) }
    ensures whole { OnOk result (OfEach (B.Holds source.new)
        (λ image. S.given shelf.new ≡ S.given shelf.old ++ entries_of_kind kind.DoubleAlone (B.state source.old image).item)) }
    ensures part { OnErr result (OfEach (B.Holds source.new)
        (λ image. IsBeginning (S.given shelf.new) (S.given shelf.old ++ entries_of_kind kind.DoubleAlone (B.state source.old image).item))) }
    ensures digests { IfOk result (λ digests. OfEach (B.Holds source.new)
        (λ image. digests ≡ digests_of_kind kind.DoubleAlone (B.state source.old image).item)) }
    ensures same { OnOk result (OfEach (B.Holds source.new)
        (λ image. SameItems (B.state source.old image) (B.state source.new image))) }
    ensures stays { B.items_left source.new ≡ B.items_left source.old }
    ensures fault { IfErr result (IsPassedOn B.Fails (S.Fails (S.place shelf.old))) }
    ensures place { S.place shelf.new ≡ S.place shelf.old }
    ensures narrows { OfEach (B.Holds source.new) (B.Holds source.old) }
{
    let double = give_double(alloc, shelf, source, head)?;
    Ok(ItemDigests::Double(double))
}

/// Gives everything of the item that came last, and returns the digests of its files.
pub(crate) fn give_item<S: Shelf, B: BagSource>(
    alloc: Global,
    shelf: &mut S,
    source: &mut B,
    head: &BagHead,
) -> Result<ItemDigests, BagFault>
    requires { OfEach (B.Holds source.old)
        (λ image. IsHead head.now (B.state source.old image).item) }
    ensures whole { OnOk result (OfEach (B.Holds source.new)
        (λ image. S.given shelf.new ≡ S.given shelf.old ++ item_entries (B.state source.old image).item)) }
    ensures part { OnErr result (OfEach (B.Holds source.new)
        (λ image. IsBeginning (S.given shelf.new) (S.given shelf.old ++ item_entries (B.state source.old image).item))) }
    ensures digests { IfOk result (λ digests. OfEach (B.Holds source.new)
        (λ image. digests ≡ item_digests (B.state source.old image).item)) }
    ensures same { OnOk result (OfEach (B.Holds source.new)
        (λ image. SameItems (B.state source.old image) (B.state source.new image))) }
    ensures stays { B.items_left source.new ≡ B.items_left source.old }
    ensures fault { IfErr result (IsPassedOn B.Fails (S.Fails (S.place shelf.old))) }
    ensures place { S.place shelf.new ≡ S.place shelf.old }
    ensures narrows { OfEach (B.Holds source.new) (B.Holds source.old) }
{
    match head.kind {
        BagKind::File => give_file(alloc, shelf, source, head),
        BagKind::Folder => give_folder(alloc, shelf, source, head),
        BagKind::FolderAlone => give_folder_alone(alloc, shelf, source),
        BagKind::DoubleAlone => give_double_alone(alloc, shelf, source, head),
    }
}
