//! Manifests: the digests of files, with their paths.
ghost use Rattle.std.specs.Prelude.{◌≡◌, codes, map, IfErr, IfOk, OnErr, OnOk, string_bytes};
ghost use Rattle.sha2.specs.Hashers.{Holds256};
ghost use Rattle.sha2.specs.Sha256.{sha256};
ghost use Rattle.hfs_texts.specs.Texts.{Gains};
ghost use Rattle.hfs_bag.specs.Entries.{IsBeginning, with_piece};
ghost use Rattle.hfs_bag.specs.Items.{double_path, item_digests, item_entries, item_path};
ghost use Rattle.hfs_source.specs.Images.{OfEach};
ghost use Rattle.hfs_bag.specs.Bags.{digest_line, items_entries, manifest};
ghost use Rattle.hfs_bag.specs.Faults.{HasFailed, IsPassedOn};
ghost use Rattle.hfs_bag.specs.Filling.{HoldsMore, with_whole_file};
ghost use Rattle.hfs_bag.specs.Giving.{HasListed, IsNextOf};

use crate::Shelf;
use crate::fault::BagFault;
use crate::item::ItemDigests;
use crate::items::{DOUBLE, marked_path};
use crate::source::{BagSource, SourceFault};
use sha2::{Digest, Sha256};
use std::alloc::{AllocError, Global};

/// Appends the line of a file with this digest.
#[tactic(auto, unfolding(crate::specs::Bags::digest_line))]
pub(crate) fn push_digest_line(
    alloc: Global,
    text: &mut String,
    digest: &[u8; 32],
    path: &str,
) -> Result<(), AllocError>
    ensures { OnOk result (Gains text.old text.new (digest_line digest.now path.now)) }
{
    let digits = hex::encode(alloc, digest.as_slice())?;
    text.push_str(digits.as_str())?;
    text.push_str("  ")?;
    text.push_str(path)?;
    text.push('\n')
}

/// Appends the line of the data fork of the item that came last.
fn push_data_line<B: BagSource>(
    alloc: Global,
    text: &mut String,
    source: &B,
    digest: &[u8; 32],
) -> Result<(), AllocError>
    ensures { OnOk result (OfEach (B.Holds source.now)
        (λ image. Gains text.old text.new (digest_line digest.now (item_path (B.state source.now image).item)))) }
{
    let path = marked_path(alloc, source, "")?;
    push_digest_line(alloc, text, digest, path.as_str())
}

/// Appends the line of the AppleDouble file of the item that came last.
fn push_double_line<B: BagSource>(
    alloc: Global,
    text: &mut String,
    source: &B,
    digest: &[u8; 32],
) -> Result<(), AllocError>
    ensures { OnOk result (OfEach (B.Holds source.now)
        (λ image. Gains text.old text.new (digest_line digest.now (double_path (B.state source.now image).item)))) }
{
    let path = marked_path(alloc, source, DOUBLE)?;
    push_digest_line(alloc, text, digest, path.as_str())
}

/// The lines of the item that came last, whose files have these digests.
fn item_lines<B: BagSource>(
    alloc: Global,
    source: &B,
    told: &ItemDigests,
) -> Result<String, AllocError>
    requires { OfEach (B.Holds source.now)
        (λ image. told.now ≡ item_digests (B.state source.now image).item) }
    ensures { IfOk result (λ text. OfEach (B.Holds source.now)
        (λ image. string_bytes text ≡ manifest (item_entries (B.state source.now image).item))) }
{
    let mut text = String::new(alloc);
    match told {
        ItemDigests::File(data, double) => {
            push_data_line(alloc, &mut text, source, data)?;
            push_double_line(alloc, &mut text, source, double)?;
        }
        ItemDigests::Double(double) => push_double_line(alloc, &mut text, source, double)?,
        ItemDigests::NoFile => {}
    }
    Ok(text)
}

/// Gives the lines of the next item, whose files have these digests, to the shelf and to the digest. A source that has fewer
/// items than before has failed.
fn list_next<S: Shelf, B: BagSource>(
    alloc: Global,
    shelf: &mut S,
    source: &mut B,
    digest: &mut Sha256,
    told: &ItemDigests,
) -> Result<(), BagFault>
    requires { OfEach (B.Holds source.old)
        (λ image. IsNextOf told.now (B.state source.old image).left) }
    ensures listed { OnOk result (OfEach (B.Holds source.new)
        (λ image. HasListed (S.given shelf.old) (S.given shelf.new) (B.state source.old image) (B.state source.new image) (Holds256 digest.old) (Holds256 digest.new))) }
    ensures part { OnErr result (OfEach (B.Holds source.new)
        (λ image. IsBeginning (S.given shelf.new) (with_piece (S.given shelf.old) (manifest (items_entries (B.state source.old image).left))))) }
    ensures fault { IfErr result (IsPassedOn (HasFailed B.Fails (B.Holds source.new))
        (S.Fails (S.place shelf.old))) }
    ensures place { S.place shelf.new ≡ S.place shelf.old }
    ensures narrows { OfEach (B.Holds source.new) (B.Holds source.old) }
{
    let Some(_) = source.next_item()? else {
        return Err(BagFault::Source(SourceFault::ReadFailed));
    };
    let lines = item_lines(alloc, source, told)?;
    shelf.append(lines.as_bytes())?;
    digest.update(lines.as_bytes());
    Ok(())
}

/// Gives the lines of all items that are left to the shelf and to the digest.
fn list_items<S: Shelf, B: BagSource>(
    alloc: Global,
    shelf: &mut S,
    source: &mut B,
    digest: &mut Sha256,
    told: &[ItemDigests],
) -> Result<(), BagFault>
    requires { OfEach (B.Holds source.old)
        (λ image. told.now ≡ map item_digests (B.state source.old image).left) }
    ensures whole { OnOk result (OfEach (B.Holds source.new)
        (λ image. S.given shelf.new ≡ with_piece (S.given shelf.old) (manifest (items_entries (B.state source.old image).left)))) }
    ensures digest { OnOk result (OfEach (B.Holds source.new)
        (λ image. HoldsMore (Holds256 digest.old) (Holds256 digest.new) (manifest (items_entries (B.state source.old image).left)))) }
    ensures all { OnOk result (OfEach (B.Holds source.new)
        (λ image. (B.state source.new image).all ≡ (B.state source.old image).all)) }
    ensures tables { OnOk result (OfEach (B.Holds source.new)
        (λ image. (B.state source.new image).tables ≡ (B.state source.old image).tables)) }
    ensures part { OnErr result (OfEach (B.Holds source.new)
        (λ image. IsBeginning (S.given shelf.new) (with_piece (S.given shelf.old) (manifest (items_entries (B.state source.old image).left))))) }
    ensures fault { IfErr result (IsPassedOn (HasFailed B.Fails (B.Holds source.new))
        (S.Fails (S.place shelf.old))) }
    ensures place { S.place shelf.new ≡ S.place shelf.old }
    ensures narrows { OfEach (B.Holds source.new) (B.Holds source.old) }
{
    for at in 0..told.len() {
        list_next(alloc, shelf, source, digest, &told[at])?;
    }
    Ok(())
}

/// Gives the manifest of all items, whose files have these digests, and returns its digest.
pub(crate) fn give_manifest<S: Shelf, B: BagSource>(
    alloc: Global,
    shelf: &mut S,
    source: &mut B,
    told: &[ItemDigests],
) -> Result<[u8; 32], BagFault>
    requires { OfEach (B.Holds source.old)
        (λ image. told.now ≡ map item_digests (B.state source.old image).all) }
    ensures whole { OnOk result (OfEach (B.Holds source.new)
        (λ image. S.given shelf.new ≡ with_whole_file (S.given shelf.old) (codes "manifest-sha256.txt") (manifest (items_entries (B.state source.old image).all)))) }
    ensures part { OnErr result (OfEach (B.Holds source.new)
        (λ image. IsBeginning (S.given shelf.new) (with_whole_file (S.given shelf.old) (codes "manifest-sha256.txt") (manifest (items_entries (B.state source.old image).all))))) }
    ensures digest { IfOk result (λ digest. OfEach (B.Holds source.new)
        (λ image. digest ≡ sha256 (manifest (items_entries (B.state source.old image).all)))) }
    ensures all { OnOk result (OfEach (B.Holds source.new)
        (λ image. (B.state source.new image).all ≡ (B.state source.old image).all)) }
    ensures tables { OnOk result (OfEach (B.Holds source.new)
        (λ image. (B.state source.new image).tables ≡ (B.state source.old image).tables)) }
    ensures fault { IfErr result (IsPassedOn (HasFailed B.Fails (B.Holds source.new))
        (S.Fails (S.place shelf.old))) }
    ensures place { S.place shelf.new ≡ S.place shelf.old }
    ensures narrows { OfEach (B.Holds source.new) (B.Holds source.old) }
{
    source.restart()?;
    shelf.make_file("manifest-sha256.txt", None)?;
    let mut digest = Sha256::new();
    list_items(alloc, shelf, source, &mut digest, told)?;
    Ok(digest.finalize())
}
