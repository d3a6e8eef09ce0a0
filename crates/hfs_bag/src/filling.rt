//! Files of a bag, whose bytes come in pieces, with their digests.
ghost use Rattle.std.specs.Prelude.{◌≡◌, ◌++◌, [], IfErr, IfOk, OnErr, OnOk};
ghost use Rattle.sha2.specs.Hashers.{Holds256};
ghost use Rattle.sha2.specs.Sha256.{sha256};
ghost use Rattle.hfs_bag.specs.Entries.{IsBeginning, with_piece};
ghost use Rattle.hfs_source.specs.Images.{OfEach};
ghost use Rattle.hfs_bag.specs.Sources.{SameItems, stream_bytes};
ghost use Rattle.hfs_bag.specs.Faults.{IsOfShelf, IsPassedOn};
ghost use Rattle.hfs_bag.specs.Filling.{HasMoved, HoldsMore, IsMore, with_dated_file, with_whole_file};

use crate::Shelf;
use crate::fault::BagFault;
use crate::source::{BagSource, Stream};
use sha2::{Digest, Sha256};
use std::alloc::Global;

/// Reads the next bytes of a stream, gives them to the shelf and to the digest, and returns whether there were any.
fn move_piece<S: Shelf, B: BagSource>(
    shelf: &mut S,
    source: &mut B,
    digest: &mut Sha256,
    piece: &mut Vec<u8>,
) -> Result<bool, BagFault>
    ensures moved { OnOk result (OfEach (B.Holds source.new)
        (λ image. HasMoved (S.given shelf.old) (S.given shelf.new) (B.state source.old image) (B.state source.new image) (Holds256 digest.old) (Holds256 digest.new))) }
    ensures stays { B.items_left source.new ≡ B.items_left source.old }
    ensures more { IfOk result (IsMore (B.bytes_left source.old) (B.bytes_left source.new)
        (OfEach (B.Holds source.new) (λ image. (B.state source.new image).bytes ≡ []))) }
    ensures part { OnErr result (OfEach (B.Holds source.new)
        (λ image. IsBeginning (S.given shelf.new) (with_piece (S.given shelf.old) (B.state source.old image).bytes))) }
    ensures fault { IfErr result (IsPassedOn B.Fails (S.Fails (S.place shelf.old))) }
    ensures place { S.place shelf.new ≡ S.place shelf.old }
    ensures narrows { OfEach (B.Holds source.new) (B.Holds source.old) }
{
    source.read(piece)?;
    if piece.is_empty() {
        return Ok(false);
    }
    shelf.append(piece)?;
    digest.update(piece.as_slice());
    Ok(true)
}

/// Gives the rest of a stream to the shelf, appended to the file that was made last, and to the digest.
fn move_stream<S: Shelf, B: BagSource>(
    alloc: Global,
    shelf: &mut S,
    source: &mut B,
    digest: &mut Sha256,
) -> Result<(), BagFault>
    ensures whole { OnOk result (OfEach (B.Holds source.new)
        (λ image. S.given shelf.new ≡ with_piece (S.given shelf.old) (B.state source.old image).bytes)) }
    ensures part { OnErr result (OfEach (B.Holds source.new)
        (λ image. IsBeginning (S.given shelf.new) (with_piece (S.given shelf.old) (B.state source.old image).bytes))) }
    ensures digest { OnOk result (OfEach (B.Holds source.new)
        (λ image. HoldsMore (Holds256 digest.old) (Holds256 digest.new) (B.state source.old image).bytes)) }
    ensures same { OnOk result (OfEach (B.Holds source.new)
        (λ image. SameItems (B.state source.old image) (B.state source.new image))) }
    ensures stays { B.items_left source.new ≡ B.items_left source.old }
    ensures fault { IfErr result (IsPassedOn B.Fails (S.Fails (S.place shelf.old))) }
    ensures place { S.place shelf.new ≡ S.place shelf.old }
    ensures narrows { OfEach (B.Holds source.new) (B.Holds source.old) }
{
    let mut piece = Vec::new(alloc);
    while move_piece(shelf, source, digest, &mut piece)? {}
    Ok(())
}

/// Makes a file of these bytes and then those of a stream, and returns its digest.
pub(crate) fn put_file<S: Shelf, B: BagSource>(
    alloc: Global,
    shelf: &mut S,
    source: &mut B,
    path: &str,
    modified: Option<u32>,
    head: &[u8],
    stream: Stream,
) -> Result<[u8; 32], BagFault>
    ensures whole { OnOk result (OfEach (B.Holds source.new)
        (λ image. S.given shelf.new ≡ with_dated_file (S.given shelf.old) path.now modified (head.now ++ stream_bytes (B.state source.old image) stream))) }
    ensures part { OnErr result (OfEach (B.Holds source.new)
        (λ image. IsBeginning (S.given shelf.new) (with_dated_file (S.given shelf.old) path.now modified (head.now ++ stream_bytes (B.state source.old image) stream)))) }
    ensures digest { IfOk result (λ digest. OfEach (B.Holds source.new)
        (λ image. digest ≡ sha256 (head.now ++ stream_bytes (B.state source.old image) stream))) }
    ensures same { OnOk result (OfEach (B.Holds source.new)
        (λ image. SameItems (B.state source.old image) (B.state source.new image))) }
    ensures stays { B.items_left source.new ≡ B.items_left source.old }
    ensures fault { IfErr result (IsPassedOn B.Fails (S.Fails (S.place shelf.old))) }
    ensures place { S.place shelf.new ≡ S.place shelf.old }
    ensures narrows { OfEach (B.Holds source.new) (B.Holds source.old) }
{
    source.open(stream)?;
    shelf.make_file(path, modified)?;
    shelf.append(head)?;
    let mut digest = Sha256::new_with_prefix(head);
    move_stream(alloc, shelf, source, &mut digest)?;
    Ok(digest.finalize())
}

/// Makes a file of this text, and returns its digest.
pub(crate) fn put_text<S: Shelf>(
    shelf: &mut S,
    path: &str,
    text: &str,
) -> Result<[u8; 32], BagFault>
    ensures whole { OnOk result (S.given shelf.new ≡ with_whole_file (S.given shelf.old) path.now
        text.now) }
    ensures part { OnErr result (IsBeginning (S.given shelf.new)
        (with_whole_file (S.given shelf.old) path.now text.now)) }
    ensures digest { IfOk result (λ digest. digest ≡ sha256 text.now) }
    ensures fault { IfErr result (IsOfShelf (S.Fails (S.place shelf.old))) }
    ensures place { S.place shelf.new ≡ S.place shelf.old }
{
    shelf.make_file(path, None)?;
    shelf.append(text.as_bytes())?;
    Ok(Sha256::digest(text.as_bytes()))
}
