//! The tag files of a bag.
ghost use Rattle.std.specs.Prelude.{◌≡◌, ◌++◌, codes, map, option_map, IfErr, IfOk, OnErr, OnOk, string_bytes};
ghost use Rattle.sha2.specs.Sha256.{sha256};
ghost use Rattle.std.specs.Fmt.{decimal};
ghost use Rattle.hfs_texts.specs.Lines.{line};
ghost use Rattle.hfs_texts.specs.Texts.{Gains};
ghost use Rattle.hfs_bag.specs.Entries.{IsBeginning};
ghost use Rattle.hfs_bag.specs.Items.{item_digests};
ghost use Rattle.hfs_source.specs.Images.{OfEach};
ghost use Rattle.hfs_bag.specs.Bags.{bytes_in, files_in, manifest, payload};
ghost use Rattle.hfs_bag.specs.Faults.{HasFailed, IsOfShelf, IsPassedOn};
ghost use Rattle.hfs_bag.specs.Filling.{with_whole_file};
ghost use Rattle.hfs_bag.specs.TagParts.{first_tags, remains_line, second_tags, tag_lines};
ghost use Rattle.hfs_bag.specs.Tags.{bytes_key, declaration_text, directory_line, info_text, oxum_text, remains_files, source_digest_line, tag_files, volume_line};

use crate::Shelf;
use crate::facts::BagFacts;
use crate::fault::BagFault;
use crate::filling::{put_file, put_text};
use crate::giving::GivenPayload;
use crate::manifests::{give_manifest, push_digest_line};
use crate::source::{BagSource, Stream};
use hfs_texts::{Show, push_line};
use std::alloc::{AllocError, Global};

/// A text as it is.
#[derive(Drop)]
struct Text<'a>(&'a str);

impl Show for Text<'_> {
    ghost shown = { λ text. text.0.now };

    fn push_to(&self, text: &mut String) -> Result<(), AllocError> {
        text.push_str(self.0)
    }
}

/// How many bytes a payload has, and how many files.
#[derive(Drop)]
struct Oxum {
    bytes: u64,
    files: u64,
}

impl Show for Oxum {
    ghost shown = { λ oxum. oxum_text oxum.bytes oxum.files };

    #[tactic(auto, unfolding(crate::specs::Tags::oxum_text))]
    fn push_to(&self, text: &mut String) -> Result<(), AllocError> {
        self.bytes.push_to(text)?;
        text.push('.')?;
        self.files.push_to(text)
    }
}

/// Appends the line of a volume that lies inside the image's file.
fn push_volume(text: &mut String, volume: Option<&str>) -> Result<(), AllocError>
    ensures { OnOk result (Gains text.old text.new (volume_line volume.entry)) }
{
    match volume {
        Some(told) => push_line(text, "Source-Volume:", Text(told)),
        None => Ok(()),
    }
}

/// Appends the line of the block of the volume's directory.
fn push_directory(text: &mut String, directory: Option<&str>) -> Result<(), AllocError>
    ensures { OnOk result (Gains text.old text.new (directory_line directory.entry)) }
{
    match directory {
        Some(told) => push_line(text, "Source-Directory:", Text(told)),
        None => Ok(()),
    }
}

/// Appends the line of the bytes: those of a volume inside the image's file, or those of the file.
fn push_source_bytes(text: &mut String, volume: Option<&str>, bytes: u64) -> Result<(), AllocError>
    ensures { OnOk result (Gains text.old text.new (line (bytes_key volume.entry) (decimal bytes))) }
{
    match volume {
        Some(_) => push_line(text, "Source-Volume-Bytes:", bytes),
        None => push_line(text, "Source-Bytes:", bytes),
    }
}

/// Appends the line of their digest, if there is one.
fn push_source_digest(
    alloc: Global,
    text: &mut String,
    volume: Option<&str>,
    digest: Option<[u8; 32]>,
) -> Result<(), AllocError>
    ensures { OnOk result (Gains text.old text.new (source_digest_line volume.entry digest)) }
{
    let Some(digest) = digest else {
        return Ok(());
    };
    let digits = hex::encode(alloc, digest.as_slice())?;
    match volume {
        Some(_) => push_line(text, "Source-Volume-SHA256:", Text(digits.as_str())),
        None => push_line(text, "Source-SHA256:", Text(digits.as_str())),
    }
}

/// The text of `bag-info.txt`, for a payload of `oxum`'s bytes and files.
#[tactic(auto, unfolding(crate::specs::Tags::info_text))]
fn info_text(
    alloc: Global,
    facts: &BagFacts<'_>,
    bytes: u64,
    files: u64,
) -> Result<String, AllocError>
    ensures { IfOk result (λ text. string_bytes text ≡ info_text facts.now bytes files) }
{
    let mut text = String::new(alloc);
    push_line(&mut text, "External-Identifier:", Text(facts.identifier))?;
    push_line(&mut text, "Bag-Software-Agent:", Text(facts.program))?;
    push_line(&mut text, "Source-Image:", Text(facts.image))?;
    push_volume(&mut text, facts.volume)?;
    push_directory(&mut text, facts.directory)?;
    push_source_bytes(&mut text, facts.volume, facts.bytes)?;
    push_source_digest(alloc, &mut text, facts.volume, facts.digest)?;
    push_line(&mut text, "Payload-Oxum:", Oxum { bytes, files })?;
    Ok(text)
}

/// The digests of the tag files, for the last of them.
#[derive(Clone, Copy)]
struct TagDigests {
    manifest: [u8; 32],
    table: [u8; 32],
    /// That of the table of what remains, if there is one.
    remains: Option<[u8; 32]>,
    report: [u8; 32],
    info: [u8; 32],
    declaration: [u8; 32],
}

/// Appends the line of the table of what remains, if there is one.
fn push_remains_line(
    alloc: Global,
    text: &mut String,
    digest: &Option<[u8; 32]>,
) -> Result<(), AllocError>
    ensures { OnOk result (Gains text.old text.new (remains_line digest.now)) }
{
    match digest {
        Some(digest) => push_digest_line(alloc, text, digest, "rescue.tsv"),
        None => Ok(()),
    }
}

/// The text of `tagmanifest-sha256.txt`.
fn tag_manifest(alloc: Global, tags: &TagDigests) -> Result<String, AllocError>
    ensures { IfOk result (λ text. string_bytes text ≡ tag_lines tags.now) }
{
    let mut text = String::new(alloc);
    push_digest_line(alloc, &mut text, &tags.declaration, "bagit.txt")?;
    push_digest_line(alloc, &mut text, &tags.info, "bag-info.txt")?;
    push_digest_line(alloc, &mut text, &tags.table, "items.csv")?;
    push_remains_line(alloc, &mut text, &tags.remains)?;
    push_digest_line(alloc, &mut text, &tags.report, "volume.txt")?;
    push_digest_line(alloc, &mut text, &tags.manifest, "manifest-sha256.txt")?;
    Ok(text)
}

/// Gives the table of what remains, if there is one, and returns its digest.
fn give_remains<S: Shelf, B: BagSource>(
    alloc: Global,
    shelf: &mut S,
    source: &mut B,
) -> Result<Option<[u8; 32]>, BagFault>
    ensures whole { OnOk result (OfEach (B.Holds source.new)
        (λ image. S.given shelf.new ≡ S.given shelf.old ++ remains_files (B.state source.old image).tables.remains)) }
    ensures part { OnErr result (OfEach (B.Holds source.new)
        (λ image. IsBeginning (S.given shelf.new) (S.given shelf.old ++ remains_files (B.state source.old image).tables.remains))) }
    ensures digest { IfOk result (λ digest. OfEach (B.Holds source.new)
        (λ image. digest ≡ option_map sha256 (B.state source.old image).tables.remains)) }
    ensures fault { IfErr result (IsPassedOn B.Fails (S.Fails (S.place shelf.old))) }
    ensures place { S.place shelf.new ≡ S.place shelf.old }
    ensures narrows { OfEach (B.Holds source.new) (B.Holds source.old) }
{
    if !source.tells_remains() {
        return Ok(None);
    }
    let digest = put_file(
        alloc,
        shelf,
        source,
        "rescue.tsv",
        None,
        &[],
        Stream::Remains,
    )?;
    Ok(Some(digest))
}

/// Gives the manifest and the tables, and returns their digests.
fn give_first<S: Shelf, B: BagSource>(
    alloc: Global,
    shelf: &mut S,
    source: &mut B,
    given: &GivenPayload,
) -> Result<([u8; 32], [u8; 32], Option<[u8; 32]>), BagFault>
    requires { OfEach (B.Holds source.old)
        (λ image. given.now.digests.items ≡ map item_digests (B.state source.old image).all) }
    ensures whole { OnOk result (OfEach (B.Holds source.new)
        (λ image. S.given shelf.new ≡ S.given shelf.old ++ first_tags (B.state source.old image).all (B.state source.old image).tables)) }
    ensures part { OnErr result (OfEach (B.Holds source.new)
        (λ image. IsBeginning (S.given shelf.new) (S.given shelf.old ++ first_tags (B.state source.old image).all (B.state source.old image).tables))) }
    ensures manifest { IfOk result (λ told. OfEach (B.Holds source.new)
        (λ image. told.0 ≡ sha256 (manifest (payload (B.state source.old image).all)))) }
    ensures table { IfOk result (λ told. OfEach (B.Holds source.new)
        (λ image. told.1 ≡ sha256 (B.state source.old image).tables.items)) }
    ensures remains { IfOk result (λ told. OfEach (B.Holds source.new)
        (λ image. told.2 ≡ option_map sha256 (B.state source.old image).tables.remains)) }
    ensures fault { IfErr result (IsPassedOn (HasFailed B.Fails (B.Holds source.new))
        (S.Fails (S.place shelf.old))) }
    ensures place { S.place shelf.new ≡ S.place shelf.old }
    ensures narrows { OfEach (B.Holds source.new) (B.Holds source.old) }
{
    let manifest = give_manifest(alloc, shelf, source, &given.digests)?;
    let table = put_file(alloc, shelf, source, "items.csv", None, &[], Stream::Table)?;
    let remains = give_remains(alloc, shelf, source)?;
    Ok((manifest, table, remains))
}

/// Gives the report, the facts and the declaration, and returns their digests.
fn give_second<S: Shelf>(
    alloc: Global,
    shelf: &mut S,
    facts: &BagFacts<'_>,
    bytes: u64,
    files: u64,
) -> Result<([u8; 32], [u8; 32], [u8; 32]), BagFault>
    ensures whole { OnOk result (S.given shelf.new ≡ S.given shelf.old ++ second_tags facts.now
        bytes files) }
    ensures part { OnErr result (IsBeginning (S.given shelf.new)
        (S.given shelf.old ++ second_tags facts.now bytes files)) }
    ensures report { IfOk result (λ told. told.0 ≡ sha256 facts.now.report.now) }
    ensures info { IfOk result (λ told. told.1 ≡ sha256 (info_text facts.now bytes files)) }
    ensures declaration { IfOk result (λ told. told.2 ≡ sha256 declaration_text) }
    ensures fault { IfErr result (IsOfShelf (S.Fails (S.place shelf.old))) }
    ensures place { S.place shelf.new ≡ S.place shelf.old }
{
    let report = put_text(shelf, "volume.txt", facts.report)?;
    let text = info_text(alloc, facts, bytes, files)?;
    let info = put_text(shelf, "bag-info.txt", text.as_str())?;
    let declaration = put_text(
        shelf,
        "bagit.txt",
        "BagIt-Version: 1.0\nTag-File-Character-Encoding: UTF-8\n",
    )?;
    Ok((report, info, declaration))
}

/// Gives the manifest of the tag files.
fn give_last<S: Shelf>(alloc: Global, shelf: &mut S, tags: &TagDigests) -> Result<(), BagFault>
    ensures whole { OnOk result (S.given shelf.new ≡ with_whole_file (S.given shelf.old)
        (codes "tagmanifest-sha256.txt") (tag_lines tags.now)) }
    ensures part { OnErr result (IsBeginning (S.given shelf.new)
        (with_whole_file (S.given shelf.old) (codes "tagmanifest-sha256.txt")
        (tag_lines tags.now))) }
    ensures fault { IfErr result (IsOfShelf (S.Fails (S.place shelf.old))) }
    ensures place { S.place shelf.new ≡ S.place shelf.old }
{
    let text = tag_manifest(alloc, tags)?;
    put_text(shelf, "tagmanifest-sha256.txt", text.as_str())?;
    Ok(())
}

/// Gives the tag files of a payload that was given.
pub(crate) fn give_tags<S: Shelf, B: BagSource>(
    alloc: Global,
    shelf: &mut S,
    source: &mut B,
    facts: &BagFacts<'_>,
    given: &GivenPayload,
    files: u64,
) -> Result<(), BagFault>
    requires told { OfEach (B.Holds source.old)
        (λ image. given.now.digests.items ≡ map item_digests (B.state source.old image).all) }
    requires bytes { OfEach (B.Holds source.old)
        (λ image. given.now.bytes ≡ bytes_in (payload (B.state source.old image).all)) }
    requires files { OfEach (B.Holds source.old)
        (λ image. files ≡ files_in (payload (B.state source.old image).all)) }
    ensures whole { OnOk result (OfEach (B.Holds source.new)
        (λ image. S.given shelf.new ≡ S.given shelf.old ++ tag_files (B.state source.old image).all (B.state source.old image).tables facts.now)) }
    ensures part { OnErr result (OfEach (B.Holds source.new)
        (λ image. IsBeginning (S.given shelf.new) (S.given shelf.old ++ tag_files (B.state source.old image).all (B.state source.old image).tables facts.now))) }
    ensures fault { IfErr result (IsPassedOn (HasFailed B.Fails (B.Holds source.new))
        (S.Fails (S.place shelf.old))) }
    ensures place { S.place shelf.new ≡ S.place shelf.old }
    ensures narrows { OfEach (B.Holds source.new) (B.Holds source.old) }
{
    let first = give_first(alloc, shelf, source, given)?;
    let second = give_second(alloc, shelf, facts, given.bytes, files)?;
    let manifest = first.0;
    let table = first.1;
    let remains = first.2;
    let report = second.0;
    let info = second.1;
    let declaration = second.2;
    let tags = TagDigests {
        manifest,
        table,
        remains,
        report,
        info,
        declaration,
    };
    give_last(alloc, shelf, &tags)?;
    Ok(())
}
