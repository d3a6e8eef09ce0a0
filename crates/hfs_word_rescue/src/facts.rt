//! What a bag says about the image from which it was rescued.
ghost use Rattle.std.specs.Prelude.{◌≡◌, ◌*◌, ◌++◌, ℕ, List, Option, Some, replicate, IfOk, string_bytes};
ghost use Rattle.std.specs.Option.{option_map};
ghost use Rattle.hfs_commands.specs.Checks.{HasCheckLines};
ghost use Rattle.hfs_remains_forks.specs.Finds.{IsFoundIn};
ghost use Rattle.hfs_image.specs.Known.{OfKnown};
ghost use Rattle.hfs_source.specs.Images.{HasAt, OfEach};
ghost use Rattle.hfs_source.specs.Seen.{EachKnown};
ghost use Rattle.hfs_word_take.specs.Bags.{IsDigestTold};
ghost use Rattle.hfs_word_rescue.specs.Bags.{IsDirectoryTold, IsReportTold, IsToldOf, directory_text};

use crate::words::BagWords;
use hfs_bag::SourceFault;
use hfs_commands::CheckAnswer;
use hfs_remains_forks::Finds;
use hfs_rescue_items::field_name;
use hfs_source::{PlacedBlocks, SeenBlocks};
use hfs_word_take::{image_digest, image_name, plain_name, report_text};
use std::alloc::{AllocError, Global};

/// What a bag says about an image before its items are read.
#[derive(Drop)]
pub(crate) struct Told {
    /// The name of its volume.
    pub(crate) identifier: String,
    /// The last part of its path.
    pub(crate) name: String,
    /// The block of its directory, if the bag is to name it.
    pub(crate) directory: Option<String>,
    /// Its digest, if the bag is to have it.
    pub(crate) digest: Option<[u8; 32]>,
    /// The lines of its directory, and those of its check.
    pub(crate) report: String,
}

/// The first 1,536 bytes of a volume that has this block as its directory.
fn head_with(block: &[u8; 512]) -> [u8; 1536]
    ensures { result ≡ replicate 1024 0 ++ block.now }
{
    let mut head = [0; 1536];
    head[1024..].copy_from_slice(block);
    head
}

/// The block of an image that is taken for its directory.
fn directory_block<S: PlacedBlocks>(
    source: &mut SeenBlocks<S>,
    directory: u32,
) -> Result<[u8; 512], SourceFault>
    ensures block { IfOk result (λ block. OfEach (S.Holds source.new.blocks)
        (HasAt (512 * directory) block)) }
    ensures narrows { OfEach (S.Holds source.new.blocks) (S.Holds source.old.blocks) }
{
    let mut block = [0; 512];
    match source.blocks.read_blocks(directory, &mut block) {
        Ok(()) => Ok(block),
        Err(_) => Err(SourceFault::ReadFailed),
    }
}

/// The lines of an image's directory, and those of its check.
fn report_of<S: PlacedBlocks>(
    alloc: Global,
    source: &mut SeenBlocks<S>,
    len: u64,
    check: &CheckAnswer,
    finds: &Finds,
) -> Result<String, SourceFault>
    requires lines { EachKnown (S.Holds source.old.blocks)
        (λ known. OfKnown known len (HasCheckLines check.now.lines)) }
    requires finds { EachKnown (S.Holds source.old.blocks)
        (λ known. OfKnown known len (λ image. IsFoundIn image (Some finds.now))) }
    ensures text { IfOk result (λ text. EachKnown (S.Holds source.new.blocks)
        (λ known. IsReportTold known len finds.now.mdb (string_bytes text))) }
    ensures narrows { OfEach (S.Holds source.new.blocks) (S.Holds source.old.blocks) }
{
    let block = directory_block(source, finds.directory)?;
    let head = head_with(&block);
    let text = report_text(alloc, &head, check.lines.as_str())?;
    Ok(text)
}

/// A block that is taken for the directory, and whether it is a guess; None for block 2, where the directory belongs, unless it
/// is a guess.
fn directory_text(alloc: Global, block: u32, is_unsure: bool) -> Result<Option<String>, AllocError>
    ensures { IfOk result (λ text. option_map string_bytes text ≡ directory_text block is_unsure) }
{
    if is_unsure {
        let text = format!(in alloc; "{block} unsure")?;
        return Ok(Some(text));
    }
    if block == 2 {
        return Ok(None);
    }
    let text = format!(in alloc; "{block}")?;
    Ok(Some(text))
}

/// What the bag says about the block of an image that was taken for its directory.
#[tactic(auto, using(crate::proofs::FactLemmas::directory_known))]
fn directory_of(alloc: Global, finds: &Finds) -> Result<Option<String>, SourceFault>
    ensures { (known : Option (List ℕ)) (len : ℕ)
        → OfKnown known len (λ image. IsFoundIn image (Some finds.now))
        → IfOk result (λ told. IsDirectoryTold known len finds.now.mdb (option_map string_bytes told)) }
{
    match directory_text(alloc, finds.directory, finds.is_unsure) {
        Ok(told) => Ok(told),
        Err(_) => Err(SourceFault::Memory),
    }
}

/// The digest of an image, if the bag is to have it.
fn digest_of<S: PlacedBlocks>(
    alloc: Global,
    source: &mut SeenBlocks<S>,
    len: u64,
    is_digested: bool,
) -> Result<Option<[u8; 32]>, SourceFault>
    ensures digest { IfOk result (λ told. EachKnown (S.Holds source.new.blocks)
        (λ known. IsDigestTold known len is_digested told)) }
    ensures narrows { OfEach (S.Holds source.new.blocks) (S.Holds source.old.blocks) }
{
    if !is_digested {
        return Ok(None);
    }
    let digest = image_digest(alloc, source, len)?;
    Ok(Some(digest))
}

/// What a bag says about an image before its items are read.
pub(crate) fn told_of<S: PlacedBlocks>(
    alloc: Global,
    source: &mut SeenBlocks<S>,
    len: u64,
    check: &CheckAnswer,
    finds: &Finds,
    words: &BagWords<'_>,
) -> Result<Told, SourceFault>
    requires lines { EachKnown (S.Holds source.old.blocks)
        (λ known. OfKnown known len (HasCheckLines check.now.lines)) }
    requires finds { EachKnown (S.Holds source.old.blocks)
        (λ known. OfKnown known len (λ image. IsFoundIn image (Some finds.now))) }
    ensures told { IfOk result (λ told. EachKnown (S.Holds source.new.blocks)
        (λ known. IsToldOf known len finds.now.mdb words.now told)) }
    ensures narrows { OfEach (S.Holds source.new.blocks) (S.Holds source.old.blocks) }
{
    let report = report_of(alloc, source, len, check, finds)?;
    let Ok(identifier) = plain_name(alloc, field_name(&finds.mdb.volume_name)) else {
        return Err(SourceFault::Memory);
    };
    let Ok(name) = image_name(alloc, words.words.image) else {
        return Err(SourceFault::Memory);
    };
    let directory = directory_of(alloc, finds)?;
    let digest = digest_of(alloc, source, len, words.is_digested)?;
    Ok(Told {
        identifier,
        name,
        directory,
        digest,
        report,
    })
}
