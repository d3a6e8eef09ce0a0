//! The lines of a master directory block, one for each field.
ghost use Rattle.std.specs.Prelude.{◌≡◌, ℕ, List, OnOk, IfOk, IsErrOf, string_bytes};
ghost use Rattle.std.specs.Io.KnownBytes.{Appends};
ghost use Rattle.hfs_texts.specs.Reading.{GaveHead, HasSignature, info_text, GaveFewer, GaveLast};
ghost use Rattle.hfs_texts.specs.Writing.{AppendsFront, OnOtherErr};
ghost use Rattle.hfs_texts.specs.Info.{first_lines, middle_lines, last_lines, info_lines};
ghost use Rattle.hfs_texts.specs.Texts.{Gains};

use crate::input::fill;
use crate::output::put;
use crate::text::{Hex, ShownExtents, ShownName, push_line};
use hfs_fields::Mdb;
use std::alloc::{AllocError, Global};
use std::io::{Read, Write};
use thiserror::Error;

/// The signature of an HFS volume, in drSigWord.
const SIGNATURE: u16 = 0x4244;

/// Why no lines, or not all of them, were written.
#[derive(Debug, Drop, Error)]
pub enum InfoFault {
    /// The input ended before 1,536 bytes.
    #[error("image too short")]
    Short,
    /// 1,536 bytes were read, but drSigWord is not $4244.
    #[error("not an HFS volume")]
    NoMacDisk,
    /// The reader failed before 1,536 bytes.
    #[error("cannot read")]
    ReadFailed,
    /// The writer failed, and only the beginning of the lines may have been written.
    #[error("cannot write")]
    WriteFailed,
    /// Memory for the text was refused.
    #[error("out of memory")]
    Memory,
}

/// Reads the first 1,536 bytes of a volume, and no more, and writes the 30 lines of its master directory block
/// (`docs/FORMATS.md`). The block is logical block 2, which begins at byte 1,024 (Inside Macintosh: Files, chapter 2, "Master
/// Directory Blocks").
///
/// The whole text is made before its first byte is written, so nothing was written at any fault but `WriteFailed`.
pub fn run_info<R: Read, W: Write>(
    alloc: Global,
    reader: &mut R,
    writer: &mut W,
) -> Result<(), InfoFault>
    // 1,536 bytes were read; their lines were written, and nothing else.
    ensures ok { OnOk result ((head : List ℕ)
        × GaveHead (R.remaining reader.old) (R.remaining reader.new) head × HasSignature head
        × Appends (W.contents writer.old) (W.contents writer.new) (info_text head)) }
    // The input ended earlier.
    ensures short { IsErrOf result InfoFault.Short
        → GaveLast (R.remaining reader.old) (R.remaining reader.new) 1536 }
    // 1,536 bytes were read, and the signature is another one.
    ensures no_mac_disk { IsErrOf result InfoFault.NoMacDisk → (head : List ℕ)
        × GaveHead (R.remaining reader.old) (R.remaining reader.new) head × ¬ HasSignature head }
    // The reader failed before that.
    ensures read_failed { IsErrOf result InfoFault.ReadFailed
        → GaveFewer (R.remaining reader.old) (R.remaining reader.new) 1536 }
    // The volume was read and has the signature, and only writing its lines failed: a beginning of them was written.
    ensures write_failed { IsErrOf result InfoFault.WriteFailed → (head : List ℕ)
        × GaveHead (R.remaining reader.old) (R.remaining reader.new) head × HasSignature head
        × AppendsFront (W.contents writer.old) (W.contents writer.new) (info_text head) }
    // The volume was read and has the signature, and there is no text.
    ensures memory { IsErrOf result InfoFault.Memory → (head : List ℕ)
        × GaveHead (R.remaining reader.old) (R.remaining reader.new) head × HasSignature head }
    // Nothing was written.
    ensures unwritten { OnOtherErr result InfoFault.WriteFailed (writer.new ≡ writer.old) }
{
    let mut head = [0; 1536];
    let Ok(count) = fill(reader, &mut head) else {
        return Err(InfoFault::ReadFailed);
    };
    if count < head.len() {
        return Err(InfoFault::Short);
    }
    let mut block = [0; 512];
    block.copy_from_slice(&head[1024..]);
    let mdb = Mdb::read(&block);
    if mdb.signature != SIGNATURE {
        return Err(InfoFault::NoMacDisk);
    }
    let Ok(text) = info_lines(alloc, &mdb) else {
        return Err(InfoFault::Memory);
    };
    let Ok(()) = put(writer, text.as_bytes()) else {
        return Err(InfoFault::WriteFailed);
    };
    let Ok(()) = writer.flush() else {
        return Err(InfoFault::WriteFailed);
    };
    Ok(())
}

/// The lines, one for each field.
#[tactic(auto, unfolding(crate::specs::Info::info_lines))]
pub fn info_lines(alloc: Global, mdb: &Mdb) -> Result<String, AllocError>
    ensures { IfOk result (λ text. string_bytes text ≡ info_lines mdb.now) }
{
    let mut text = String::new(alloc);
    push_first_lines(&mut text, mdb)?;
    push_middle_lines(&mut text, mdb)?;
    push_last_lines(&mut text, mdb)?;
    Ok(text)
}

#[tactic(auto, unfolding(crate::specs::Info::first_lines))]
fn push_first_lines(text: &mut String, mdb: &Mdb) -> Result<(), AllocError>
    ensures { OnOk result (Gains text.old text.new (first_lines mdb.now)) }
{
    push_line(text, "drSigWord", Hex(&mdb.signature.to_be_bytes()))?;
    push_line(text, "drCrDate", mdb.created)?;
    push_line(text, "drLsMod", mdb.modified)?;
    push_line(text, "drAtrb", Hex(&mdb.attributes.0.to_be_bytes()))?;
    push_line(text, "drNmFls", mdb.root_files)?;
    push_line(text, "drVBMSt", mdb.bitmap_start)?;
    push_line(text, "drAllocPtr", mdb.allocation_pointer)?;
    push_line(text, "drNmAlBlks", mdb.allocation_blocks)?;
    push_line(text, "drAlBlkSiz", mdb.allocation_block_size)?;
    push_line(text, "drClpSiz", mdb.clump_size)
}

#[tactic(auto, unfolding(crate::specs::Info::middle_lines))]
fn push_middle_lines(text: &mut String, mdb: &Mdb) -> Result<(), AllocError>
    ensures { OnOk result (Gains text.old text.new (middle_lines mdb.now)) }
{
    push_line(text, "drAlBlSt", mdb.allocation_start)?;
    push_line(text, "drNxtCNID", mdb.next_id)?;
    push_line(text, "drFreeBks", mdb.free_blocks)?;
    push_line(text, "drVN", ShownName(&mdb.volume_name))?;
    push_line(text, "drVolBkUp", mdb.backup)?;
    push_line(text, "drVSeqNum", mdb.backup_sequence)?;
    push_line(text, "drWrCnt", mdb.write_count)?;
    push_line(text, "drXTClpSiz", mdb.extents_clump_size)?;
    push_line(text, "drCTClpSiz", mdb.catalog_clump_size)?;
    push_line(text, "drNmRtDirs", mdb.root_folders)
}

#[tactic(auto, unfolding(crate::specs::Info::last_lines))]
fn push_last_lines(text: &mut String, mdb: &Mdb) -> Result<(), AllocError>
    ensures { OnOk result (Gains text.old text.new (last_lines mdb.now)) }
{
    push_line(text, "drFilCnt", mdb.files)?;
    push_line(text, "drDirCnt", mdb.folders)?;
    push_line(text, "drFndrInfo", Hex(&mdb.finder_info))?;
    push_line(text, "drVCSize", mdb.cache_size)?;
    push_line(text, "drVBMCSize", mdb.bitmap_cache_size)?;
    push_line(text, "drCtlCSize", mdb.control_cache_size)?;
    push_line(text, "drXTFlSize", mdb.extents_file_size)?;
    push_line(text, "drXTExtRec", ShownExtents(&mdb.extents_file))?;
    push_line(text, "drCTFlSize", mdb.catalog_file_size)?;
    push_line(text, "drCTExtRec", ShownExtents(&mdb.catalog_file))
}
