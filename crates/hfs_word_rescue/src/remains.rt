//! What remains of a refused image, read from where it was looked at.
ghost use Rattle.std.specs.Prelude.{◌≡◌, Err, Some, IfErr, IfOk, IfSome, OnErr, OnOk, string_bytes};
ghost use Rattle.std.specs.Io.KnownBytes.{Appends};
ghost use Rattle.std.specs.Option.{option_map};
ghost use Rattle.hfs_commands.specs.Checks.{IsCheckFault, refused_line};
ghost use Rattle.hfs_commands.specs.Faults.{IsUnprinted};
ghost use Rattle.hfs_image.specs.Known.{OfKnown};
ghost use Rattle.hfs_rescue_items.specs.Paths.{path_end};
ghost use Rattle.hfs_rescue_items.specs.Rows.{selected_text};
ghost use Rattle.hfs_source.specs.Images.{OfEach};
ghost use Rattle.hfs_source.specs.Seen.{EachKnown};
ghost use Rattle.hfs_texts.specs.Writing.{AppendsFront};
ghost use Rattle.hfs_word_rescue.specs.Shown.{OfEachFound, end_bytes, end_rows, folder_told, fork_told, found_page, found_status};

use crate::image::RescuedImage;
use crate::paging::write_found_page;
use crate::showing::{
    ShownFork, image_fault, write_found_folder, write_found_fork, write_found_items,
};
use crate::words::RescueWords;
use hfs_check::MountFault;
use hfs_commands::{CheckAnswer, CopyFault, Fault, Format, refused_text};
use hfs_model::Reply;
use hfs_remains_forks::RefusedImage;
use hfs_remains_page::RemainsTexts;
use hfs_rescue_items::Selection;
use hfs_source::PlacedBlocks;
use hfs_space::ForkKind;
use std::alloc::{AllocError, Global};
use std::io::Write;

/// What remains of an image that is refused.
#[derive(Drop)]
pub struct Remains<S: PlacedBlocks> {
    image: RescuedImage<S>,
}

/// What is printed for the check of an image that is refused for this fault.
fn refused_check(alloc: Global, why: MountFault) -> Result<CheckAnswer, AllocError>
    ensures fault { IfOk result (λ check. check.fault ≡ Some why) }
    ensures lines { IfOk result (λ check. string_bytes check.lines ≡ refused_line why) }
{
    let (status, lines) = refused_text(alloc, why)?;
    Ok(CheckAnswer {
        fault: Some(why),
        status,
        lines,
    })
}

/// What remains of an image that was looked at and is refused; None if nothing is found of it. Fails only when out of memory.
pub fn remains_of<S: PlacedBlocks + Drop>(
    alloc: Global,
    image: RefusedImage<S>,
) -> Result<Option<Remains<S>>, AllocError>
    ensures found { IfOk result (λ remains. option_map (λ some. some.image.finds) remains
        ≡ image.found) }
    ensures source { IfOk result (λ remains. IfSome remains
        (λ some. some.image.source ≡ image.source)) }
    ensures fault { IfOk result (λ remains. IfSome remains
        (λ some. some.image.check.fault ≡ Some image.why)) }
{
    let RefusedImage {
        source,
        len,
        why,
        found,
    } = image;
    let Some(finds) = found else {
        return Ok(None);
    };
    let check = refused_check(alloc, why)?;
    let image = RescuedImage {
        source,
        len,
        line: None,
        check,
        finds,
    };
    Ok(Some(Remains { image }))
}

impl<S: PlacedBlocks + Drop> Remains<S> {
    /// The fault of the image's check; None for a sound image.
    pub fn fault(&self) -> Option<MountFault>
        ensures { EachKnown (S.Holds self.now.image.source.blocks)
            (λ known. OfKnown known self.now.image.len (IsCheckFault result)) }
    {
        image_fault(&self.image)
    }

    /// Writes the table of what was found, as [`write_found_items`] does.
    pub fn write_items<W: Write>(
        &self,
        alloc: Global,
        writer: &mut W,
        words: &RescueWords<'_>,
        format: Format,
    ) -> Result<u8, Fault<'static>>
        ensures written { OnOk result (OfEachFound (S.Holds self.now.image.source.blocks) self.now.image.len words.now
            (λ bytes found. Appends (W.contents writer.old) (W.contents writer.new)
            (selected_text (Selection.All format) found))) }
        ensures part { OnErr result (OfEachFound (S.Holds self.now.image.source.blocks) self.now.image.len words.now
            (λ bytes found. AppendsFront (W.contents writer.old) (W.contents writer.new)
            (selected_text (Selection.All format) found))) }
        ensures status { IfOk result (λ status. OfEachFound (S.Holds self.now.image.source.blocks) self.now.image.len words.now
            (λ bytes found. status ≡ found_status bytes found)) }
        ensures faults { IfErr result IsUnprinted }
    {
        write_found_items(alloc, writer, &self.image, words, format)
    }

    /// Writes the page of what was found, with this fault in words, as [`write_found_page`] does.
    pub fn write_page<W: Write>(
        &self,
        alloc: Global,
        writer: &mut W,
        words: &RescueWords<'_>,
        why: MountFault,
        texts: &RemainsTexts<'_>,
    ) -> Result<u8, Fault<'static>>
        ensures written { OnOk result (OfEachFound (S.Holds self.now.image.source.blocks) self.now.image.len words.now
            (λ bytes found. Appends (W.contents writer.old) (W.contents writer.new)
            (found_page texts.now why found))) }
        ensures part { OnErr result (OfEachFound (S.Holds self.now.image.source.blocks) self.now.image.len words.now
            (λ bytes found. AppendsFront (W.contents writer.old) (W.contents writer.new)
            (found_page texts.now why found))) }
        ensures status { IfOk result (λ status. OfEachFound (S.Holds self.now.image.source.blocks) self.now.image.len words.now
            (λ bytes found. status ≡ found_status bytes found)) }
        ensures faults { IfErr result IsUnprinted }
    {
        write_found_page(alloc, writer, &self.image, words, why, texts)
    }

    /// Writes the rows of a folder, as [`write_found_folder`] does.
    pub fn write_folder<W: Write>(
        &self,
        alloc: Global,
        writer: &mut W,
        words: &RescueWords<'_>,
        path: &str,
    ) -> Result<Result<u8, Reply>, Fault<'static>>
        ensures written { OnOk result (OfEachFound (S.Holds self.now.image.source.blocks) self.now.image.len words.now
            (λ bytes found. Appends (W.contents writer.old) (W.contents writer.new)
            (end_rows found (path_end found path.now)))) }
        ensures part { OnErr result (OfEachFound (S.Holds self.now.image.source.blocks) self.now.image.len words.now
            (λ bytes found. AppendsFront (W.contents writer.old) (W.contents writer.new)
            (end_rows found (path_end found path.now)))) }
        ensures told { IfOk result (λ told. OfEachFound (S.Holds self.now.image.source.blocks) self.now.image.len words.now
            (λ bytes found. told ≡ folder_told bytes found (path_end found path.now))) }
        ensures faults { IfErr result IsUnprinted }
    {
        write_found_folder(alloc, writer, &self.image, words, path)
    }

    /// Writes the bytes of a fork, as [`write_found_fork`] does.
    pub fn write_fork<W: Write>(
        self,
        alloc: Global,
        writer: &mut W,
        words: &RescueWords<'_>,
        path: &str,
        kind: ForkKind,
    ) -> ShownFork<S>
        ensures written { OnOk result.told (OfEachFound (S.Holds result.source.blocks) self.image.len words.now
            (λ bytes found. Appends (W.contents writer.old) (W.contents writer.new)
            (end_bytes bytes found kind (path_end found path.now)))) }
        ensures part { OnErr result.told (OfEachFound (S.Holds result.source.blocks) self.image.len words.now
            (λ bytes found. AppendsFront (W.contents writer.old) (W.contents writer.new)
            (end_bytes bytes found kind (path_end found path.now)))) }
        ensures told { IfOk result.told (λ told. OfEachFound (S.Holds result.source.blocks) self.image.len words.now
            (λ bytes found. told ≡ fork_told found kind (path_end found path.now))) }
        ensures none { result.told ≡ Err CopyFault.ReadFailed → writer.new ≡ writer.old }
        ensures memory { result.told ≡ Err CopyFault.Memory → writer.new ≡ writer.old }
        ensures narrows { OfEach (S.Holds result.source.blocks) (S.Holds self.image.source.blocks) }
    {
        write_found_fork(alloc, writer, self.image, words, path, kind)
    }
}
