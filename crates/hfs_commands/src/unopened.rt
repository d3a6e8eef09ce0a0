//! Why nothing of a file was opened.
ghost use Rattle.std.specs.Prelude.{◌≡◌};
ghost use Rattle.hfs_commands.specs.declared.unopened.LeftFile.TheVariants.{Content, Nothing};

use crate::fault::Fault;
use crate::opened_file::OpenedFile;
use crate::seen_files::PartBlocks;
use crate::trusted_input::TrustedInput;
use std::io::{Read, Seek};

/// What was read of a file of which nothing was opened.
#[derive(Drop)]
pub enum LeftFile<F: Read + Seek> {
    /// Nothing, or nothing that says why.
    Nothing,
    /// An input that can't be sought in.
    Input(TrustedInput<F>),
    /// The bytes in which volumes were looked for.
    Content(OpenedFile<F>),
    /// The part that was asked for.
    Part(PartBlocks<F>),
}

/// Why what is asked for of a file was not opened, and what was read of it.
#[derive(Drop)]
pub struct UnopenedFile<'a, F: Read + Seek> {
    pub fault: Fault<'a>,
    pub left: LeftFile<F>,
}

impl<'a, F: Read + Seek> From<Fault<'a>> for UnopenedFile<'a, F> {
    ghost from_gives = { λ fault unopened. (unopened.fault ≡ fault) × (unopened.left ≡ Nothing) };

    fn from(fault: Fault<'a>) -> UnopenedFile<'a, F> {
        let left = LeftFile::Nothing;
        UnopenedFile { fault, left }
    }
}

impl<'a, F: Read + Seek + Drop> From<UnopenedFile<'a, F>> for Fault<'a> {
    ghost from_gives = { λ unopened fault. fault ≡ unopened.fault };

    fn from(unopened: UnopenedFile<'a, F>) -> Fault<'a> {
        unopened.fault
    }
}

/// A fault of what was looked for in a file's bytes, with the file.
pub(crate) fn with_file<'a, F: Read + Seek>(
    fault: Fault<'a>,
    file: OpenedFile<F>,
) -> UnopenedFile<'a, F>
    ensures fault { result.fault ≡ fault.entry }
    ensures left { result.left ≡ Content file }
{
    let left = LeftFile::Content(file);
    UnopenedFile { fault, left }
}
