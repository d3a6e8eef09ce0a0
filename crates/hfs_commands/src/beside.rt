//! New files next to others, under names that no file has.
ghost use Rattle.std.specs.Prelude.{◌≡◌, [], None, Some, IfOk, string_bytes};
ghost use Rattle.std.specs.Option.{option_map};
ghost use Rattle.hfs_commands.specs.Paths.{IsBeside, TellsFirst, leftover_text, path_beside};

use crate::paths::ShownPath;
use hfs_source::TrustedNewFile;
use std::alloc::{AllocError, Global};
use std::fs::OpenOptions;
use std::io::ErrorKind;
use std::os::unix::fs::OpenOptionsExt;
use std::rt::Files;
use std::{fmt, io};

/// How many names are tried for a file next to another.
const NAMES: u32 = 100;

/// A file that an interrupted run left, by its path. Its `Display` is what is printed about it.
#[derive(Drop)]
pub struct Leftover {
    pub path: String,
}

impl fmt::Display for Leftover {
    ghost output = { λ leftover. Some (leftover_text (string_bytes leftover.path)) };

    #[tactic(auto, unfolding(crate::specs::Paths::leftover_text))]
    fn fmt<W: fmt::Write>(&self, f: &mut fmt::Formatter<W>) -> fmt::Result {
        write!(
            f,
            "{} is there, left by a run that was stopped",
            ShownPath(self.path.as_str())
        )
    }
}

/// A file that was made, and its path.
#[derive(Drop)]
pub struct NewFile<F> {
    pub file: TrustedNewFile<F>,
    pub path: String,
}

/// The path of a new file next to another, with this number in its name.
#[tactic(auto, unfolding(crate::specs::Paths::path_beside))]
fn path_beside(alloc: Global, path: &str, number: u32) -> Result<String, AllocError>
    ensures { IfOk result (λ name. string_bytes name ≡ path_beside path.now number) }
{
    format!(in alloc; "{path}.{number}.new")
}

/// Makes a file that doesn't exist yet. Those whom this mode and the system's mask allow may read and write it.
fn create_new<R: Files>(rt: &R, path: &str, mode: u32) -> io::Result<R::File> {
    OpenOptions::new()
        .read(true)
        .write(true)
        .create_new(true)
        .mode(mode)
        .open(rt, path)
}

/// Makes a file next to another one, under the first of the names `PATH.0.new` to `PATH.99.new` that is free; also returns the
/// first file if that name was taken. Error: no file could be made, or all names are taken.
pub fn create_beside<R: Files + AllocGlobal>(
    rt: &R,
    path: &str,
    mode: u32,
    leftover: &mut Option<Leftover>,
) -> io::Result<NewFile<R::File>>
    requires { leftover.old ≡ None }
    ensures made { IfOk result (λ made. IsBeside path.now (string_bytes made.path)
        (option_map (λ told. string_bytes told.path) leftover.new)) }
    ensures new { IfOk result (λ made. made.file.log.steps ≡ []) }
    ensures told { TellsFirst path.now (option_map (λ told. string_bytes told.path) leftover.new) }
{
    for number in 0..NAMES {
        let name = path_beside(rt.alloc(), path, number)?;
        match create_new(rt, name.as_str(), mode) {
            Ok(file) => {
                let file = TrustedNewFile::new(file);
                return Ok(NewFile { file, path: name });
            }
            Err(error) => {
                if error.kind() != ErrorKind::AlreadyExists {
                    return Err(error);
                }
            }
        }
        if number == 0 {
            *leftover = Some(Leftover { path: name });
        }
    }
    Err(io::Error::from(ErrorKind::AlreadyExists))
}
