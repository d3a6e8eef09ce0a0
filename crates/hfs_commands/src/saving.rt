//! Files that are written in place of what they held.
ghost use Rattle.std.specs.Prelude.{◌≡◌, [], None, Some, IfErr, IfOk, OnOk, string_bytes};
ghost use Rattle.std.specs.Option.{option_map};
ghost use Rattle.hfs_source.specs.Images.{OfEach};
ghost use Rattle.hfs_source.specs.Writes.{bytes_after};
ghost use Rattle.hfs_commands.specs.Saving.{IsNoPlace, IsOpenTarget, IsUnmade, IsUnsaved, TellsSomeFirst};
ghost use Rattle.hfs_commands.specs.Paths.{TellsFirst};

use crate::beside::{Leftover, NewFile, create_beside};
use crate::contents::{Contents, ReadContents, UnwrittenFault, Whole, fill};
use crate::fault::Fault;
use crate::free_place::FreePlace;
use hfs_source::TrustedNewFile;
use std::fs::{File, Metadata, OpenFile, OpenOptions};
use std::io::ErrorKind;
use std::os::unix::fs::MetadataExt;
use std::rt::Files;
use std::{fs, io};

/// The mode of a new file: everyone may read and write it whom the system's mask allows.
const FOR_ALL: u32 = 0o666;

/// The mode of a file that is to replace another, until it gets that one's permissions.
const FOR_OWNER: u32 = 0o600;

/// What is at a path that is to be written.
#[derive(Drop)]
enum Target {
    /// Nothing, so a file is made.
    Nothing,
    /// A regular file, perhaps behind a link, that may be written.
    Regular(Metadata),
    /// Anything else, such as a device or a pipe.
    Other,
}

/// What is at a path that is to be written. Error: it is a link that leads to no file, or a regular file that nobody may write or
/// that can't be opened for writing, or the path can't be looked up.
fn target_of<R: Files>(rt: &R, path: &str) -> io::Result<Target>
    ensures { IfOk result IsOpenTarget }
{
    match rt.metadata(path) {
        Ok(found) => opened_target(rt, path, found),
        Err(error) => {
            if error.kind() == ErrorKind::NotFound {
                free_target(rt, path)
            } else {
                Err(error)
            }
        }
    }
}

/// The target at a path where no file is found: nothing, if there is no link either.
fn free_target<R: Files>(rt: &R, path: &str) -> io::Result<Target>
    ensures { IfOk result IsOpenTarget }
{
    match rt.symlink_metadata(path) {
        Ok(_) => Err(io::Error::from(ErrorKind::NotFound)),
        Err(error) => {
            if error.kind() == ErrorKind::NotFound {
                Ok(Target::Nothing)
            } else {
                Err(error)
            }
        }
    }
}

/// The target at a path where this was found. A regular file is opened for writing, but not truncated.
fn opened_target<R: Files>(rt: &R, path: &str, found: Metadata) -> io::Result<Target>
    ensures { IfOk result IsOpenTarget }
{
    if !found.is_file() {
        return Ok(Target::Other);
    }
    if found.permissions().readonly() {
        return Err(io::Error::from(ErrorKind::PermissionDenied));
    }
    OpenOptions::new().write(true).open(rt, path)?;
    Ok(Target::Regular(found))
}

/// The path of the file that a path leads to: the path itself, if it isn't a link.
fn real_path<R: Files + AllocGlobal>(rt: &R, path: &str) -> io::Result<String> {
    if rt.symlink_metadata(path)?.is_symlink() {
        return Ok(fs::canonicalize(rt, path)?.into_string());
    }
    Ok(String::from_str(rt.alloc(), path)?)
}

/// Gives a new file the permissions of another, and its owner and group as far as the system allows.
fn keep_access<R: Files>(rt: &R, file: &R::File, path: &str, old: &Metadata) -> io::Result<()> {
    let _group = rt.lchown(path, None, Some(old.gid()));
    let _owner = rt.lchown(path, Some(old.uid()), None);
    file.set_permissions(old.permissions())
}

/// Writes a new file, and all of it to the device; then it has these bytes and no others. It gets the access of the file that it
/// is to replace.
fn fill_new<R: Files, C: ReadContents>(
    rt: &R,
    file: TrustedNewFile<R::File>,
    path: &str,
    contents: &mut C,
    old: Option<Metadata>,
) -> Result<TrustedNewFile<R::File>, UnwrittenFault>
    requires { file.log.steps ≡ [] }
    ensures filled { IfOk result (λ file. OfEach (C.Holds contents.new)
        (λ bytes. bytes_after file.log.steps ≡ Some bytes)) }
    ensures narrows { OfEach (C.Holds contents.new) (C.Holds contents.old) }
    ensures kept { C.kept contents.new ≡ C.kept contents.old }
    ensures settled { OnOk result (C.settled contents.new) }
{
    let file = fill(contents, file)?;
    if let Some(old) = old {
        keep_access(rt, file.file(), path, &old)?;
    }
    file.file().sync_all()?;
    Ok(file)
}

/// Writes to a file next to this path, and renames that over it. At an error the path is as it was, and the file next to it is
/// gone, if it can be removed. Also returns the first file whose name was taken.
fn replace<R: Files + AllocGlobal, C: ReadContents>(
    rt: &R,
    path: &str,
    contents: &mut C,
    old: Option<Metadata>,
    leftover: &mut Option<Leftover>,
) -> Result<(), UnwrittenFault>
    requires { leftover.old ≡ None }
    ensures told { TellsFirst path.now
        (option_map (λ told. string_bytes told.path) leftover.new) }
    ensures settled { OnOk result (C.settled contents.new) }
{
    let mode = if old.is_some() { FOR_OWNER } else { FOR_ALL };
    let NewFile { file, path: beside } = create_beside(rt, path, mode, leftover)?;
    let placed = match fill_new(rt, file, beside.as_str(), contents, old) {
        Ok(_file) => place(rt, beside.as_str(), path),
        Err(fault) => Err(fault),
    };
    if placed.is_err() {
        let _removed = fs::remove_file(rt, beside.as_str());
    }
    placed
}

/// Renames a file that is whole over a path.
fn place<R: Files>(rt: &R, beside: &str, path: &str) -> Result<(), UnwrittenFault> {
    fs::rename(rt, beside, path)?;
    Ok(())
}

/// Writes to a path: where a link leads to, and directly if no regular file is there. Also returns the first file next to it
/// whose name was taken.
fn save_at<R: Files + AllocGlobal, C: ReadContents>(
    rt: &R,
    path: &str,
    contents: &mut C,
    leftover: &mut Option<Leftover>,
) -> Result<(), UnwrittenFault>
    requires { leftover.old ≡ None }
    ensures told { TellsSomeFirst (option_map (λ told. string_bytes told.path) leftover.new) }
    ensures settled { OnOk result (C.settled contents.new) }
{
    match target_of(rt, path)? {
        Target::Nothing => replace(rt, path, contents, None, leftover),
        Target::Regular(old) => {
            let real = real_path(rt, path)?;
            replace(rt, real.as_str(), contents, Some(old), leftover)
        }
        Target::Other => {
            let mut device = File::create(rt, path)?;
            contents.write_to(&mut device)
        }
    }
}

/// How writing a file went.
#[derive(Drop)]
pub struct Saved<'a> {
    /// The first of the files next to it that were already there, if any.
    pub leftover: Option<Leftover>,
    /// Whether it was written. Fault: `CannotWrite`.
    pub written: Result<(), Fault<'a>>,
}

/// Writes a file, in place of what it held. The bytes go to a file next to it, and to the device, before that file is renamed
/// over it, so a write that fails leaves the file as it was. A link to a file is followed. Permissions are kept, and owner and
/// group where the system allows it. What isn't a regular file is written directly. Fault: `CannotWrite`, also if a link leads to
/// no file, and if nobody may write the file or it can't be opened for writing.
pub fn save_file<'a, R: Files + AllocGlobal, C: Contents>(
    rt: &R,
    path: &'a str,
    contents: &C,
) -> Saved<'a>
    ensures fault { IfErr result.written (λ fault. fault ≡ Fault.CannotWrite path.entry) }
    ensures told { TellsSomeFirst (option_map (λ told. string_bytes told.path) result.leftover) }
{
    let mut leftover = None;
    let mut whole = Whole(contents);
    let written = match save_at(rt, path, &mut whole, &mut leftover) {
        Ok(()) => Ok(()),
        Err(_) => Err(Fault::CannotWrite(path)),
    };
    Saved { leftover, written }
}

/// Writes a file as [`save_file`] does, from contents that are read from a file `source` while they are written. Faults:
/// `CannotRead` of that file if a read fails, or if it has changed since it was opened; `CannotWrite` as for [`save_file`];
/// `NoMemory`. Then nothing is renamed.
pub fn save_read<'a, R: Files + AllocGlobal, C: ReadContents>(
    rt: &R,
    path: &'a str,
    source: &'a str,
    contents: &mut C,
) -> Saved<'a>
    ensures fault { IfErr result.written (IsUnsaved source.entry path.entry) }
    ensures told { TellsSomeFirst (option_map (λ told. string_bytes told.path) result.leftover) }
    ensures settled { OnOk result.written (C.settled contents.new) }
{
    let mut leftover = None;
    let written = match save_at(rt, path, contents, &mut leftover) {
        Ok(()) => Ok(()),
        Err(fault) => Err(Fault::of_unwritten(fault, source, path)),
    };
    Saved { leftover, written }
}

/// Makes a file next to a path, and writes it whole. At an error it is gone, if it can be removed. Also returns the first file
/// whose name was taken.
fn filled_beside<R: Files + AllocGlobal, C: ReadContents>(
    rt: &R,
    path: &str,
    contents: &mut C,
    leftover: &mut Option<Leftover>,
) -> Result<NewFile<R::File>, UnwrittenFault>
    requires { leftover.old ≡ None }
    ensures told { TellsFirst path.now
        (option_map (λ told. string_bytes told.path) leftover.new) }
    ensures settled { OnOk result (C.settled contents.new) }
{
    let NewFile { file, path: beside } = create_beside(rt, path, FOR_ALL, leftover)?;
    match fill_new(rt, file, beside.as_str(), contents, None) {
        Ok(file) => Ok(NewFile { file, path: beside }),
        Err(fault) => {
            let _removed = fs::remove_file(rt, beside.as_str());
            Err(fault)
        }
    }
}

/// Gives a file that is whole the name of a free place.
fn name_new<'a, R: Files, F>(
    rt: &R,
    made: &NewFile<F>,
    path: &'a str,
    _free: FreePlace,
) -> Result<(), Fault<'a>>
    ensures { IfErr result (λ fault. fault ≡ Fault.CannotWrite path.entry) }
{
    match fs::rename(rt, made.path.as_str(), path) {
        Ok(()) => Ok(()),
        Err(_) => Err(Fault::CannotWrite(path)),
    }
}

/// Gives a file that is whole its name, if that is still free. At a fault it is gone, if it can be removed.
fn place_new<'a, R: Files>(rt: &R, made: &NewFile<R::File>, path: &'a str) -> Result<(), Fault<'a>>
    ensures { IfErr result (IsNoPlace path.entry) }
{
    let placed = match FreePlace::of(rt.symlink_metadata(path), path) {
        Ok(free) => name_new(rt, made, path, free),
        Err(fault) => Err(fault),
    };
    if placed.is_err() {
        let _removed = fs::remove_file(rt, made.path.as_str());
    }
    placed
}

/// Writes a new file at a free place.
fn make_at<'a, R: Files + AllocGlobal, C: ReadContents>(
    rt: &R,
    path: &'a str,
    source: &'a str,
    contents: &mut C,
    leftover: &mut Option<Leftover>,
    _free: FreePlace,
) -> Result<(), Fault<'a>>
    requires { leftover.old ≡ None }
    ensures fault { IfErr result (IsUnmade source.entry path.entry) }
    ensures told { TellsSomeFirst (option_map (λ told. string_bytes told.path) leftover.new) }
    ensures settled { OnOk result (C.settled contents.new) }
{
    match filled_beside(rt, path, contents, leftover) {
        Ok(made) => place_new(rt, &made, path),
        Err(fault) => Err(Fault::of_unwritten(fault, source, path)),
    }
}

/// Makes a new file, from contents that are read from a file `source` while they are written. The bytes go to a file next to it,
/// and to the device, before that file gets its name, so the new file is whole or not there. Faults: `IsThere` if something has
/// its name before the first byte is read, or by the time it is to be named; `CannotRead` of the source; `CannotWrite`;
/// `NoMemory`.
pub fn save_new<'a, R: Files + AllocGlobal, C: ReadContents>(
    rt: &R,
    path: &'a str,
    source: &'a str,
    contents: &mut C,
) -> Saved<'a>
    ensures fault { IfErr result.written (IsUnmade source.entry path.entry) }
    ensures told { TellsSomeFirst (option_map (λ told. string_bytes told.path) result.leftover) }
    ensures settled { OnOk result.written (C.settled contents.new) }
{
    let mut leftover = None;
    let written = match FreePlace::of(rt.symlink_metadata(path), path) {
        Ok(free) => make_at(rt, path, source, contents, &mut leftover, free),
        Err(fault) => Err(fault),
    };
    Saved { leftover, written }
}
