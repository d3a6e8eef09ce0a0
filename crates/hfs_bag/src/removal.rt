//! Removing a folder with everything in it.
ghost use Rattle.std.specs.Prelude.{◌≡◌, ◌<◌, ◌∷◌, [], length, IfOk, IfSome, MatchOption, MatchResult, string_bytes};
ghost use Rattle.hfs_bag.specs.Listings.{HasEmptied, HasEmptiedTo, HasRemovedTo, ended_names, is_entry, names_in, with_removals};
ghost use Rattle.hfs_bag.specs.Removals.{HasSince, IsTakenAway, RemovesIn};
ghost use Rattle.hfs_bag.specs.Tries.{AnswersTried, HasNextPlace, IsAround, is_stopped, path_below, place_at, some_of};

use crate::paths::path_within;
use crate::system::{FileSystem, Removal};
use std::alloc::{AllocError, Global};

/// How many bytes of a folder's names are read at a time.
const NAMES: usize = 4_096;

/// The result of removing what is in a folder.
#[derive(Drop)]
pub(crate) enum Tried {
    /// There is a folder with this name.
    Folder(String),
    /// What was to be removed is gone.
    Gone,
    /// The system refused.
    Refused,
}

/// Removes a folder with everything in it; each folder is removed when it is empty. One folder is open at a time. Each is opened
/// once, and once more for each folder in it. A link in it is removed, not what it leads to. Where the system refuses, the rest
/// stays. Fails only when out of memory, or if there are still folders after 2^64 - 1 of them, and then the rest stays as well.
#[tactic(auto, using(crate::proofs::RemovalLemmas::removals))]
pub(crate) fn remove_folder<Y: FileSystem>(
    alloc: Global,
    system: &mut Y,
    folder: &str,
) -> Result<(), AllocError>
    ensures { MatchResult result
        (λ _. IsTakenAway folder.now (Y.did system.old) (Y.did system.new))
        (λ _. HasSince (RemovesIn folder.now) (Y.did system.old) (Y.did system.new)) }
{
    let mut inner = String::new(alloc);
    for _ in 0..u64::MAX {
        match remove_next(alloc, system, folder, inner.as_str()) {
            Ok(Some(next)) => inner = next,
            Ok(None) => return Ok(()),
            Err(error) => return Err(error),
        }
    }
    Err(AllocError)
}

/// Removes what is at a path in a folder, up to the first folder in it; the path is empty for the folder itself. Returns the path
/// in the folder where to go on; None if nothing is left to do.
#[tactic(auto, using(crate::proofs::RemovalLemmas::removals))]
fn remove_next<Y: FileSystem>(
    alloc: Global,
    system: &mut Y,
    folder: &str,
    inner: &str,
) -> Result<Option<String>, AllocError>
    ensures { MatchResult result
        (HasNextPlace folder.now inner.now (Y.did system.old) (Y.did system.new))
        (λ _. HasSince (RemovesIn (place_at folder.now inner.now)) (Y.did system.old) (Y.did system.new)) }
{
    let place = match place_in(alloc, folder, inner) {
        Ok(place) => place,
        Err(error) => return Err(error),
    };
    match remove_to_folder(alloc, system, place.as_str()) {
        Ok(Tried::Gone) => {}
        Ok(Tried::Refused) => return Ok(None),
        Ok(Tried::Folder(name)) => return some(inner_path(alloc, inner, name)),
        Err(error) => return Err(error),
    }
    match system.remove_folder(place.as_str()) {
        Ok(()) => {}
        Err(_) => return Ok(None),
    }
    if inner.is_empty() {
        return Ok(None);
    }
    some(folder_of(alloc, inner))
}

/// A path where to go on.
fn some(path: Result<String, AllocError>) -> Result<Option<String>, AllocError>
    ensures { result ≡ some_of path }
{
    match path {
        Ok(path) => Ok(Some(path)),
        Err(error) => Err(error),
    }
}

/// The path of what is at a path in a folder; the inner path is empty for the folder itself.
fn place_in(alloc: Global, folder: &str, inner: &str) -> Result<String, AllocError>
    ensures { IfOk result (λ place. string_bytes place ≡ place_at folder.now inner.now) }
{
    if inner.is_empty() {
        String::from_str(alloc, folder)
    } else {
        path_within(alloc, folder, inner)
    }
}

/// The path, within a folder, of the entry with this name in what is at a path in it.
fn inner_path(alloc: Global, inner: &str, name: String) -> Result<String, AllocError>
    ensures { IfOk result (λ path. string_bytes path ≡ path_below inner.now (string_bytes name)) }
{
    if inner.is_empty() {
        Ok(name)
    } else {
        path_within(alloc, inner, name.as_str())
    }
}

/// The path of the folder that holds what is at a path in a folder.
fn folder_of(alloc: Global, inner: &str) -> Result<String, AllocError>
    ensures { IfOk result (λ around. IsAround inner.now (string_bytes around)) }
{
    match inner.rsplit_once('/') {
        Some((above, _name)) => String::from_str(alloc, above),
        None => Ok(String::new(alloc)),
    }
}

/// The text in bytes; empty if they are no text.
fn text_in(bytes: &[u8]) -> &str
    ensures { ended_names result.now ≡ names_in bytes.now }
{
    match str::from_utf8(bytes) {
        Ok(text) => text,
        Err(_) => "",
    }
}

/// Removes what is in a folder, up to the first folder in it. Names that are not text are skipped, with those that were read
/// together with them. It gives up after 2^64 - 1 reads, as if memory were refused.
#[tactic(auto, using(crate::proofs::RemovalLemmas::removals))]
fn remove_to_folder<Y: FileSystem>(
    alloc: Global,
    system: &mut Y,
    folder: &str,
) -> Result<Tried, AllocError>
    ensures { AnswersTried result folder.now
        (HasEmptied folder.now (Y.did system.old) (Y.did system.new))
        (λ name. HasEmptiedTo folder.now name (Y.did system.old))
        (Y.did system.old) (Y.did system.new) }
{
    let Ok(()) = system.open_folder(folder) else {
        return Ok(Tried::Gone);
    };
    let mut bytes = [0; NAMES];
    for _ in 0..u64::MAX {
        let Ok(count) = system.read_names(&mut bytes) else {
            return Ok(Tried::Gone);
        };
        let read = &bytes[..count];
        if read.is_empty() {
            return Ok(Tried::Gone);
        }
        let tried = remove_names(alloc, system, folder, text_in(read));
        if is_stopped(&tried) {
            return tried;
        }
    }
    Err(AllocError)
}

/// The first name of these, each of which is ended by a zero byte, and those behind it.
fn first_name(names: &str) -> Option<(&str, &str)>
    ensures cut { MatchOption result (ended_names names.now ≡ [])
        (λ cut. ended_names names.now ≡ cut.0.now ∷ ended_names cut.1.now) }
    ensures shorter { IfSome result (λ cut. length cut.1.now < length names.now) }
{
    names.split_once('\0')
}

/// Removes the entries of a folder with these names, each of which ends with a zero byte, up to the first folder.
#[tactic(auto, using(crate::proofs::RemovalLemmas::removals))]
fn remove_names<Y: FileSystem>(
    alloc: Global,
    system: &mut Y,
    folder: &str,
    names: &str,
) -> Result<Tried, AllocError>
    ensures { AnswersTried result folder.now
        (Y.did system.new ≡ with_removals folder.now (ended_names names.now) (Y.did system.old))
        (λ name. HasRemovedTo folder.now (ended_names names.now) name (Y.did system.old))
        (Y.did system.old) (Y.did system.new) }
{
    let mut rest = names;
    while let Some((name, behind)) = first_name(rest) {
        let tried = remove_name(alloc, system, folder, name);
        if is_stopped(&tried) {
            return tried;
        }
        rest = behind;
    }
    Ok(Tried::Gone)
}

/// Whether something is not gone.
fn is_stopped(tried: &Result<Tried, AllocError>) -> bool
    ensures { result ≡ is_stopped tried.now }
{
    match tried {
        Ok(Tried::Gone) => false,
        Ok(Tried::Folder(_)) => true,
        Ok(Tried::Refused) => true,
        Err(_) => true,
    }
}

/// Whether this names something in a folder: it is neither empty nor the folder's own entry for itself or its parent. No system
/// gives a name with a slash, but as a path it might lead out of the folder.
fn is_entry(name: &str) -> bool
    ensures { result ≡ is_entry name.now }
{
    !(name.is_empty() || name == "." || name == ".." || name.contains('/'))
}

/// Removes the entry of a folder with this name, if it names one, unless it is a folder.
#[tactic(auto, using(crate::proofs::RemovalLemmas::removals))]
fn remove_name<Y: FileSystem>(
    alloc: Global,
    system: &mut Y,
    folder: &str,
    name: &str,
) -> Result<Tried, AllocError>
    ensures { AnswersTried result folder.now
        (Y.did system.new ≡ with_removals folder.now (name.now ∷ []) (Y.did system.old))
        (λ entry. HasRemovedTo folder.now (name.now ∷ []) entry (Y.did system.old))
        (Y.did system.old) (Y.did system.new) }
{
    if !is_entry(name) {
        return Ok(Tried::Gone);
    }
    let path = match path_within(alloc, folder, name) {
        Ok(path) => path,
        Err(error) => return Err(error),
    };
    match system.remove_file(path.as_str()) {
        Ok(Removal::Gone) => Ok(Tried::Gone),
        Ok(Removal::Folder) => match String::from_str(alloc, name) {
            Ok(name) => Ok(Tried::Folder(name)),
            Err(error) => Err(error),
        },
        Err(_) => Ok(Tried::Refused),
    }
}
