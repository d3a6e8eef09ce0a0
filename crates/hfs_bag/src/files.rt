//! The shelf of files: a folder of the system's own files.
ghost use Rattle.std.specs.Prelude.{◌≡◌, ◌∷◌, ◌*◌, [], List, None, Some, IfErr, IfOk, IfSome, MatchResult, OnErr, OnOk, is_some, string_bytes, true};
ghost use Rattle.std.specs.Time.{system_time_nanos};
ghost use Rattle.hfs_bag.specs.ShelfPaths.{IsNewFolder, new_folder_path, path_within};
ghost use Rattle.hfs_bag.specs.ShelfPlaces.{others_in, shelf_place};
ghost use Rattle.hfs_bag.specs.Told.{Tells, TellsNewFolder, TellsWithin};
ghost use Rattle.hfs_bag.specs.Entries.{IsBeginning, with_folder, with_file, with_piece};
ghost use Rattle.hfs_bag.specs.MadeFolders.{given_by};
ghost use Rattle.hfs_bag.specs.Removals.{HasNewFolder, HasNext, HasNoNewFolder, HasOpenedFolder, HasRefused, HasSince, IsClosed, IsPlaced, IsTakenAway, RemovesIn};
ghost use Rattle.hfs_bag.specs.SystemSteps.{SystemStep, done, looked, made_folder, makes_file, moved, opened, wrote};
ghost use Rattle.hfs_bag.specs.Left.{IsLeft, IsOrNoMemory};

use crate::paths::{new_folder_path, path_within};
use crate::removal::remove_folder;
use crate::shelf::Shelf;
use crate::shelf_fault::ShelfFault;
use crate::system::FileSystem;
use crate::system_files::SystemFiles;
use std::alloc::{AllocError, Global};
use std::fs::OpenOptions;
use std::io::ErrorKind;
use std::rt::Files;
use std::time::{Duration, SystemTime, UNIX_EPOCH};

/// How many names are tried for the folder in which a folder is written.
const NAMES: u32 = 100;

/// A system that is handed back, with the reason why something was not done.
#[derive(Drop)]
pub struct Unmade<Y> {
    pub system: Y,
    pub fault: ShelfFault,
}

/// A folder that is written under another name next to its place, and gets its place once it is whole. Its files are created as
/// new, so no path leads through a link that was there before.
#[derive(Drop)]
pub struct FileShelf<Y: FileSystem> {
    alloc: Global,
    pub system: Y,
    /// The path of the folder that is written.
    pub folder: String,
    /// The path within the folder of the file that was made last, while it takes pieces.
    made: Option<String>,
    /// The time that this file gets when it is closed.
    pub modified: Option<u32>,
}

/// Makes the folder in which a folder at this path is written, under the first name that the system gives it.
#[tactic(auto, using(crate::proofs::PlacingLemmas::placing))]
fn new_folder<Y: FileSystem>(
    alloc: Global,
    system: &mut Y,
    path: &str,
) -> Result<String, ShelfFault>
    ensures made { IfOk result
        (λ folder. HasNewFolder path.now (string_bytes folder) (Y.did system.old) (Y.did system.new)) }
    ensures none { IfErr result
        (λ why. HasRefused path.now why (Y.did system.old) (Y.did system.new)) }
    ensures told { IfErr result (TellsNewFolder path.now) }
{
    for number in 0..NAMES {
        let Ok(folder) = new_folder_path(alloc, path, number) else {
            return Err(ShelfFault::NoMemory);
        };
        match system.make_folder(folder.as_str()) {
            Ok(()) => return Ok(folder),
            Err(error) => {
                if error.kind() != ErrorKind::AlreadyExists {
                    return Err(ShelfFault::CannotWrite(folder));
                }
            }
        }
    }
    Err(cannot_write(alloc, path))
}

impl<Y: FileSystem> FileShelf<Y> {
    /// Makes the folder in which a folder at this path will be written, under the first of the names `PATH.0.new` to
    /// `PATH.99.new` that is free. Faults: `CannotWrite` of that name, also if the folder can't be opened, or of the path itself
    /// if no name is free; `NoMemory`. At a fault no folder was made, or it was removed again.
    #[tactic(auto, using(crate::proofs::PlacingLemmas::placing, crate::proofs::RemovalLemmas::removals))]
    pub fn create(alloc: Global, system: Y, path: &str) -> Result<FileShelf<Y>, Unmade<Y>>
        ensures empty { IfOk result (λ shelf. given_by (string_bytes shelf.folder) shelf.modified (Y.did shelf.system) ≡ []) }
        ensures beside { IfOk result (λ shelf. IsNewFolder path.now (string_bytes shelf.folder)) }
        ensures made { IfOk result (λ shelf. HasOpenedFolder path.now (string_bytes shelf.folder)
            (Y.did system) (Y.did shelf.system)) }
        ensures none { IfErr result (λ back. HasNoNewFolder path.now back.fault
            (Y.did system) (Y.did back.system)) }
        ensures told { IfErr result (λ back. TellsNewFolder path.now back.fault) }
    {
        let mut system = system;
        let folder = match new_folder(alloc, &mut system, path) {
            Ok(folder) => folder,
            Err(fault) => return Err(Unmade { system, fault }),
        };
        // The folder stays open, so that a file descriptor is left for removing what is written.
        match system.open_folder(folder.as_str()) {
            Ok(()) => Ok(FileShelf {
                alloc,
                system,
                folder,
                made: None,
                modified: None,
            }),
            Err(_) => {
                let _removed = system.remove_folder(folder.as_str());
                let fault = ShelfFault::CannotWrite(folder);
                Err(Unmade { system, fault })
            }
        }
    }

    /// Gives the folder its place. Faults: `CannotWrite` of that place, and then what was written is removed as by
    /// [`FileShelf::take_away`]; `NoMemory` if that ran out of memory as well.
    #[tactic(auto, using(crate::proofs::PlacingLemmas::placing))]
    pub fn place(self, path: &str) -> Result<Y, Unmade<Y>>
        ensures placed { IfOk result (λ system. HasNext (moved (string_bytes self.folder) path.now)
            self.modified (Y.did self.system) (Y.did system)) }
        ensures whole { IfOk result (λ system. IsPlaced path.now (string_bytes self.folder)
            (given_by (string_bytes self.folder) self.modified (Y.did self.system))
            (others_in (string_bytes self.folder) (Y.did self.system)) (Y.did system)) }
        ensures away { IfErr result (λ back. IsLeft back.fault (string_bytes self.folder)
            (Y.did self.system) (Y.did back.system)) }
        ensures told { IfErr result (λ back. Tells path.now back.fault) }
    {
        let mut shelf = self;
        shelf.close();
        let FileShelf {
            alloc,
            mut system,
            folder,
            ..
        } = shelf;
        match system.rename(folder.as_str(), path) {
            Ok(()) => Ok(system),
            Err(_) => Err(removed(alloc, system, folder.as_str(), cannot_write(alloc, path))),
        }
    }

    /// Removes everything that was written, as far as the system allows, and hands the system back; as the error if memory was
    /// refused, and then the rest stays.
    #[tactic(auto, using(crate::proofs::PlacingLemmas::placing, crate::proofs::RemovalLemmas::removals))]
    pub fn take_away(self) -> Result<Y, Y>
        ensures away { IfOk result (λ system. IsTakenAway (string_bytes self.folder)
            (Y.did self.system) (Y.did system)) }
        ensures within { IfErr result (λ system. HasSince (RemovesIn (string_bytes self.folder))
            (Y.did self.system) (Y.did system)) }
    {
        let mut shelf = self;
        shelf.close();
        let FileShelf {
            alloc,
            mut system,
            folder,
            ..
        } = shelf;
        match remove_folder(alloc, &mut system, folder.as_str()) {
            Ok(()) => Ok(system),
            Err(_) => Err(system),
        }
    }

    /// Closes the file that was made last, and sets its time, if it is to have one. It is no fault if the system doesn't set it.
    #[tactic(auto, using(crate::proofs::PlacingLemmas::placing))]
    fn close(&mut self)
        ensures closed { IsClosed self.old.modified (Y.did self.old.system) (Y.did self.new.system) }
        ensures given { given_by (string_bytes self.new.folder) self.new.modified (Y.did self.new.system)
            ≡ given_by (string_bytes self.old.folder) self.old.modified (Y.did self.old.system) }
        ensures others { others_in (string_bytes self.new.folder) (Y.did self.new.system)
            ≡ others_in (string_bytes self.old.folder) (Y.did self.old.system) }
        ensures none { self.new.modified ≡ None }
        ensures folder { self.new.folder ≡ self.old.folder }
    {
        self.made = None;
        if let Some(seconds) = self.modified.take() {
            let _set = self.system.set_time(time_at(seconds));
        }
        self.system.close();
    }
}

/// Removes a folder because of this fault, which stays the same, unless memory was refused.
#[tactic(auto, using(crate::proofs::PlacingLemmas::placing, crate::proofs::RemovalLemmas::removals))]
fn removed<Y: FileSystem>(alloc: Global, system: Y, folder: &str, fault: ShelfFault) -> Unmade<Y>
    ensures left { IsLeft result.fault folder.now (Y.did system) (Y.did result.system) }
    ensures fault { IsOrNoMemory fault result.fault }
{
    let mut system = system;
    match remove_folder(alloc, &mut system, folder) {
        Ok(()) => Unmade { system, fault },
        Err(_) => Unmade {
            system,
            fault: ShelfFault::NoMemory,
        },
    }
}

/// The moment `seconds` seconds after the beginning of 1970.
fn time_at(seconds: u32) -> SystemTime
    ensures { system_time_nanos result ≡ seconds * 1_000_000_000 }
{
    match UNIX_EPOCH.checked_add(Duration::from_secs(u64::from(seconds))) {
        Some(time) => time,
        None => unreachable!(),
    }
}

/// How a file is made: it is new, and opened for writing.
fn new_file() -> OpenOptions
    ensures { makes_file result ≡ true }
{
    let mut how = OpenOptions::new();
    how.write(true);
    how.create_new(true);
    how
}

/// The fault for a path that can't be written.
fn cannot_write(alloc: Global, path: &str) -> ShelfFault
    ensures { Tells path.now result }
{
    match String::from_str(alloc, path) {
        Ok(path) => ShelfFault::CannotWrite(path),
        Err(_) => ShelfFault::NoMemory,
    }
}

/// The fault for a path within a folder that can't be written.
fn cannot_write_within(alloc: Global, folder: &str, path: &str) -> ShelfFault
    ensures { TellsWithin folder.now result }
{
    match path_within(alloc, folder, path) {
        Ok(whole) => ShelfFault::CannotWrite(whole),
        Err(_) => ShelfFault::NoMemory,
    }
}

/// The first of the names under which a folder at this path is written, `PATH.0.new`, if anything has it: an interrupted run left
/// it. Fails only when out of memory.
pub fn left_folder<R: Files + AllocGlobal>(rt: &R, path: &str) -> Result<Option<String>, AllocError>
    ensures { IfOk result (λ left. IfSome left
        (λ name. string_bytes name ≡ new_folder_path path.now 0)) }
{
    let mut system = SystemFiles::new(rt);
    left_in(rt.alloc(), &mut system, path)
}

/// The same over any system.
pub fn left_in<Y: FileSystem>(
    alloc: Global,
    system: &mut Y,
    path: &str,
) -> Result<Option<String>, AllocError>
    ensures name { IfOk result (λ left. IfSome left
        (λ name. string_bytes name ≡ new_folder_path path.now 0)) }
    ensures looked { IfOk result (λ left. Y.did system.new
        ≡ done (looked (new_folder_path path.now 0) (is_some left)) ∷ Y.did system.old) }
{
    let folder = new_folder_path(alloc, path, 0)?;
    if system.is_there(folder.as_str()) {
        Ok(Some(folder))
    } else {
        Ok(None)
    }
}

impl<Y: FileSystem> Shelf for FileShelf<Y> {
    ghost given = { λ shelf. given_by (string_bytes shelf.folder) shelf.modified (Y.did shelf.system) };

    ghost place = { λ shelf. shelf_place (string_bytes shelf.folder) (Y.did shelf.system) };

    ghost Fails = { λ place. TellsWithin place.folder };

    #[tactic(auto, using(crate::proofs::Beginnings::beginnings, crate::proofs::FolderLemmas::growing, crate::proofs::PlacingLemmas::next_now))]
    fn make_folder(&mut self, path: &str) -> Result<(), ShelfFault>
        ensures whole { OnOk result (given_by (string_bytes self.new.folder) self.new.modified (Y.did self.new.system)
            ≡ with_folder (given_by (string_bytes self.old.folder) self.old.modified (Y.did self.old.system)) path.now) }
        ensures part { OnErr result (IsBeginning (given_by (string_bytes self.new.folder) self.new.modified (Y.did self.new.system))
            (with_folder (given_by (string_bytes self.old.folder) self.old.modified (Y.did self.old.system)) path.now)) }
        ensures steps { OnOk result (HasNext (made_folder (path_within (string_bytes self.old.folder) path.now))
            self.old.modified (Y.did self.old.system) (Y.did self.new.system)) }
        ensures told { IfErr result (Tells (path_within (string_bytes self.old.folder) path.now)) }
        ensures fault { IfErr result (TellsWithin (string_bytes self.old.folder)) }
        ensures place { shelf_place (string_bytes self.new.folder) (Y.did self.new.system)
            ≡ shelf_place (string_bytes self.old.folder) (Y.did self.old.system) }
    {
        self.close();
        let Ok(whole) = path_within(self.alloc, self.folder.as_str(), path) else {
            return Err(ShelfFault::NoMemory);
        };
        match self.system.make_folder(whole.as_str()) {
            Ok(()) => Ok(()),
            Err(_) => Err(ShelfFault::CannotWrite(whole)),
        }
    }

    #[tactic(auto, using(crate::proofs::Beginnings::beginnings, crate::proofs::FolderLemmas::growing, crate::proofs::PlacingLemmas::next_now))]
    fn make_file(&mut self, path: &str, modified: Option<u32>) -> Result<(), ShelfFault>
        ensures whole { OnOk result (given_by (string_bytes self.new.folder) self.new.modified (Y.did self.new.system)
            ≡ with_file (given_by (string_bytes self.old.folder) self.old.modified (Y.did self.old.system)) path.now modified) }
        ensures part { OnErr result (IsBeginning (given_by (string_bytes self.new.folder) self.new.modified (Y.did self.new.system))
            (with_file (given_by (string_bytes self.old.folder) self.old.modified (Y.did self.old.system)) path.now modified)) }
        ensures steps { OnOk result (HasNext (opened true
            (path_within (string_bytes self.old.folder) path.now)) self.old.modified
            (Y.did self.old.system) (Y.did self.new.system)) }
        ensures time { OnOk result (self.new.modified ≡ modified) }
        ensures told { IfErr result (Tells (path_within (string_bytes self.old.folder) path.now)) }
        ensures fault { IfErr result (TellsWithin (string_bytes self.old.folder)) }
        ensures place { shelf_place (string_bytes self.new.folder) (Y.did self.new.system)
            ≡ shelf_place (string_bytes self.old.folder) (Y.did self.old.system) }
    {
        self.close();
        let Ok(whole) = path_within(self.alloc, self.folder.as_str(), path) else {
            return Err(ShelfFault::NoMemory);
        };
        let Ok(made) = String::from_str(self.alloc, path) else {
            return Err(ShelfFault::NoMemory);
        };
        match self.system.open_file(&new_file(), whole.as_str()) {
            Ok(()) => {
                self.made = Some(made);
                self.modified = modified;
                Ok(())
            }
            Err(_) => Err(ShelfFault::CannotWrite(whole)),
        }
    }

    #[tactic(auto, using(crate::proofs::Beginnings::beginnings, crate::proofs::FolderLemmas::growing, crate::proofs::PlacingLemmas::next_now))]
    fn append(&mut self, piece: &[u8]) -> Result<(), ShelfFault>
        ensures whole { OnOk result (given_by (string_bytes self.new.folder) self.new.modified (Y.did self.new.system)
            ≡ with_piece (given_by (string_bytes self.old.folder) self.old.modified (Y.did self.old.system)) piece.now) }
        ensures part { OnErr result (IsBeginning (given_by (string_bytes self.new.folder) self.new.modified (Y.did self.new.system))
            (with_piece (given_by (string_bytes self.old.folder) self.old.modified (Y.did self.old.system)) piece.now)) }
        ensures steps { OnOk result (Y.did self.new.system ≡ done (wrote piece.now) ∷ Y.did self.old.system) }
        ensures time { self.new.modified ≡ self.old.modified }
        ensures fault { IfErr result (TellsWithin (string_bytes self.old.folder)) }
        ensures place { shelf_place (string_bytes self.new.folder) (Y.did self.new.system)
            ≡ shelf_place (string_bytes self.old.folder) (Y.did self.old.system) }
    {
        let Some(made) = &self.made else {
            return Err(cannot_write(self.alloc, self.folder.as_str()));
        };
        match self.system.write(piece) {
            Ok(()) => Ok(()),
            Err(_) => {
                let folder = self.folder.as_str();
                Err(cannot_write_within(self.alloc, folder, made.as_str()))
            }
        }
    }
}
