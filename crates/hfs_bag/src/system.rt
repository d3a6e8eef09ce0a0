//! What a shelf of files asks of the system.
ghost use Rattle.std.specs.Prelude.{◌≡◌, ◌≤◌, ◌∷◌, [], List, length, take, IfOk, MatchResult};
ghost use Rattle.std.specs.IoError.{error_kind};
ghost use Rattle.std.specs.Time.{system_time_nanos};
ghost use Rattle.hfs_bag.specs.SystemSteps.{Does, SystemStep, made_folder, opened, wrote, timed, closed, moved, removed_folder, looked, listed, named, done, failed, makes_file};
ghost use Rattle.hfs_bag.specs.FileRemovals.{removal_of};
ghost use Rattle.hfs_bag.specs.FolderRefusals.{IsFolderRefused};
ghost use Rattle.hfs_bag.specs.declared.system.Removal.TheVariants as found;

use std::fs::OpenOptions;
use std::io;
use std::time::SystemTime;

/// What was at a path where a file was to be removed.
#[derive(Clone, Copy, Drop)]
pub enum Removal {
    /// Nothing but a folder is there now.
    Gone,
    /// A folder, which stays.
    Folder,
}

/// A file system. Contracts see it as the list of what was asked of it and what came of each, last first.
pub trait FileSystem {
    ghost did: { Self → List SystemStep };

    /// Makes a folder, if nothing has its path. If something has, the error's kind says so, and the list notes only that.
    fn make_folder(&mut self, path: &str) -> io::Result<()>
        ensures { MatchResult result
            (λ _. did self.new ≡ done (made_folder path.now) ∷ did self.old)
            (λ error. IsFolderRefused (error_kind error) path.now (did self.old) (did self.new)) };

    /// Opens a file, and closes the one that was opened last.
    fn open_file(&mut self, how: &OpenOptions, path: &str) -> io::Result<()>
        ensures { Does result (opened (makes_file how.now) path.now) (did self.old) (did self.new) };

    /// Appends bytes to the file that was opened last. If that fails, the file is closed.
    fn write(&mut self, bytes: &[u8]) -> io::Result<()>
        ensures { Does result (wrote bytes.now) (did self.old) (did self.new) };

    /// Sets when the file that was opened last was last changed.
    fn set_time(&mut self, time: SystemTime) -> io::Result<()>
        ensures { Does result (timed (system_time_nanos time)) (did self.old) (did self.new) };

    /// Closes the file that was opened last.
    fn close(&mut self)
        ensures { did self.new ≡ done closed ∷ did self.old };

    /// Gives what has the first path the second one.
    fn rename(&mut self, from: &str, to: &str) -> io::Result<()>
        ensures { Does result (moved from.now to.now) (did self.old) (did self.new) };

    /// Removes what is at a path: a link itself, not what it leads to; a folder stays.
    fn remove_file(&mut self, path: &str) -> io::Result<Removal>
        ensures { MatchResult result
            (λ found. did self.new ≡ done (removal_of found path.now) ∷ did self.old)
            (λ _. did self.new ≡ failed (removal_of found.Gone path.now) ∷ did self.old) };

    /// Removes a folder, if it is empty.
    fn remove_folder(&mut self, path: &str) -> io::Result<()>
        ensures { Does result (removed_folder path.now) (did self.old) (did self.new) };

    /// Opens a folder, for the names of what is in it, and closes the one that was opened last.
    fn open_folder(&mut self, folder: &str) -> io::Result<()>
        ensures { Does result (listed folder.now) (did self.old) (did self.new) };

    /// Reads more names of the folder that was opened last, each ended by a zero byte, and returns how many bytes these are; none
    /// at their end. The system reads no name into less room than it wants, and 4,096 bytes are enough for any.
    fn read_names(&mut self, into: &mut [u8]) -> io::Result<usize>
        requires { 4096 ≤ length into.old }
        ensures within { IfOk result (λ count. count ≤ length into.new) }
        ensures read { MatchResult result
            (λ count. did self.new ≡ done (named (take count into.new)) ∷ did self.old)
            (λ _. did self.new ≡ failed (named []) ∷ did self.old) };

    /// Whether anything has this path, even a link that leads nowhere.
    fn is_there(&mut self, path: &str) -> bool
        ensures { did self.new ≡ done (looked path.now result) ∷ did self.old };
}
