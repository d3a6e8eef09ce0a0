//! The system's own folders and files.
ghost use Rattle.std.specs.Prelude.{◌≡◌, [], ⊤};
ghost use Rattle.hfs_put_sources.specs.HostSteps.{IsSeenBy};

use crate::entry::{HostEntry, HostTime, Look};
use crate::fault::{HostFault, cannot_read, not_utf8};
use crate::log::{HostLog, Step};
use crate::tree::HostTree;
use hfs_put_plan::EntryKind;
use hfs_source::{SeekableBytes, TrustedFile};
use std::alloc::Global;
use std::fs::{Metadata, OpenOptions};
use std::io::ErrorKind;
use std::os::unix::fs::MetadataExt;
use std::rt::Files;
use std::{fs, io};

/// The system's own folders and files, with the list of what was asked of them. Each method asks one thing and notes it. Only
/// this is trusted: that the system has what it answers.
#[derive(Drop)]
pub struct SystemTree<'a, R: Files> {
    rt: &'a R,
    log: HostLog,
}

impl<'a, R: Files> SystemTree<'a, R> {
    /// The tree of this system, of which nothing has been asked yet.
    pub fn new(rt: &'a R) -> SystemTree<'a, R>
        ensures { result.log.steps ≡ [] }
    {
        SystemTree {
            rt,
            log: HostLog::new(),
        }
    }
}

/// What the system says about a file or folder.
fn look_of(metadata: &Metadata) -> Look {
    let kind = if metadata.is_file() {
        EntryKind::File(metadata.len())
    } else if metadata.is_dir() {
        EntryKind::Folder
    } else {
        EntryKind::Other
    };
    Look {
        kind,
        modified: HostTime {
            seconds: metadata.mtime(),
            nanoseconds: metadata.mtime_nsec(),
        },
    }
}

/// What the system says about a path; None if it says that nothing has it.
fn told_of(told: io::Result<Metadata>) -> io::Result<Option<Look>> {
    match told {
        Ok(metadata) => Ok(Some(look_of(&metadata))),
        Err(error) => match error.kind() {
            ErrorKind::NotFound | ErrorKind::NotADirectory => Ok(None),
            _ => Err(error),
        },
    }
}

/// The entries of the folder at a path.
fn read_folder<R: Files>(rt: &R, alloc: Global, folder: &str) -> Result<Vec<HostEntry>, HostFault> {
    let Ok(names) = fs::read_dir(&(rt, alloc), folder) else {
        return Err(cannot_read(alloc, folder));
    };
    let mut entries = Vec::new(alloc);
    for entry in names {
        let entry = match entry {
            Ok(entry) => entry,
            Err(error) => match error.kind() {
                ErrorKind::InvalidFilename => return Err(not_utf8(alloc, folder)),
                _ => return Err(cannot_read(alloc, folder)),
            },
        };
        let Ok(metadata) = entry.metadata() else {
            return Err(cannot_read(alloc, entry.path().as_str()));
        };
        let name = String::from_str(alloc, entry.file_name())?;
        entries.push(HostEntry::new(name, look_of(&metadata)))?;
    }
    Ok(entries)
}

/// How files are opened for reading.
fn reading() -> OpenOptions {
    let mut how = OpenOptions::new();
    how.read(true);
    how
}

impl<R: Files> HostTree for SystemTree<'_, R> {
    ghost Holds = { λ system. IsSeenBy system.log.steps };

    ghost Opens = { λ _ _ _. ⊤ };

    ghost Fails = { λ _ _. ⊤ };

    type File = SeekableBytes<TrustedFile<R::File>>;

    fn list(&mut self, alloc: Global, folder: &str) -> Result<Vec<HostEntry>, HostFault> {
        let entries = read_folder(self.rt, alloc, folder)?;
        self.log = self.log.then(&Step::Listed(folder, &entries));
        Ok(entries)
    }

    fn look(&mut self, alloc: Global, path: &str) -> Result<Option<Look>, HostFault> {
        let Ok(look) = told_of(self.rt.symlink_metadata(path)) else {
            return Err(cannot_read(alloc, path));
        };
        self.log = self.log.then(&Step::Looked(path, look));
        Ok(look)
    }

    fn target(&mut self, alloc: Global, path: &str) -> Result<Option<Look>, HostFault> {
        let Ok(look) = told_of(self.rt.metadata(path)) else {
            return Err(cannot_read(alloc, path));
        };
        self.log = self.log.then(&Step::Followed(path, look));
        Ok(look)
    }

    fn open(&mut self, alloc: Global, path: &str) -> Result<Self::File, HostFault> {
        let Ok(file) = self.rt.open_file(&reading(), path) else {
            return Err(cannot_read(alloc, path));
        };
        match SeekableBytes::open(TrustedFile::new(file)) {
            Ok(file) => Ok(file),
            Err(_) => Err(cannot_read(alloc, path)),
        }
    }

    fn take_back(&mut self, path: &str, file: Self::File) {
        self.log = self.log.then(&Step::Read(path, file.reader().log()));
    }
}
