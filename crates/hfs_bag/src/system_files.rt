//! The system's own files.
ghost use Rattle.std.specs.Prelude.{◌≡◌, ◌∷◌, [], MatchResult, OnErr, OnOk};
ghost use Rattle.hfs_bag.specs.LoggedSteps.{with_step, with_failed};

use crate::log::{Step, SystemLog};
use crate::system::{FileSystem, Removal};
use std::fs::{File, FileTimes, OpenFile, OpenOptions};
use std::io::{ErrorKind, Read, Write};
use std::rt::Files;
use std::time::SystemTime;
use std::{fs, io};

/// The system's own files, with the list of what was asked of them. Each method asks one thing and notes it. Only this is
/// trusted: that the system does what it is asked when it reports success.
#[derive(Drop)]
pub struct SystemFiles<'a, R: Files> {
    rt: &'a R,
    file: Option<R::File>,
    folder: Option<R::Dir>,
    log: SystemLog,
}

impl<'a, R: Files> SystemFiles<'a, R> {
    /// The files of this system, of which nothing has been asked yet.
    pub fn new(rt: &'a R) -> SystemFiles<'a, R>
        ensures { result.log.steps ≡ [] }
    {
        SystemFiles {
            rt,
            file: None,
            folder: None,
            log: SystemLog::new(),
        }
    }
}

/// What was asked before, and then this step, with what came of it.
fn noted<T>(log: &SystemLog, step: &Step<'_>, came: &io::Result<T>) -> SystemLog
    ensures { MatchResult came.now
        (λ _. result.steps ≡ with_step log.now.steps step.now)
        (λ _. result.steps ≡ with_failed log.now.steps step.now) }
{
    match came {
        Ok(_) => log.then(step),
        Err(_) => log.then_failed(step),
    }
}

/// No file or folder is open.
fn none_open() -> io::Error {
    io::Error::from(ErrorKind::NotFound)
}

impl<R: Files> FileSystem for SystemFiles<'_, R> {
    ghost did = { λ system. system.log.steps };

    fn make_folder(&mut self, path: &str) -> io::Result<()> {
        match fs::create_dir(self.rt, path) {
            Ok(()) => {
                self.log = self.log.then(&Step::MadeFolder(path));
                Ok(())
            }
            Err(error) => {
                if error.kind() == ErrorKind::AlreadyExists {
                    self.log = self.log.then(&Step::Looked(path, true));
                } else {
                    self.log = self.log.then_failed(&Step::MadeFolder(path));
                }
                Err(error)
            }
        }
    }

    fn open_file(&mut self, how: &OpenOptions, path: &str) -> io::Result<()> {
        self.file = None;
        let came = self.rt.open_file(how, path);
        self.log = noted(&self.log, &Step::Opened(how, path), &came);
        self.file = Some(came?);
        Ok(())
    }

    fn write(&mut self, bytes: &[u8]) -> io::Result<()> {
        let came = match &mut self.file {
            Some(file) => file.write_all(bytes),
            None => Err(none_open()),
        };
        self.log = noted(&self.log, &Step::Wrote(bytes), &came);
        if came.is_err() {
            self.file = None;
        }
        came
    }

    fn set_time(&mut self, time: SystemTime) -> io::Result<()> {
        let came = match &self.file {
            Some(file) => file.set_times(FileTimes::new().set_modified(time)),
            None => Err(none_open()),
        };
        self.log = noted(&self.log, &Step::Timed(time), &came);
        came
    }

    fn close(&mut self) {
        self.file = None;
        self.log = self.log.then(&Step::Closed);
    }

    fn rename(&mut self, from: &str, to: &str) -> io::Result<()> {
        let came = fs::rename(self.rt, from, to);
        self.log = noted(&self.log, &Step::Moved(from, to), &came);
        came
    }

    fn remove_file(&mut self, path: &str) -> io::Result<Removal> {
        match fs::remove_file(self.rt, path) {
            Ok(()) => {
                self.log = self.log.then(&Step::RemovedFile(path));
                Ok(Removal::Gone)
            }
            Err(error) => match error.kind() {
                ErrorKind::IsADirectory => {
                    self.log = self.log.then(&Step::FoundFolder(path));
                    Ok(Removal::Folder)
                }
                ErrorKind::NotFound => {
                    self.log = self.log.then(&Step::RemovedFile(path));
                    Ok(Removal::Gone)
                }
                _ => {
                    self.log = self.log.then_failed(&Step::RemovedFile(path));
                    Err(error)
                }
            },
        }
    }

    fn remove_folder(&mut self, path: &str) -> io::Result<()> {
        let came = fs::remove_dir(self.rt, path);
        self.log = noted(&self.log, &Step::RemovedFolder(path), &came);
        came
    }

    fn open_folder(&mut self, folder: &str) -> io::Result<()> {
        self.folder = None;
        let came = self.rt.open_dir(folder);
        self.log = noted(&self.log, &Step::Listed(folder), &came);
        self.folder = Some(came?);
        Ok(())
    }

    fn read_names(&mut self, into: &mut [u8]) -> io::Result<usize> {
        let came = match &mut self.folder {
            Some(folder) => folder.read(into),
            None => Err(none_open()),
        };
        match came {
            Ok(count) => {
                let count = count.min(into.len());
                self.log = self.log.then(&Step::Named(&into[..count]));
                Ok(count)
            }
            Err(error) => {
                self.log = self.log.then_failed(&Step::Named(&[]));
                Err(error)
            }
        }
    }

    fn is_there(&mut self, path: &str) -> bool {
        let there = self.rt.symlink_metadata(path).is_ok();
        self.log = self.log.then(&Step::Looked(path, there));
        there
    }
}
