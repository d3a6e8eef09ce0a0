//! Looks at a file while it is being read.
ghost use Rattle.std.specs.Prelude.{◌≡◌, IfOk, OnOk};
ghost use Rattle.hfs_source.specs.Looks.{HasTold};
ghost use Rattle.hfs_source.specs.declared.stamp.Stamp.{Stamp};

use crate::stamp::Stamp;
use std::fs::OpenFile;
use std::io;
use std::io::ErrorKind;
use std::snapshot::Snapshot;

/// What looks at a file, which is read as an `R`.
pub trait Looks<R> {
    /// What the first look found, which was made before the file was read.
    ghost first: { Self → Stamp };

    /// The last thing that was done with the file, read this far, is a look, and it found this.
    ghost told: { Self → R → Stamp → Type 0 };

    /// What the first look found.
    fn first(&self) -> Stamp
        ensures { result ≡ first self.now };

    /// Looks at the file, read this far.
    fn look(&mut self, file: &R) -> io::Result<Stamp>
        ensures told { IfOk result (told self.new file.now) }
        ensures first { first self.new ≡ first self.old };
}

/// Checks that a file is as the first look found it. Error: it isn't, or that can't be checked.
pub fn look_again<R, L: Looks<R>>(looks: &mut L, file: &R) -> io::Result<()>
    ensures settled { OnOk result (L.told looks.new file.now (L.first looks.new)) }
    ensures first { L.first looks.new ≡ L.first looks.old }
{
    let stamp = looks.look(file)?;
    if stamp.is_same(&looks.first()) {
        Ok(())
    } else {
        Err(io::Error::from(ErrorKind::InvalidData))
    }
}

/// A look at a file.
#[derive(Drop)]
struct LastLook<R> {
    /// The file, read this far.
    at: Snapshot<R>,
    stamp: Stamp,
}

/// Another handle to a file that was opened, with its first look and its last. Only this is trusted: that it is a handle to the
/// same file, and that the system says how many bytes a file has and when it was changed.
#[derive(Drop)]
pub struct TrustedLooks<F, R> {
    handle: F,
    first: Stamp,
    last: Option<LastLook<R>>,
}

impl<F: OpenFile + Drop, R> TrustedLooks<F, R> {
    /// The first look at a file that was opened, before it is read. Error: there can be no other handle to it, or it has no
    /// length and no time.
    pub fn open(file: &F) -> io::Result<TrustedLooks<F, R>> {
        let handle = file.try_clone()?;
        let first = Stamp::of(&handle)?;
        Ok(TrustedLooks {
            handle,
            first,
            last: None,
        })
    }
}

impl<F: OpenFile, R> Looks<R> for TrustedLooks<F, R> {
    ghost first = { λ looks. looks.first };

    ghost told = { λ looks file stamp. HasTold looks.last file stamp };

    fn first(&self) -> Stamp {
        self.first
    }

    fn look(&mut self, file: &R) -> io::Result<Stamp> {
        let stamp = Stamp::of(&self.handle)?;
        self.last = Some(LastLook {
            at: Snapshot::of(file),
            stamp,
        });
        Ok(stamp)
    }
}
