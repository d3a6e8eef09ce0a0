//! The folders that are made.
ghost use Rattle.std.specs.Prelude.{◌≡◌, [], OnOk};
ghost use Rattle.hfs_remains.specs.Items.{AddsRow, has_row};
ghost use Rattle.hfs_rescue_items.specs.Plan.{NotesRow, makes_folder};

use hfs_bag::BagKind;
use std::alloc::{AllocError, Global};
use std::collections::BTreeSet;
use std::marker::Model;

/// The paths below the payload of the folders that are made. They are kept in order and without hashing, since an image chooses
/// them. Contracts see their list.
#[derive(Drop)]
pub(crate) struct Folders {
    paths: BTreeSet<Vec<u8>>,
}

impl Model for Folders {
    ghost use Rattle.std.specs.Prelude.{ℕ, List};
    ghost use Rattle.std.proofs.Common.{Vec, Global};

    ghost Value = { List (Vec ℕ Global) };

    ghost view = { λ s. s.paths.keys };
}

/// Whether something of this kind makes a folder.
pub(crate) fn makes_folder(kind: BagKind) -> bool
    ensures { result ≡ makes_folder kind }
{
    match kind {
        BagKind::Folder | BagKind::FolderAlone => true,
        BagKind::File | BagKind::DoubleAlone => false,
    }
}

impl Folders {
    /// No folders. Takes no memory.
    pub(crate) fn new(alloc: Global) -> Folders
        ensures { result ≡ [] }
    {
        Folders {
            paths: BTreeSet::new(alloc),
        }
    }

    /// Whether the folder at a path has been made.
    pub(crate) fn has(&self, path: &Vec<u8>) -> bool
        ensures { result ≡ has_row self.now path.now }
    {
        self.paths.contains(path)
    }

    /// Notes that the folder at a path has been made.
    fn add(&mut self, path: Vec<u8>) -> Result<(), AllocError>
        ensures { OnOk result (AddsRow path self.old self.new) }
    {
        self.paths.insert(path)?;
        Ok(())
    }

    /// Notes what is made at a path, if it is a folder.
    #[tactic(auto, using(crate::proofs::PlanLemmas::notes_none, crate::proofs::PlanLemmas::notes_row))]
    pub(crate) fn note(&mut self, path: Vec<u8>, kind: BagKind) -> Result<(), AllocError>
        ensures { OnOk result (NotesRow kind path self.old self.new) }
    {
        if !makes_folder(kind) {
            return Ok(());
        }
        self.add(path)?;
        Ok(())
    }
}
