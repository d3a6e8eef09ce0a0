//! A shelf over memory.
ghost use Rattle.std.specs.Prelude.{◌≡◌, [], ◌∷◌, ◌++◌, IfErr, OnErr, OnOk};
ghost use Rattle.hfs_bag.specs.Entries.{longer};
ghost use Rattle.hfs_bag.specs.declared.shelf_fault.ShelfFault.TheVariants as fault;
ghost use Rattle.hfs_bag.specs.ShelfPlaces.{shelf_place};
ghost use Rattle.hfs_bag.specs.StoredEntries.{entry_with, stored_entries, stored_entry};

use crate::shelf::Shelf;
use crate::shelf_fault::ShelfFault;
use std::alloc::Global;

/// A folder, which has no bytes, or a file with its bytes and the time that it is to have.
#[derive(Drop)]
pub struct Stored {
    pub path: String,
    pub modified: Option<u32>,
    pub bytes: Option<Vec<u8>>,
}

/// A shelf that keeps all that it was given, in order. Its only fault is running out of memory.
#[derive(Drop)]
pub struct MemoryShelf {
    alloc: Global,
    pub stored: Vec<Stored>,
}

impl MemoryShelf {
    /// An empty shelf.
    pub fn new(alloc: Global) -> MemoryShelf
        ensures { result.stored.items ≡ [] }
    {
        MemoryShelf {
            alloc,
            stored: Vec::new(alloc),
        }
    }
}

/// Appends a piece to the bytes of a file; a folder has none. At a fault nothing has changed.
fn extend(stored: &mut Stored, piece: &[u8]) -> Result<(), ShelfFault>
    ensures whole { OnOk result (stored_entry stored.new ≡ longer (stored_entry stored.old)
        piece.now) }
    ensures kept { OnErr result (stored_entry stored.new ≡ stored_entry stored.old) }
    ensures fault { IfErr result (λ why. why ≡ fault.NoMemory) }
{
    match &mut stored.bytes {
        Some(bytes) => match bytes.extend_from_slice(piece) {
            Ok(()) => Ok(()),
            Err(_) => Err(ShelfFault::NoMemory),
        },
        None => Err(ShelfFault::NoMemory),
    }
}

/// Keeps one more thing.
fn keep(
    shelf: &mut MemoryShelf,
    path: &str,
    modified: Option<u32>,
    bytes: Option<Vec<u8>>,
) -> Result<(), ShelfFault>
    ensures whole { OnOk result (stored_entries shelf.new.stored.items ≡ stored_entries
        shelf.old.stored.items ++ entry_with path.now modified bytes ∷ []) }
    ensures kept { OnErr result (shelf.new.stored.items ≡ shelf.old.stored.items) }
    ensures fault { IfErr result (λ why. why ≡ fault.NoMemory) }
{
    let Ok(path) = String::from_str(shelf.alloc, path) else {
        return Err(ShelfFault::NoMemory);
    };
    match shelf.stored.push(Stored {
        path,
        modified,
        bytes,
    }) {
        Ok(()) => Ok(()),
        Err(_) => Err(ShelfFault::NoMemory),
    }
}

impl Shelf for MemoryShelf {
    ghost given = { λ shelf. stored_entries shelf.stored.items };

    ghost place = { λ _. shelf_place [] [] };

    ghost Fails = { λ _ why. why ≡ fault.NoMemory };

    #[tactic(auto, using(crate::proofs::Beginnings::beginnings))]
    fn make_folder(&mut self, path: &str) -> Result<(), ShelfFault> {
        keep(self, path, None, None)
    }

    #[tactic(auto, using(crate::proofs::Beginnings::beginnings))]
    fn make_file(&mut self, path: &str, modified: Option<u32>) -> Result<(), ShelfFault> {
        keep(self, path, modified, Some(Vec::new(self.alloc)))
    }

    fn append(&mut self, piece: &[u8]) -> Result<(), ShelfFault> {
        let last = self.stored.len();
        if last == 0 {
            return Err(ShelfFault::NoMemory);
        }
        extend(&mut self.stored[last - 1], piece)?;
        Ok(())
    }
}
