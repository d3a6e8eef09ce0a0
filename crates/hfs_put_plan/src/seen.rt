//! The names of a folder that were seen, in name order and without hashing, since the host's folder is chosen by others.
ghost use Rattle.std.specs.Prelude.{◌≡◌, [], IfOk, OnOk};
ghost use Rattle.hfs_fields.specs.Order.{fold_letter, folded};
ghost use Rattle.hfs_put_plan.specs.Seen.{AddsRow, has_row};

use hfs_fields::Name;
use std::alloc::{AllocError, Global};
use std::collections::BTreeSet;
use std::marker::Model;

/// A set of folded names. Contracts see their list.
#[derive(Drop)]
pub(crate) struct Seen {
    rows: BTreeSet<Vec<u8>>,
}

impl Model for Seen {
    ghost use Rattle.std.specs.Prelude.{ℕ, List};
    ghost use Rattle.std.proofs.Common.{Vec, Global};

    ghost Value = { List (Vec ℕ Global) };

    ghost view = { λ s. s.rows.keys };
}

/// The capital of a letter from `a` to `z`, and any other byte itself.
fn fold_letter(byte: u8) -> u8
    ensures { result ≡ fold_letter byte }
{
    if byte >= b'a' && byte <= b'z' {
        byte - 32
    } else {
        byte
    }
}

/// Bytes with all letters folded to capitals.
fn folded_bytes(alloc: Global, bytes: &[u8]) -> Result<Vec<u8>, AllocError>
    ensures { IfOk result (λ row. row.items ≡ folded bytes.now) }
{
    let mut row = Vec::new(alloc);
    for byte in bytes {
        row.push(fold_letter(*byte))?;
    }
    Ok(row)
}

/// A name with all letters folded to capitals.
pub(crate) fn folded(alloc: Global, name: &Name) -> Result<Vec<u8>, AllocError>
    ensures { IfOk result (λ row. row.items ≡ folded name.now) }
{
    folded_bytes(alloc, name.bytes())
}

impl Seen {
    /// No names. Takes no memory.
    pub(crate) fn new(alloc: Global) -> Seen
        ensures { result ≡ [] }
    {
        Seen {
            rows: BTreeSet::new(alloc),
        }
    }

    /// Whether these bytes were seen.
    pub(crate) fn has(&self, row: &Vec<u8>) -> bool
        ensures { result ≡ has_row self.now row.now }
    {
        self.rows.contains(row)
    }

    /// Notes these bytes. `Err` only when out of memory.
    pub(crate) fn add(&mut self, row: Vec<u8>) -> Result<(), AllocError>
        ensures { OnOk result (AddsRow row self.old self.new) }
    {
        self.rows.insert(row)?;
        Ok(())
    }
}
