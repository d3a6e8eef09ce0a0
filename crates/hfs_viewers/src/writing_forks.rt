//! Writing forks of rows.
ghost use Rattle.std.specs.Prelude.{◌≡◌, ◌≤◌, ◌++◌, Some, OnOk, OnErr};
ghost use Rattle.std.specs.Ordering.{nat_cmp};
ghost use Rattle.std.specs.BTreeMap as tree;
ghost use Rattle.byteorder.specs.Endian.{big_bytes};
ghost use Rattle.hfs_model.specs.declared.call.Fork.TheVariants.{DataFork, ResFork};
ghost use Rattle.hfs_model.specs.Forks.{laid_over, physical_length, with_physical_length};
ghost use Rattle.hfs_viewers.specs.Pieces.{ArePieces};
ghost use Rattle.hfs_viewers.specs.PieceEdits.{Keeps, Makes};
ghost use Rattle.hfs_viewers.specs.declared.row.Row.{Row};
ghost use Rattle.hfs_viewers.specs.WrittenForks.{edit_bytes, MayEdit, MayEditRow, EditsFile, KeepsFile, EditsRow, EditsRows, row_fork};

use crate::ForkPieces;
use crate::row::{Row, RowFile, RowKind};
use byteorder::{BigEndian, ByteOrder};
use hfs_model::{Fork, SharedBytes};
use std::alloc::{AllocError, Global};
use std::collections::BTreeMap;

/// What a call makes of the bytes of a fork.
#[derive(Clone, Copy)]
pub enum ForkEdit<'a> {
    /// Cuts them to `count`, or adds zeros up to `count`.
    SetLength { count: u32 },
    /// Puts these bytes in place of those from `offset` on.
    Write { offset: u32, bytes: &'a SharedBytes },
}

/// Writes the four lowest bytes of a number over a file's kept bytes, highest byte first.
#[tactic(auto, using(hfs_model::proofs::ForkLemmas::four_of_eight))]
fn put_number(kept: &mut [u8; 102], at: usize, number: u64)
    requires { at ≤ 98 }
    ensures { kept.new ≡ laid_over at (big_bytes 4 number) kept.old }
{
    let mut bytes = [0; 8];
    BigEndian::write_u64(&mut bytes, number);
    kept[at..at + 4].copy_from_slice(&bytes[4..]);
}

/// Sets the physical length of a fork among a file's kept bytes.
#[tactic(auto, unfolding(hfs_model::specs::Forks::with_physical_length))]
fn set_physical_length(kept: &mut [u8; 102], fork: Fork, bytes: u64)
    ensures { kept.new ≡ with_physical_length fork bytes kept.old }
{
    match fork {
        Fork::DataFork => put_number(kept, 30, bytes),
        Fork::ResFork => put_number(kept, 40, bytes),
    }
}

/// How many bytes the allocation blocks have that `length` bytes take; 0 if a block has none.
fn physical_length(block_size: u32, length: u32) -> u64
    ensures { result ≡ physical_length block_size length }
{
    if block_size == 0 {
        0
    } else {
        u64::from(length.div_ceil(block_size)) * u64::from(block_size)
    }
}

/// Edits a fork. When out of memory, it has the bytes that it had.
fn edit_pieces(alloc: Global, pieces: &mut ForkPieces, edit: ForkEdit) -> Result<(), AllocError>
    requires pieces { ArePieces pieces.old }
    requires may { MayEdit edit pieces.old }
    ensures ok { OnOk result (Makes (edit_bytes edit.entry) pieces.old pieces.new) }
    ensures err { OnErr result (Keeps pieces.old pieces.new) }
{
    match edit {
        ForkEdit::SetLength { count } => pieces.set_length(alloc, count),
        ForkEdit::Write { offset, bytes } => pieces.write(alloc, offset, bytes),
    }
}

/// Edits a file's data fork, and sets its physical length.
fn edit_data(
    alloc: Global,
    file: &mut RowFile,
    block_size: u32,
    edit: ForkEdit,
) -> Result<(), AllocError>
    requires pieces { ArePieces file.old.data.pieces }
    requires may { MayEdit edit file.old.data.pieces }
    ensures ok { OnOk result (EditsFile block_size DataFork (edit_bytes edit.entry) file.old file.new) }
    ensures err { OnErr result (KeepsFile DataFork file.old file.new) }
{
    edit_pieces(alloc, &mut file.data.pieces, edit)?;
    let physical = physical_length(block_size, file.data.pieces.len());
    set_physical_length(&mut file.kept, Fork::DataFork, physical);
    Ok(())
}

/// The same for its resource fork.
fn edit_resource(
    alloc: Global,
    file: &mut RowFile,
    block_size: u32,
    edit: ForkEdit,
) -> Result<(), AllocError>
    requires pieces { ArePieces file.old.resource.pieces }
    requires may { MayEdit edit file.old.resource.pieces }
    ensures ok { OnOk result (EditsFile block_size ResFork (edit_bytes edit.entry) file.old file.new) }
    ensures err { OnErr result (KeepsFile ResFork file.old file.new) }
{
    edit_pieces(alloc, &mut file.resource.pieces, edit)?;
    let physical = physical_length(block_size, file.resource.pieces.len());
    set_physical_length(&mut file.kept, Fork::ResFork, physical);
    Ok(())
}

/// Edits a fork of a file, and sets its physical length.
fn edit_file(
    alloc: Global,
    file: &mut RowFile,
    block_size: u32,
    fork: Fork,
    edit: ForkEdit,
) -> Result<(), AllocError>
    requires pieces { ArePieces (row_fork fork file.old).pieces }
    requires may { MayEdit edit (row_fork fork file.old).pieces }
    ensures ok { OnOk result (EditsFile block_size fork (edit_bytes edit.entry) file.old file.new) }
    ensures err { OnErr result (KeepsFile fork file.old file.new) }
{
    match fork {
        Fork::DataFork => edit_data(alloc, file, block_size, edit),
        Fork::ResFork => edit_resource(alloc, file, block_size, edit),
    }
}

/// Edits a fork of a row, which is modified now; a folder has none. When out of memory, the fork has the bytes that it had.
fn edit_row(
    alloc: Global,
    row: &mut Row,
    block_size: u32,
    fork: Fork,
    edit: ForkEdit,
    now: u32,
) -> Result<(), AllocError>
    requires { MayEditRow fork edit row.old }
    ensures ok { OnOk result (EditsRow (EditsFile block_size fork (edit_bytes edit.entry)) now row.old row.new) }
    ensures err { OnErr result (EditsRow (KeepsFile fork) row.old.modified row.old row.new) }
{
    if let RowKind::File(file) = &mut row.kind {
        edit_file(alloc, file, block_size, fork, edit)?;
    }
    row.modified = now;
    Ok(())
}

/// Edits a fork of the file with that ID.
pub fn edit_fork(
    alloc: Global,
    rows: &mut BTreeMap<u32, Row>,
    id: u32,
    block_size: u32,
    fork: Fork,
    edit: ForkEdit,
    now: u32,
) -> Result<(), AllocError>
    requires { (r : Row) → tree.get nat_cmp rows.old id ≡ Some r → MayEditRow fork edit r }
    ensures ok { OnOk result (EditsRows (EditsRow (EditsFile block_size fork (edit_bytes edit.entry)) now) id rows.old rows.new) }
    ensures err { OnErr result (EditsRows (λ r s. EditsRow (KeepsFile fork) r.modified r s) id rows.old rows.new) }
{
    match rows.get_mut(&id) {
        None => Ok(()),
        Some(row) => edit_row(alloc, row, block_size, fork, edit, now),
    }
}
