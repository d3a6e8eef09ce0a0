//! The fields that arguments of a call make, as lists.

ghost use Rattle.std.specs.Prelude.{◌≡◌, IfOk, [], ◌∷◌, length};
ghost use Rattle.std.specs.Fmt.{decimal};
ghost use Rattle.hex.specs.Hex.{encode_lower};
ghost use Rattle.hfs_scripts.specs.Results.{GainsItems, GivesItems};
ghost use Rattle.hfs_scripts.specs.Readable.{Reads, ReadsBytes, ReadsFewBytes};
ghost use Rattle.hfs_scripts.specs.Texts.{fork_text, fork_fields, read_fields, write_fields, info_fields};

use hfs_model::{Fork, OwnedBytes, SharedBytes};
use std::alloc::{AllocError, Global};

/// The most fields that follow a word.
const MOST_FIELDS: usize = 6;

/// A number without leading zeros.
pub(crate) fn number_field(alloc: Global, number: u32) -> Result<OwnedBytes, AllocError>
    ensures text { IfOk result (λ field. field ≡ decimal number) }
    ensures reads { IfOk result (λ field. Reads number) }
{
    let text = format!(in alloc; "{number}")?;
    Ok(OwnedBytes::new(text.into_bytes()))
}

/// Bytes as hexadecimal digits in lower case.
fn hex_field(alloc: Global, bytes: &[u8]) -> Result<OwnedBytes, AllocError>
    ensures text { IfOk result (λ field. field ≡ encode_lower bytes.now) }
    ensures reads { IfOk result (λ field. ReadsBytes (length bytes.now) bytes.now) }
    ensures few { IfOk result (λ field. ReadsFewBytes bytes.now) }
{
    let text = hex::encode(alloc, bytes)?;
    Ok(OwnedBytes::new(text.into_bytes()))
}

fn fork_text(fork: Fork) -> &'static [u8]
    ensures { result.now ≡ fork_text fork }
{
    match fork {
        Fork::DataFork => b"data",
        Fork::ResFork => b"res",
    }
}

/// The fields, with one more after them.
fn with_field(mut fields: Vec<OwnedBytes>, field: OwnedBytes) -> Result<Vec<OwnedBytes>, AllocError>
    ensures { GainsItems fields (field ∷ []) result }
{
    fields.push(field)?;
    Ok(fields)
}

fn with_number(
    alloc: Global,
    fields: Vec<OwnedBytes>,
    number: u32,
) -> Result<Vec<OwnedBytes>, AllocError>
    ensures fields { GainsItems fields (decimal number ∷ []) result }
    ensures reads { IfOk result (λ all. Reads number) }
{
    with_field(fields, number_field(alloc, number)?)
}

fn with_text(
    alloc: Global,
    fields: Vec<OwnedBytes>,
    text: &[u8],
) -> Result<Vec<OwnedBytes>, AllocError>
    ensures { GainsItems fields (text.now ∷ []) result }
{
    with_field(fields, OwnedBytes::from_slice(alloc, text)?)
}

/// The fields, with bytes as hexadecimal digits after them.
fn with_bytes(
    alloc: Global,
    fields: Vec<OwnedBytes>,
    bytes: &[u8],
) -> Result<Vec<OwnedBytes>, AllocError>
    ensures fields { GainsItems fields (encode_lower bytes.now ∷ []) result }
    ensures reads { IfOk result (λ all. ReadsBytes (length bytes.now) bytes.now) }
    ensures few { IfOk result (λ all. ReadsFewBytes bytes.now) }
{
    with_field(fields, hex_field(alloc, bytes)?)
}

pub(crate) fn one_number(alloc: Global, number: u32) -> Result<Vec<OwnedBytes>, AllocError>
    ensures fields { GivesItems (decimal number ∷ []) result }
    ensures reads { IfOk result (λ fields. Reads number) }
{
    with_number(alloc, Vec::with_capacity(alloc, MOST_FIELDS)?, number)
}

pub(crate) fn two_numbers(
    alloc: Global,
    dir: u32,
    index: u32,
) -> Result<Vec<OwnedBytes>, AllocError>
    ensures fields { GivesItems (decimal dir ∷ decimal index ∷ []) result }
    ensures dir { IfOk result (λ fields. Reads dir) }
    ensures index { IfOk result (λ fields. Reads index) }
{
    let fields = one_number(alloc, dir)?;
    with_number(alloc, fields, index)
}

pub(crate) fn target(
    alloc: Global,
    dir: u32,
    name: &SharedBytes,
) -> Result<Vec<OwnedBytes>, AllocError>
    ensures fields { GivesItems (decimal dir ∷ name.now ∷ []) result }
    ensures reads { IfOk result (λ fields. Reads dir) }
{
    let fields = one_number(alloc, dir)?;
    with_text(alloc, fields, name.as_slice())
}

/// DIR, NAME and a new name.
pub(crate) fn renaming(
    alloc: Global,
    dir: u32,
    name: &SharedBytes,
    new_name: &SharedBytes,
) -> Result<Vec<OwnedBytes>, AllocError>
    ensures fields { GivesItems (decimal dir ∷ name.now ∷ new_name.now ∷ []) result }
    ensures reads { IfOk result (λ fields. Reads dir) }
{
    let fields = target(alloc, dir, name)?;
    with_text(alloc, fields, new_name.as_slice())
}

/// DIR, NAME and another folder.
pub(crate) fn moving(
    alloc: Global,
    dir: u32,
    name: &SharedBytes,
    new_dir: u32,
) -> Result<Vec<OwnedBytes>, AllocError>
    ensures fields { GivesItems (decimal dir ∷ name.now ∷ decimal new_dir ∷ []) result }
    ensures dir { IfOk result (λ fields. Reads dir) }
    ensures new_dir { IfOk result (λ fields. Reads new_dir) }
{
    let fields = target(alloc, dir, name)?;
    with_number(alloc, fields, new_dir)
}

/// DIR, NAME and Finder bytes.
pub(crate) fn target_and_info(
    alloc: Global,
    dir: u32,
    name: &SharedBytes,
    info: &[u8],
) -> Result<Vec<OwnedBytes>, AllocError>
    ensures fields { GivesItems (decimal dir ∷ name.now ∷ encode_lower info.now ∷ []) result }
    ensures dir { IfOk result (λ fields. Reads dir) }
    ensures info { IfOk result (λ fields. ReadsBytes (length info.now) info.now) }
{
    let fields = target(alloc, dir, name)?;
    with_bytes(alloc, fields, info)
}

/// DIR, NAME, a fork and a number.
pub(crate) fn fork_and_number(
    alloc: Global,
    dir: u32,
    name: &SharedBytes,
    fork: Fork,
    number: u32,
) -> Result<Vec<OwnedBytes>, AllocError>
    ensures fields { GivesItems (fork_fields dir name.now fork number) result }
    ensures dir { IfOk result (λ fields. Reads dir) }
    ensures number { IfOk result (λ fields. Reads number) }
{
    let fields = target(alloc, dir, name)?;
    let fields = with_text(alloc, fields, fork_text(fork))?;
    with_number(alloc, fields, number)
}

/// DIR, NAME, a fork, OFFSET and COUNT.
pub(crate) fn part_of_fork(
    alloc: Global,
    dir: u32,
    name: &SharedBytes,
    fork: Fork,
    offset: u32,
    count: u32,
) -> Result<Vec<OwnedBytes>, AllocError>
    ensures fields { GivesItems (read_fields dir name.now fork offset count) result }
    ensures dir { IfOk result (λ fields. Reads dir) }
    ensures offset { IfOk result (λ fields. Reads offset) }
    ensures count { IfOk result (λ fields. Reads count) }
{
    let fields = fork_and_number(alloc, dir, name, fork, offset)?;
    with_number(alloc, fields, count)
}

/// DIR, NAME, a fork, OFFSET and bytes.
pub(crate) fn written_part(
    alloc: Global,
    dir: u32,
    name: &SharedBytes,
    fork: Fork,
    offset: u32,
    bytes: &SharedBytes,
) -> Result<Vec<OwnedBytes>, AllocError>
    ensures fields { GivesItems (write_fields dir name.now fork offset bytes.now) result }
    ensures dir { IfOk result (λ fields. Reads dir) }
    ensures offset { IfOk result (λ fields. Reads offset) }
    ensures bytes { IfOk result (λ fields. ReadsFewBytes bytes.now) }
{
    let fields = fork_and_number(alloc, dir, name, fork, offset)?;
    with_bytes(alloc, fields, bytes.as_slice())
}

/// Dates and Finder bytes, after DIR and NAME.
pub(crate) fn dates_and_info(
    alloc: Global,
    fields: Vec<OwnedBytes>,
    created: u32,
    modified: u32,
    backup: u32,
    info: &[u8],
) -> Result<Vec<OwnedBytes>, AllocError>
    ensures fields { GainsItems fields (info_fields created modified backup info.now) result }
    ensures created { IfOk result (λ all. Reads created) }
    ensures modified { IfOk result (λ all. Reads modified) }
    ensures backup { IfOk result (λ all. Reads backup) }
    ensures info { IfOk result (λ all. ReadsBytes (length info.now) info.now) }
{
    let fields = with_number(alloc, fields, created)?;
    let fields = with_number(alloc, fields, modified)?;
    let fields = with_number(alloc, fields, backup)?;
    with_bytes(alloc, fields, info)
}
