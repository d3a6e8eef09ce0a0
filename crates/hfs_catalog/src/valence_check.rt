//! The check at mounting on the valences of folders.

ghost use Rattle.std.specs.Prelude.{◌≡◌, ℕ, ◌+◌, ◌<◌, ◌^◌, [], IfOk, OnOk};
ghost use Rattle.hfs_fields.specs.First.{first_failing};
ghost use Rattle.hfs_catalog.specs.Records.{valence_of};
ghost use Rattle.hfs_catalog.specs.Indexes.{count_of, count_with, CountsChild};
ghost use Rattle.hfs_catalog.specs.Faults.{is_valence_counted, is_valence_right, valence_fault};

use crate::numbers::Numbers;
use crate::{CatalogRecord, is_folder, is_item};
use hfs_fields::DirRecord;
use std::alloc::{AllocError, Global};

/// Children of one parent whose records come one after another, and that haven't been counted with the others yet.
#[derive(Clone, Copy)]
struct Siblings {
    /// The ID of their parent.
    parent: u32,
    /// How many there are.
    count: usize,
}

/// Counts a record under its parent, if it is a file's or a folder's: with its siblings, if it comes after them.
fn count_child(
    counts: &mut Numbers,
    siblings: Siblings,
    r: &CatalogRecord,
) -> Result<Siblings, AllocError>
    requires { (id : ℕ) → count_with counts.old siblings.parent siblings.count id + 1 < 2 ^ 64 }
    ensures { IfOk result (CountsChild r.now counts.old siblings counts.new) }
{
    if !is_item(r.body()) {
        return Ok(siblings);
    }
    let parent = r.key().parent;
    if parent == siblings.parent {
        return Ok(Siblings {
            parent,
            count: siblings.count + 1,
        });
    }
    counts.count_more(siblings.parent, siblings.count)?;
    Ok(Siblings { parent, count: 1 })
}

/// How many files and folders have each ID as their parent. A count is looked up only once for children that come one after
/// another. `Err` only when out of memory.
pub fn child_counts(alloc: Global, catalog: &[CatalogRecord]) -> Result<Numbers, AllocError>
    ensures { IfOk result (λ counts. (id : ℕ) → count_of counts id ≡ valence_of catalog.now id) }
{
    let mut counts = Numbers::new(alloc);
    let mut siblings = Siblings {
        parent: 0,
        count: 0,
    };
    for i in 0..catalog.len() {
        siblings = count_child(&mut counts, siblings, &catalog[i])?;
    }
    counts.count_more(siblings.parent, siblings.count)?;
    Ok(counts)
}

/// Whether a record, if it is a folder's, has the number of its children as its valence.
#[tactic(auto, unfolding(hfs_fields::specs::Records::begins_dir))]
fn is_valence_right(counts: &Numbers, r: &CatalogRecord) -> bool
    ensures { result ≡ is_valence_counted counts.now r.now }
{
    let body = r.body();
    if !is_folder(body) {
        return true;
    }
    match DirRecord::read(body) {
        Some(folder) => folder.valence as usize == counts.count(folder.id),
        None => false,
    }
}

/// The number of the first folder's record with a valence that is not the number of its children.
fn first_wrong_valence(counts: &Numbers, catalog: &[CatalogRecord]) -> Option<usize>
    requires { (id : ℕ) → count_of counts.now id ≡ valence_of catalog.now id }
    ensures { result ≡ first_failing (λ _ r. is_valence_right catalog.now r) [] catalog.now }
{
    for i in 0..catalog.len() {
        if !is_valence_right(counts, &catalog[i]) {
            return Some(i);
        }
    }
    None
}

/// The number of the first record, from 0 on, of a folder whose valence (dirVal) is not the number of the files' and folders'
/// records under its ID. None if all valences are right.
///
/// Reads each record twice, and takes memory for a count for each parent. `Err` only when out of memory.
#[tactic(auto, unfolding(crate::specs::Faults::valence_fault))]
pub fn valence_fault(alloc: Global, catalog: &[CatalogRecord]) -> Result<Option<usize>, AllocError>
    ensures { IfOk result (λ fault. fault ≡ valence_fault catalog.now) }
{
    let counts = child_counts(alloc, catalog)?;
    Ok(first_wrong_valence(&counts, catalog))
}
