//! The check of mounting on the extents of files and on the records of the extents tree.
ghost use Rattle.std.specs.Prelude.{◌≡◌, ℕ, ◌<◌, ◌≤◌, ◌^◌, ◌&&◌, List, length, nat_lt, if◌then◌else◌, IfOk, IfSome};
ghost use Rattle.std.specs.List.{list_all};
ghost use Rattle.hfs_fields.specs.declared.key.CatKey.{CatKey};
ghost use Rattle.hfs_fields.specs.Keys.{ext_cmp};
ghost use Rattle.hfs_btree.specs.Pairs.{Pairs, Rises};
ghost use Rattle.hfs_space.specs.Extents as extents;
ghost use Rattle.hfs_space.specs.Owners.{forks_of_file, is_bad_blocks};
ghost use Rattle.hfs_space.specs.Runs as runs;
ghost use Rattle.hfs_space.specs.Results.{Gives};
ghost use Rattle.hfs_space.specs.Faults as spec;
ghost use Rattle.hfs_space.specs.TreeKeys.{IsExtentsTree, overflow_of};

use crate::checks::can_hold;
use crate::extents::are_within;
use crate::files::CatalogFile;
use crate::fork_kind::ForkKind;
use crate::overflow::{BAD_BLOCKS, CATALOG_FILE, OverflowRecord, blocks_in, overflow_records};
use crate::runs::{mark_run, push_fork};
use hfs_btree::Nodes;
use hfs_fields::{Extent, FileRecord, ForkRecord, Mdb};
use std::alloc::{AllocError, Global};

/// Whether a fork's extents, including those of its overflow records, lie in the volume and have room for its bytes. They replace
/// what `extents` has.
#[tactic(auto, unfolding(crate::specs::Faults::is_fork_right))]
fn is_fork_right(
    mdb: &Mdb,
    overflow: &[OverflowRecord],
    file: u32,
    kind: ForkKind,
    fork: &ForkRecord,
    extents: &mut Vec<Extent>,
) -> Result<bool, AllocError>
    requires { Rises ext_cmp overflow.now }
    ensures { Gives (runs.is_record_fork_right mdb.now overflow.now file kind fork.now) result }
{
    extents.clear();
    push_fork(overflow, file, kind, &fork.extents, extents)?;
    Ok(can_hold(mdb, extents, fork.length))
}

/// Whether both forks of a file are right. Their extents replace what `extents` has.
#[tactic(auto, unfolding(crate::specs::Owners::forks_of_file))]
fn are_forks_right(
    mdb: &Mdb,
    overflow: &[OverflowRecord],
    file: &FileRecord,
    extents: &mut Vec<Extent>,
) -> Result<bool, AllocError>
    requires { Rises ext_cmp overflow.now }
    ensures { IfOk result (λ right. right ≡ runs.is_file_right mdb.now overflow.now file.now) }
{
    let data = is_fork_right(mdb, overflow, file.id, ForkKind::Data, &file.data, extents)?;
    let resource = is_fork_right(
        mdb,
        overflow,
        file.id,
        ForkKind::Resource,
        &file.resource,
        extents,
    )?;
    Ok(data && resource)
}

/// The number of the first file with a wrong fork.
fn first_wrong_file(
    alloc: Global,
    mdb: &Mdb,
    overflow: &[OverflowRecord],
    files: &[CatalogFile],
) -> Result<Option<usize>, AllocError>
    requires { Rises ext_cmp overflow.now }
    ensures { IfOk result (λ fault. fault ≡ runs.first_wrong_file mdb.now overflow.now files.now) }
{
    let mut extents = Vec::new(alloc);
    for file in files {
        let right = are_forks_right(mdb, overflow, &file.file, &mut extents)?;
        if !right {
            return Ok(Some(file.number));
        }
    }
    Ok(None)
}

/// Marks the records of the extents tree that continue a file.
fn mark_file(overflow: &[OverflowRecord], file: &FileRecord, marks: &mut [bool])
    requires rises { Rises ext_cmp overflow.now }
    requires length { length marks.old ≡ length overflow.now }
    ensures { runs.AddsUses overflow.now (forks_of_file file.now) marks.old marks.new }
{
    mark_run(overflow, file.id, ForkKind::Data, &file.data.extents, marks);
    mark_run(
        overflow,
        file.id,
        ForkKind::Resource,
        &file.resource.extents,
        marks,
    );
}

/// Marks the records of the extents tree that continue one of the files.
fn mark_files(overflow: &[OverflowRecord], files: &[CatalogFile], marks: &mut [bool])
    requires rises { Rises ext_cmp overflow.now }
    requires length { length marks.old ≡ length overflow.now }
    ensures { runs.AddsUses overflow.now (runs.forks_in files.now) marks.old marks.new }
{
    for file in files {
        mark_file(overflow, &file.file, marks);
    }
}

/// Marks the records of the extents tree that continue the catalog file or one of the files.
fn mark_used(mdb: &Mdb, overflow: &[OverflowRecord], files: &[CatalogFile], marks: &mut [bool])
    requires rises { Rises ext_cmp overflow.now }
    requires length { length marks.old ≡ length overflow.now }
    ensures { runs.AddsUses overflow.now (runs.forks_with mdb.now files.now) marks.old marks.new }
{
    mark_run(
        overflow,
        CATALOG_FILE,
        ForkKind::Data,
        &mdb.catalog_file,
        marks,
    );
    mark_files(overflow, files, marks);
}

/// The marks of the records of the extents tree that continue the catalog file or one of the files.
fn used_marks(
    alloc: Global,
    mdb: &Mdb,
    overflow: &[OverflowRecord],
    files: &[CatalogFile],
) -> Result<Vec<bool>, AllocError>
    requires { Rises ext_cmp overflow.now }
    ensures length { IfOk result (λ marks. length marks.items ≡ length overflow.now) }
    ensures marks { IfOk result (runs.AreMarksOf mdb.now overflow.now files.now) }
{
    let mut marks = vec![in alloc; false; overflow.len()]?;
    mark_used(mdb, overflow, files, &mut marks);
    Ok(marks)
}

/// Whether a record's extents lie within the first `blocks` allocation blocks.
fn is_within(r: &OverflowRecord, blocks: u16) -> bool
    ensures { result ≡ spec.are_extents_within blocks (extents.record_extents r.now.1) }
{
    match r.extents() {
        Some(extents) => are_within(&extents, blocks),
        None => true,
    }
}

/// Whether a record of the extents tree has a block, and is either one of the bad blocks' that lies in the volume, or one that is
/// used.
fn is_record_right(mdb: &Mdb, r: &OverflowRecord, used: bool) -> bool
    ensures { result ≡ runs.is_overflow_right_if mdb.now used r.now }
{
    if blocks_in(r) == 0 {
        return false;
    }
    if r.key().file == BAD_BLOCKS {
        is_within(r, mdb.allocation_blocks)
    } else {
        used
    }
}

/// The place of the first wrong record of the extents tree.
#[tactic(auto, using(hfs_fields::proofs::ScanStepLemmas::scan_stop, hfs_fields::proofs::ScanStepLemmas::scan_go, hfs_fields::proofs::ScanStepLemmas::scan_end))]
fn overflow_fault(
    alloc: Global,
    mdb: &Mdb,
    overflow: &[OverflowRecord],
    files: &[CatalogFile],
) -> Result<Option<usize>, AllocError>
    requires { Rises ext_cmp overflow.now }
    ensures fault { Gives (runs.overflow_fault_with mdb.now overflow.now files.now) result }
    ensures bound { IfOk result (λ fault. IfSome fault (λ i. i < length overflow.now)) }
{
    let used = used_marks(alloc, mdb, overflow, files)?;
    for i in 0..overflow.len() {
        if !is_record_right(mdb, &overflow[i], used[i]) {
            return Ok(Some(i));
        }
    }
    Ok(None)
}

/// The first fault of a volume's extents; `tree` is its extents tree, `files` are the files of its catalog, and `records` is how
/// many leaf records the catalog has. It is the number of the first file's record with a fork whose extents, including those of
/// its overflow records, don't lie in the volume or have no room for the fork's bytes. If there is none, it is `records` plus the
/// number of the first wrong record of the extents tree: one that has no block; one of the bad blocks (file 5) that doesn't lie
/// in the volume; or one of another file that continues neither the catalog file (file 4) nor a file of the catalog.
///
/// The work is some searches for each file, and going through the extents tree once. Fails only when out of memory.
///
/// Source: Inside Macintosh: Files, chapter 2, 'Extents overflow file'.
pub fn fork_fault<N: Nodes>(
    alloc: Global,
    mdb: &Mdb,
    tree: &N,
    files: &[CatalogFile],
    records: usize,
) -> Result<Option<usize>, AllocError>
    requires tree { IsExtentsTree (N.nodes tree.now) }
    requires few { records < 2 ^ 63 }
    ensures { runs.GivesForkFault mdb.now (N.nodes tree.now) records files.now result }
{
    let overflow = overflow_records(alloc, tree)?;
    let wrong = first_wrong_file(alloc, mdb, &overflow, files)?;
    if wrong.is_some() {
        return Ok(wrong);
    }
    match overflow_fault(alloc, mdb, &overflow, files)? {
        Some(i) => Ok(Some(records + i)),
        None => Ok(None),
    }
}
