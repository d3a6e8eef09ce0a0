//! Reading the blocks of an image that are needed to find what there is of it.
ghost use Rattle.std.specs.Prelude.{◌≡◌, ◌+◌, ◌<◌, ◌≤◌, ◌^◌, true, if◌then◌else◌, Some, None, IfOk, OnOk, length, slice_index_or};
ghost use Rattle.hfs_image.specs.Gathered.{HasRead};
ghost use Rattle.hfs_remains.specs.Directory.{beginning_of};
ghost use Rattle.hfs_remains.specs.CatalogRecords.{looks_elsewhere};
ghost use Rattle.hfs_remains.specs.OverflowRecords.{catalog_extents, overflow_records};
ghost use Rattle.hfs_remains.specs.Remains.{catalog_file_extents, extents_file_blocks};
ghost use Rattle.hfs_remains.specs.TreeFiles.{AreThere};
ghost use Rattle.hfs_source.specs.Images.{OfEach};
ghost use Rattle.hfs_source.specs.Seen.{IsSeen, SeesMore};
ghost use Rattle.hfs_source.specs.Sparse.{HasEach, sparse};
ghost use Rattle.hfs_remains_forks.specs.Needed as spec;
ghost use Rattle.hfs_remains_forks.specs.FileReads.{HasPlaces, LieBeside};
ghost use Rattle.hfs_remains_forks.specs.NeededFinds.{IsGathered};

use hfs_blocks::Blocks;
use hfs_fields::{Extent, Mdb};
use hfs_remains::{
    FileNodes, beginning_of, catalog_extents, file_blocks, looks_elsewhere, overflow_records,
    read_mdb_at, start_of, usual_directory,
};
use hfs_source::{BlockSource, SparseBlocks, SparseFault, fetch, fetch_range};
use std::alloc::{AllocError, Global};

/// The needed blocks of an image.
#[derive(Drop)]
pub(crate) struct Gathered {
    /// The blocks that were read.
    pub(crate) read: SparseBlocks,
    /// The block of the directory; None if other blocks are wanted.
    pub(crate) directory: Option<u32>,
}

/// Reads the block where the tree whose file has these extents begins, if it is there.
#[tactic(auto, using(hfs_source::proofs::Seen::sees_itself))]
fn fetch_beginning<S: BlockSource>(
    source: &mut S,
    read: &mut SparseBlocks,
    count: u32,
    mdb: &Mdb,
    extents: &[Extent],
) -> Result<(), SparseFault>
    ensures has { OnOk result (HasEach read.new
        (spec.listed (beginning_of count mdb.now extents.now))) }
    ensures reads { OnOk result (HasRead (S.image source.old) count read.old read.new) }
    ensures image { S.image source.new ≡ S.image source.old }
    ensures sees { SeesMore (S.Holds source.old) (S.Holds source.new) read.old read.new }
{
    let Some(n) = beginning_of(count, mdb, extents) else {
        return Ok(());
    };
    fetch(source, read, n)?;
    Ok(())
}

/// Reads the blocks that say whether block `n` can serve as a directory.
fn fetch_place<S: BlockSource>(
    source: &mut S,
    read: &mut SparseBlocks,
    count: u32,
    n: u32,
) -> Result<(), SparseFault>
    requires { n < count }
    ensures has { OnOk result (HasEach read.new (spec.needed_at count (sparse read.new) n)) }
    ensures reads { OnOk result (HasRead (S.image source.old) count read.old read.new) }
    ensures image { S.image source.new ≡ S.image source.old }
    ensures sees { SeesMore (S.Holds source.old) (S.Holds source.new) read.old read.new }
{
    fetch(source, read, n)?;
    let mdb = read_mdb_at(&read.volume(count), n);
    fetch_beginning(source, read, count, &mdb, &mdb.extents_file)?;
    fetch_beginning(source, read, count, &mdb, &mdb.catalog_file)?;
    Ok(())
}

/// Reads the blocks that say which of a directory's two places has one that can serve.
fn fetch_places<S: BlockSource>(
    source: &mut S,
    read: &mut SparseBlocks,
    count: u32,
) -> Result<(), SparseFault>
    requires { 3 ≤ count }
    ensures has { OnOk result (HasEach read.new (spec.needed_of_places count (sparse read.new))) }
    ensures reads { OnOk result (HasRead (S.image source.old) count read.old read.new) }
    ensures image { S.image source.new ≡ S.image source.old }
    ensures sees { SeesMore (S.Holds source.old) (S.Holds source.new) read.old read.new }
{
    fetch_place(source, read, count, 2)?;
    fetch_place(source, read, count, count - 2)?;
    Ok(())
}

/// Whether a place of a file has this allocation block.
fn has_block(place: Option<u16>, b: u64) -> bool
    ensures { result ≡ true → place ≡ Some b }
{
    match place {
        Some(own) => u64::from(own) == b,
        None => false,
    }
}

/// How many places of a file from place `i` on, at least that one, have blocks that follow each other, starting with `b`.
fn side_by_side(file: &[Option<u16>], i: usize, b: u16) -> usize
    requires { slice_index_or file.now i None ≡ Some b }
    ensures few { (1 ≤ result) × (i + result ≤ length file.now) }
    ensures beside { LieBeside file.now i b result }
{
    let mut k = 1;
    while k < file.len() - i {
        if !has_block(file[i + k], u64::from(b) + k as u64) {
            return k;
        }
        k += 1;
    }
    k
}

/// Reads the allocation block at place `i` of a file, and with it those at the next places as long as they follow it. Returns how
/// many places these are.
#[tactic(auto, using(hfs_source::proofs::Seen::sees_itself))]
fn fetch_from<S: BlockSource>(
    source: &mut S,
    read: &mut SparseBlocks,
    count: u32,
    mdb: &Mdb,
    file: &[Option<u16>],
    i: usize,
) -> Result<usize, SparseFault>
    requires size { 512 ≤ mdb.now.allocation_block_size }
    requires there { AreThere count mdb.now file.now }
    requires within { i < length file.now }
    ensures few { IfOk result (λ step. (1 ≤ step) × (i + step ≤ length file.now)) }
    ensures has { IfOk result (λ step. HasPlaces read.new mdb.now file.now i (i + step)) }
    ensures reads { OnOk result (HasRead (S.image source.old) count read.old read.new) }
    ensures image { S.image source.new ≡ S.image source.old }
    ensures sees { SeesMore (S.Holds source.old) (S.Holds source.new) read.old read.new }
{
    let Some(b) = file[i] else {
        return Ok(1);
    };
    let step = side_by_side(file, i, b);
    let Some(last) = file[i + (step - 1)] else {
        unreachable!()
    };
    let start = start_of(count, mdb, b);
    let behind = start_of(count, mdb, last) + mdb.allocation_block_size / 512;
    fetch_range(source, read, start, behind - start)?;
    Ok(step)
}

/// Reads those allocation blocks of a file that are there; blocks that follow each other are read together.
#[tactic(auto, using(hfs_source::proofs::Seen::sees_itself))]
fn fetch_file<S: BlockSource>(
    source: &mut S,
    read: &mut SparseBlocks,
    count: u32,
    mdb: &Mdb,
    file: &[Option<u16>],
) -> Result<(), SparseFault>
    requires size { 512 ≤ mdb.now.allocation_block_size }
    requires there { AreThere count mdb.now file.now }
    ensures has { OnOk result (HasEach read.new (spec.needed_of_file mdb.now file.now)) }
    ensures reads { OnOk result (HasRead (S.image source.old) count read.old read.new) }
    ensures image { S.image source.new ≡ S.image source.old }
    ensures sees { SeesMore (S.Holds source.old) (S.Holds source.new) read.old read.new }
{
    let mut i = 0;
    while i < file.len() {
        i += fetch_from(source, read, count, mdb, file, i)?;
    }
    Ok(())
}

/// All extents of the catalog file, given the blocks of the extents file.
fn extents_of<B: Blocks>(
    alloc: Global,
    blocks: &B,
    mdb: &Mdb,
    file: &[Option<u16>],
) -> Result<Vec<Extent>, AllocError>
    requires size { 512 ≤ mdb.now.allocation_block_size }
    requires there { AreThere (B.total blocks.now) mdb.now file.now }
    requires few { length file.now < 2 ^ 40 }
    ensures extents { IfOk result (λ extents. extents.items ≡ catalog_extents
        (overflow_records (B.blocks blocks.now) mdb.now file.now) mdb.now) }
    ensures few { IfOk result (λ extents. length extents.items ≤ 196611) }
{
    let nodes = FileNodes { blocks, mdb, file };
    let overflow = overflow_records(alloc, &nodes)?;
    let extents = catalog_extents(alloc, &overflow, mdb)?;
    Ok(extents)
}

/// Reads the blocks of the extents file, and returns all extents of the catalog file.
#[tactic(auto, using(hfs_source::proofs::Seen::sees_itself))]
fn fetch_extents<S: BlockSource>(
    alloc: Global,
    source: &mut S,
    read: &mut SparseBlocks,
    count: u32,
    mdb: &Mdb,
) -> Result<Vec<Extent>, SparseFault>
    requires size { 512 ≤ mdb.now.allocation_block_size }
    ensures has { OnOk result (HasEach read.new
        (spec.needed_of_file mdb.now (extents_file_blocks count mdb.now))) }
    ensures extents { IfOk result (λ extents. extents.items ≡ catalog_file_extents count
        (sparse read.new) mdb.now) }
    ensures few { IfOk result (λ extents. length extents.items ≤ 196611) }
    ensures reads { OnOk result (HasRead (S.image source.old) count read.old read.new) }
    ensures image { S.image source.new ≡ S.image source.old }
    ensures sees { SeesMore (S.Holds source.old) (S.Holds source.new) read.old read.new }
{
    let Ok(file) = file_blocks(alloc, count, mdb, &mdb.extents_file) else {
        return Err(SparseFault::Memory);
    };
    fetch_file(source, read, count, mdb, &file)?;
    match extents_of(alloc, &read.volume(count), mdb, &file) {
        Ok(extents) => Ok(extents),
        Err(_) => Err(SparseFault::Memory),
    }
}

/// Whether blocks of the image other than the catalog file's are looked at, given the file's extents and blocks.
fn is_elsewhere(
    alloc: Global,
    read: &SparseBlocks,
    count: u32,
    mdb: &Mdb,
    extents: &[Extent],
    file: &[Option<u16>],
) -> Result<bool, AllocError>
    requires size { 512 ≤ mdb.now.allocation_block_size }
    requires there { AreThere count mdb.now file.now }
    requires few { length file.now < 2 ^ 40 }
    ensures { IfOk result (λ elsewhere. elsewhere ≡ looks_elsewhere (sparse read.now) mdb.now
        extents.now file.now) }
{
    let nodes = FileNodes {
        blocks: &read.volume(count),
        mdb,
        file,
    };
    let elsewhere = looks_elsewhere(alloc, &nodes, extents)?;
    Ok(elsewhere)
}

/// Reads the blocks of both trees' files, and returns whether other blocks are looked at.
fn fetch_files<S: BlockSource>(
    alloc: Global,
    source: &mut S,
    read: &mut SparseBlocks,
    count: u32,
    mdb: &Mdb,
) -> Result<bool, SparseFault>
    requires size { 512 ≤ mdb.now.allocation_block_size }
    ensures has { OnOk result (HasEach read.new
        (spec.needed_of_files count (sparse read.new) mdb.now)) }
    ensures elsewhere { IfOk result (λ elsewhere. elsewhere ≡ spec.is_elsewhere count
        (sparse read.new) mdb.now) }
    ensures reads { OnOk result (HasRead (S.image source.old) count read.old read.new) }
    ensures image { S.image source.new ≡ S.image source.old }
    ensures sees { SeesMore (S.Holds source.old) (S.Holds source.new) read.old read.new }
{
    let extents = fetch_extents(alloc, source, read, count, mdb)?;
    let Ok(file) = file_blocks(alloc, count, mdb, &extents) else {
        return Err(SparseFault::Memory);
    };
    fetch_file(source, read, count, mdb, &file)?;
    match is_elsewhere(alloc, read, count, mdb, &extents, &file) {
        Ok(elsewhere) => Ok(elsewhere),
        Err(_) => Err(SparseFault::Memory),
    }
}

/// The directory, if no other blocks are looked at.
fn unless(elsewhere: bool, directory: u32) -> Option<u32>
    ensures { result ≡ (if elsewhere then None else Some directory) }
{
    if elsewhere { None } else { Some(directory) }
}

/// Reads those blocks of an image of `count` blocks that are needed to find what there is of it: those that say which of a
/// directory's two places has one that can serve, and then those of both trees' files. Errors: a read failed, memory was refused.
pub(crate) fn gather<S: BlockSource>(
    alloc: Global,
    source: &mut S,
    count: u32,
) -> Result<Gathered, SparseFault>
    requires { 3 ≤ count }
    ensures gathered { IfOk result (IsGathered (S.image source.old) count) }
    ensures image { S.image source.new ≡ S.image source.old }
    ensures seen { IfOk result (λ gathered. IsSeen (S.Holds source.new) gathered.read) }
    ensures narrows { OfEach (S.Holds source.new) (S.Holds source.old) }
{
    let mut read = SparseBlocks::new(alloc);
    fetch_places(source, &mut read, count)?;
    let Some(n) = usual_directory(&read.volume(count)) else {
        return Ok(Gathered {
            read,
            directory: None,
        });
    };
    let mdb = read_mdb_at(&read.volume(count), n);
    let elsewhere = fetch_files(alloc, source, &mut read, count, &mdb)?;
    let directory = unless(elsewhere, n);
    Ok(Gathered { read, directory })
}
