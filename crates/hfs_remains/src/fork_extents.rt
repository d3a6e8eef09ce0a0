//! The extents of a fork that continues in records of the extents tree.
ghost use Rattle.std.specs.Prelude.{◌≡◌, ℕ, ◌+◌, ◌≤◌, ◌++◌, ◌<◌, ◌^◌, None, length, slice_index_or, IfOk, OnOk};
ghost use Rattle.std.specs.Option.{option_copied};
ghost use Rattle.hfs_space.specs.Extents as space;
ghost use Rattle.hfs_remains.specs.OverflowRecords as spec;
ghost use Rattle.hfs_remains.specs.OverflowRecords.{TellsPlaces};

use crate::overflow::OverflowRecord;
use hfs_fields::{Extent, Mdb};
use std::alloc::{AllocError, Global};

/// Notes the place of a record at the fork's block from which it continues the fork, if it is the first of this fork there.
fn note_place(places: &mut [Option<usize>], entry: &OverflowRecord, file: u32, fork: u8, i: usize)
    requires { length places.old ≡ 65536 }
    ensures { spec.NotesPlace file fork i entry.now places.old places.new }
{
    let key = entry.key();
    if key.file != file || key.fork != fork {
        return;
    }
    let place = &mut places[usize::from(key.block)];
    if place.is_none() {
        *place = Some(i);
    }
}

/// No places, for each number of two bytes.
fn no_places(alloc: Global) -> Result<Vec<Option<usize>>, AllocError>
    ensures none { IfOk result (λ places. (block : ℕ) → slice_index_or places.items block None ≡
        None) }
    ensures long { IfOk result (λ places. length places.items ≡ 65536) }
{
    let mut places = Vec::new(alloc);
    while places.len() < 65536 {
        places.push(None)?;
    }
    Ok(places)
}

/// For each block of a fork from which a record continues it, the place of the first such record, counted from 0.
fn fork_places(
    alloc: Global,
    records: &[OverflowRecord],
    file: u32,
    fork: u8,
) -> Result<Vec<Option<usize>>, AllocError>
    ensures places { IfOk result (λ places. spec.TellsPlaces records.now file fork places.items) }
    ensures long { IfOk result (λ places. length places.items ≡ 65536) }
{
    let mut places = no_places(alloc)?;
    for i in 0..records.len() {
        note_place(&mut places, &records[i], file, fork, i);
    }
    Ok(places)
}

/// The place that is noted at a block; None after the last.
fn place_at(places: &[Option<usize>], block: u32) -> Option<usize>
    ensures { result ≡ slice_index_or places.now block None }
{
    let place = block as usize;
    if place < places.len() {
        places[place]
    } else {
        None
    }
}

/// The records that may continue a fork, by the fork's blocks from which they do.
#[derive(Drop)]
struct ForkRecords<'a> {
    /// All records of the extents tree.
    records: &'a [OverflowRecord],
    /// The number of the fork's file.
    file: u32,
    /// The fork's number in keys.
    fork: u8,
    places: Vec<Option<usize>>,
    ghost tells: { TellsPlaces records.now file fork places.items },
    ghost long: { length places.items ≡ 65536 },
}

impl<'a> ForkRecords<'a> {
    /// The records of a fork. Of several from the same block, the first counts.
    fn of(
        alloc: Global,
        records: &'a [OverflowRecord],
        file: u32,
        fork: u8,
    ) -> Result<ForkRecords<'a>, AllocError>
        ensures records { IfOk result (λ made. made.records.now ≡ records.now) }
        ensures file { IfOk result (λ made. made.file ≡ file) }
        ensures fork { IfOk result (λ made. made.fork ≡ fork) }
    {
        let places = fork_places(alloc, records, file, fork)?;
        Ok(ForkRecords {
            records,
            file,
            fork,
            places,
        })
    }

    /// The first record from a block of the fork on.
    fn at(&self, block: u32) -> Option<&OverflowRecord>
        ensures { option_copied result ≡ spec.record_at self.now.records.now self.now.file
            self.now.fork block }
    {
        match place_at(&self.places, block) {
            Some(place) => self.records.get(place),
            None => None,
        }
    }
}

/// How many blocks an extent has.
fn block_count(extent: Extent) -> u32
    ensures count { result ≡ extent.count }
    ensures few { result < 2 ^ 16 }
{
    u32::from(extent.count)
}

/// How many blocks three extents have together.
fn block_total(extents: &[Extent; 3]) -> u32
    ensures total { result ≡ space.block_total extents.now }
    ensures few { result < 2 ^ 18 }
{
    let [first, second, third] = *extents;
    block_count(first) + block_count(second) + block_count(third)
}

/// How many blocks a record has.
fn blocks_in(entry: &OverflowRecord) -> u32
    ensures total { result ≡ space.block_total (space.record_extents entry.now.1) }
    ensures few { result < 2 ^ 18 }
{
    match entry.extents() {
        Some(extents) => block_total(&extents),
        None => 0,
    }
}

/// Adds the extents of a record.
fn push_extents(entry: &OverflowRecord, extents: &mut Vec<Extent>) -> Result<(), AllocError>
    ensures items { OnOk result (extents.new.items ≡ extents.old.items ++ space.record_extents
        entry.now.1) }
    ensures few { OnOk result (length extents.new.items ≤ length extents.old.items + 3) }
{
    if let Some(more) = entry.extents() {
        extents.extend_from_slice(&more)?;
    }
    Ok(())
}

/// The extents of a fork whose record has these first ones and that wants this many blocks: these, and those of the records that
/// continue it, each from the block where the ones before it end, as long as there is one with a block and blocks are still
/// wanted. Fails only when out of memory.
#[tactic(auto, unfolding(crate::specs::OverflowRecords::fork_extents))]
fn fork_extents(
    alloc: Global,
    records: &[OverflowRecord],
    file: u32,
    fork: u8,
    wanted: u32,
    first: &[Extent; 3],
) -> Result<Vec<Extent>, AllocError>
    requires { wanted ≤ 65536 }
    ensures extents { IfOk result (λ extents. extents.items ≡ spec.fork_extents records.now file
        fork wanted first.now) }
    ensures few { IfOk result (λ extents. length extents.items ≤ 196611) }
{
    let fork_records = ForkRecords::of(alloc, records, file, fork)?;
    let mut extents = Vec::from_slice(alloc, first)?;
    let mut block = block_total(first);
    let mut most = 65536u32;
    while most > 0 {
        if block >= wanted {
            return Ok(extents);
        }
        let Some(record) = fork_records.at(block) else {
            return Ok(extents);
        };
        most -= 1;
        let more = blocks_in(record);
        if more == 0 {
            return Ok(extents);
        }
        push_extents(record, &mut extents)?;
        block += more;
    }
    Ok(extents)
}

/// All extents of the catalog file: the directory's three, and those of the records that continue it, as long as there is one
/// with a block. Fails only when out of memory.
#[tactic(auto, unfolding(crate::specs::OverflowRecords::catalog_extents))]
pub fn catalog_extents(
    alloc: Global,
    records: &[OverflowRecord],
    mdb: &Mdb,
) -> Result<Vec<Extent>, AllocError>
    ensures extents { IfOk result (λ extents. extents.items ≡ spec.catalog_extents records.now
        mdb.now) }
    ensures few { IfOk result (λ extents. length extents.items ≤ 196611) }
{
    fork_extents(alloc, records, 4, 0, 65536, &mdb.catalog_file)
}
