//! The records that continue forks, and how many blocks they have together.
ghost use Rattle.std.specs.Prelude.{◌≡◌, ◌+◌, ◌++◌, ◌^◌, ◌<◌, ◌≤◌, map, length, IfOk, OnOk};
ghost use Rattle.std.specs.List.{range_with_len};
ghost use Rattle.std.specs.Option.{option_copied};
ghost use Rattle.hfs_remains.specs.OverflowRecords.{fork_extents, record_at};
ghost use Rattle.hfs_space.specs.Extents as space;
ghost use Rattle.hfs_remains_forks.specs.Chains as spec;

use crate::codes::CodedPlaces;
use hfs_fields::Extent;
use hfs_remains::OverflowRecord;
use hfs_remains_places::doubled;
use std::alloc::{AllocError, Global};
use std::marker::Model;

/// How many blocks an extent has.
fn block_count(extent: Extent) -> u32
    ensures count { result ≡ extent.count }
    ensures few { result < 2 ^ 16 }
{
    u32::from(extent.count)
}

/// How many blocks three extents have together.
pub(crate) fn block_total(extents: &[Extent; 3]) -> u32
    ensures total { result ≡ space.block_total extents.now }
    ensures few { result < 2 ^ 18 }
{
    let [first, second, third] = *extents;
    block_count(first) + block_count(second) + block_count(third)
}

/// How many blocks a record has.
fn own_blocks(record: &OverflowRecord) -> u32
    ensures total { result ≡ spec.own_blocks record.now }
    ensures few { result < 2 ^ 18 }
{
    match record.extents() {
        Some(extents) => block_total(&extents),
        None => 0,
    }
}

/// The number of a file, a fork and a block of the fork, as one.
fn code(file: u32, fork: u8, block: u16) -> u64
    ensures { result ≡ spec.code file fork block }
{
    (u64::from(file) * 256 + u64::from(fork)) * 65_536 + u64::from(block)
}

/// Notes a record, if it is the first with its number.
fn note(places: &mut CodedPlaces, record: &OverflowRecord, i: usize) -> Result<(), AllocError>
    ensures { OnOk result (spec.NotesRecord i record.now places.old places.new) }
{
    let key = record.key();
    places.put_first(code(key.file, key.fork, key.block), i)
}

/// The places of records, by the numbers of their keys.
fn places_of(alloc: Global, records: &[OverflowRecord]) -> Result<CodedPlaces, AllocError>
    ensures { IfOk result (λ places. spec.KnowsRecords places records.now) }
{
    let mut places = CodedPlaces::new(alloc);
    for i in 0..records.len() {
        note(&mut places, &records[i], i)?;
    }
    Ok(places)
}

/// The place of the first record of a fork from this block of it on.
#[tactic(auto, unfolding(crate::specs::Chains::record_place))]
fn record_place(
    places: &CodedPlaces,
    records: &[OverflowRecord],
    file: u32,
    fork: u8,
    block: u32,
) -> Option<usize>
    requires { spec.KnowsRecords places.now records.now }
    ensures { result ≡ spec.record_place records.now file fork block }
{
    if block < 65_536 {
        places.get(code(file, fork, block as u16))
    } else {
        None
    }
}

/// The place of the record that continues where this one ends.
fn next_place(
    places: &CodedPlaces,
    records: &[OverflowRecord],
    record: &OverflowRecord,
) -> Option<usize>
    requires { spec.KnowsRecords places.now records.now }
    ensures { result ≡ spec.next_place records.now record.now }
{
    let own = own_blocks(record);
    if own == 0 {
        return None;
    }
    let key = record.key();
    record_place(
        places,
        records,
        key.file,
        key.fork,
        u32::from(key.block) + own,
    )
}

/// For each record, the place of the next.
#[tactic(auto, unfolding(crate::specs::Chains::nexts_of))]
fn nexts_of(
    alloc: Global,
    places: &CodedPlaces,
    records: &[OverflowRecord],
) -> Result<Vec<Option<usize>>, AllocError>
    requires { spec.KnowsRecords places.now records.now }
    ensures { IfOk result (λ nexts. nexts.items ≡ spec.nexts_of records.now) }
{
    let mut nexts = Vec::new(alloc);
    for record in records {
        nexts.push(next_place(places, records, record))?;
    }
    Ok(nexts)
}

/// For each record, how many blocks it has.
#[tactic(auto, unfolding(crate::specs::Chains::owns_of))]
fn owns_of(alloc: Global, records: &[OverflowRecord]) -> Result<Vec<u64>, AllocError>
    ensures owns { IfOk result (λ owns. owns.items ≡ spec.owns_of records.now) }
    ensures few { IfOk result (λ owns. spec.AreBelow (2 ^ 18) owns.items) }
{
    let mut owns = Vec::new(alloc);
    for record in records {
        owns.push(u64::from(own_blocks(record)))?;
    }
    Ok(owns)
}

/// The number at a place; 0 after the last.
fn number_at(numbers: &[u64], i: usize) -> u64
    ensures { result ≡ spec.number_at numbers.now i }
{
    if i < numbers.len() { numbers[i] } else { 0 }
}

/// `count`, but no more than are wanted.
fn at_most(wanted: u32, count: u64) -> u32
    ensures { result ≡ spec.at_most wanted count }
{
    if u64::from(wanted) <= count {
        wanted
    } else {
        count as u32
    }
}

/// The number at a place plus that at the place where it leads.
fn summed(sums: &[u64], jumps: &[Option<usize>], i: usize) -> u64
    requires { spec.AreBelow (2 ^ 62) sums.now }
    ensures { result ≡ spec.summed sums.now jumps.now i }
{
    let own = number_at(sums, i);
    if i >= jumps.len() {
        return own;
    }
    match jumps[i] {
        Some(j) => own + number_at(sums, j),
        None => own,
    }
}

/// For each place, its number plus that at the place where it leads.
fn all_summed(alloc: Global, sums: &[u64], jumps: &[Option<usize>]) -> Result<Vec<u64>, AllocError>
    requires { spec.AreBelow (2 ^ 62) sums.now }
    ensures { IfOk result (λ made. made.items ≡ map (spec.summed sums.now jumps.now)
        (range_with_len 0 (length sums.now))) }
{
    let mut made = Vec::new(alloc);
    for i in 0..sums.len() {
        made.push(summed(sums, jumps, i))?;
    }
    Ok(made)
}

/// For each record, with how many blocks a fork continues from it on. Each record is looked at once for each bit of a block's
/// number.
fn far_sums(
    alloc: Global,
    owns: Vec<u64>,
    nexts: Vec<Option<usize>>,
) -> Result<Vec<u64>, AllocError>
    requires all { length owns.items ≡ length nexts.items }
    requires few { spec.AreBelow (2 ^ 18) owns.items }
    ensures sums { IfOk result (λ sums. spec.SumBy (2 ^ 16) owns.items nexts.items sums.items) }
    ensures fit { IfOk result (λ sums. spec.AreBelow (2 ^ 34) sums.items) }
{
    let mut sums = owns;
    let mut jumps = nexts;
    let mut bits = 0u32;
    while bits < 16 {
        sums = all_summed(alloc, &sums, &jumps)?;
        jumps = doubled(alloc, &jumps)?;
        bits += 1;
    }
    Ok(sums)
}

/// The records of the extents tree, which continue forks. Contracts see the records.
#[derive(Drop)]
pub struct Chains<'a> {
    records: &'a [OverflowRecord],
    places: CodedPlaces,
    sums: Vec<u64>,
}

impl<'a> Model for Chains<'a> {
    ghost use Rattle.hfs_space.specs.Extents.{Overflow};
    ghost use Rattle.hfs_remains_forks.specs.Chains.{AreChains};

    ghost Value = { Overflow };

    ghost view = { λ s. s.records.now };

    ghost invariant = { λ s. AreChains s.records.now s.places s.sums.items };
}

impl<'a> Chains<'a> {
    /// The chains of records. Fails only when out of memory.
    pub fn of(alloc: Global, records: &'a [OverflowRecord]) -> Result<Chains<'a>, AllocError>
        ensures { IfOk result (λ chains. chains ≡ records.now) }
    {
        let places = places_of(alloc, records)?;
        let owns = owns_of(alloc, records)?;
        let nexts = nexts_of(alloc, &places, records)?;
        let sums = far_sums(alloc, owns, nexts)?;
        Ok(Chains {
            records,
            places,
            sums,
        })
    }

    /// The first record of a fork from this block of it on.
    pub(crate) fn record(&self, file: u32, fork: u8, block: u32) -> Option<&OverflowRecord>
        ensures { option_copied result ≡ record_at self.now file fork block }
    {
        match record_place(&self.places, self.records, file, fork, block) {
            Some(place) => self.records.get(place),
            None => None,
        }
    }

    /// How many blocks a fork whose record has these first extents has, but at most as many as it wants. No chain is walked.
    pub fn block_count(&self, file: u32, fork: u8, wanted: u32, first: &[Extent; 3]) -> u32
        ensures { result ≡ spec.at_most wanted (space.block_total
            (fork_extents self.now file fork wanted first.now)) }
    {
        let own = block_total(first);
        if own >= wanted {
            return wanted;
        }
        match record_place(&self.places, self.records, file, fork, own) {
            Some(i) => at_most(wanted, u64::from(own) + number_at(&self.sums, i)),
            None => own,
        }
    }
}

/// Adds the extents of a record.
fn push_extents(record: &OverflowRecord, extents: &mut Vec<Extent>) -> Result<(), AllocError>
    ensures { OnOk result (extents.new.items ≡ extents.old.items ++ space.record_extents
        record.now.1) }
{
    if let Some(more) = record.extents() {
        extents.extend_from_slice(&more)?;
    }
    Ok(())
}

/// The extents of a fork whose record has these first ones and that wants this many blocks. Reads no more records than the fork
/// has blocks among those that it wants. Fails only when out of memory.
#[tactic(auto, unfolding(hfs_remains::specs::OverflowRecords::fork_extents))]
pub(crate) fn extents_of(
    alloc: Global,
    chains: &Chains<'_>,
    file: u32,
    fork: u8,
    wanted: u32,
    first: &[Extent; 3],
) -> Result<Vec<Extent>, AllocError>
    requires { wanted ≤ 2 ^ 23 }
    ensures { IfOk result (λ extents. extents.items ≡ fork_extents chains.now file fork wanted
        first.now) }
{
    let mut extents = Vec::from_slice(alloc, first)?;
    let mut block = block_total(first);
    let mut most = 65_536u32;
    while most > 0 {
        if block >= wanted {
            return Ok(extents);
        }
        let Some(record) = chains.record(file, fork, block) else {
            return Ok(extents);
        };
        most -= 1;
        let more = own_blocks(record);
        if more == 0 {
            return Ok(extents);
        }
        push_extents(record, &mut extents)?;
        block += more;
    }
    Ok(extents)
}
