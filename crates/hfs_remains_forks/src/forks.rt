//! The forks of files that remain: their blocks, and how many of their bytes are missing.
ghost use Rattle.std.specs.Prelude.{◌≡◌, ◌-◌, ◌≤◌, ◌^◌, ◌++◌, if◌then◌else◌, map, take, length, min, IfOk, OnOk};
ghost use Rattle.std.specs.List.{range_with_len};
ghost use Rattle.std.specs.Option.{is_some};
ghost use Rattle.hfs_space.specs.Extents.{extent_blocks};
ghost use Rattle.hfs_remains.specs.TreeFiles.{AreThere};
ghost use Rattle.hfs_remains_forks.specs.Forks as spec;

use crate::chains::{Chains, block_total, extents_of};
use hfs_catalog::is_file;
use hfs_fields::{Extent, FileRecord, ForkRecord, Mdb};
use hfs_remains::is_there;
use std::alloc::{AllocError, Global};

/// A fork of a file, as the file's record has it.
#[derive(Clone, Copy)]
pub struct Fork {
    /// The number of its file.
    pub file: u32,
    /// The fork's number in keys: 0 for data, 255 for resources.
    pub kind: u8,
    /// How many bytes it should have.
    pub len: u32,
    /// Its first extents.
    pub first: [Extent; 3],
}

/// How many allocation blocks hold `len` bytes.
pub(crate) fn blocks_for(mdb: &Mdb, len: u32) -> u32
    requires { 512 ≤ mdb.now.allocation_block_size }
    ensures count { result ≡ spec.blocks_for mdb.now len }
    ensures few { result ≤ 2 ^ 23 }
{
    len.div_ceil(mdb.allocation_block_size)
}

/// The lesser of two numbers of bytes.
fn lesser(held: u64, len: u32) -> u32
    ensures { result ≡ min len held }
{
    if held < u64::from(len) {
        held as u32
    } else {
        len
    }
}

impl Fork {
    /// The two forks in a file's record, data before resources; None for any other record.
    #[tactic(auto, unfolding(hfs_fields::specs::Records::begins_file))]
    pub fn both(body: &[u8]) -> Option<(Fork, Fork)>
        ensures { result ≡ spec.both_forks body.now }
    {
        if !is_file(body) {
            return None;
        }
        let Some(record) = FileRecord::read(body) else {
            unreachable!()
        };
        Some((
            fork_of(record.id, 0, &record.data),
            fork_of(record.id, 255, &record.resource),
        ))
    }

    /// How many blocks the fork has, but at most as many as its length wants. No chain is walked.
    pub fn block_count(&self, chains: &Chains<'_>, mdb: &Mdb) -> u32
        requires { 512 ≤ mdb.now.allocation_block_size }
        ensures { result ≡ length (spec.fork_blocks chains.now mdb.now self.now) }
    {
        let wanted = blocks_for(mdb, self.len);
        chains.block_count(self.file, self.kind, wanted, &self.first)
    }

    /// How many bytes the fork has: its length, or as many as its blocks hold.
    #[tactic(auto, unfolding(crate::specs::Forks::fork_length))]
    pub fn length(&self, chains: &Chains<'_>, mdb: &Mdb) -> u32
        requires { 512 ≤ mdb.now.allocation_block_size }
        ensures { result ≡ spec.fork_length chains.now mdb.now self.now }
    {
        let count = self.block_count(chains, mdb);
        let held = u64::from(count) * u64::from(mdb.allocation_block_size);
        lesser(held, self.len)
    }

    /// The blocks of the fork, in order, with None in place of each that is missing. Fails only when out of memory.
    #[tactic(auto, unfolding(crate::specs::Forks::fork_places, crate::specs::Forks::fork_blocks))]
    pub fn places(
        &self,
        alloc: Global,
        total: u32,
        chains: &Chains<'_>,
        mdb: &Mdb,
    ) -> Result<Vec<Option<u16>>, AllocError>
        requires { 512 ≤ mdb.now.allocation_block_size }
        ensures places { IfOk result (λ places. places.items ≡ spec.fork_places total chains.now
            mdb.now self.now) }
        ensures there { IfOk result (λ places. AreThere total mdb.now places.items) }
    {
        let wanted = blocks_for(mdb, self.len);
        let extents = extents_of(alloc, chains, self.file, self.kind, wanted, &self.first)?;
        places_in(alloc, total, mdb, wanted, &extents)
    }
}

/// A fork of the file with this number, as its record has it.
fn fork_of(file: u32, kind: u8, record: &ForkRecord) -> Fork
    ensures { result ≡ spec.fork_of file kind record.now }
{
    Fork {
        file,
        kind,
        len: record.length,
        first: record.extents,
    }
}

/// Block `b`, if it exists.
#[tactic(auto, unfolding(hfs_remains::specs::Allocation::is_there))]
fn there(total: u32, mdb: &Mdb, b: u32) -> Option<u16>
    ensures { result ≡ spec.there total mdb.now b }
{
    if b >= u32::from(mdb.allocation_blocks) {
        return None;
    }
    let b = b as u16;
    if is_there(total, mdb, b) {
        Some(b)
    } else {
        None
    }
}

/// Adds the blocks of an extent after others, until there are `wanted`.
fn push_extent(
    places: &mut Vec<Option<u16>>,
    extent: Extent,
    total: u32,
    mdb: &Mdb,
    wanted: u32,
) -> Result<(), AllocError>
    ensures { OnOk result (places.new.items ≡ places.old.items ++ map (spec.there total mdb.now)
        (take (wanted - length places.old.items) (range_with_len extent.first extent.count))) }
{
    for i in 0..extent.count {
        if places.len() >= wanted as usize {
            return Ok(());
        }
        places.push(there(total, mdb, u32::from(extent.first) + u32::from(i)))?;
    }
    Ok(())
}

/// The blocks of extents, as many as are wanted, with None in place of each that is missing.
fn places_in(
    alloc: Global,
    total: u32,
    mdb: &Mdb,
    wanted: u32,
    extents: &[Extent],
) -> Result<Vec<Option<u16>>, AllocError>
    ensures places { IfOk result (λ places. places.items ≡ map (spec.there total mdb.now)
        (take wanted (extent_blocks extents.now))) }
    ensures there { IfOk result (λ places. AreThere total mdb.now places.items) }
{
    let mut places = Vec::new(alloc);
    for extent in extents {
        push_extent(&mut places, *extent, total, mdb, wanted)?;
    }
    Ok(places)
}

/// Of the bytes that a block holds, those that are missing because it is.
fn missing_of(place: Option<u16>, held: u32) -> u32
    ensures { result ≡ if is_some place then 0 else held }
{
    if place.is_some() { 0 } else { held }
}

/// Of `length` bytes in these blocks, how many are missing because a block is.
pub(crate) fn missing_in(mdb: &Mdb, places: &[Option<u16>], length: u32) -> u32
    ensures { result ≡ spec.missing_in mdb.now.allocation_block_size length places.now }
{
    let mut left = length;
    let mut missing = 0;
    for place in places {
        let held = left.min(mdb.allocation_block_size);
        missing += missing_of(*place, held);
        left -= held;
    }
    missing
}
