//! Partition maps. Source: Inside Macintosh: Devices (1994), chapter 3.
ghost use Rattle.std.specs.Prelude.{◌≡◌, ◌++◌, ◌+◌, ◌-◌, ◌*◌, ◌/◌, ◌≤◌, ◌<◌, List, ℕ, IfOk, OnOk, IfSome, length};
ghost use Rattle.std.specs.List.{range_with_len};
ghost use Rattle.std.specs.Option.{option_to_list};
ghost use Rattle.hfs_source.specs.PartitionMap.{begins_pm, cut_at, entry_at, entry_count, has_map_at, is_hfs_entry, map_block_in, partition_of, partitions_among, partitions_in};
ghost use Rattle.hfs_source.specs.Images.{FailsWhere, OfEach};

use crate::pieces::piece_at;
use crate::ranges::{ByteRange, Container, FoundRange, push_found};
use crate::{PlacedBytes, SparseFault};
use hfs_fields::{u16_at, u32_at};

/// The letters PM, with which each entry begins.
const SIGNATURE: u16 = 0x504d;

/// The type of a partition that holds an HFS volume, with the zero byte after it.
const HFS_TYPE: &[u8] = b"Apple_HFS\0";

/// The most entries that are looked at.
const MOST_ENTRIES: u64 = 63;

/// Whether a map with blocks of this many bytes begins at block 1, in a file of `len` bytes.
#[tactic(auto, unfolding(crate::specs::PartitionMap::has_map_at, crate::specs::PartitionMap::begins_pm))]
fn has_map_at<S: PlacedBytes>(source: &mut S, place: u64, len: u64) -> Result<bool, SparseFault>
    requires { place ≤ 2048 }
    ensures has { IfOk result (λ has. OfEach (S.Holds source.new)
        (λ file. has ≡ has_map_at place len file)) }
    ensures held { OfEach (S.Holds source.new) (S.Holds source.old) }
    ensures later { FailsWhere (S.Fails source.new) (S.Fails source.old) }
{
    if len < place + 2 {
        return Ok(false);
    }
    let letters: [u8; 2] = piece_at(source, place)?;
    Ok(u16_at(&letters, 0) == SIGNATURE)
}

/// How many bytes the blocks of the file's map have: 512, or 2,048 as on compact discs.
fn map_block_in<S: PlacedBytes>(source: &mut S, len: u64) -> Result<Option<u64>, SparseFault>
    ensures block { IfOk result (λ block. OfEach (S.Holds source.new)
        (λ file. block ≡ map_block_in len file)) }
    ensures some { IfOk result (λ block. IfSome block (λ block. (512 ≤ block) × (block ≤ 2048))) }
    ensures held { OfEach (S.Holds source.new) (S.Holds source.old) }
    ensures later { FailsWhere (S.Fails source.new) (S.Fails source.old) }
{
    if has_map_at(source, 512, len)? {
        return Ok(Some(512));
    }
    if has_map_at(source, 2_048, len)? {
        return Ok(Some(2_048));
    }
    Ok(None)
}

/// Whether an entry begins with these letters.
#[tactic(auto, unfolding(crate::specs::PartitionMap::begins_pm))]
fn begins_pm(entry: &[u8; 64]) -> bool
    ensures { result ≡ begins_pm entry.now }
{
    u16_at(entry, 0) == SIGNATURE
}

/// How many entries are looked at: as many as the first one says, but no more than the file has room for, and at most 63.
#[tactic(auto, unfolding(crate::specs::PartitionMap::entry_count))]
fn entry_count<S: PlacedBytes>(source: &mut S, block: u64, len: u64) -> Result<u64, SparseFault>
    requires { 512 ≤ block }
    ensures count { IfOk result (λ count. OfEach (S.Holds source.new)
        (λ file. count ≡ entry_count block len file)) }
    ensures few { IfOk result (λ count. count ≤ 63) }
    ensures held { OfEach (S.Holds source.new) (S.Holds source.old) }
    ensures later { FailsWhere (S.Fails source.new) (S.Fails source.old) }
{
    let blocks = len / block;
    if blocks < 2 {
        return Ok(0);
    }
    let first: [u8; 64] = piece_at(source, block)?;
    Ok(MOST_ENTRIES.min((blocks - 1).min(u64::from(u32_at(&first, 4)))))
}

/// Whether an entry is of a partition that holds an HFS volume, by its type up to the first zero byte, ignoring the case of
/// ASCII letters.
#[tactic(auto, unfolding(crate::specs::PartitionMap::is_hfs_entry))]
fn is_hfs_entry(entry: &[u8; 64]) -> bool
    ensures { result ≡ is_hfs_entry entry.now }
{
    entry[48..58].eq_ignore_ascii_case(HFS_TYPE)
}

/// The range of `wanted` bytes from `start` on, cut at the end of a file of `len` bytes.
fn cut_at(len: u64, start: u64, wanted: u64) -> ByteRange
    ensures { result ≡ cut_at len start wanted }
{
    ByteRange {
        start,
        len: wanted.min(len.saturating_sub(start)),
    }
}

/// The partition of an entry, if it is an HFS partition, in a file of `len` bytes.
#[tactic(auto, unfolding(crate::specs::PartitionMap::partition_of))]
fn partition_of(block: u64, len: u64, entry: &[u8; 64]) -> Option<FoundRange>
    requires { block ≤ 2048 }
    ensures { result ≡ partition_of block len entry.now }
{
    if !is_hfs_entry(entry) {
        return None;
    }
    let start = block * u64::from(u32_at(entry, 8));
    let wanted = block * u64::from(u32_at(entry, 12));
    Some(FoundRange {
        container: Container::Partition,
        range: cut_at(len, start, wanted),
    })
}

/// Appends the partitions of this many entries, up to the first block that is none.
fn push_entries<S: PlacedBytes>(
    source: &mut S,
    block: u64,
    len: u64,
    count: u64,
    found: &mut Vec<FoundRange>,
) -> Result<(), SparseFault>
    requires block { block ≤ 2048 }
    requires count { count ≤ 63 }
    ensures found { OnOk result (OfEach (S.Holds source.new) (λ file. found.new.items
        ≡ found.old.items ++ partitions_among block len (range_with_len 1 count) file)) }
    ensures held { OfEach (S.Holds source.new) (S.Holds source.old) }
    ensures later { FailsWhere (S.Fails source.new) (S.Fails source.old) }
{
    for n in 1..count + 1 {
        let entry = piece_at(source, block * n)?;
        if !begins_pm(&entry) {
            return Ok(());
        }
        push_found(found, partition_of(block, len, &entry))?;
    }
    Ok(())
}

/// Appends the partitions of the map of a file of `len` bytes, if it has one.
pub fn push_partitions<S: PlacedBytes>(
    source: &mut S,
    len: u64,
    found: &mut Vec<FoundRange>,
) -> Result<(), SparseFault>
    ensures found { OnOk result (OfEach (S.Holds source.new)
        (λ file. found.new.items ≡ found.old.items ++ partitions_in len file)) }
    ensures held { OfEach (S.Holds source.new) (S.Holds source.old) }
    ensures later { FailsWhere (S.Fails source.new) (S.Fails source.old) }
{
    match map_block_in(source, len)? {
        Some(block) => {
            let count = entry_count(source, block, len)?;
            push_entries(source, block, len, count, found)
        }
        None => Ok(()),
    }
}
