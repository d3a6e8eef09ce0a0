//! Everything that is found in a file.
ghost use Rattle.std.specs.Prelude.{◌≡◌, IfOk, OnOk, map};
ghost use Rattle.std.specs.List.{list_any};
ghost use Rattle.hfs_source.specs.Found.{as_raw, each_once, found_by, found_in, found_raw_in, is_same_range, looked_for, looked_for_raw, nth_found_by, raw_container, with_new};
ghost use Rattle.hfs_source.specs.Images.{FailsWhere, OfEach};

use crate::disk_copy::disk_copy_in;
use crate::macbinary::macbinary_in;
use crate::partition_map::push_partitions;
use crate::ranges::{ByteRange, Container, FoundRange, Layout, push_found};
use crate::volumes::volume_as;
use crate::{PlacedBytes, SparseFault};
use std::alloc::Global;

/// The ranges in a file of `len` bytes, as they are looked for.
#[tactic(auto, unfolding(crate::specs::Found::looked_for))]
fn looked_for<S: PlacedBytes>(
    alloc: Global,
    source: &mut S,
    len: u64,
) -> Result<Vec<FoundRange>, SparseFault>
    ensures found { IfOk result (λ found. OfEach (S.Holds source.new)
        (λ file. found.items ≡ looked_for len file)) }
    ensures held { OfEach (S.Holds source.new) (S.Holds source.old) }
    ensures later { FailsWhere (S.Fails source.new) (S.Fails source.old) }
{
    let file = ByteRange { start: 0, len };
    let mut found = Vec::new(alloc);
    let bare = volume_as(source, Container::Bare, file)?;
    push_found(&mut found, bare)?;
    let macbinary = macbinary_in(source, len)?;
    push_found(&mut found, macbinary)?;
    let disk_copy = disk_copy_in(source, file)?;
    push_found(&mut found, disk_copy)?;
    push_partitions(source, len, &mut found)?;
    Ok(found)
}

#[tactic(auto, unfolding(crate::specs::Found::is_same_range))]
fn is_same_range(a: &ByteRange, b: &ByteRange) -> bool
    ensures { result ≡ is_same_range a.now b.now }
{
    a.start == b.start && a.len == b.len
}

/// Whether a range is among those that were found.
fn has_range(found: &[FoundRange], range: &ByteRange) -> bool
    ensures { result ≡ list_any (λ (other : FoundRange). is_same_range other.range range.now) found.now }
{
    found.iter().any(|other| is_same_range(&other.range, range))
}

/// Appends a range, unless it was found before.
#[tactic(auto, unfolding(crate::specs::Found::with_new))]
fn push_new(found: &mut Vec<FoundRange>, next: FoundRange) -> Result<(), SparseFault>
    ensures { OnOk result (found.new.items ≡ with_new found.old.items next) }
{
    if has_range(found, &next.range) {
        return Ok(());
    }
    match found.push(next) {
        Ok(()) => Ok(()),
        Err(_) => Err(SparseFault::Memory),
    }
}

/// Each range once, at its first place.
#[tactic(auto, unfolding(crate::specs::Found::each_once))]
fn each_once(alloc: Global, ranges: &[FoundRange]) -> Result<Vec<FoundRange>, SparseFault>
    ensures { IfOk result (λ found. found.items ≡ each_once ranges.now) }
{
    let mut found = Vec::new(alloc);
    for next in ranges {
        push_new(&mut found, *next)?;
    }
    Ok(found)
}

/// The ranges that are found in a file, each once, in the order in which they are looked for: the whole file and
/// the data fork of a MacBinary file if they hold a volume, the data of a disk copy (also in that fork), and the partitions of
/// type Apple_HFS. Errors: a read failed, memory was refused.
pub fn find_ranges<S: PlacedBytes>(
    alloc: Global,
    source: &mut S,
) -> Result<Vec<FoundRange>, SparseFault>
    ensures found { IfOk result (λ found. OfEach (S.Holds source.new)
        (λ file. found.items ≡ found_in file)) }
    ensures held { OfEach (S.Holds source.new) (S.Holds source.old) }
    ensures later { FailsWhere (S.Fails source.new) (S.Fails source.old) }
{
    let len = source.len();
    let ranges = looked_for(alloc, source, len)?;
    each_once(alloc, &ranges)
}

/// The ranges in `len` bytes of user data, as they are looked for.
#[tactic(auto, unfolding(crate::specs::Found::looked_for_raw))]
fn looked_for_raw<S: PlacedBytes>(
    alloc: Global,
    source: &mut S,
    len: u64,
) -> Result<Vec<FoundRange>, SparseFault>
    ensures found { IfOk result (λ found. OfEach (S.Holds source.new)
        (λ file. found.items ≡ looked_for_raw len file)) }
    ensures held { OfEach (S.Holds source.new) (S.Holds source.old) }
    ensures later { FailsWhere (S.Fails source.new) (S.Fails source.old) }
{
    let mut found = Vec::new(alloc);
    let bare = volume_as(source, Container::Bare, ByteRange { start: 0, len })?;
    push_found(&mut found, bare)?;
    push_partitions(source, len, &mut found)?;
    Ok(found)
}

/// How a range that is found in user data lies in its file.
fn raw_container(container: Container) -> Container
    ensures { result ≡ raw_container container }
{
    match container {
        Container::Bare | Container::RawBare => Container::RawBare,
        Container::Partition | Container::RawPartition => Container::RawPartition,
        Container::MacBinary => Container::MacBinary,
        Container::DiskCopy { sum } => Container::DiskCopy { sum },
    }
}

/// Ranges that are found in user data, as they lie in the file.
fn as_raw(alloc: Global, ranges: &[FoundRange]) -> Result<Vec<FoundRange>, SparseFault>
    ensures { IfOk result (λ found. found.items ≡ map as_raw ranges.now) }
{
    let mut found = Vec::new(alloc);
    for next in ranges {
        let raw = FoundRange {
            container: raw_container(next.container),
            range: next.range,
        };
        push_found(&mut found, Some(raw))?;
    }
    Ok(found)
}

/// The ranges in the user data of raw sectors: all of it if it holds a volume, and the partitions of type Apple_HFS,
/// each range once. Errors: a read failed, memory was refused.
pub fn find_raw_ranges<S: PlacedBytes>(
    alloc: Global,
    source: &mut S,
) -> Result<Vec<FoundRange>, SparseFault>
    ensures found { IfOk result (λ found. OfEach (S.Holds source.new)
        (λ file. found.items ≡ found_raw_in file)) }
    ensures held { OfEach (S.Holds source.new) (S.Holds source.old) }
    ensures later { FailsWhere (S.Fails source.new) (S.Fails source.old) }
{
    let len = source.len();
    let ranges = looked_for_raw(alloc, source, len)?;
    let found = each_once(alloc, &ranges)?;
    as_raw(alloc, &found)
}

/// The ranges in a file, or in its user data. Errors: a read failed, memory was refused.
pub fn find_in_layout<S: PlacedBytes>(
    alloc: Global,
    source: &mut S,
    layout: Layout,
) -> Result<Vec<FoundRange>, SparseFault>
    ensures found { IfOk result (λ found. OfEach (S.Holds source.new)
        (λ file. found.items ≡ found_by layout file)) }
    ensures held { OfEach (S.Holds source.new) (S.Holds source.old) }
    ensures later { FailsWhere (S.Fails source.new) (S.Fails source.old) }
{
    match layout {
        Layout::Plain => find_ranges(alloc, source),
        Layout::Raw => find_raw_ranges(alloc, source),
    }
}

/// The `n`-th range that is found in a file, or in its user data, counted from 1. None if there are
/// fewer, and for 0. Errors: as for [`find_ranges`].
#[tactic(auto, unfolding(crate::specs::Found::nth_found_by))]
pub fn nth_range<S: PlacedBytes>(
    alloc: Global,
    source: &mut S,
    layout: Layout,
    n: u64,
) -> Result<Option<FoundRange>, SparseFault>
    ensures nth { IfOk result (λ nth. OfEach (S.Holds source.new)
        (λ file. nth ≡ nth_found_by layout n file)) }
    ensures held { OfEach (S.Holds source.new) (S.Holds source.old) }
    ensures later { FailsWhere (S.Fails source.new) (S.Fails source.old) }
{
    if n == 0 {
        return Ok(None);
    }
    let found = find_in_layout(alloc, source, layout)?;
    Ok(found.get(n as usize - 1).copied())
}
