//! Which volume of a file is taken.
ghost use Rattle.std.specs.Prelude.{◌≡◌, ◌++◌, IfOk, None, OnOk};
ghost use Rattle.std.specs.Option.{option_to_list};
ghost use Rattle.hfs_source.specs.Asking.{IsAnswerTo, asked_in, chosen_of, counted_at, counted_from, is_bare, is_counted, is_whole_file, only_one};
ghost use Rattle.hfs_source.specs.Images.{FailsWhere, OfEach};

use crate::finding::{find_in_layout, nth_range};
use crate::ranges::{Container, FoundRange, Layout};
use crate::volumes::volume_name;
use crate::{PlacedBytes, SparseFault};
use std::alloc::Global;

/// A range that was found in a file, with its number among those found, counted from 1.
#[derive(Clone, Copy, Debug, PartialEq, Eq)]
pub struct NumberedRange {
    pub number: u64,
    pub found: FoundRange,
}

/// Which ranges are candidates if no number is given.
#[derive(Clone, Copy, Debug, PartialEq, Eq)]
pub enum Counted {
    /// Those that hold a volume.
    Volumes,
    /// All, even those that hold none.
    Ranges,
}

/// What is taken of a file.
#[derive(Clone, Copy, Debug, PartialEq, Eq)]
pub enum Asked {
    /// The file as it is.
    WholeFile,
    /// A range inside it.
    Inside(NumberedRange),
    /// Nothing, since no number was given and there are this many candidates.
    Several(u64),
    /// Nothing, since there is no range with this number.
    Missing(u64),
}

/// Whether a range of a file is a candidate.
fn is_counted<S: PlacedBytes>(
    source: &mut S,
    counted: Counted,
    found: &FoundRange,
) -> Result<bool, SparseFault>
    ensures is { IfOk result (λ is. OfEach (S.Holds source.new)
        (λ file. is ≡ is_counted counted found.now file)) }
    ensures held { OfEach (S.Holds source.new) (S.Holds source.old) }
    ensures later { FailsWhere (S.Fails source.new) (S.Fails source.old) }
{
    match counted {
        Counted::Volumes => {
            let name = volume_name(source, found.range)?;
            Ok(name.is_some())
        }
        Counted::Ranges => Ok(true),
    }
}

/// Appends a range of a file with its number, if it is a candidate.
#[tactic(auto, unfolding(crate::specs::Asking::counted_at))]
fn push_counted<S: PlacedBytes>(
    inside: &mut Vec<NumberedRange>,
    source: &mut S,
    counted: Counted,
    number: u64,
    found: &FoundRange,
) -> Result<(), SparseFault>
    ensures pushed { OnOk result (OfEach (S.Holds source.new) (λ file. inside.new.items
        ≡ inside.old.items ++ option_to_list (counted_at counted number found.now file))) }
    ensures held { OfEach (S.Holds source.new) (S.Holds source.old) }
    ensures later { FailsWhere (S.Fails source.new) (S.Fails source.old) }
{
    if !is_counted(source, counted, found)? {
        return Ok(());
    }
    match inside.push(NumberedRange {
        number,
        found: *found,
    }) {
        Ok(()) => Ok(()),
        Err(_) => Err(SparseFault::Memory),
    }
}

/// The candidates among these ranges of a file, with their numbers.
fn counted_among<S: PlacedBytes>(
    alloc: Global,
    source: &mut S,
    counted: Counted,
    ranges: &[FoundRange],
) -> Result<Vec<NumberedRange>, SparseFault>
    ensures inside { IfOk result (λ inside. OfEach (S.Holds source.new)
        (λ file. inside.items ≡ counted_from counted 1 ranges.now file)) }
    ensures held { OfEach (S.Holds source.new) (S.Holds source.old) }
    ensures later { FailsWhere (S.Fails source.new) (S.Fails source.old) }
{
    let mut inside = Vec::new(alloc);
    for i in 0..ranges.len() {
        push_counted(&mut inside, source, counted, i as u64 + 1, &ranges[i])?;
    }
    Ok(inside)
}

/// Whether the first of these ranges is the whole file.
fn is_bare(ranges: &[FoundRange]) -> bool
    ensures { result ≡ is_bare ranges.now }
{
    match ranges {
        [] => false,
        [found, ..] => match found.container {
            Container::Bare => true,
            Container::MacBinary | Container::DiskCopy { .. } | Container::Partition => false,
            Container::RawBare | Container::RawPartition => false,
        },
    }
}

/// The only one of these ranges, or the file as it is if there are none.
fn only_one(inside: &[NumberedRange]) -> Asked
    ensures is { result ≡ only_one inside.now }
    ensures answers { IsAnswerTo None result }
{
    match inside {
        [] => Asked::WholeFile,
        [one] => Asked::Inside(*one),
        [_, _, ..] => Asked::Several(inside.len() as u64),
    }
}

/// What is taken of a file without a number, given the ranges that are found in it.
#[tactic(auto, unfolding(crate::specs::Asking::chosen_of))]
fn chosen_of<S: PlacedBytes>(
    alloc: Global,
    source: &mut S,
    counted: Counted,
    ranges: &[FoundRange],
) -> Result<Asked, SparseFault>
    ensures chosen { IfOk result (λ asked. OfEach (S.Holds source.new)
        (λ file. asked ≡ chosen_of counted ranges.now file)) }
    ensures answers { IfOk result (IsAnswerTo None) }
    ensures held { OfEach (S.Holds source.new) (S.Holds source.old) }
    ensures later { FailsWhere (S.Fails source.new) (S.Fails source.old) }
{
    if is_bare(ranges) {
        return Ok(Asked::WholeFile);
    }
    let inside = counted_among(alloc, source, counted, ranges)?;
    Ok(only_one(&inside))
}

/// What is taken of a file, or of its user data, given the number of a range in it or none; 0 is the file as it is. Without a number, a bare volume is taken as it is; otherwise the only candidate inside it, the file as it is if there is
/// none, and nothing if there are several. Errors: as for [`find_ranges`].
#[tactic(auto, unfolding(crate::specs::Asking::asked_in))]
pub fn find_asked<S: PlacedBytes>(
    alloc: Global,
    source: &mut S,
    layout: Layout,
    counted: Counted,
    number: Option<u64>,
) -> Result<Asked, SparseFault>
    ensures asked { IfOk result (λ asked. OfEach (S.Holds source.new)
        (λ file. asked ≡ asked_in layout counted number file)) }
    ensures answers { IfOk result (IsAnswerTo number) }
    ensures held { OfEach (S.Holds source.new) (S.Holds source.old) }
    ensures later { FailsWhere (S.Fails source.new) (S.Fails source.old) }
{
    match number {
        None => {
            let ranges = find_in_layout(alloc, source, layout)?;
            chosen_of(alloc, source, counted, &ranges)
        }
        Some(0) => Ok(Asked::WholeFile),
        Some(n) => match nth_range(alloc, source, layout, n)? {
            Some(found) => Ok(Asked::Inside(NumberedRange { number: n, found })),
            None => Ok(Asked::Missing(n)),
        },
    }
}
