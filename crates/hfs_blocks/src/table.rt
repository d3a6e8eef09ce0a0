//! Blocks in a row, with their numbers, and where each of them stands.

ghost use Rattle.std.specs.Prelude.{◌≡◌, ℕ, ◌+◌, ◌^◌, ◌<◌, ◌≤◌, ◌≢◌, length, vec_len, vec_capacity, slice_index, zip, OnOk};
ghost use Rattle.hfs_blocks.specs.Layers.{changes, with_change, HasChangesOf};
ghost use Rattle.hfs_blocks.specs.Places.{place_in, KeepsRows, HaveRows, HaveNone, HasRow, HaveSamePlaces};
ghost use Rattle.hfs_blocks.specs.Tables as spec;

use crate::places::{Places, add_rows, is_any_placed, place_of, set_places};
use std::alloc::AllocError;
use std::slice;

/// How many numbers are looked at one by one, which is less work than to look one up.
const FEW: usize = 8;

/// The place of a number among these, counted from 1; 0 where it isn't one of them.
fn place_among(numbers: &[u32], n: u32) -> u32
    requires { length numbers.now ≤ 8 }
    ensures { spec.IsPlaceAmong numbers.now n result }
{
    for i in 0..numbers.len() {
        if numbers[i] == n {
            return i as u32 + 1;
        }
    }
    0
}

/// The place of block `n` in a table, counted from 1; 0 where it has none.
pub(crate) fn place_in_table(numbers: &[u32], places: &Places, n: u32) -> u32
    requires { spec.HasPlaces numbers.now places.now.entries }
    ensures { result ≡ place_in places.now.entries n }
{
    if numbers.len() <= FEW {
        return place_among(numbers, n);
    }
    place_of(places, n)
}

/// Makes room for `count` blocks more.
pub(crate) fn make_room(
    numbers: &mut Vec<u32>,
    blocks: &mut Vec<[u8; 512]>,
    count: usize,
) -> Result<(), AllocError>
    ensures numbers { numbers.new.items ≡ numbers.old.items }
    ensures blocks { blocks.new.items ≡ blocks.old.items }
    ensures room { OnOk result (spec.HaveRoom numbers.new blocks.new count) }
{
    if numbers.len().saturating_add(count) >= u32::MAX as usize {
        return Err(AllocError);
    }
    numbers.reserve(count)?;
    blocks.reserve(count)
}

/// Adds `count` numbers from `first` on, for which there is room.
fn push_numbers(numbers: &mut Vec<u32>, first: u32, count: usize)
    requires room { vec_len numbers.old + count ≤ vec_capacity numbers.old }
    requires small { first + count ≤ 2 ^ 32 }
    ensures numbers { spec.HasNumbers first count numbers.old.items numbers.new.items }
    ensures len { vec_len numbers.new ≡ vec_len numbers.old + count }
    ensures capacity { vec_capacity numbers.new ≡ vec_capacity numbers.old }
{
    for i in 0..count {
        numbers.push_reserved(first + i as u32);
    }
}

/// Adds blocks that follow one another, none of which is there, behind the others. There is room for them.
pub(crate) fn append(
    numbers: &mut Vec<u32>,
    blocks: &mut Vec<[u8; 512]>,
    places: &mut Places,
    first: u32,
    run: &[[u8; 512]],
)
    requires table { spec.IsTable numbers.old.items blocks.old.items places.old.entries }
    requires room { spec.HaveRoom numbers.old blocks.old (length run.now) }
    requires rows { HaveRows places.old.entries first (first + length run.now) }
    requires none { HaveNone places.old.entries first (first + length run.now) }
    requires whole { spec.AreBlocks run.now }
    requires small { first + length run.now ≤ 2 ^ 32 }
    ensures table { spec.IsTable numbers.new.items blocks.new.items places.new.entries }
    ensures laid { spec.HasLaid first (length run.now) run.now
        (changes (zip numbers.old.items blocks.old.items))
        (changes (zip numbers.new.items blocks.new.items)) }
    ensures rows { KeepsRows places.old.entries places.new.entries }
    ensures room { spec.UsesRoom numbers.old blocks.old (length run.now) numbers.new blocks.new }
{
    let place = numbers.len() as u32 + 1;
    push_numbers(numbers, first, run.len());
    let Ok(()) = blocks.extend_from_slice(run) else {
        unreachable!();
    };
    set_places(places, first, run.len(), place);
}

/// Lays block `n`, in place of the one that is there. There is room for it.
fn lay_one(
    numbers: &mut Vec<u32>,
    blocks: &mut Vec<[u8; 512]>,
    places: &mut Places,
    n: u32,
    block: &[u8; 512],
)
    requires table { spec.IsTable numbers.old.items blocks.old.items places.old.entries }
    requires room { spec.HaveRoom numbers.old blocks.old 1 }
    requires row { HasRow places.old.entries n }
    ensures table { spec.IsTable numbers.new.items blocks.new.items places.new.entries }
    ensures laid { changes (zip numbers.new.items blocks.new.items)
        ≡ with_change (changes (zip numbers.old.items blocks.old.items)) n block.now }
    ensures rows { KeepsRows places.old.entries places.new.entries }
    ensures room { spec.UsesRoom numbers.old blocks.old 1 numbers.new blocks.new }
{
    let place = place_in_table(numbers, places, n);
    if place == 0 {
        append(numbers, blocks, places, n, slice::from_ref(block));
        return;
    }
    blocks[place as usize - 1] = *block;
}

/// Lays blocks that follow one another, each in place of the one that is there. There is room for them.
pub(crate) fn lay_run(
    numbers: &mut Vec<u32>,
    blocks: &mut Vec<[u8; 512]>,
    places: &mut Places,
    first: u32,
    run: &[[u8; 512]],
)
    requires table { spec.IsTable numbers.old.items blocks.old.items places.old.entries }
    requires room { spec.HaveRoom numbers.old blocks.old (length run.now) }
    requires rows { HaveRows places.old.entries first (first + length run.now) }
    requires whole { spec.AreBlocks run.now }
    requires small { first + length run.now ≤ 2 ^ 32 }
    ensures table { spec.IsTable numbers.new.items blocks.new.items places.new.entries }
    ensures laid { spec.HasLaid first (length run.now) run.now
        (changes (zip numbers.old.items blocks.old.items))
        (changes (zip numbers.new.items blocks.new.items)) }
    ensures rows { KeepsRows places.old.entries places.new.entries }
    ensures room { spec.UsesRoom numbers.old blocks.old (length run.now) numbers.new blocks.new }
{
    if run.len() > 1 && !is_any_placed(places, first, run.len()) {
        append(numbers, blocks, places, first, run);
        return;
    }
    for i in 0..run.len() {
        lay_one(numbers, blocks, places, first + i as u32, &run[i]);
    }
}

/// How many of the numbers from `at` on follow one another.
fn following(numbers: &[u32], at: usize) -> usize
    requires { at < length numbers.now }
    ensures some { 0 < result }
    ensures within { at + result ≤ length numbers.now }
    ensures follow { spec.FollowFrom numbers.now at result }
    ensures small { slice_index numbers.now at + result ≤ 2 ^ 32 }
{
    let first = numbers[at] as usize;
    let mut count = 1;
    while at + count < numbers.len() && numbers[at + count] as usize == first + count {
        count += 1;
    }
    count
}

/// Makes rows for these numbers. At an error all places are as they were.
pub(crate) fn add_rows_for(places: &mut Places, numbers: &[u32]) -> Result<(), AllocError>
    ensures same { HaveSamePlaces places.old.entries places.new.entries }
    ensures rows { OnOk result (spec.HaveRowsFor numbers.now places.new.entries) }
{
    let mut done = 0;
    while done < numbers.len() {
        let count = following(numbers, done);
        add_rows(places, numbers[done], count)?;
        done += count;
    }
    Ok(())
}

/// Lays the blocks of another table, for which there are room and rows.
pub(crate) fn lay_all(
    numbers: &mut Vec<u32>,
    blocks: &mut Vec<[u8; 512]>,
    places: &mut Places,
    other_numbers: &[u32],
    other_blocks: &[[u8; 512]],
)
    requires table { spec.IsTable numbers.old.items blocks.old.items places.old.entries }
    requires other { spec.AreBlocksOf other_numbers.now other_blocks.now }
    requires room { spec.HaveRoom numbers.old blocks.old (length other_numbers.now) }
    requires rows { spec.HaveRowsFor other_numbers.now places.old.entries }
    ensures table { spec.IsTable numbers.new.items blocks.new.items places.new.entries }
    ensures laid { HasChangesOf (changes (zip other_numbers.now other_blocks.now))
        (changes (zip numbers.old.items blocks.old.items))
        (changes (zip numbers.new.items blocks.new.items)) }
{
    let mut done = 0;
    while done < other_numbers.len() {
        let count = following(other_numbers, done);
        let run = &other_blocks[done..done + count];
        lay_run(numbers, blocks, places, other_numbers[done], run);
        done += count;
    }
}
