//! Where blocks stand in a row, by their numbers: sixteen numbers that follow one another are looked up together.

ghost use Rattle.std.specs.Prelude.{◌≡◌, ◌≢◌, ℕ, ◌+◌, ◌*◌, ◌/◌, ◌^◌, ◌<◌, ◌≤◌, false, IsSome, OnOk, slice_index};
ghost use Rattle.hfs_blocks.specs.Layers.{changes, HasChange, HasEachOf};
ghost use Rattle.hfs_blocks.specs.Places as spec;

use indexmap::IndexMap;
use std::alloc::AllocError;

/// The places of sixteen blocks each, counted from 1, by the sixteenth of their numbers; 0 where a block has none.
pub(crate) type Places = IndexMap<u32, [u32; 16]>;

/// The place of block `n`, counted from 1; 0 where it has none.
#[tactic(auto, unfolding(crate::specs::Places::place_in))]
pub(crate) fn place_of(places: &Places, n: u32) -> u32
    ensures { result ≡ spec.place_in places.now.entries n }
{
    match places.get(&(n / 16)) {
        Some(row) => row[n as usize % 16],
        None => 0,
    }
}

/// Whether one of these places is taken.
fn is_any_taken(row: &[u32; 16], from: usize, end: usize) -> bool
    requires { end ≤ 16 }
    ensures { result ≡ false → (k : ℕ) → from ≤ k → k < end → slice_index row.now k ≡ 0 }
{
    for k in from..end {
        if row[k] > 0 {
            return true;
        }
    }
    false
}

/// Whether a block from `from` up to `until` has a place; they are in one row.
fn is_any_in_row(places: &Places, from: usize, until: usize) -> bool
    requires some { from < until }
    requires one { until ≤ from / 16 * 16 + 16 }
    requires small { until ≤ 2 ^ 32 }
    ensures { result ≡ false → spec.HaveNone places.now.entries from until }
{
    match places.get(&((from / 16) as u32)) {
        Some(row) => is_any_taken(row, from % 16, from % 16 + (until - from)),
        None => false,
    }
}

/// Whether one of `count` blocks from `first` on has a place. Where it says so, none may have one.
pub(crate) fn is_any_placed(places: &Places, first: u32, count: usize) -> bool
    requires { first + count ≤ 2 ^ 32 }
    ensures { result ≡ false → spec.HaveNone places.now.entries first (first + count) }
{
    let end = first as usize + count;
    let mut n = first as usize;
    while n < end {
        let until = end.min(n / 16 * 16 + 16);
        if is_any_in_row(places, n, until) {
            return true;
        }
        n = until;
    }
    false
}

/// Makes a row for block `n`, unless there is one. At an error all is as it was.
pub(crate) fn add_row(places: &mut Places, n: u32) -> Result<(), AllocError>
    ensures same { spec.HaveSamePlaces places.old.entries places.new.entries }
    ensures kept { spec.KeepsRows places.old.entries places.new.entries }
    ensures there { OnOk result (spec.HasRow places.new.entries n) }
{
    if places.get(&(n / 16)).is_some() {
        return Ok(());
    }
    places.insert(n / 16, [0; 16])?;
    Ok(())
}

/// Makes rows for `count` blocks from `first` on. At an error all places are as they were.
pub(crate) fn add_rows(places: &mut Places, first: u32, count: usize) -> Result<(), AllocError>
    requires { first + count ≤ 2 ^ 32 }
    ensures same { spec.HaveSamePlaces places.old.entries places.new.entries }
    ensures kept { spec.KeepsRows places.old.entries places.new.entries }
    ensures there { OnOk result (spec.HaveRows places.new.entries first (first + count)) }
{
    let end = first as usize + count;
    let mut n = first as usize;
    while n < end {
        add_row(places, n as u32)?;
        n = end.min(n / 16 * 16 + 16);
    }
    Ok(())
}

/// Gives `count` blocks of a row, from its block `from` on, places that follow one another.
fn set_in_row(row: &mut [u32; 16], from: usize, count: usize, place: u32)
    requires within { from + count ≤ 16 }
    requires small { place + count ≤ 2 ^ 32 }
    ensures { spec.AreSet from count place row.old row.new }
{
    for i in 0..count {
        row[from + i] = place + i as u32;
    }
}

/// Puts another row in the place of row `k`.
fn set_row(places: &mut Places, k: u32, row: &[u32; 16])
    requires { IsSome (changes places.old.entries k) }
    ensures { HasChange k row.now (changes places.old.entries) (changes places.new.entries) }
{
    let Some(slot) = places.get_mut(&k) else {
        unreachable!();
    };
    *slot = *row;
}

/// Gives `count` blocks of row `k`, from its block `from` on, places that follow one another.
fn set_in_rows(places: &mut Places, k: u32, from: usize, count: usize, place: u32)
    requires row { IsSome (changes places.old.entries k) }
    requires within { from + count ≤ 16 }
    requires small { place + count ≤ 2 ^ 32 }
    ensures set { spec.AreSet from count place
        (spec.row_of places.old.entries k) (spec.row_of places.new.entries k) }
    ensures others { (q : ℕ) → q ≢ k
        → changes places.new.entries q ≡ changes places.old.entries q }
    ensures kept { HasEachOf (changes places.old.entries) (changes places.new.entries) }
{
    let Some(row) = places.get(&k) else {
        unreachable!();
    };
    let mut row = *row;
    set_in_row(&mut row, from, count, place);
    set_row(places, k, &row);
}

/// Gives `count` blocks from `first` on, for which there are rows, places that follow one another from `place` on.
pub(crate) fn set_places(places: &mut Places, first: u32, count: usize, place: u32)
    requires rows { spec.HaveRows places.old.entries first (first + count) }
    requires numbers { first + count ≤ 2 ^ 32 }
    requires small { place + count ≤ 2 ^ 32 }
    ensures placed { spec.ArePlaced first count place places.old.entries places.new.entries }
    ensures kept { spec.KeepsRows places.old.entries places.new.entries }
{
    let mut done = 0;
    while done < count {
        let n = first as usize + done;
        let more = (count - done).min(16 - n % 16);
        set_in_rows(places, (n / 16) as u32, n % 16, more, place + done as u32);
        done += more;
    }
}
