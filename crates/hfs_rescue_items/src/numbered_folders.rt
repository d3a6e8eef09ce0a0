//! The folder with a number.
ghost use Rattle.std.specs.Prelude.{◌≡◌};
ghost use Rattle.hfs_remains_places.specs.Folders.{place_of, thing_at};
ghost use Rattle.hfs_remains_places.specs.Paths as paths;
ghost use Rattle.hfs_rescue_items.specs.Folders as spec;

use hfs_remains_places::Thing;

/// The number of thing `k`, if it is a folder.
pub(crate) fn folder_number(things: &[Thing], k: usize) -> Option<u32>
    ensures { result ≡ (thing_at things.now k).folder }
{
    if k < things.len() {
        things[k].folder
    } else {
        None
    }
}

/// The place of the root.
fn root_of(things: &[Thing]) -> Option<usize>
    ensures { result ≡ paths.root_of things.now }
{
    things
        .iter()
        .position(|thing| thing.folder == Some(2) && thing.parent == 1)
}

/// The place of the first folder with a number.
fn place_of(things: &[Thing], number: u32) -> Option<usize>
    ensures { result ≡ place_of things.now number }
{
    things.iter().position(|thing| thing.folder == Some(number))
}

/// The place of the folder with a number.
fn home_of(things: &[Thing], number: u32) -> Option<usize>
    ensures { result ≡ spec.home_of things.now number }
{
    if number == 2 {
        root_of(things)
    } else {
        place_of(things, number)
    }
}

/// The number whose folder thing `k`, counted from 0, is: items with this parent are in it. None for a file, and for a folder
/// whose number an earlier one has.
pub fn home_number(things: &[Thing], k: usize) -> Option<u32>
    ensures { result ≡ spec.home_number things.now k }
{
    let Some(number) = folder_number(things, k) else {
        return None;
    };
    if home_of(things, number) == Some(k) {
        Some(number)
    } else {
        None
    }
}
