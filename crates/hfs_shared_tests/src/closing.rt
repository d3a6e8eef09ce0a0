//! Closing a shared volume, and sharing it again.
ghost use Rattle.std.specs.Prelude.{◌≡◌, None};

use crate::sharing::{begun, begun_new, closed, lists, make_file};
use hfs_shared::{Closed, Parts, Pass, Session, Shared, Viewer};
use hfs_volume::Volume;
use std::alloc::Global;
use std::marker::Brand;
use std::sync::Wait;
use std::test::Fail;

/// A worker makes the files with these letters as names. If one exists, the call is refused.
fn make_files<K: Session>(
    rt: &impl Wait,
    alloc: Global,
    shared: &Shared<K>,
    pass: &mut Pass,
    letters: &[u8],
)
    requires { K.plan ≡ None }
{
    for letter in letters {
        let _told = make_file(rt, alloc, shared, pass, &[*letter]);
    }
}

/// The same for each worker.
fn make_all<K: Session>(
    rt: &impl Wait,
    alloc: Global,
    shared: &Shared<K>,
    passes: &mut Vec<Pass>,
    letters: &[u8],
)
    requires { K.plan ≡ None }
{
    for pass in passes {
        make_files(rt, alloc, shared, pass, letters);
    }
}

/// What closing returns after each worker has made these files.
fn closed_after<K: Session, R: Wait>(
    rt: &R,
    alloc: Global,
    parts: Parts,
    mut passes: Vec<Pass>,
    mut viewer: Viewer,
    letters: &[u8],
) -> Option<Closed>
    requires parts { (parts.book ≡ K.book) × (parts.base ≡ K.base) }
    requires viewer { viewer.book ≡ K.book }
    requires plan { K.plan ≡ None }
{
    let shared = parts.share::<K>();
    make_all(rt, alloc, &shared, &mut passes, letters);
    closed(rt, shared, passes, &mut viewer)
}

/// How many entries a journal has, how many of them are shown, and whether blocks of the volume are changed.
pub fn counts_of(closed: Option<Closed>) -> Option<(usize, u64, bool)> {
    match closed {
        Some(closed) => Some((
            closed.journal.len(),
            closed.shown,
            closed.volume.changed() > 0,
        )),
        None => None,
    }
}

/// A new volume that two workers have closed, with ten calls each.
fn closed_one(rt: &impl Wait, alloc: Global) -> Result<Option<Closed>, Fail> {
    let (parts, passes, viewer) = begun_new(rt, alloc, 2)?;
    let closed = closed_after::<Brand, _>(rt, alloc, parts, passes, viewer, b"abcdefghij");
    Ok(closed)
}

/// Whether a journal has ten calls that are made, and then the same ten that are refused, since the files exist; and all are
/// shown.
fn is_made_once(closed: &Closed) -> bool {
    for (place, entry) in closed.journal.iter().enumerate() {
        let wanted = if place < 10 { 0 } else { -48 };
        if entry.code != wanted {
            return false;
        }
    }
    (closed.journal.len(), closed.shown) == (20, 20)
}

/// The volume, shared again and closed without a call, if its viewer lists the ten files.
fn shared_again(rt: &impl Wait, alloc: Global, volume: Volume) -> Result<Option<Closed>, Fail> {
    let (parts, passes, mut viewer) = begun(rt, alloc, volume, 1)?;
    if !lists(alloc, &mut viewer, b"a b c d e f g h i j ") {
        return Ok(None);
    }
    let closed = closed_after::<Brand, _>(rt, alloc, parts, passes, viewer, b"");
    Ok(closed)
}

/// The counts of the volume that two workers have closed with such a journal, when it was shared again.
fn counts_again(rt: &impl Wait, alloc: Global) -> Result<Option<(usize, u64, bool)>, Fail> {
    let Some(closed) = closed_one(rt, alloc)? else {
        return Ok(None);
    };
    if !is_made_once(&closed) {
        return Ok(None);
    }
    Ok(counts_of(shared_again(rt, alloc, closed.volume)?))
}

#[test]
fn a_closed_volume_is_shared_again(rt: HostRuntime) -> Result<(), Fail> {
    let counts = counts_again(&rt, rt.alloc())?;
    assert!(rt; counts == Some((0, 0, false)));
    Ok(())
}
