//! What a viewer sees of the lists that it learns.
ghost use Rattle.std.specs.Prelude.{◌≡◌, None};

use crate::closing::counts_of;
use crate::sharing::{applied, begun_new, begun_one, closed, lists, make_file, new_volume};
use hfs_shared::{Closed, Guard, Parts, Pass, Session, Shared, Viewer};
use std::alloc::Global;
use std::marker::Brand;
use std::sync::Wait;
use std::test::Fail;

/// Whether a viewer that learns the list after the file `b`, and then that after the file `a`, which was made before it, lists
/// both.
fn learns_both<K: Session>(
    rt: &impl Wait,
    alloc: Global,
    shared: &Shared<K>,
    pass: &mut Pass,
    viewer: &mut Viewer,
) -> bool
    requires viewer { viewer.old.book ≡ K.book }
    requires plan { K.plan ≡ None }
    ensures { viewer.new.book ≡ K.book }
{
    let Some(first) = make_file(rt, alloc, shared, pass, b"a") else {
        return false;
    };
    let Some(second) = make_file(rt, alloc, shared, pass, b"b") else {
        return false;
    };
    viewer.learn(&second);
    viewer.learn(&first);
    lists(alloc, viewer, b"a b ")
}

/// The same with the first of these passes.
fn learns_by_first<K: Session>(
    rt: &impl Wait,
    alloc: Global,
    shared: &Shared<K>,
    passes: &mut Vec<Pass>,
    viewer: &mut Viewer,
) -> bool
    requires viewer { viewer.old.book ≡ K.book }
    requires plan { K.plan ≡ None }
    ensures { viewer.new.book ≡ K.book }
{
    match passes.first_mut() {
        Some(pass) => learns_both(rt, alloc, shared, pass, viewer),
        None => false,
    }
}

/// The same, and what closing returns with the viewer that learned of both.
fn learned<K: Session, R: Wait>(
    rt: &R,
    alloc: Global,
    parts: Parts,
    mut passes: Vec<Pass>,
    mut viewer: Viewer,
) -> (bool, Option<Closed>)
    requires parts { (parts.book ≡ K.book) × (parts.base ≡ K.base) }
    requires viewer { viewer.book ≡ K.book }
    requires plan { K.plan ≡ None }
{
    let shared = parts.share::<K>();
    let learns = learns_by_first(rt, alloc, &shared, &mut passes, &mut viewer);
    (learns, closed(rt, shared, passes, &mut viewer))
}

/// The same for a new volume: whether both are listed, how many entries there are, how many are shown, and whether blocks are
/// changed.
fn learned_on_new(
    rt: &impl Wait,
    alloc: Global,
) -> Result<(bool, Option<(usize, u64, bool)>), Fail> {
    let (parts, passes, viewer) = begun_new(rt, alloc, 1)?;
    let (learns, closed) = learned::<Brand, _>(rt, alloc, parts, passes, viewer);
    Ok((learns, counts_of(closed)))
}

#[test]
fn told_lists_are_learned_in_any_order(rt: HostRuntime) -> Result<(), Fail> {
    let learned = learned_on_new(&rt, rt.alloc())?;
    assert!(rt; learned == (true, Some((2, 2, true))));
    Ok(())
}

/// Publishes what waits, and lets a viewer learn it; returns how many entries are shown, and how many are made.
fn publish_to<K: Session>(
    rt: &impl Wait,
    guard: &mut Guard<'_, K>,
    viewer: &mut Viewer,
) -> (u64, u64)
    requires { viewer.old.book ≡ K.book }
{
    let told = guard.publish(rt);
    viewer.learn(&told);
    (told.shown(), told.made())
}

/// While the lock is held: how many entries are shown before a publish and after it, and both numbers of the list; and whether a
/// viewer lists nothing before it, and only the file `a` once it learned the list.
fn shown_under_lock<K: Session>(
    rt: &impl Wait,
    alloc: Global,
    shared: &Shared<K>,
    pass: &mut Pass,
    viewer: &mut Viewer,
) -> ([u64; 4], bool)
    requires viewer { viewer.old.book ≡ K.book }
    requires plan { K.plan ≡ None }
{
    let mut guard = shared.lock(rt);
    let is_made = applied(alloc, &mut guard, pass, b"a").is_ok();
    let waiting = guard.shown();
    let is_empty = lists(alloc, viewer, b"");
    let (shown, made) = publish_to(rt, &mut guard, viewer);
    let has_one = lists(alloc, viewer, b"a ") && viewer.changes() == 1;
    (
        [waiting, guard.shown(), shown, made],
        is_made && is_empty && has_one,
    )
}

/// The same for the parts of a volume.
fn shown_by_publish<K: Session, R: Wait>(
    rt: &R,
    alloc: Global,
    parts: Parts,
    mut pass: Pass,
    mut viewer: Viewer,
) -> ([u64; 4], bool)
    requires parts { (parts.book ≡ K.book) × (parts.base ≡ K.base) }
    requires viewer { viewer.book ≡ K.book }
    requires plan { K.plan ≡ None }
{
    let shared = parts.share::<K>();
    shown_under_lock(rt, alloc, &shared, &mut pass, &mut viewer)
}

fn shown_on_new(rt: &impl Wait, alloc: Global) -> Result<([u64; 4], bool), Fail> {
    let (parts, pass, viewer) = begun_one(rt, alloc, new_volume(alloc)?)?;
    let shown = shown_by_publish::<Brand, _>(rt, alloc, parts, pass, viewer);
    Ok(shown)
}

#[test]
fn what_waits_is_shown_by_a_publish(rt: HostRuntime) -> Result<(), Fail> {
    let shown = shown_on_new(&rt, rt.alloc())?;
    assert!(rt; shown == ([0, 1, 1, 1], true));
    Ok(())
}
