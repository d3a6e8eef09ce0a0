//! Passes that are refused.
ghost use Rattle.std.specs.Prelude.{◌≡◌, None};

use crate::sharing::{applied, begun_one, make_file, new_volume};
use hfs_shared::{CallFault, Parts, Pass, Session, Shared};
use std::alloc::Global;
use std::marker::Brand;
use std::sync::Wait;
use std::test::Fail;

/// The two numbers of a stamp that was refused.
type Stamp = Option<(u64, u64)>;

fn stamp_of(fault: CallFault) -> Stamp {
    match fault {
        CallFault::Stamp { wanted, given } => Some((wanted, given)),
        CallFault::Memory => None,
    }
}

/// The stamp with which a call of this pass is refused.
fn refused_stamp<K: Session>(
    rt: &impl Wait,
    alloc: Global,
    shared: &Shared<K>,
    mut pass: Pass,
) -> Stamp
    requires { K.plan ≡ None }
{
    let mut guard = shared.lock(rt);
    match applied(alloc, &mut guard, &mut pass, b"b") {
        Ok(()) => None,
        Err(fault) => stamp_of(fault),
    }
}

/// The stamps with which other first passes are refused: of worker 1, who made a call, and of worker 3, which doesn't exist.
fn refused<K: Session, R: Wait>(
    rt: &R,
    alloc: Global,
    parts: Parts,
    mut pass: Pass,
) -> (Stamp, Stamp)
    requires parts { (parts.book ≡ K.book) × (parts.base ≡ K.base) }
    requires plan { K.plan ≡ None }
{
    let shared = parts.share::<K>();
    let _told = make_file(rt, alloc, &shared, &mut pass, b"a");
    let elsewhere = refused_stamp(rt, alloc, &shared, Pass::first(1));
    (elsewhere, refused_stamp(rt, alloc, &shared, Pass::first(3)))
}

/// The same for a new volume with one worker.
fn refused_on_new(rt: &impl Wait, alloc: Global) -> Result<(Stamp, Stamp), Fail> {
    let (parts, pass, _viewer) = begun_one(rt, alloc, new_volume(alloc)?)?;
    let stamps = refused::<Brand, _>(rt, alloc, parts, pass);
    Ok(stamps)
}

#[test]
fn passes_of_elsewhere_and_of_nobody_are_refused(rt: HostRuntime) -> Result<(), Fail> {
    let stamps = refused_on_new(&rt, rt.alloc())?;
    assert!(rt; stamps == (Some((2, 1)), Some((0, 1))));
    Ok(())
}
