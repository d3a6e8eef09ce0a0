//! A fork that a worker writes while a viewer reads it, and what closing returns.
ghost use Rattle.std.specs.Prelude.{◌≡◌, IfSome, None};

use crate::sharing::{begun_new, closed, make, make_file};
use hfs_model::{Call, Fork, Reply, SharedBytes, Value};
use hfs_shared::{Closed, Guard, Parts, Pass, Session, Shared, Told, Viewer};
use std::alloc::{AllocError, Global};
use std::marker::Brand;
use std::sync::Wait;
use std::test::Fail;

/// A call that writes bytes into the data fork of the root's file `a`.
fn writing(alloc: Global, offset: u32, bytes: &[u8]) -> Result<Call, AllocError> {
    Ok(Call::WriteFork {
        dir: 2,
        name: SharedBytes::from_slice(alloc, b"a")?,
        fork: Fork::DataFork,
        offset,
        bytes: SharedBytes::from_slice(alloc, bytes)?,
        now: 0,
    })
}

/// Makes the file, and writes `hello` into it, and returns the list that is published then; None if a call is not answered.
fn make_hello<K: Session>(
    rt: &impl Wait,
    alloc: Global,
    shared: &Shared<K>,
    pass: &mut Pass,
) -> Option<Told>
    requires { K.plan ≡ None }
    ensures { IfSome result (λ t. t.book ≡ K.book) }
{
    make_file(rt, alloc, shared, pass, b"a")?;
    let call = writing(alloc, 0, b"hello").ok()?;
    let (_reply, told) = make(rt, alloc, shared, pass, call)?;
    Some(told)
}

/// Writes bytes into the file under the lock. Whether the answer is 0.
#[tactic(auto, using(hfs_shared::proofs::Unplanned::any_planned))]
fn writes<K: Session>(
    alloc: Global,
    guard: &mut Guard<'_, K>,
    pass: &mut Pass,
    offset: u32,
    bytes: &[u8],
) -> bool
    requires { K.plan ≡ None }
{
    let Ok(call) = writing(alloc, offset, bytes) else {
        return false;
    };
    match guard.apply(alloc, pass, &call) {
        Ok(reply) => reply.code == 0,
        Err(_fault) => false,
    }
}

/// Writes a byte over the second one a hundred times. Whether each answer is 0.
fn writes_more<K: Session>(alloc: Global, guard: &mut Guard<'_, K>, pass: &mut Pass) -> bool
    requires { K.plan ≡ None }
{
    let mut are_made = true;
    for _turn in 0..100 {
        are_made = writes(alloc, guard, pass, 1, b"y") && are_made;
    }
    are_made
}

/// Whether a reply has these bytes of a fork, and the code 0.
fn has_bytes(reply: &Reply, wanted: &[u8]) -> bool {
    match &reply.value {
        Value::Bytes(bytes) => *bytes.as_slice() == *wanted && reply.code == 0,
        Value::Nothing
        | Value::Id(_)
        | Value::One(_)
        | Value::Many(_)
        | Value::Place { .. }
        | Value::Full { .. }
        | Value::Room { .. }
        | Value::ExtentNodes { .. } => false,
    }
}

/// Whether a viewer reads these five bytes of the file.
fn reads(alloc: Global, viewer: &mut Viewer, wanted: &[u8; 5]) -> bool
    ensures { viewer.new.book ≡ viewer.old.book }
{
    let Ok(name) = SharedBytes::from_slice(alloc, b"a") else {
        return false;
    };
    match viewer.read_fork(alloc, 2, name, Fork::DataFork, 0, 5) {
        Ok(reply) => has_bytes(&reply, wanted),
        Err(_fault) => false,
    }
}

/// Whether a viewer reads the old bytes after a write, and after a hundred more, and the new ones once it learned of them.
fn reads_beside<K: Session>(
    rt: &impl Wait,
    alloc: Global,
    shared: &Shared<K>,
    pass: &mut Pass,
    viewer: &mut Viewer,
) -> bool
    requires viewer { viewer.old.book ≡ K.book }
    requires plan { K.plan ≡ None }
    ensures { viewer.new.book ≡ K.book }
{
    let mut guard = shared.lock(rt);
    let is_first = writes(alloc, &mut guard, pass, 0, b"x") && reads(alloc, viewer, b"hello");
    let is_last = writes_more(alloc, &mut guard, pass) && reads(alloc, viewer, b"hello");
    let told = guard.publish(rt);
    viewer.learn(&told);
    reads(alloc, viewer, b"xyllo") && is_first && is_last
}

/// The same with the first of these passes, on a file that has `hello`, of which the viewer learned.
fn reads_all<K: Session>(
    rt: &impl Wait,
    alloc: Global,
    shared: &Shared<K>,
    passes: &mut Vec<Pass>,
    viewer: &mut Viewer,
) -> bool
    requires viewer { viewer.old.book ≡ K.book }
    requires plan { K.plan ≡ None }
    ensures { viewer.new.book ≡ K.book }
{
    let Some(pass) = passes.first_mut() else {
        return false;
    };
    let Some(told) = make_hello(rt, alloc, shared, pass) else {
        return false;
    };
    viewer.learn(&told);
    reads(alloc, viewer, b"hello") && reads_beside(rt, alloc, shared, pass, viewer)
}

/// The same on the parts of a volume, and what closing then returns.
fn read_and_closed<K: Session, R: Wait>(
    rt: &R,
    alloc: Global,
    parts: Parts,
    mut passes: Vec<Pass>,
    mut viewer: Viewer,
) -> (bool, Option<Closed>)
    requires parts { (parts.book ≡ K.book) × (parts.base ≡ K.base) }
    requires viewer { viewer.book ≡ K.book }
    requires plan { K.plan ≡ None }
{
    let shared = parts.share::<K>();
    let are_read = reads_all(rt, alloc, &shared, &mut passes, &mut viewer);
    (are_read, closed(rt, shared, passes, &mut viewer))
}

fn read_on_new(rt: &impl Wait, alloc: Global) -> Result<(bool, Option<Closed>), Fail> {
    let (parts, passes, viewer) = begun_new(rt, alloc, 1)?;
    let read = read_and_closed::<Brand, _>(rt, alloc, parts, passes, viewer);
    Ok(read)
}

/// How many entries a journal has, how many of them are shown, and whether the closed volume's file has the written bytes.
fn left_by(alloc: Global, closed: &Closed) -> Result<(usize, u64, bool), AllocError> {
    let reply = closed
        .volume
        .read_fork(alloc, 2, b"a", Fork::DataFork, 0, 5)?;
    let has_bytes = has_bytes(&reply, b"xyllo");
    Ok((closed.journal.len(), closed.shown, has_bytes))
}

#[test]
fn viewers_read_old_bytes_until_they_learn(rt: HostRuntime) -> Result<(), Fail> {
    let (are_read, _closed) = read_on_new(&rt, rt.alloc())?;
    assert!(rt; are_read);
    Ok(())
}

#[test]
fn a_closed_volume_has_the_written_bytes(rt: HostRuntime) -> Result<(), Fail> {
    let (_are_read, closed) = read_on_new(&rt, rt.alloc())?;
    let Some(closed) = closed else {
        return Err(Fail::from("not closed"));
    };
    let left = left_by(rt.alloc(), &closed)?;
    assert!(rt; left == (103, 103, true));
    Ok(())
}
