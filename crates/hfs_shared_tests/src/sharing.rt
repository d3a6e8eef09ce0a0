//! A small volume that is shared, short forms of the calls on it, and what viewers are asked.
ghost use Rattle.std.specs.Prelude.{◌≡◌, ◌<◌, ◌≤◌, All, IfOk, IfSome, None};

use hfs_fixtures::{FixtureFault, new_image};
use hfs_model::{Call, Info, Reply, SharedBytes, Value};
use hfs_shared::{
    CallFault, Closed, Guard, Parts, Pass, Session, Shared, StartFault, Told, Viewer,
};
use hfs_volume::Volume;
use hfs_volume_fixtures::mounted;
use std::alloc::{AllocError, Global};
use std::sync::Wait;
use std::test::Fail;

/// A new volume with 40 nodes of the catalog.
pub fn new_volume(alloc: Global) -> Result<Volume, FixtureFault> {
    mounted(alloc, new_image(alloc, 40)?)
}

/// The parts of a volume, passes and one viewer, as a list.
fn started(
    rt: &impl Wait,
    alloc: Global,
    volume: Volume,
    workers: u32,
) -> Result<(Parts, Vec<Pass>, Vec<Viewer>), StartFault>
    requires { (0 < workers) × (workers ≤ 8) }
    ensures { IfOk result (λ r. All (λ k. k.book ≡ r.0.book) r.2.items) }
{
    match Parts::start(rt, alloc, volume, workers, 1) {
        Ok(started) => Ok(started),
        Err(fault) => Err(fault),
    }
}

/// The parts of a volume, passes and a viewer.
pub fn begun(
    rt: &impl Wait,
    alloc: Global,
    volume: Volume,
    workers: u32,
) -> Result<(Parts, Vec<Pass>, Viewer), Fail>
    requires { (0 < workers) × (workers ≤ 8) }
    ensures { IfOk result (λ r. r.2.book ≡ r.0.book) }
{
    let Ok((parts, passes, mut viewers)) = started(rt, alloc, volume, workers) else {
        return Err(Fail::from("not shared"));
    };
    match viewers.pop() {
        Some(viewer) => Ok((parts, passes, viewer)),
        None => Err(Fail::from("no viewer")),
    }
}

/// The same for a new volume.
pub fn begun_new(
    rt: &impl Wait,
    alloc: Global,
    workers: u32,
) -> Result<(Parts, Vec<Pass>, Viewer), Fail>
    requires { (0 < workers) × (workers ≤ 8) }
    ensures { IfOk result (λ r. r.2.book ≡ r.0.book) }
{
    begun(rt, alloc, new_volume(alloc)?, workers)
}

/// The parts of a volume, the pass of one worker, and a viewer.
pub fn begun_one(
    rt: &impl Wait,
    alloc: Global,
    volume: Volume,
) -> Result<(Parts, Pass, Viewer), Fail>
    ensures { IfOk result (λ r. r.2.book ≡ r.0.book) }
{
    let (parts, mut passes, viewer) = begun(rt, alloc, volume, 1)?;
    match passes.pop() {
        Some(pass) => Ok((parts, pass, viewer)),
        None => Err(Fail::from("no pass")),
    }
}

/// A call that makes a file in the root.
pub fn create(alloc: Global, name: &[u8]) -> Result<Call, AllocError> {
    Ok(Call::Create {
        dir: 2,
        name: SharedBytes::from_slice(alloc, name)?,
        now: 0,
    })
}

/// Makes a call, and returns its reply and the list that is published then; None if it is not answered.
#[tactic(auto, using(hfs_shared::proofs::Unplanned::any_planned))]
pub fn make<K: Session>(
    rt: &impl Wait,
    alloc: Global,
    shared: &Shared<K>,
    pass: &mut Pass,
    call: Call,
) -> Option<(Reply, Told)>
    requires { K.plan ≡ None }
    ensures { IfSome result (λ r. r.1.book ≡ K.book) }
{
    match shared.call(rt, alloc, pass, call) {
        Ok(answer) => Some(answer),
        Err(_fault) => None,
    }
}

/// Makes a file in the root, and returns the list that is published then; None if the call is not answered.
pub fn make_file<K: Session>(
    rt: &impl Wait,
    alloc: Global,
    shared: &Shared<K>,
    pass: &mut Pass,
    name: &[u8],
) -> Option<Told>
    requires { K.plan ≡ None }
    ensures { IfSome result (λ t. t.book ≡ K.book) }
{
    let call = create(alloc, name).ok()?;
    let (_reply, told) = make(rt, alloc, shared, pass, call)?;
    Some(told)
}

/// Makes a file in the root under the lock: whether it is answered, and if not, why.
#[tactic(auto, using(hfs_shared::proofs::Unplanned::any_planned))]
pub fn applied<K: Session>(
    alloc: Global,
    guard: &mut Guard<'_, K>,
    pass: &mut Pass,
    name: &[u8],
) -> Result<(), CallFault>
    requires { K.plan ≡ None }
{
    let Ok(call) = create(alloc, name) else {
        return Err(CallFault::Memory);
    };
    match guard.apply(alloc, pass, &call) {
        Ok(_reply) => Ok(()),
        Err(fault) => Err(fault),
    }
}

/// What closing with the passes of all workers returns; None if it is refused.
pub fn closed<K: Session>(
    rt: &impl Wait,
    shared: Shared<K>,
    passes: Vec<Pass>,
    viewer: &mut Viewer,
) -> Option<Closed>
    requires { viewer.old.book ≡ K.book }
{
    match shared.close(rt, passes, viewer) {
        Ok(closed) => Some(closed),
        Err(_parts) => None,
    }
}

/// Pushes a name and a space.
fn push_name(text: &mut Vec<u8>, name: &[u8]) -> Result<(), AllocError> {
    text.extend_from_slice(name)?;
    text.push(b' ')?;
    Ok(())
}

/// The names of these items, each followed by a space.
fn names_of(alloc: Global, infos: &[Info]) -> Result<Vec<u8>, AllocError> {
    let mut text = Vec::new(alloc);
    for info in infos {
        push_name(&mut text, info.name.bytes())?;
    }
    Ok(text)
}

/// Whether these are the names of items, each followed by a space.
fn are_names(alloc: Global, infos: &[Info], wanted: &[u8]) -> bool {
    match names_of(alloc, infos) {
        Ok(names) => *names.as_slice() == *wanted,
        Err(_refused) => false,
    }
}

/// Whether a reply has these names, each followed by a space.
fn tells(alloc: Global, reply: &Reply, wanted: &[u8]) -> bool {
    match &reply.value {
        Value::Many(infos) => are_names(alloc, infos.as_slice(), wanted),
        Value::Nothing
        | Value::Id(_)
        | Value::One(_)
        | Value::Bytes(_)
        | Value::Place { .. }
        | Value::Full { .. }
        | Value::Room { .. }
        | Value::ExtentNodes { .. } => wanted.is_empty(),
    }
}

/// Whether these are the names of the root's children as a viewer lists them, each followed by a space.
pub fn lists(alloc: Global, viewer: &mut Viewer, wanted: &[u8]) -> bool
    ensures { viewer.new.book ≡ viewer.old.book }
{
    match viewer.list(alloc, 2) {
        Ok(reply) => tells(alloc, &reply, wanted),
        Err(_fault) => false,
    }
}
