//! What is published while memory is refused once, and what a viewer then shows.
ghost use Rattle.std.specs.Prelude.{◌≡◌, IfOk, OnOk, None};

use crate::letters::{create, letters_in};
use crate::sharing::begun_on_new;
use crate::trials::Outcome;
use anyhow::{Result, bail, ensure};
use hfs_model::{Call, Reply, Value};
use hfs_shared::{CallFault, Parts, Pass, Session, Shared, Told, Viewer};
use std::alloc::Global;
use std::marker::Brand;
use std::sync::Wait;

/// The names of the files that are made. With the root these are 17 rows, and a map has room for 15 before it needs memory for
/// another node: it does in each of the two copies, when the 15th file is published, and when the 16th is.
const NAMES: &[u8] = b"abcdefghijklmnop";

/// The reply to one call, and the list that is published then.
#[tactic(auto, using(hfs_shared::proofs::Unplanned::any_planned))]
fn answered_once<K: Session>(
    rt: &impl Wait,
    alloc: Global,
    shared: &Shared<K>,
    pass: &mut Pass,
    call: Call,
) -> Result<(Reply, Told), CallFault>
    requires { K.plan ≡ None }
    ensures { IfOk result (λ answer. answer.1.book ≡ K.book) }
{
    match shared.call(rt, alloc, pass, call) {
        Ok(answer) => Ok(answer),
        Err(fault) => Err(fault),
    }
}

/// The reply to the call that makes a file in the root, and the list that is published then. If memory is refused to the call, it
/// is made once more.
fn answered<K: Session>(
    rt: &impl Wait,
    alloc: Global,
    shared: &Shared<K>,
    pass: &mut Pass,
    name: &[u8],
) -> Result<(Reply, Told)>
    requires { K.plan ≡ None }
    ensures { IfOk result (λ answer. answer.1.book ≡ K.book) }
{
    if let Ok(answer) = answered_once(rt, alloc, shared, pass, create(alloc, name)?) {
        return Ok(answer);
    }
    match answered_once(rt, alloc, shared, pass, create(alloc, name)?) {
        Ok(answer) => Ok(answer),
        Err(_fault) => bail!("a call was not made"),
    }
}

/// Whether a reply gives the ID of the `number`-th file that is made on a new volume.
fn is_made(reply: &Reply, number: u64) -> bool {
    match &reply.value {
        Value::Id(id) => reply.code == 0 && u64::from(*id) == number.saturating_add(15),
        Value::Nothing
        | Value::One(_)
        | Value::Many(_)
        | Value::Bytes(_)
        | Value::Full { .. }
        | Value::Room { .. }
        | Value::ExtentNodes { .. }
        | Value::Place { .. } => false,
    }
}

/// How many files a reply has, with the names `a`, `b` and so on.
fn count_in(reply: &Reply) -> Option<u64> {
    match letters_in(reply) {
        Some(count) => Some(count as u64),
        None => None,
    }
}

/// How many files the viewer lists, with the names `a`, `b` and so on. None if memory is refused, or it lists something else.
fn listed_once(alloc: Global, viewer: &mut Viewer) -> Option<u64>
    ensures { viewer.new.book ≡ viewer.old.book }
{
    match viewer.list(alloc, 2) {
        Ok(reply) => count_in(&reply),
        Err(_fault) => None,
    }
}

/// The same. If memory is refused, it is asked once more.
fn listed(alloc: Global, viewer: &mut Viewer) -> Result<u64>
    ensures { OnOk result (viewer.new.book ≡ viewer.old.book) }
{
    if let Some(count) = listed_once(alloc, viewer) {
        return Ok(count);
    }
    match listed_once(alloc, viewer) {
        Some(count) => Ok(count),
        None => bail!("a viewer was not answered, or lists something else"),
    }
}

/// An error if a call gives another ID, another call was made than the one with that number, or the viewer lists other files than
/// were published.
fn ensure_told(is_made: bool, is_number: bool, is_listed: bool) -> Result<()> {
    ensure!(is_made, "a call is answered otherwise");
    ensure!(is_number, "another call was made");
    ensure!(is_listed, "a viewer lists others than are told");
    Ok(())
}

/// Makes a file, the call with that number, and lets the viewer learn the published list; returns how many calls are shown then,
/// all of which it lists.
fn shown<K: Session>(
    rt: &impl Wait,
    alloc: Global,
    shared: &Shared<K>,
    pass: &mut Pass,
    viewer: &mut Viewer,
    name: &[u8],
    number: u64,
) -> Result<u64>
    requires viewer { viewer.old.book ≡ K.book }
    requires plan { K.plan ≡ None }
    ensures { OnOk result (viewer.new.book ≡ K.book) }
{
    let (reply, told) = answered(rt, alloc, shared, pass, name)?;
    viewer.learn(&told);
    let count = listed(alloc, viewer)?;
    let is_made = is_made(&reply, number);
    ensure_told(is_made, told.made() == number, told.shown() == count)?;
    Ok(count)
}

/// The outcome after the call with this number, after which this many are shown: each call is shown as it is made, or one of them
/// with the next.
fn outcome_behind(before: Outcome, number: u64, shown: u64) -> Outcome {
    if shown == number {
        return before;
    }
    match before {
        Outcome::AsSaid if shown.saturating_add(1) == number => Outcome::Lagged(number),
        Outcome::AsSaid | Outcome::Lagged(_) | Outcome::Otherwise => Outcome::Otherwise,
    }
}

/// Makes each of the files, and returns how they are shown.
fn show_each<K: Session>(
    rt: &impl Wait,
    alloc: Global,
    shared: &Shared<K>,
    passes: &mut Vec<Pass>,
    viewer: &mut Viewer,
) -> Result<Outcome>
    requires viewer { viewer.old.book ≡ K.book }
    requires plan { K.plan ≡ None }
{
    let Some(pass) = passes.first_mut() else {
        bail!("no pass");
    };
    let mut outcome = Outcome::AsSaid;
    for i in 0..NAMES.len() {
        let number = i as u64 + 1;
        let count = shown(rt, alloc, shared, pass, viewer, &[NAMES[i]], number)?;
        outcome = outcome_behind(outcome, number, count);
    }
    Ok(outcome)
}

/// How many calls are shown when what waits is published.
fn shown_at_last<K: Session>(rt: &impl Wait, shared: &Shared<K>) -> u64 {
    let told = shared.lock(rt).publish(rt);
    told.shown()
}

/// The files are made, and shown to a viewer.
fn show_all<K: Session, R: Wait>(
    rt: &R,
    alloc: Global,
    parts: Parts,
    mut passes: Vec<Pass>,
    viewer: &mut Viewer,
) -> Result<Outcome>
    requires parts { (parts.book ≡ K.book) × (parts.base ≡ K.base) }
    requires viewer { viewer.old.book ≡ K.book }
    requires plan { K.plan ≡ None }
{
    let shared = parts.share::<K>();
    let outcome = show_each(rt, alloc, &shared, &mut passes, viewer)?;
    let is_all = shown_at_last(rt, &shared) == NAMES.len() as u64;
    ensure!(is_all, "what waited is not shown");
    Ok(outcome)
}

/// How files that are made on a new volume are shown: each as it is made, or, if memory is refused to what publishes it, with the
/// next call.
pub fn shows_as_said(rt: &impl Wait, alloc: Global) -> Result<Outcome> {
    let (parts, passes, mut viewer) = begun_on_new(rt, alloc, 1)?;
    show_all::<Brand, _>(rt, alloc, parts, passes, &mut viewer)
}
