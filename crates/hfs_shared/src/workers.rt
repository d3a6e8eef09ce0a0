//! Workers that run side by side.
ghost use Rattle.std.specs.Prelude.{◌≡◌, ◌<◌, length, get_or, IfOk, OnErr, IfErr, IfSome, IfNone, OnSome};
ghost use Rattle.hfs_shared.specs.Faults.{IsFaultUnder};
ghost use Rattle.hfs_shared.specs.Plans.{AreNextPlanned, IsPlanned};
ghost use Rattle.hfs_shared.specs.Shareds.{IsSomeCall};
ghost use Rattle.hfs_shared.specs.Works.{IsMoreWork, IsDone, HaveTheirPasses, AreJobsPlanned, AreDone, AreDoneFrom};

use crate::Told;
use crate::desk::CallFault;
use crate::done::{Done, RunFault};
use crate::pass::Pass;
use crate::session::Session;
use crate::shared::Shared;
use hfs_model::{Call, Reply};
use std::alloc::Global;
use std::sync::Wait;
use std::thread;
use std::thread::Threads;

/// What is called around each call of a worker, with the worker and the call's number.
pub trait Gate {
    /// Called before the lock is asked for.
    fn before(&self, worker: u32, stamp: u64);

    /// Called while the lock is held, after the call was made and before it is published.
    fn inside(&self, worker: u32, stamp: u64);

    /// Called after the lock was let go.
    fn after(&self, worker: u32, stamp: u64);
}

// One call, with the gate's calls around it.
fn call_at<K: Session, R: Wait, G: Gate>(
    shared: &Shared<K>,
    rt: &R,
    alloc: Global,
    gate: &G,
    pass: &mut Pass,
    call: &Call,
) -> Result<(Reply, Told), CallFault>
    requires { IsPlanned K.plan pass.old.worker pass.old.number call.now }
    ensures ok { IfOk result (λ r.
        IsSomeCall K.book K.base K.plan pass.old call.now r.0 r.1 pass.new) }
    ensures err { OnErr result (pass.new ≡ pass.old) }
    ensures fault { IfErr result (IsFaultUnder pass.old.number) }
{
    let (worker, stamp) = (pass.worker(), pass.number());
    gate.before(worker, stamp);
    let answer = call_inside(shared, rt, alloc, gate, pass, call);
    gate.after(worker, stamp);
    answer
}

// One call under the lock, with the gate's call between it and the publishing.
fn call_inside<K: Session, R: Wait, G: Gate>(
    shared: &Shared<K>,
    rt: &R,
    alloc: Global,
    gate: &G,
    pass: &mut Pass,
    call: &Call,
) -> Result<(Reply, Told), CallFault>
    requires { IsPlanned K.plan pass.old.worker pass.old.number call.now }
    ensures ok { IfOk result (λ r.
        IsSomeCall K.book K.base K.plan pass.old call.now r.0 r.1 pass.new) }
    ensures err { OnErr result (pass.new ≡ pass.old) }
    ensures fault { IfErr result (IsFaultUnder pass.old.number) }
{
    let (worker, stamp) = (pass.worker(), pass.number());
    let mut guard = shared.lock(rt);
    let reply = guard.apply(alloc, pass, call)?;
    gate.inside(worker, stamp);
    let told = guard.publish(rt);
    Ok((reply, told))
}

// One more call of a worker, if there is room for its reply.
fn one_more<K: Session, R: Wait, G: Gate>(
    shared: &Shared<K>,
    rt: &R,
    alloc: Global,
    gate: &G,
    pass: &mut Pass,
    call: &Call,
    replies: &mut Vec<(Reply, Told)>,
) -> Option<CallFault>
    requires { IsPlanned K.plan pass.old.worker pass.old.number call.now }
    ensures none { IfNone result (IsMoreWork K.book K.base K.plan pass.old call.now pass.new
        replies.old.items replies.new.items) }
    ensures some { OnSome result ((replies.new.items ≡ replies.old.items) × (pass.new ≡ pass.old)) }
    ensures fault { IfSome result (IsFaultUnder pass.old.number) }
{
    if replies.reserve(1).is_err() {
        return Some(CallFault::Memory);
    }
    match call_at(shared, rt, alloc, gate, pass, call) {
        Ok(answer) => {
            replies.push_reserved(answer);
            None
        }
        Err(fault) => Some(fault),
    }
}

// Makes a worker's calls, up to its first fault.
fn work<K: Session, R: Wait, G: Gate>(
    shared: &Shared<K>,
    rt: &R,
    alloc: Global,
    gate: &G,
    calls: &Vec<Call>,
    done: &mut Done,
)
    requires { AreNextPlanned K.plan done.old.pass.worker done.old.pass.number calls.now.items }
    ensures { IsDone K.book K.base K.plan done.old.pass calls.now.items done.new }
{
    let mut replies = Vec::new(alloc);
    let mut fault = None;
    for call in calls {
        fault = one_more(shared, rt, alloc, gate, &mut done.pass, call, &mut replies);
        if fault.is_some() {
            break;
        }
    }
    done.replies = replies;
    done.fault = fault;
}

// The result of a job that is not begun.
fn begin(alloc: Global, pass: &Pass) -> Done
    ensures { result.pass ≡ pass.now }
{
    Done {
        pass: pass.again(),
        replies: Vec::new(alloc),
        fault: None,
    }
}

// The results of jobs that are not begun. None when out of memory.
fn begin_all(alloc: Global, jobs: &Vec<(Pass, Vec<Call>)>) -> Option<Vec<Done>>
    ensures many { IfSome result (λ v. length v.items ≡ length jobs.now.items) }
    ensures passes { IfSome result (λ v. HaveTheirPasses jobs.now.items v.items) }
{
    let mut dones = Vec::new(alloc);
    for at in 0..jobs.len() {
        let done = begin(alloc, &jobs[at].0);
        if dones.push(done).is_err() {
            return None;
        }
    }
    Some(dones)
}

/// Runs each job in a thread of its own or, if no thread can be made for it, in another job's. A worker makes its calls in order,
/// with the gate's calls around each, and stops at its first fault. Room for a reply is made before its call; if there is none,
/// the call is not made, and the fault is `Memory`. If memory runs out before the first thread, the jobs are handed back with
/// nothing done.
pub fn run_workers<K: Session + Send + Sync, R: Threads + Wait + Sync, G: Gate + Sync>(
    shared: &Shared<K>,
    rt: &R,
    alloc: Global,
    gate: &G,
    jobs: Vec<(Pass, Vec<Call>)>,
) -> Result<Vec<Done>, RunFault>
    requires { AreJobsPlanned K.plan (λ c. c.items) jobs.items }
    ensures many { IfOk result (λ v. length v.items ≡ length jobs.items) }
    ensures each { IfOk result (λ v.
        AreDone K.book K.base K.plan (λ c. c.items) jobs.items v.items) }
    ensures err { IfErr result (λ f. f.jobs ≡ jobs) }
{
    let Some(mut dones) = begin_all(alloc, &jobs) else {
        return Err(RunFault { jobs });
    };
    run_all(shared, rt, alloc, gate, &jobs, &mut dones);
    Ok(dones)
}

// Does the jobs, each in a thread of its own.
#[tactic(auto, using(crate::proofs::Working::begun_planned))]
fn run_all<K: Session + Send + Sync, R: Threads + Wait + Sync, G: Gate + Sync>(
    shared: &Shared<K>,
    rt: &R,
    alloc: Global,
    gate: &G,
    jobs: &Vec<(Pass, Vec<Call>)>,
    dones: &mut Vec<Done>,
)
    requires many { length dones.old.items ≡ length jobs.now.items }
    requires passes { HaveTheirPasses jobs.now.items dones.old.items }
    requires planned { AreJobsPlanned K.plan (λ c. c.items) jobs.now.items }
    ensures many { length dones.new.items ≡ length jobs.now.items }
    ensures each { AreDoneFrom K.book K.base K.plan (λ c. c.items) jobs.now.items
        dones.old.items dones.new.items }
{
    let threads = jobs.len().max(1);
    let run = |i: usize, done: &mut Done|
        requires within { i < length jobs.now.items }
        requires planned { (j : _) → AreNextPlanned K.plan done.now.pass.worker
            done.now.pass.number (get_or jobs.now.items i j).1.items }
        ensures { (j : _) → IsDone K.book K.base K.plan done.entry.now.pass
            (get_or jobs.entry.now.items i j).1.items done.exit.now }
    { work(shared, rt, alloc, gate, &jobs[i].1, done) };
    thread::for_each_mut(rt, dones.as_mut_slice(), threads, &run);
}
