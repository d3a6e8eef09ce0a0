//! Workers in threads, while memory is refused once. Worker 1 makes the files `a` and `b`, and worker 2 the files `c` and `d`.
ghost use Rattle.std.specs.Prelude.{◌≡◌, None};

use crate::letters::{create, letters_in};
use crate::sharing::{begun_on_new, closed};
use anyhow::{Result, ensure};
use hfs_model::{Call, Reply};
use hfs_shared::{
    CallFault, Closed, Done, Gate, Parts, Pass, Session, Shared, Told, Viewer, run_workers,
};
use std::alloc::{AllocError, Global};
use std::marker::Brand;
use std::sync::Wait;
use std::thread::Threads;

/// Nothing is done around a call.
#[derive(Drop)]
struct NoGate;

impl Gate for NoGate {
    fn before(&self, _worker: u32, _stamp: u64) {}

    fn inside(&self, _worker: u32, _stamp: u64) {}

    fn after(&self, _worker: u32, _stamp: u64) {}
}

/// The calls that a worker has not made yet.
fn calls_left(alloc: Global, pass: &Pass) -> Result<Vec<Call>, AllocError> {
    let names = if pass.worker() == 1 { b"ab" } else { b"cd" };
    let mut calls = Vec::new(alloc);
    for (number, name) in (1u64..).zip(names) {
        if number >= pass.number() {
            calls.push(create(alloc, &[*name])?)?;
        }
    }
    Ok(calls)
}

/// A worker with its calls.
fn push_job(
    alloc: Global,
    jobs: &mut Vec<(Pass, Vec<Call>)>,
    pass: Pass,
) -> Result<(), AllocError> {
    let calls = calls_left(alloc, &pass)?;
    jobs.push((pass, calls))?;
    Ok(())
}

/// Each worker with its calls.
fn jobs_of(alloc: Global, passes: Vec<Pass>) -> Result<Vec<(Pass, Vec<Call>)>, AllocError> {
    let mut jobs = Vec::new(alloc);
    for pass in passes {
        push_job(alloc, &mut jobs, pass)?;
    }
    Ok(jobs)
}

/// Whether a worker has made its two calls, or memory was refused to it before; and each call was answered with 0.
fn is_done(pass: &Pass, replies: &[(Reply, Told)], fault: Option<CallFault>) -> bool {
    let is_end = match fault {
        None => pass.number() == 3,
        Some(CallFault::Memory) => pass.number() < 3,
        Some(CallFault::Stamp { .. }) => false,
    };
    is_end && replies.iter().all(|(reply, _told)| reply.code == 0)
}

/// The pass of a worker that has ended.
fn push_done(passes: &mut Vec<Pass>, done: Done) -> Result<()> {
    let Done {
        pass,
        replies,
        fault,
    } = done;
    ensure!(is_done(&pass, &replies, fault), "a worker ended otherwise");
    passes.push(pass)?;
    Ok(())
}

/// The passes of workers that have ended.
fn passes_of(alloc: Global, dones: Vec<Done>) -> Result<Vec<Pass>> {
    let mut passes = Vec::new(alloc);
    for done in dones {
        push_done(&mut passes, done)?;
    }
    Ok(passes)
}

/// Whether this many calls are all that a worker has not made yet.
fn are_left(alloc: Global, pass: &Pass, count: usize) -> Result<bool> {
    Ok(calls_left(alloc, pass)?.len() == count)
}

/// The passes of jobs that were handed back, which have all their calls.
fn passes_back(alloc: Global, jobs: Vec<(Pass, Vec<Call>)>) -> Result<Vec<Pass>> {
    let mut passes = Vec::new(alloc);
    for (pass, calls) in jobs {
        ensure!(
            are_left(alloc, &pass, calls.len())?,
            "a job came back otherwise"
        );
        passes.push(pass)?;
    }
    Ok(passes)
}

/// Runs the workers with the calls that they have not made yet, and returns their passes.
#[tactic(auto, using(hfs_shared::proofs::Unplanned::any_jobs_planned))]
fn run_once<K: Session + Send + Sync, R: Threads + Wait + Sync>(
    shared: &Shared<K>,
    threads: &R,
    alloc: Global,
    passes: Vec<Pass>,
) -> Result<Vec<Pass>>
    requires { K.plan ≡ None }
{
    let jobs = jobs_of(alloc, passes)?;
    match run_workers(shared, threads, alloc, &NoGate, jobs) {
        Ok(dones) => passes_of(alloc, dones),
        Err(fault) => passes_back(alloc, fault.jobs),
    }
}

/// The same three times.
fn run_thrice<K: Session + Send + Sync, R: Threads + Wait + Sync>(
    shared: &Shared<K>,
    threads: &R,
    alloc: Global,
    passes: Vec<Pass>,
) -> Result<Vec<Pass>>
    requires { K.plan ≡ None }
{
    let passes = run_once(shared, threads, alloc, passes)?;
    let passes = run_once(shared, threads, alloc, passes)?;
    run_once(shared, threads, alloc, passes)
}

/// Whether what closing returns has all four calls and files.
fn has_all(alloc: Global, closed: &Closed) -> Result<bool> {
    let reply = closed.volume.list(alloc, 2)?;
    Ok(closed.journal.len() == 4 && letters_in(&reply) == Some(4))
}

/// Runs the workers three times, which is enough if memory is refused once, and closes the volume.
fn run_all<K: Session + Send + Sync, R: Threads + Wait + Sync>(
    threads: &R,
    alloc: Global,
    parts: Parts,
    passes: Vec<Pass>,
    viewer: &mut Viewer,
) -> Result<bool>
    requires parts { (parts.book ≡ K.book) × (parts.base ≡ K.base) }
    requires viewer { viewer.old.book ≡ K.book }
    requires plan { K.plan ≡ None }
{
    let shared = parts.share::<K>();
    let passes = run_thrice(&shared, threads, alloc, passes)?;
    match closed(threads, shared, passes, viewer) {
        Some(closed) => has_all(alloc, &closed),
        None => Ok(false),
    }
}

/// Whether two workers on a new volume make all their calls in the end, each once.
pub fn works_as_said<R: Threads + Wait + Sync>(threads: &R, alloc: Global) -> Result<bool> {
    let (parts, passes, mut viewer) = begun_on_new(threads, alloc, 2)?;
    run_all::<Brand, _>(threads, alloc, parts, passes, &mut viewer)
}
