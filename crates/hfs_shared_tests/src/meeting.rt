//! Workers that run side by side.
ghost use Rattle.std.specs.Prelude.{◌≡◌, ◌<◌, ◌≤◌, None};

use crate::sharing::{begun_new, create};
use crate::waiting::waits_for;
use hfs_model::Call;
use hfs_shared::{Done, Gate, Parts, Pass, Session, Shared, Viewer, run_workers};
use std::alloc::{AllocError, Global};
use std::marker::Brand;
use std::sync::Wait;
use std::sync::atomic::{AtomicU64, Ordering};
use std::test::Fail;
use std::thread::Threads;

/// Eight workers that are all held before their first calls at once, and one of which is held there until all calls of the others
/// are answered. Counts how many are here, how many of these calls are answered, and how many waited in vain.
#[derive(Drop)]
struct Meeting<'a> {
    clock: &'a HostRuntime,
    held: u32,
    here: AtomicU64,
    answered: AtomicU64,
    late: AtomicU64,
}

impl Meeting<'_> {
    /// Waits for what a worker is to wait for, and returns whether it came.
    fn meets(&self, worker: u32) -> bool {
        waits_for(self.clock, &self.here, 8)
            && (worker != self.held || waits_for(self.clock, &self.answered, 14))
    }
}

impl Gate for Meeting<'_> {
    fn before(&self, worker: u32, stamp: u64) {
        if stamp == 1 {
            self.here.fetch_add(1, Ordering::SeqCst);
            if !self.meets(worker) {
                self.late.fetch_add(1, Ordering::SeqCst);
            }
        }
    }

    fn inside(&self, _worker: u32, _stamp: u64) {}

    fn after(&self, worker: u32, _stamp: u64) {
        if worker != self.held {
            self.answered.fetch_add(1, Ordering::SeqCst);
        }
    }
}

/// Two calls that make the files `a` and `b` in the root.
fn two_calls(alloc: Global) -> Result<Vec<Call>, AllocError> {
    let mut calls = Vec::new(alloc);
    for letter in *b"ab" {
        calls.push(create(alloc, &[letter])?)?;
    }
    Ok(calls)
}

/// A job of two calls.
fn push_job(
    alloc: Global,
    jobs: &mut Vec<(Pass, Vec<Call>)>,
    pass: Pass,
) -> Result<(), AllocError> {
    jobs.push((pass, two_calls(alloc)?))?;
    Ok(())
}

/// A job of two calls for each pass.
fn jobs_of(alloc: Global, passes: Vec<Pass>) -> Result<Vec<(Pass, Vec<Call>)>, AllocError> {
    let mut jobs = Vec::new(alloc);
    for pass in passes {
        push_job(alloc, &mut jobs, pass)?;
    }
    Ok(jobs)
}

/// How many replies there are, and how many faults.
fn counted(dones: &Vec<Done>) -> (usize, usize) {
    let mut replies = 0_usize;
    let mut faults = 0_usize;
    for done in dones {
        replies = replies.saturating_add(done.replies.len());
        if done.fault.is_some() {
            faults = faults.saturating_add(1);
        }
    }
    (replies, faults)
}

/// Runs jobs, and returns how many replies there are, and how many faults.
#[tactic(auto, using(hfs_shared::proofs::Unplanned::any_jobs_planned))]
pub fn run<K: Session + Send + Sync, R: Threads + Wait + Sync, G: Gate + Sync>(
    shared: &Shared<K>,
    rt: &R,
    alloc: Global,
    gate: &G,
    jobs: Vec<(Pass, Vec<Call>)>,
) -> (usize, usize)
    requires { K.plan ≡ None }
{
    match run_workers(shared, rt, alloc, gate, jobs) {
        Ok(dones) => counted(&dones),
        Err(_fault) => (0, 0),
    }
}

/// The parts of a new volume, a job of two calls for each of this many workers, and a viewer.
pub fn begun_jobs(
    rt: &impl Wait,
    alloc: Global,
    workers: u32,
) -> Result<(Parts, Vec<(Pass, Vec<Call>)>, Viewer), Fail>
    requires { (0 < workers) × (workers ≤ 8) }
{
    let (parts, passes, viewer) = begun_new(rt, alloc, workers)?;
    let jobs = jobs_of(alloc, passes)?;
    Ok((parts, jobs, viewer))
}

/// Runs jobs on the parts of a volume.
fn run_parts<K: Session + Send + Sync, R: Threads + Wait + Sync, G: Gate + Sync>(
    rt: &R,
    alloc: Global,
    parts: Parts,
    jobs: Vec<(Pass, Vec<Call>)>,
    gate: &G,
) -> (usize, usize)
    requires parts { (parts.book ≡ K.book) × (parts.base ≡ K.base) }
    requires plan { K.plan ≡ None }
{
    let shared = parts.share::<K>();
    run(&shared, rt, alloc, gate, jobs)
}

/// Runs two calls of each of eight workers on a new volume.
fn run_new<R: Threads + Wait + Sync, G: Gate + Sync>(
    rt: &R,
    alloc: Global,
    gate: &G,
) -> Result<(usize, usize), Fail> {
    let (parts, jobs, _viewer) = begun_jobs(rt, alloc, 8)?;
    let counts = run_parts::<Brand, _, _>(rt, alloc, parts, jobs, gate);
    Ok(counts)
}

/// Eight workers, one of which is held: how many replies there are, how many faults, and how many waited in vain.
fn run_held<R: Threads + Wait + Sync>(
    rt: &R,
    clock: &HostRuntime,
    alloc: Global,
    held: u32,
) -> Result<(usize, usize, u64), Fail> {
    let gate = Meeting {
        clock,
        held,
        here: AtomicU64::new(0),
        answered: AtomicU64::new(0),
        late: AtomicU64::new(0),
    };
    let (replies, faults) = run_new(rt, alloc, &gate)?;
    Ok((replies, faults, gate.late.load(Ordering::SeqCst)))
}

#[test]
fn eight_workers_meet_and_one_is_held(rt: HostRuntime) -> Result<(), Fail> {
    for held in [1, 2, 8] {
        let counts = run_held(&rt, &rt, rt.alloc(), held)?;
        assert!(rt; counts == (16, 0, 0), "worker {held}");
    }
    Ok(())
}
