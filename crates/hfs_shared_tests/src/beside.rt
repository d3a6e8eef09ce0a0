//! A viewer that reads while a worker is held under the lock.
ghost use Rattle.std.specs.Prelude.{◌≡◌, None};
ghost use Rattle.std.specs.Thread.{IsSync};

use crate::meeting::{begun_jobs, run};
use crate::sharing::lists;
use crate::waiting::waits_for;
use hfs_model::Call;
use hfs_shared::{Gate, Parts, Pass, Session, Shared, Viewer};
use std::alloc::Global;
use std::marker::Brand;
use std::sync::Wait;
use std::sync::atomic::{AtomicU64, Ordering};
use std::test::Fail;
use std::thread;
use std::thread::Threads;

/// A worker that is held under the lock, after its call was made, until a list is answered.
#[derive(Drop)]
struct Within<'a> {
    clock: &'a HostRuntime,
    held: AtomicU64,
    answered: AtomicU64,
    late: AtomicU64,
}

impl Gate for Within<'_> {
    fn before(&self, _worker: u32, _stamp: u64) {}

    fn inside(&self, _worker: u32, _stamp: u64) {
        self.held.fetch_add(1, Ordering::SeqCst);
        if !waits_for(self.clock, &self.answered, 1) {
            self.late.fetch_add(1, Ordering::SeqCst);
        }
    }

    fn after(&self, _worker: u32, _stamp: u64) {}
}

/// A gate during which a viewer watches.
trait Watched {
    fn watch(&self, alloc: Global, viewer: &mut Viewer) -> bool;
}

impl Watched for Within<'_> {
    /// Whether a viewer lists nothing while the worker is held, whose call is made and not published.
    fn watch(&self, alloc: Global, viewer: &mut Viewer) -> bool {
        let held = waits_for(self.clock, &self.held, 1);
        let is_empty = lists(alloc, viewer, b"");
        self.answered.fetch_add(1, Ordering::SeqCst);
        held && is_empty
    }
}

/// How many replies a worker gets, and how many faults; and what a viewer sees meanwhile.
type Seen = ((usize, usize), bool);

fn run_beside<K: Session + Send + Sync, R: Threads + Wait + Sync, G: Gate + Watched + Sync>(
    shared: &Shared<K>,
    rt: &R,
    alloc: Global,
    gate: &G,
    jobs: Vec<(Pass, Vec<Call>)>,
    mut viewer: Viewer,
) -> Seen
    requires { K.plan ≡ None }
{
    thread::join(
        rt,
        move || -> (usize, usize)
            requires sync { IsSync R.row × IsSync K.row × IsSync G.row }
            requires plan { K.plan ≡ None }
        { run(shared, rt, alloc, gate, jobs) },
        move || gate.watch(alloc, &mut viewer),
    )
}

fn see<K: Session + Send + Sync, R: Threads + Wait + Sync>(
    rt: &R,
    alloc: Global,
    gate: &Within,
    parts: Parts,
    jobs: Vec<(Pass, Vec<Call>)>,
    viewer: Viewer,
) -> Seen
    requires parts { (parts.book ≡ K.book) × (parts.base ≡ K.base) }
    requires plan { K.plan ≡ None }
{
    let shared = parts.share::<K>();
    run_beside(&shared, rt, alloc, gate, jobs, viewer)
}

fn see_on_new<R: Threads + Wait + Sync>(
    rt: &R,
    alloc: Global,
    gate: &Within,
) -> Result<Seen, Fail> {
    let (parts, jobs, viewer) = begun_jobs(rt, alloc, 1)?;
    let seen = see::<Brand, _>(rt, alloc, gate, parts, jobs, viewer);
    Ok(seen)
}

#[test]
fn viewers_are_answered_while_a_worker_is_held(rt: HostRuntime) -> Result<(), Fail> {
    let gate = Within {
        clock: &rt,
        held: AtomicU64::new(0),
        answered: AtomicU64::new(0),
        late: AtomicU64::new(0),
    };
    let seen = see_on_new(&rt, rt.alloc(), &gate)?;
    let late = gate.late.load(Ordering::SeqCst);
    assert!(rt; seen == ((2, 0), true) && late == 0);
    Ok(())
}
