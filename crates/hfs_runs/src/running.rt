//! A script that is run on an image.
ghost use Rattle.std.specs.Prelude.{◌≡◌, All, IfOk, IfErr, length};
ghost use Rattle.std.specs.Thread.{IsSync};
ghost use Rattle.hfs_scripts.specs.Callers.{workers, viewers};
ghost use Rattle.hfs_shared.specs.Shareds.{IsStart};
ghost use Rattle.hfs_shared.specs.Works.{AreDone, AreJobsPlanned};
ghost use Rattle.hfs_runs.specs.Asking.{IsSmall};
ghost use Rattle.hfs_runs.specs.Jobs.{plan_of};
ghost use Rattle.hfs_runs.specs.Runs.{IsRunFault, IsScriptRunAs, IsStartFault, AreLinesMade, AreLinesRunAs, AreLinesRunInPieces};
ghost use Rattle.hfs_runs.specs.Views.{AreViewed};

use crate::answer_text::answers_text;
use crate::closing::close;
use crate::jobs::{jobs_of, viewings_of};
use crate::numbering::{Asked, number_lines};
use crate::pieces::{Answers, answers_in_pieces};
use crate::replies::Replies;
use crate::script_fault::ScriptFault;
use crate::starting::{mounted, start};
use crate::telling::are_all_whole;
use crate::viewing::{Viewing, view_all};
use hfs_model::Call;
use hfs_scripts::{Script, read_script};
use hfs_shared::{Done, Gate, Parts, Pass, RunFault, Session, Shared, Viewer, run_workers};
use hfs_volume::Volume;
use std::alloc::Global;
use std::marker::Brand;
use std::sync::Wait;
use std::thread;
use std::thread::Threads;

/// What running a script made.
#[derive(Drop)]
pub struct Ran {
    /// The volume after the script.
    pub volume: Volume,
    /// The lines of the answers.
    pub text: String,
    /// Whether every line was answered.
    pub whole: bool,
    /// Whether viewers were shown each change at once, and none later for lack of memory.
    pub shown: bool,
}

/// What running a script made, with the answers in pieces.
#[derive(Drop)]
pub struct RanInPieces {
    /// The volume after the script.
    pub volume: Volume,
    /// The answers.
    pub answers: Answers,
    /// Whether every line was answered.
    pub whole: bool,
    /// Whether viewers were shown each change at once, and none later for lack of memory.
    pub shown: bool,
}

/// What running a script made, before its answers have a text.
#[derive(Drop)]
pub struct Made {
    pub volume: Volume,
    /// The calls of the lines.
    pub lines: Vec<Asked>,
    pub replies: Replies,
    pub shown: bool,
}

// The gate of a run: nothing is done around a call.
#[derive(Drop)]
struct NoGate;

impl Gate for NoGate {
    fn before(&self, _worker: u32, _stamp: u64) {}

    fn inside(&self, _worker: u32, _stamp: u64) {}

    fn after(&self, _worker: u32, _stamp: u64) {}
}

// Workers make their calls while viewers make theirs.
fn run_beside<K: Session + Send + Sync, R: Threads + Wait + Sync, G: Gate + Sync>(
    shared: &Shared<K>,
    rt: &R,
    alloc: Global,
    gate: &G,
    jobs: Vec<(Pass, Vec<Call>)>,
    viewings: Vec<Viewing>,
) -> (Result<Vec<Done>, RunFault>, Vec<Viewing>)
    requires planned { AreJobsPlanned K.plan (λ c. c.items) jobs.items }
    ensures dones { IfOk result.0 (λ v. length v.items ≡ length jobs.items) }
    ensures done { IfOk result.0 (λ v.
        AreDone K.book K.base K.plan (λ c. c.items) jobs.items v.items) }
    ensures viewings { length result.1.items ≡ length viewings.items }
    ensures viewed { AreViewed viewings.items result.1.items }
{
    thread::join(
        rt,
        move || -> Result<Vec<Done>, RunFault>
            requires sync { IsSync R.row × IsSync K.row × IsSync G.row }
            requires planned { AreJobsPlanned K.plan (λ c. c.items) jobs.items }
            ensures dones { IfOk result (λ v. length v.items ≡ length jobs.items) }
            ensures done { IfOk result (λ v.
                AreDone K.book K.base K.plan (λ c. c.items) jobs.items v.items) }
        { run_workers(shared, rt, alloc, gate, jobs) },
        move || -> Vec<Viewing>
            requires { IsSync R.row }
            ensures viewings { length result.items ≡ length viewings.items }
            ensures viewed { AreViewed viewings.items result.items }
        { view_all(rt, alloc, viewings) },
    )
}

// Runs the calls on a volume that is about to be shared.
fn run_shared<K: Session + Send + Sync, R: Threads + Wait + Sync, G: Gate + Sync>(
    rt: &R,
    alloc: Global,
    gate: &G,
    parts: Parts,
    passes: Vec<Pass>,
    readers: Vec<Viewer>,
    script: Script,
) -> Result<Made, ScriptFault>
    requires parts { (parts.book ≡ K.book) × (parts.base ≡ K.base) }
    requires started { IsStart K.base (workers script) (viewers script)
        parts passes.items readers.items }
    requires planned { K.plan ≡ plan_of script }
    requires small { All (λ l. IsSmall l.caller) script }
    ensures ok { IfOk result (AreLinesMade K.base script) }
    ensures err { IfErr result (λ fault. fault ≡ ScriptFault.Memory) }
{
    let shared = parts.share::<K>();
    let lines = number_lines(alloc, script.lines())?;
    let (jobs, rest) = jobs_of(alloc, passes, script)?;
    let viewings = viewings_of(alloc, readers, rest)?;
    let (dones, viewings) = run_beside(&shared, rt, alloc, gate, jobs, viewings);
    let Ok(dones) = dones else {
        return Err(ScriptFault::Memory);
    };
    let shown = are_all_whole(&dones);
    let (volume, replies) = close(rt, alloc, shared, dones, viewings)?;
    Ok(Made {
        volume,
        lines,
        replies,
        shown,
    })
}

// Runs the lines of a script on a volume.
fn run_lines<R: Threads + Wait + Sync, G: Gate + Sync>(
    rt: &R,
    alloc: Global,
    gate: &G,
    volume: Volume,
    script: Script,
) -> Result<Made, ScriptFault>
    requires small { All (λ l. IsSmall l.caller) script }
    ensures ok { IfOk result (AreLinesMade volume.current script) }
    ensures err { IfErr result (IsStartFault script) }
{
    let (parts, passes, viewers) = start(rt, alloc, volume, &script)?;
    run_shared::<Brand, _, _>(rt, alloc, gate, parts, passes, viewers, script)
}

/// Runs a script on the volume of an image: each worker makes its calls in order in a thread of its own, while viewers read. The
/// lines of the answers are in the script's order. A line that was not answered, because its caller was refused memory, has the
/// code `none`, and then the run is not whole. Faults, in this order: `TooLarge` and `Line` of the script, `Refused` of the
/// image, `NoPlace` if a line is a viewer's; also `Memory`.
pub fn run_script<R: Threads + Wait + Sync>(
    rt: &R,
    alloc: Global,
    image: Vec<u8>,
    script: &[u8],
    now: u32,
) -> Result<Ran, ScriptFault>
    ensures ok { IfOk result (λ ran. IsScriptRunAs now script.now image.items ran) }
    ensures err { IfErr result (IsRunFault now script.now image.items) }
{
    run_script_at(rt, alloc, &NoGate, image, script, now)
}

/// As `run_script`, with a gate that is called around each call of a worker. What the gate does changes no answer.
pub fn run_script_at<R: Threads + Wait + Sync, G: Gate + Sync>(
    rt: &R,
    alloc: Global,
    gate: &G,
    image: Vec<u8>,
    script: &[u8],
    now: u32,
) -> Result<Ran, ScriptFault>
    ensures ok { IfOk result (λ ran. IsScriptRunAs now script.now image.items ran) }
    ensures err { IfErr result (IsRunFault now script.now image.items) }
{
    let script = match read_script(alloc, script, now) {
        Ok(script) => script,
        Err(fault) => return Err(ScriptFault::of_script(fault)),
    };
    let volume = mounted(alloc, image)?;
    run_volume_at(rt, alloc, gate, volume, script)
}

/// As `run_script_at`, on a volume that is already mounted, with a script that has been read. Faults: `NoPlace` if a line is a
/// viewer's; `Memory`.
pub fn run_volume_at<R: Threads + Wait + Sync, G: Gate + Sync>(
    rt: &R,
    alloc: Global,
    gate: &G,
    volume: Volume,
    script: Script,
) -> Result<Ran, ScriptFault>
    requires small { All (λ l. IsSmall l.caller) script }
    ensures ok { IfOk result (λ ran. AreLinesRunAs volume.current script ran) }
    ensures err { IfErr result (IsStartFault script) }
{
    let Made {
        volume,
        lines,
        replies,
        shown,
    } = run_lines(rt, alloc, gate, volume, script)?;
    let (text, whole) = answers_text(alloc, &lines, &replies)?;
    Ok(Ran {
        volume,
        text,
        whole,
        shown,
    })
}

/// As `run_volume_at`, with answers in which the digits of long bytes are left out for now, so that their text needn't be in
/// memory at once. Faults: `NoPlace` if a line is a viewer's; `Memory`.
pub fn run_volume_in_pieces<R: Threads + Wait + Sync, G: Gate + Sync>(
    rt: &R,
    alloc: Global,
    gate: &G,
    volume: Volume,
    script: Script,
) -> Result<RanInPieces, ScriptFault>
    requires small { All (λ l. IsSmall l.caller) script }
    ensures ok { IfOk result (AreLinesRunInPieces volume.current script) }
    ensures err { IfErr result (IsStartFault script) }
{
    let Made {
        volume,
        lines,
        replies,
        shown,
    } = run_lines(rt, alloc, gate, volume, script)?;
    let (answers, whole) = answers_in_pieces(alloc, &lines, replies)?;
    Ok(RanInPieces {
        volume,
        answers,
        whole,
        shown,
    })
}
