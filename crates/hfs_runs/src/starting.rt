//! What a run begins with: the volume of its image, shared among the callers of its script.
ghost use Rattle.std.specs.Prelude.{◌≡◌, ◌<◌, ◌≤◌, ◌⊎◌, All, IfOk, IfErr, OnOk};
ghost use Rattle.hfs_check.specs.Sound.{IsSound};
ghost use Rattle.hfs_scripts.specs.Callers.{workers, viewers};
ghost use Rattle.hfs_shared.specs.Shareds.{IsStart};
ghost use Rattle.hfs_runs.specs.Asking.{IsSmall};
ghost use Rattle.hfs_runs.specs.Jobs.{is_viewer, has_viewer};
ghost use Rattle.hfs_runs.specs.Runs.{IsMountFault, IsStartFault};

use crate::script_fault::ScriptFault;
use hfs_scripts::{Caller, Script, ScriptLine};
use hfs_shared::{Parts, Pass, Viewer, Why};
use hfs_volume::{Volume, mount};
use std::alloc::Global;
use std::sync::Wait;

/// The volume of an image.
pub fn mounted(alloc: Global, image: Vec<u8>) -> Result<Volume, ScriptFault>
    ensures sound { OnOk result (IsSound image.items) }
    ensures current { IfOk result (λ volume. volume.current ≡ image.items) }
    ensures err { IfErr result (IsMountFault image.items) }
{
    match mount(alloc, image) {
        Ok(volume) => Ok(volume),
        Err(refused) => Err(ScriptFault::of_mount(refused.fault)),
    }
}

// The parts of a volume with viewers that read.
fn start_read<R: Wait>(
    rt: &R,
    alloc: Global,
    volume: Volume,
    workers: u32,
    viewers: u32,
) -> Result<(Parts, Vec<Pass>, Vec<Viewer>), ScriptFault>
    requires workers { (0 < workers) × (workers ≤ 8) }
    requires viewers { (0 < viewers) × (viewers ≤ 8) }
    ensures ok { IfOk result (λ r.
        IsStart volume.current workers viewers r.0 r.1.items r.2.items) }
    ensures err { IfErr result (λ fault.
        (fault ≡ ScriptFault.NoPlace) ⊎ (fault ≡ ScriptFault.Memory)) }
{
    match Parts::start(rt, alloc, volume, workers, viewers) {
        Ok(started) => Ok(started),
        Err(failed) => match failed.why {
            Why::Memory => Err(ScriptFault::Memory),
            Why::NoPlace => Err(ScriptFault::NoPlace),
        },
    }
}

// The parts of a volume that no viewer reads, with the viewer that will close it.
fn start_unread(
    alloc: Global,
    volume: Volume,
    workers: u32,
) -> Result<(Parts, Vec<Pass>, Vec<Viewer>), ScriptFault>
    requires { (0 < workers) × (workers ≤ 8) }
    ensures ok { IfOk result (λ r. IsStart volume.current workers 1 r.0 r.1.items r.2.items) }
    ensures err { IfErr result (λ fault. fault ≡ ScriptFault.Memory) }
{
    match Parts::start_unread(alloc, volume, workers) {
        Ok((parts, passes, viewer)) => {
            let mut viewers = Vec::new(alloc);
            viewers.push(viewer)?;
            Ok((parts, passes, viewers))
        }
        Err(_failed) => Err(ScriptFault::Memory),
    }
}

fn is_viewer(caller: Caller) -> bool
    ensures { result ≡ is_viewer caller }
{
    matches!(caller, Caller::Viewer(_))
}

// Whether a line is a viewer's.
fn has_viewer(lines: &[ScriptLine]) -> bool
    ensures { result ≡ has_viewer lines.now }
{
    lines.iter().any(|line| is_viewer(line.caller))
}

/// The parts of a volume for the callers of a script, with passes and viewers. If no line is a viewer's, nothing is kept for
/// viewers to read. Faults: `NoPlace`, only if a line is a viewer's; `Memory`.
pub fn start<R: Wait>(
    rt: &R,
    alloc: Global,
    volume: Volume,
    script: &Script,
) -> Result<(Parts, Vec<Pass>, Vec<Viewer>), ScriptFault>
    requires { All (λ line. IsSmall line.caller) script.now }
    ensures ok { IfOk result (λ r. IsStart volume.current (workers script.now) (viewers script.now)
        r.0 r.1.items r.2.items) }
    ensures err { IfErr result (IsStartFault script.now) }
{
    if has_viewer(script.lines()) {
        return start_read(rt, alloc, volume, script.workers(), script.viewers());
    }
    start_unread(alloc, volume, script.workers())
}
