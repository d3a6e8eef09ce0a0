//! Each caller of a script with its own calls.
ghost use Rattle.std.specs.Prelude.{◌≡◌, ◌≤◌, length, IfOk};
ghost use Rattle.hfs_scripts.specs.declared.lines.Caller.TheVariants.{Worker, Viewer as AsViewer};
ghost use Rattle.hfs_runs.specs.Jobs.{HaveCalls, HaveEach, HasViewersOf};

use crate::viewing::Viewing;
use hfs_model::Call;
use hfs_scripts::{Caller, Script};
use hfs_shared::{Pass, Viewer};
use std::alloc::{AllocError, Global};

/// Each worker's pass with its calls, and a script of the lines that are left. The passes are those of workers 1, 2 and so on.
#[tactic(auto, using(crate::proofs::Parts::workers_kept, crate::proofs::Parts::viewers_stay))]
pub fn jobs_of(
    alloc: Global,
    passes: Vec<Pass>,
    script: Script,
) -> Result<(Vec<(Pass, Vec<Call>)>, Script), AllocError>
    requires { length passes.items ≤ 8 }
    ensures many { IfOk result (λ r. length r.0.items ≡ length passes.items) }
    ensures passes { IfOk result (λ r. HaveEach (λ job. job.0) passes.items r.0.items) }
    ensures calls { IfOk result (λ r.
        HaveCalls (λ job. job.1.items) Worker (length passes.items) script r.0.items) }
    ensures others { IfOk result (λ r. HasViewersOf script r.1) }
{
    let mut jobs = Vec::new(alloc);
    let mut rest = script;
    let mut number = 0;
    for pass in passes {
        number += 1;
        let (own, others) = rest.part(alloc, Caller::Worker(number))?;
        jobs.push((pass, own))?;
        rest = others;
    }
    Ok((jobs, rest))
}

/// Each viewer with its calls, and with no reply yet. The viewers are 1, 2 and so on.
#[tactic(auto, using(crate::proofs::Parts::viewers_kept))]
pub fn viewings_of(
    alloc: Global,
    viewers: Vec<Viewer>,
    script: Script,
) -> Result<Vec<Viewing>, AllocError>
    requires { length viewers.items ≤ 8 }
    ensures many { IfOk result (λ v. length v.items ≡ length viewers.items) }
    ensures viewers { IfOk result (λ v. HaveEach (λ one. one.viewer) viewers.items v.items) }
    ensures calls { IfOk result (λ v.
        HaveCalls (λ one. one.calls.items) AsViewer (length viewers.items) script v.items) }
{
    let mut viewings = Vec::new(alloc);
    let mut rest = script;
    let mut number = 0;
    for viewer in viewers {
        number += 1;
        let (calls, others) = rest.part(alloc, Caller::Viewer(number))?;
        viewings.push(Viewing {
            viewer,
            calls,
            replies: Vec::new(alloc),
        })?;
        rest = others;
    }
    Ok(viewings)
}
