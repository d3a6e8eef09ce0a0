//! A script: its lines, and the calls of each caller.
ghost use Rattle.std.specs.Prelude.{◌≡◌, IfOk};
ghost use Rattle.hfs_scripts.specs.Callers.{is_same, worker_number, viewer_number, workers, viewers, calls_of, lines_of_others};

use crate::lines::{Caller, ScriptLine};
use hfs_model::Call;
use std::alloc::{AllocError, Global};
use std::marker::Model;

/// The lines of a script, in order. Contracts see the list.
#[derive(Drop)]
pub struct Script {
    items: Vec<ScriptLine>,
}

impl Model for Script {
    ghost use Rattle.std.specs.Prelude.{List};
    ghost use Rattle.hfs_scripts.specs.declared.lines.ScriptLine.{ScriptLine};

    ghost Value = { List ScriptLine };

    ghost view = { λ a. a.items.items };
}

/// Whether both are the same caller.
fn is_same(one: Caller, other: Caller) -> bool
    ensures { result ≡ is_same one other }
{
    match (one, other) {
        (Caller::Worker(a), Caller::Worker(b)) => a == b,
        (Caller::Viewer(a), Caller::Viewer(b)) => a == b,
        (Caller::Worker(_), Caller::Viewer(_)) => false,
        (Caller::Viewer(_), Caller::Worker(_)) => false,
    }
}

fn worker_number(caller: Caller) -> u32
    ensures { result ≡ worker_number caller }
{
    match caller {
        Caller::Worker(number) => number,
        Caller::Viewer(_) => 0,
    }
}

fn viewer_number(caller: Caller) -> u32
    ensures { result ≡ viewer_number caller }
{
    match caller {
        Caller::Worker(_) => 0,
        Caller::Viewer(number) => number,
    }
}

impl Script {
    /// The script of these lines; takes no memory.
    pub fn new(items: Vec<ScriptLine>) -> Self
        ensures { result ≡ items.items }
    {
        Script { items }
    }

    /// The lines, in order.
    pub fn lines(&self) -> &[ScriptLine]
        ensures { result.now ≡ self.now }
    {
        &self.items
    }

    /// The lines, in order; takes no memory.
    pub fn into_lines(self) -> Vec<ScriptLine>
        ensures { result.items ≡ self }
    {
        let Script { items } = self;
        items
    }

    /// How many workers it has: the greatest number of a worker, but at least one.
    #[tactic(auto, unfolding(crate::specs::Callers::workers))]
    pub fn workers(&self) -> u32
        ensures { result ≡ workers self.now }
    {
        let mut most = 1;
        for line in self.lines() {
            most = most.max(worker_number(line.caller));
        }
        most
    }

    /// How many viewers it has: the greatest number of a viewer, but at least one.
    #[tactic(auto, unfolding(crate::specs::Callers::viewers))]
    pub fn viewers(&self) -> u32
        ensures { result ≡ viewers self.now }
    {
        let mut most = 1;
        for line in self.lines() {
            most = most.max(viewer_number(line.caller));
        }
        most
    }

    /// The calls of a caller, in order, and the script of the other callers' lines. `Err` only when out of memory.
    pub fn part(self, alloc: Global, caller: Caller) -> Result<(Vec<Call>, Script), AllocError>
        ensures calls { IfOk result (λ parts. parts.0.items ≡ calls_of caller self) }
        ensures others { IfOk result (λ parts. parts.1 ≡ lines_of_others caller self) }
    {
        let Script { items } = self;
        let mut calls = Vec::new(alloc);
        let mut others = Vec::new(alloc);
        for line in items {
            if is_same(line.caller, caller) {
                calls.push(line.call)?;
            } else {
                others.push(line)?;
            }
        }
        Ok((calls, Script { items: others }))
    }
}
