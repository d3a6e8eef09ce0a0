//! A worker's pass.
ghost use Rattle.std.specs.Prelude.{◌≡◌, ◌+◌, ◌<◌, ◌^◌};
ghost use Rattle.hfs_shared.specs.Closings.{IsWhether};
ghost use Rattle.hfs_shared.specs.Desks.{PassState, pass_state};

use std::marker::Model;

/// What lets a worker make its next call. Contracts see the worker and the number of that call.
#[derive(Drop)]
pub struct Pass {
    worker: u32,
    number: u64,
}

impl Model for Pass {
    ghost use Rattle.std.specs.Prelude.{◌<◌};
    ghost use Rattle.hfs_shared.specs.Desks.{PassState, pass_state};

    ghost Value = { PassState };

    ghost view = { λ p. pass_state p.worker p.number };

    ghost invariant = { λ p. 0 < p.number };
}

impl Pass {
    /// The pass of a worker that has made no call.
    pub fn first(worker: u32) -> Pass
        ensures { result ≡ pass_state worker 1 }
    {
        Pass { worker, number: 1 }
    }

    /// The worker, counted from 1.
    pub fn worker(&self) -> u32
        ensures { result ≡ self.now.worker }
    {
        self.worker
    }

    /// The number of its next call; 1 at first.
    pub fn number(&self) -> u64
        ensures value { result ≡ self.now.number }
        ensures positive { 0 < result }
    {
        self.number
    }

    /// Whether it is this worker's pass, with this number.
    pub fn is(&self, worker: u32, number: u64) -> bool
        ensures { IsWhether result (self.now ≡ pass_state worker number) }
    {
        self.worker == worker && self.number == number
    }

    /// A copy, for the result of a job whose own pass is lost with it.
    pub(crate) fn again(&self) -> Pass
        ensures { result ≡ self.now }
    {
        Pass {
            worker: self.worker,
            number: self.number,
        }
    }

    /// Raises the number by one.
    pub(crate) fn raise(&mut self)
        requires { self.old.number + 1 < 2 ^ 64 }
        ensures { self.new ≡ pass_state self.old.worker (self.old.number + 1) }
    {
        self.number += 1;
    }
}
