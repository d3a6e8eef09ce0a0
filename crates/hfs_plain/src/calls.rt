//! The calls of a script of one worker.

ghost use Rattle.std.specs.Prelude.{◌≡◌, IfOk, Ok};
ghost use Rattle.hfs_plain.specs.Callers.{AreCallsOf};
ghost use Rattle.hfs_scripts.specs.Scripts.{script_of};

use crate::fault::Fault;
use hfs_model::Call;
use hfs_scripts::{Caller, Script, read_script};
use std::alloc::Global;

/// The script of these bytes, with its changes at the moment `now`.
fn script_of(alloc: Global, bytes: &[u8], now: u32) -> Result<Script, Fault<'static>>
    ensures { IfOk result (λ lines. script_of now bytes.now ≡ Ok lines) }
{
    match read_script(alloc, bytes, now) {
        Ok(script) => Ok(script),
        Err(fault) => Err(Fault::of_script(fault)),
    }
}

/// The calls of worker 1, if the bytes are a script without other callers.
pub fn calls_of_one(alloc: Global, bytes: &[u8], now: u32) -> Result<Vec<Call>, Fault<'static>>
    ensures { IfOk result (λ calls. AreCallsOf now bytes.now calls.items) }
{
    let script = script_of(alloc, bytes, now)?;
    let (calls, others) = script.part(alloc, Caller::Worker(1))?;
    if !others.lines().is_empty() {
        return Err(Fault::Words("the script has other callers than worker 1"));
    }
    Ok(calls)
}
