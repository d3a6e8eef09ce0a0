//! What long work shows while it goes on: one line on standard error that is rewritten, if standard error is a terminal.

use hfs_runs::Gate;

/// After how many calls of one worker the line is written.
const CALLS_SHOWN: u64 = 1_000;

/// How few bytes a script of a thousand calls has: its shortest line has nine.
const SCRIPT_SHOWN: usize = 9_000;

/// The progress of a run: the last worker that reached another 1,000 of its calls.
#[derive(Drop)]
pub struct RunProgress<'a> {
    pub rt: &'a HostRuntime,
    pub is_shown: bool,
}

impl RunProgress<'_> {
    /// Takes the line away, where a script of so many bytes may have shown one.
    pub fn end(&self, script: usize) {
        if self.is_shown && script >= SCRIPT_SHOWN {
            // If the terminal takes nothing more, the run goes on.
            let _printed = eprint!(self.rt; "\r\x1b[K");
        }
    }
}

impl Gate for RunProgress<'_> {
    fn before(&self, _worker: u32, _stamp: u64) {}

    fn inside(&self, _worker: u32, _stamp: u64) {}

    fn after(&self, worker: u32, stamp: u64) {
        if self.is_shown && stamp % CALLS_SHOWN == 0 {
            // If the terminal takes nothing more, the run goes on.
            let _printed = eprint!(self.rt; "\rworker {worker}: {stamp} calls\x1b[K");
        }
    }
}
