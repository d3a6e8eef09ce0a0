//! Running a script on a volume of which the working blocks were read.
ghost use Rattle.std.specs.Prelude.{◌≡◌, ◌/◌, All, None, IfOk, IfErr};
ghost use Rattle.hfs_blocks.specs.Layers.{changes, AreWithin};
ghost use Rattle.hfs_check.specs.Sound.{IsSound};
ghost use Rattle.hfs_runs.specs.Asking.{IsSmall};
ghost use Rattle.hfs_runs.specs.Runs.{IsStartFault};
ghost use Rattle.hfs_volume.specs.Image.{copy_of};
ghost use Rattle.hfs_copy.specs.Opened.{IsWorkingOf};
ghost use Rattle.hfs_runs.specs.NeededRuns.{IsRunOverAs};

use crate::given_back::free_blocks;
use crate::made_files::script_files;
use crate::made_forks::made_forks;
use crate::{Answers, Gate, RanInPieces, ScriptFault, run_volume_in_pieces};
use hfs_copy::{WorkingVolume, kept_blocks, mount_read};
use hfs_scripts::Script;
use hfs_space::ChangedBlocks;
use std::alloc::Global;
use std::sync::Wait;
use std::thread::Threads;

/// What a run of a script made of an image of which only what it needs was read.
#[derive(Drop)]
pub struct NeededRan {
    /// The blocks that are written, to be laid over the image.
    pub patch: ChangedBlocks,
    /// The answers; the digits of long bytes are left out for now.
    pub answers: Answers,
    /// Whether every line was answered.
    pub whole: bool,
    /// Whether viewers were shown each change at once, and none later for lack of memory.
    pub shown: bool,
}

/// Runs a script, as `run_volume_in_pieces` does, on a volume of an image of `len` bytes of which the working blocks were read,
/// and the forks that the script may read or write. What is written, laid over the image, agrees with the image except for the
/// blocks of forks that calls wrote, and holds what the script made of the copy, including the forks of files that its lines name
/// or that it made. Other forks are the image's. Faults: `NoPlace` if a line is a viewer's; `Memory`.
pub fn run_needed_at<R: Threads + Wait + Sync, G: Gate + Sync>(
    rt: &R,
    alloc: Global,
    gate: &G,
    working: WorkingVolume,
    len: u64,
    script: Script,
) -> Result<NeededRan, ScriptFault>
    requires working { IsWorkingOf None (len / 512) working }
    requires sound { IsSound (copy_of working.read len) }
    requires small { All (λ l. IsSmall l.caller) script }
    ensures ran { IfOk result (IsRunOverAs working.read len script) }
    ensures within { IfOk result (λ ran. AreWithin (changes ran.patch) (len / 512)) }
    ensures err { IfErr result (IsStartFault script) }
{
    let files = script_files(alloc, &working, script.lines())?;
    let Ok(volume) = mount_read(alloc, working, len) else {
        return Err(ScriptFault::Memory);
    };
    let RanInPieces {
        volume,
        answers,
        whole,
        shown,
    } = run_volume_in_pieces(rt, alloc, gate, volume, script)?;
    let forks = made_forks(alloc, &volume, &files)?;
    let free = free_blocks(alloc, &volume, &files)?;
    let patch = kept_blocks(alloc, &volume, &forks, &free)?;
    Ok(NeededRan {
        patch,
        answers,
        whole,
        shown,
    })
}
