//! Scripts run on images, of which only what the scripts need is read.
ghost use Rattle.std.specs.Prelude.{◌≡◌, ◌<◌, ◌≤◌, ◌⊎◌, ◌/◌, All, IfErr, IfOk, Ok, Some, length};
ghost use Rattle.hfs_blocks.specs.Layers.{changes, AreWithin};
ghost use Rattle.hfs_check.specs.Faults.{fault_of};
ghost use Rattle.hfs_runs.specs.Asking.{IsSmall};
ghost use Rattle.hfs_runs.specs.Pieces.{text_of_pieces};
ghost use Rattle.hfs_scripts.specs.Scripts.{script_of};
ghost use Rattle.hfs_commands.specs.Faults.{IsTooMuch};
ghost use Rattle.hfs_runs.specs.Running.{IsNeededFault, IsNeededRunOf, IsScriptFault};
ghost use Rattle.hfs_image.specs.Failing.{SomeFailsWithin};
ghost use Rattle.hfs_source.specs.Images.{OfEach};

use crate::run_faults::run_fault;
use crate::{Answers, Gate, NeededRan, ScriptFault, fetch_named_forks, run_needed_at};
use hfs_check::MountFault;
use hfs_commands::{Fault, PatchedImage};
use hfs_copy::{FailingBlocks, WorkingVolume, open_source};
use hfs_image::NeededFault;
use hfs_scripts::{Script, read_script};
use hfs_source::{BlockSource, SparseFault, Watched};
use hfs_texts::IMAGE_LIMIT;
use std::alloc::Global;
use std::marker::Model;
use std::sync::Wait;
use std::thread::Threads;

/// An image on which a script is about to be run, with the blocks that calls read and write already read.
#[derive(Drop)]
pub struct RunImage<S: BlockSource> {
    /// Where the forks are read from that a script may read or write.
    source: S,
    /// How many bytes the image has.
    len: u64,
    working: WorkingVolume,
}

impl<S: BlockSource> Model for RunImage<S> {
    ghost use Rattle.std.specs.Prelude.{ℕ};
    ghost use Rattle.hfs_copy.specs.Opened.{IsRunnable};

    ghost Value = { S × ℕ };

    ghost view = { λ image. (image.source, image.len) };

    ghost invariant = { λ image. IsRunnable (S.Holds image.source) image.len image.working };
}

/// An image that is refused, so that no script is run on it.
#[derive(Drop)]
pub struct RefusedRun<S> {
    /// Its first fault.
    pub why: MountFault,
    /// What it was read from.
    pub source: S,
}

/// What running a script made of an image.
#[derive(Drop)]
pub struct RanImage<S> {
    /// The image with the changes laid over it, as the contents of a file.
    pub image: PatchedImage<S>,
    /// The answers; the digits of long bytes are left out for now.
    pub answers: Answers,
    /// Whether every line was answered.
    pub whole: bool,
    /// Whether viewers were shown each change at once, and none later for lack of memory.
    pub shown: bool,
}

/// What a run made, with the image that it was made of.
fn ran_image<S: BlockSource>(alloc: Global, source: S, len: u64, ran: NeededRan) -> RanImage<S>
    requires small { len ≤ 2147483648 }
    requires within { AreWithin (changes ran.patch) (len / 512) }
    ensures source { result.image.source ≡ source }
    ensures len { result.image.len ≡ len }
    ensures patch { result.image.patch ≡ ran.patch }
    ensures answers { result.answers ≡ ran.answers }
    ensures whole { result.whole ≡ ran.whole }
    ensures shown { result.shown ≡ ran.shown }
{
    let at_once = ran.shown;
    let NeededRan {
        patch,
        answers,
        whole,
        shown: _,
    } = ran;
    let image = PatchedImage {
        alloc,
        source,
        len,
        patch,
    };
    RanImage {
        image,
        answers,
        whole,
        shown: at_once,
    }
}

/// The script in these bytes, whose changes are made at the moment `now`. Faults: `ScriptTooLarge`, `ScriptLine`, `NoMemory`.
pub fn script_lines(alloc: Global, bytes: &[u8], now: u32) -> Result<Script, Fault<'static>>
    ensures read { IfOk result (λ script. script_of now bytes.now ≡ Ok script) }
    ensures small { IfOk result (λ script. All (λ line. IsSmall line.caller) script) }
    ensures fault { IfErr result (IsScriptFault now bytes.now) }
{
    match read_script(alloc, bytes, now) {
        Ok(script) => Ok(script),
        Err(fault) => Err(run_fault(ScriptFault::of_script(fault))),
    }
}

impl<S: FailingBlocks + Drop> RunImage<S> {
    /// Reads those blocks of an image of `len` bytes that calls read and write, and makes all checks. An image that is refused is
    /// returned with its first fault, which counts only once the script was read. `path` is what was opened. Faults: `CannotRead`
    /// if a read of bytes that it has fails, `Refused(TooLarge)` if it has more than 2,147,483,648 bytes, `NoMemory`.
    pub fn open<'a>(
        alloc: Global,
        source: S,
        len: u64,
        path: &'a str,
    ) -> Result<Result<RunImage<S>, RefusedRun<S>>, Fault<'a>>
        ensures len { IfOk result (λ opened. IfOk opened (λ image. image.1 ≡ len)) }
        ensures image { IfOk result (λ opened. IfOk opened (λ image.
            S.image image.0 ≡ S.image source)) }
        ensures narrows { IfOk result (λ opened. IfOk opened (λ image.
            OfEach (S.Holds image.0) (S.Holds source))) }
        ensures refused { IfOk result (λ opened. IfErr opened (λ refused.
            OfEach (S.Holds refused.source) (λ bytes. length bytes ≡ len → fault_of bytes ≡ Some refused.why))) }
        ensures back { IfOk result (λ opened. IfErr opened (λ refused.
            OfEach (S.Holds refused.source) (S.Holds source))) }
        ensures back_image { IfOk result (λ opened. IfErr opened (λ refused.
            S.image refused.source ≡ S.image source)) }
        ensures fault { IfErr result (λ why. (why ≡ Fault.CannotRead path.entry) ⊎ IsTooMuch why) }
        ensures failed { IfErr result (λ why. why ≡ Fault.CannotRead path.entry
            → SomeFailsWithin len (S.Fails source)) }
        ensures large { IfErr result (λ why. why ≡ Fault.Refused MountFault.TooLarge
            → 2147483648 < len) }
    {
        if len > IMAGE_LIMIT as u64 {
            return Err(Fault::Refused(MountFault::TooLarge));
        }
        let (opened, source) = open_source(alloc, source, len);
        match opened {
            Ok(working) => Ok(Ok(RunImage {
                source,
                len,
                working,
            })),
            Err(NeededFault::Refused(why)) => Ok(Err(RefusedRun { why, source })),
            Err(NeededFault::ReadFailed) => Err(Fault::CannotRead(path)),
            Err(NeededFault::Memory) => Err(Fault::NoMemory),
        }
    }
}

impl<S: BlockSource + Watched + Drop> RunImage<S> {
    /// Reads the forks that a script may read or write, and runs the script, with a gate that is called around each call of a
    /// worker. Faults: `CannotRead` of this path if a read fails, or if the image has changed since it was opened; `NoPlace`, only
    /// if a line is a viewer's; `NoMemory`.
    pub fn run_at<'a, R: Threads + Wait + Sync, G: Gate + Sync>(
        self,
        rt: &R,
        alloc: Global,
        gate: &G,
        script: Script,
        path: &'a str,
    ) -> Result<RanImage<S>, Fault<'a>>
        requires { All (λ line. IsSmall line.caller) script }
        ensures ran { IfOk result (λ ran. IsNeededRunOf (S.Holds ran.image.source) self.1 script
            ran.image.patch (text_of_pieces ran.answers) ran.whole ran.shown
            ran.answers.replies.workers.items) }
        ensures len { IfOk result (λ ran. ran.image.len ≡ self.1) }
        ensures image { IfOk result (λ ran. S.image ran.image.source ≡ S.image self.0) }
        ensures narrows { IfOk result (λ ran. OfEach (S.Holds ran.image.source) (S.Holds self.0)) }
        ensures settled { IfOk result (λ ran. S.settled ran.image.source) }
        ensures fault { IfErr result (IsNeededFault script path.entry) }
    {
        let RunImage {
            source,
            len,
            working,
        } = self;
        let mut source = source;
        let mut working = working;
        match fetch_named_forks(alloc, &mut source, &mut working, &script) {
            Ok(()) => {}
            Err(SparseFault::ReadFailed) => return Err(Fault::CannotRead(path)),
            Err(SparseFault::Memory) => return Err(Fault::NoMemory),
        }
        let Ok(()) = source.look_again() else {
            return Err(Fault::CannotRead(path));
        };
        match run_needed_at(rt, alloc, gate, working, len, script) {
            Ok(ran) => Ok(ran_image(alloc, source, len, ran)),
            Err(fault) => Err(run_fault(fault)),
        }
    }
}
