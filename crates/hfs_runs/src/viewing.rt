//! Viewers that run side by side.
ghost use Rattle.std.specs.Prelude.{◌≡◌, IsTrue, length, OnOk, OnErr};
ghost use Rattle.hfs_model.specs.Step.{is_reading};
ghost use Rattle.hfs_runs.specs.Views.{AreMoreReads, AreReads, IsViewed, AreViewed};

use hfs_model::{Call, Reply};
use hfs_shared::{ViewFault, Viewer};
use std::alloc::Global;
use std::thread;
use std::thread::Threads;

/// A viewer with its calls, and the replies to the first of them.
#[derive(Drop)]
pub struct Viewing {
    pub viewer: Viewer,
    pub calls: Vec<Call>,
    pub replies: Vec<Reply>,
}

// One more reply. Nothing changes if there is no memory for it, or no list to read.
fn view_one(
    alloc: Global,
    viewer: &mut Viewer,
    call: &Call,
    replies: &mut Vec<Reply>,
) -> Result<(), ViewFault>
    requires { IsTrue (is_reading call.now) }
    ensures ok { OnOk result
        (AreMoreReads call.now viewer.old viewer.new replies.old.items replies.new.items) }
    ensures err { OnErr result
        ((viewer.new ≡ viewer.old) × (replies.new.items ≡ replies.old.items)) }
{
    if replies.reserve(1).is_err() {
        return Err(ViewFault::Memory);
    }
    match viewer.read(alloc, call) {
        Ok(reply) => {
            replies.push_reserved(reply);
            Ok(())
        }
        Err(fault) => Err(fault),
    }
}

// The replies to a viewer's calls, up to the first that is not answered.
#[tactic(auto, using(crate::proofs::Reading::reads_more))]
fn view(alloc: Global, viewer: &mut Viewer, calls: &Vec<Call>) -> Vec<Reply>
    ensures { AreReads calls.now.items viewer.old result.items viewer.new }
{
    let mut replies = Vec::new(alloc);
    for call in calls {
        if !call.is_reading() {
            break;
        }
        if view_one(alloc, viewer, call, &mut replies).is_err() {
            break;
        }
    }
    replies
}

/// Answers each viewer's calls in order, each viewer in a thread of its own or, if no thread can be made for it, in another's. A
/// viewer stops at the first call that is not answered.
pub fn view_all<R: Threads + Sync>(rt: &R, alloc: Global, viewings: Vec<Viewing>) -> Vec<Viewing>
    ensures many { length result.items ≡ length viewings.items }
    ensures each { AreViewed viewings.items result.items }
{
    let mut viewings = viewings;
    let threads = viewings.len().max(1);
    let run = |_at: usize, viewing: &mut Viewing|
        ensures { IsViewed viewing.entry.now viewing.exit.now }
    {
        viewing.replies = view(alloc, &mut viewing.viewer, &viewing.calls);
    };
    thread::for_each_mut(rt, viewings.as_mut_slice(), threads, &run);
    viewings
}
