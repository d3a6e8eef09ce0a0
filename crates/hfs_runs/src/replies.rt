//! What the callers of a script were answered.
ghost use Rattle.std.specs.Prelude.{◌≡◌, option_copied, slice_get};
ghost use Rattle.hfs_scripts.specs.declared.lines.Caller.TheVariants.{Viewer as AsViewer};
ghost use Rattle.hfs_runs.specs.Answers.{kept_replies, reply_to, told_replies};
ghost use Rattle.hfs_runs.specs.Pieces.{bytes_in, value_bytes};

use crate::numbering::Asked;
use hfs_model::{Reply, Value};
use hfs_scripts::Caller;
use hfs_shared::Told;

/// What the callers of a script were answered, each in the order of its calls: the workers 1, 2 and so on, and the viewers likewise.
#[derive(Drop)]
pub struct Replies {
    pub workers: Vec<Vec<(Reply, Told)>>,
    pub viewers: Vec<Vec<Reply>>,
}

/// The reply at that place among a worker's, in what all workers were told.
pub(crate) fn worker_reply(told: &[Vec<(Reply, Told)>], worker: u32, at: usize) -> Option<&Reply>
    ensures { option_copied result ≡ slice_get (told_replies told.now worker) at }
{
    let Some(got) = told.get(worker.saturating_sub(1) as usize) else {
        return None;
    };
    let Some((reply, _told)) = got.get(at) else {
        return None;
    };
    Some(reply)
}

// The reply at that place among a viewer's.
fn viewer_reply(replies: &Replies, viewer: u32, at: usize) -> Option<&Reply>
    ensures { option_copied result ≡ slice_get (kept_replies replies.now (AsViewer viewer)) at }
{
    let Some(got) = replies.viewers.get(viewer.saturating_sub(1) as usize) else {
        return None;
    };
    got.get(at)
}

/// The bytes of a fork in a value.
fn value_bytes(value: &Value) -> &[u8]
    ensures { result.now ≡ value_bytes value.now }
{
    match value {
        Value::Bytes(bytes) => bytes.as_slice(),
        Value::Nothing | Value::Id(_) | Value::One(_) | Value::Many(_) => &[],
        Value::Full { .. } | Value::Room { .. } | Value::ExtentNodes { .. } | Value::Place { .. } =>
            &[],
    }
}

impl Replies {
    /// The reply to a call, if it was answered.
    pub(crate) fn reply_to(&self, asked: Asked) -> Option<&Reply>
        ensures { option_copied result ≡ reply_to (kept_replies self.now) asked }
    {
        let at = asked.number.saturating_sub(1) as usize;
        match asked.caller {
            Caller::Worker(number) => worker_reply(&self.workers, number, at),
            Caller::Viewer(number) => viewer_reply(self, number, at),
        }
    }

    /// The bytes of a fork in the reply to a call; none if it has none.
    pub fn bytes_to(&self, asked: Asked) -> &[u8]
        ensures { result.now ≡ bytes_in (reply_to (kept_replies self.now) asked) }
    {
        match self.reply_to(asked) {
            Some(reply) => value_bytes(&reply.value),
            None => &[],
        }
    }
}
