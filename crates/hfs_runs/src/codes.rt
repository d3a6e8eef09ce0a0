//! Whether a journal has the codes that its workers were answered.
ghost use Rattle.hfs_shared.specs.Closings.{IsWhether};
ghost use Rattle.hfs_runs.specs.Answers.{told_replies};
ghost use Rattle.hfs_runs.specs.Codes.{AreCoded, IsCoded};

use crate::replies::worker_reply;
use hfs_model::Reply;
use hfs_shared::{Entry, Told};

// Whether the entry has the code of the reply that its worker got under its number.
fn is_coded(told: &[Vec<(Reply, Told)>], entry: &Entry) -> bool
    ensures { IsWhether result (IsCoded (told_replies told.now) entry.now) }
{
    let at = entry.stamp.saturating_sub(1) as usize;
    let Some(reply) = worker_reply(told, entry.worker, at) else {
        return false;
    };
    reply.code == entry.code
}

/// Whether each entry has the code of the reply that its worker got under its number.
pub fn are_coded(told: &[Vec<(Reply, Told)>], journal: &[Entry]) -> bool
    ensures { IsWhether result (AreCoded (told_replies told.now) journal.now) }
{
    for entry in journal {
        if !is_coded(told, entry) {
            return false;
        }
    }
    true
}
