//! What a call that changes nothing answers.

ghost use Rattle.std.specs.Prelude.{◌≡◌};
ghost use Rattle.hfs_volume.specs.Steps.{refusal_reply};

use hfs_call_edits::Refusal;
use hfs_items::refusal;
use hfs_model::{DISK_FULL, Reply};

/// The reply to a call that was refused: its code, or -34 with what it lacks.
pub(crate) fn refused_by(reason: Refusal) -> Reply
    ensures { result ≡ refusal_reply reason }
{
    match reason {
        Refusal::Code(code) => refusal(code),
        Refusal::Want(want) => Reply {
            code: DISK_FULL,
            value: want.value(),
        },
    }
}
