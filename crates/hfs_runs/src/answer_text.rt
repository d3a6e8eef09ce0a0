//! The text of the answers to a script.
ghost use Rattle.std.specs.Prelude.{◌≡◌, ◌++◌, None, IfOk, OnOk, codes, option_copied, string_bytes};
ghost use Rattle.std.specs.Fmt.{decimal};
ghost use Rattle.hfs_scripts.specs.Texts.{caller_text};
ghost use Rattle.hfs_texts.specs.Texts.{Gains};
ghost use Rattle.hfs_runs.specs.Answers.{answer_text, answers_text, is_whole, kept_replies};

use crate::numbering::Asked;
use crate::replies::Replies;
use hfs_model::Reply;
use hfs_scripts::Caller;
use hfs_texts::{Show, push_reply};
use std::alloc::{AllocError, Global};

// Appends a viewer: `v` and its number.
fn push_viewer(text: &mut String, number: u32) -> Result<(), AllocError>
    ensures { OnOk result (Gains text.old text.new (codes "v" ++ decimal number)) }
{
    text.push('v')?;
    number.push_to(text)
}

/// A caller as text: a worker's number, or `v` and a viewer's number.
#[derive(Drop)]
pub(crate) struct ShownCaller(pub(crate) Caller);

impl Show for ShownCaller {
    ghost shown = { λ caller. caller_text caller.0 };

    #[tactic(auto, using(crate::proofs::Texts::worker_text, crate::proofs::Texts::viewer_text))]
    fn push_to(&self, text: &mut String) -> Result<(), AllocError> {
        match self.0 {
            Caller::Worker(number) => number.push_to(text),
            Caller::Viewer(number) => push_viewer(text, number),
        }
    }
}

// Appends the line of a call without a reply, whose code is `none`.
#[tactic(auto, unfolding(crate::specs::Answers::answer_text))]
fn push_unanswered(text: &mut String, asked: Asked) -> Result<(), AllocError>
    ensures { OnOk result (Gains text.old text.new (answer_text asked None)) }
{
    ShownCaller(asked.caller).push_to(text)?;
    text.push('\t')?;
    asked.number.push_to(text)?;
    text.push_str("\tnone\t-\n")
}

// Appends the lines of the answer to one call.
#[tactic(auto, unfolding(crate::specs::Answers::answer_text))]
pub(crate) fn push_answer_text(
    text: &mut String,
    asked: Asked,
    reply: Option<&Reply>,
) -> Result<(), AllocError>
    ensures { OnOk result (Gains text.old text.new
        (answer_text asked (option_copied reply.entry))) }
{
    match reply {
        Some(reply) => push_reply(text, ShownCaller(asked.caller), asked.number, reply),
        None => push_unanswered(text, asked),
    }
}

/// The lines of all answers, in the script's order, and whether every call was answered.
#[tactic(auto, unfolding(crate::specs::Answers::answers_text, crate::specs::Answers::is_whole))]
pub fn answers_text(
    alloc: Global,
    lines: &[Asked],
    replies: &Replies,
) -> Result<(String, bool), AllocError>
    ensures text { IfOk result (λ r.
        string_bytes r.0 ≡ answers_text (kept_replies replies.now) lines.now) }
    ensures whole { IfOk result (λ r. r.1 ≡ is_whole (kept_replies replies.now) lines.now) }
{
    let mut text = String::new(alloc);
    let mut whole = true;
    for asked in lines {
        let reply = replies.reply_to(*asked);
        whole = whole && reply.is_some();
        push_answer_text(&mut text, *asked, reply)?;
    }
    Ok((text, whole))
}
