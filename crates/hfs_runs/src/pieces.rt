//! The answers to a script in pieces, in which the digits of long bytes are left out for now.
ghost use Rattle.std.specs.Prelude.{◌≡◌, ◌++◌, codes, Some, IfOk, OnOk, IfSome, string_bytes};
ghost use Rattle.hfs_scripts.specs.Texts.{caller_text};
ghost use Rattle.hfs_texts.specs.Lines.{hex_text};
ghost use Rattle.hfs_runs.specs.Answers.{answer_text, answers_text, is_whole, kept_replies, reply_to};
ghost use Rattle.hfs_runs.specs.Pieces.{HasPieceMore, digits_head, pieces_text, text_of_pieces, value_bytes};

use crate::answer_text::{ShownCaller, push_answer_text};
use crate::numbering::Asked;
use crate::replies::Replies;
use hfs_model::{Reply, Value};
use hfs_texts::Show;
use std::alloc::{AllocError, Global};

/// Replies with at least this many bytes have no digits yet.
const LONG: usize = 1_024;

/// A text, and the call whose reply has the bytes for the digits that follow it.
#[derive(Drop)]
pub struct Piece {
    pub text: String,
    pub asked: Asked,
}

/// The answers to a script: pieces, and the text after them.
#[derive(Drop)]
pub struct Answers {
    pub pieces: Vec<Piece>,
    pub last: String,
    /// What the callers were answered.
    pub replies: Replies,
}

/// What precedes the digits in the lines of a reply with bytes.
#[tactic(auto, unfolding(crate::specs::Pieces::digits_head))]
fn digits_head(alloc: Global, asked: Asked, reply: &Reply) -> Result<String, AllocError>
    ensures { IfOk result (λ text. string_bytes text
        ≡ digits_head (caller_text asked.caller) asked.number reply.now.code) }
{
    let mut text = String::new(alloc);
    ShownCaller(asked.caller).push_to(&mut text)?;
    text.push('\t')?;
    asked.number.push_to(&mut text)?;
    text.push('\t')?;
    reply.code.push_to(&mut text)?;
    text.push_str("\tbytes ")?;
    Ok(text)
}

/// What precedes the digits in the lines of a reply, if it has so many bytes that they have none yet.
fn long_head(alloc: Global, asked: Asked, reply: &Reply) -> Result<Option<String>, AllocError>
    ensures { IfOk result (λ head. IfSome head (λ text. answer_text asked (Some reply.now)
        ≡ string_bytes text ++ hex_text (value_bytes reply.now.value) ++ codes "\n")) }
{
    match &reply.value {
        Value::Bytes(bytes) => {
            if bytes.as_slice().len() < LONG {
                return Ok(None);
            }
            let head = digits_head(alloc, asked, reply)?;
            Ok(Some(head))
        }
        Value::Nothing | Value::Id(_) | Value::One(_) | Value::Many(_) => Ok(None),
        Value::Full { .. } | Value::Room { .. } | Value::ExtentNodes { .. } | Value::Place { .. } =>
            Ok(None),
    }
}

/// Ends a piece with a text and the head of a reply's lines, and returns the text that follows the digits.
fn end_piece(
    alloc: Global,
    pieces: &mut Vec<Piece>,
    text: String,
    head: &str,
    asked: Asked,
) -> Result<String, AllocError>
    ensures rest { IfOk result (λ more. string_bytes more ≡ codes "\n") }
    ensures piece { OnOk result (HasPieceMore pieces.old.items (string_bytes text ++ head.now) asked
        pieces.new.items) }
{
    let mut text = text;
    text.push_str(head)?;
    pieces.push(Piece { text, asked })?;
    String::from_str(alloc, "\n")
}

/// The text with the lines of the answer to one more call; all of it but the end may have become a piece.
fn push_answer(
    alloc: Global,
    pieces: &mut Vec<Piece>,
    text: String,
    replies: &Replies,
    asked: Asked,
) -> Result<String, AllocError>
    ensures { IfOk result (λ more. pieces_text replies.now pieces.new.items (string_bytes more)
        ≡ pieces_text replies.now pieces.old.items (string_bytes text)
        ++ answer_text asked (reply_to (kept_replies replies.now) asked)) }
{
    let reply = replies.reply_to(asked);
    if let Some(reply) = reply {
        if let Some(head) = long_head(alloc, asked, reply)? {
            return end_piece(alloc, pieces, text, head.as_str(), asked);
        }
    }
    let mut text = text;
    push_answer_text(&mut text, asked, reply)?;
    Ok(text)
}

/// The answers to the calls of these lines, in the script's order, and whether every call was answered. Fails only when out of
/// memory.
#[tactic(auto, unfolding(crate::specs::Answers::answers_text, crate::specs::Answers::is_whole))]
pub fn answers_in_pieces(
    alloc: Global,
    lines: &[Asked],
    replies: Replies,
) -> Result<(Answers, bool), AllocError>
    ensures text { IfOk result (λ r.
        text_of_pieces r.0 ≡ answers_text (kept_replies replies) lines.now) }
    ensures whole { IfOk result (λ r. r.1 ≡ is_whole (kept_replies replies) lines.now) }
    ensures replies { IfOk result (λ r. r.0.replies ≡ replies) }
{
    let mut pieces = Vec::new(alloc);
    let mut text = String::new(alloc);
    let mut whole = true;
    for asked in lines {
        whole = whole && replies.reply_to(*asked).is_some();
        text = push_answer(alloc, &mut pieces, text, &replies, *asked)?;
    }
    let last = text;
    let answers = Answers {
        pieces,
        last,
        replies,
    };
    Ok((answers, whole))
}
