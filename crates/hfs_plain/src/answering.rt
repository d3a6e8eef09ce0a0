//! The answers to a script by the plain program.

ghost use Rattle.std.specs.Prelude.{◌≡◌, IfOk, OnOk, string_bytes};
ghost use Rattle.hfs_check.specs.VolumeOf.{volume_of};
ghost use Rattle.hfs_model.specs.Runs.{run};
ghost use Rattle.hfs_plain.specs.Lines.{all_text, answers_text};
ghost use Rattle.hfs_texts.specs.Texts.{Gains};

use crate::fault::Fault;
use crate::opening::open;
use crate::printing::push_volume;
use hfs_model::{Call, Reply};
use hfs_store::PlainVolume;
use hfs_texts::reply_text;
use std::alloc::{AllocError, Global};

/// Appends the lines of the answers with these replies.
fn push_answers(alloc: Global, replies: &[Reply], text: &mut String) -> Result<(), AllocError>
    ensures { OnOk result (Gains text.old text.new (answers_text 1 replies.now)) }
{
    for i in 0..replies.len() {
        let answer = reply_text(alloc, "1", i as u64 + 1, &replies[i])?;
        text.push_str(answer.as_str())?;
    }
    Ok(())
}

/// Makes calls in order. Returns the lines of their answers, and then those of the volume after them.
fn text_of_run(alloc: Global, plain: &mut PlainVolume, calls: &[Call]) -> Result<String, AllocError>
    ensures { IfOk result (λ text. string_bytes text ≡ all_text (run plain.old calls.now)) }
{
    let replies = plain.run(calls)?;
    let mut text = String::new(alloc);
    push_answers(alloc, &replies, &mut text)?;
    push_volume(alloc, plain, &mut text)?;
    Ok(text)
}

/// Makes calls in order on the volume of an image. Returns the lines of their answers, and then those of the volume after them.
/// Faults: the image is refused, or memory is.
pub fn image_text(alloc: Global, image: Vec<u8>, calls: &[Call]) -> Result<String, Fault<'static>>
    ensures { IfOk result (λ text.
        string_bytes text ≡ all_text (run (volume_of image.items) calls.now)) }
{
    let mut plain = open(alloc, image)?;
    Ok(text_of_run(alloc, &mut plain, calls)?)
}
