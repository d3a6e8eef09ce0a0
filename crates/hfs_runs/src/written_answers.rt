//! The answers to a script, as they are written.
ghost use Rattle.std.specs.Prelude.{◌≡◌, ◌*◌, ◌<◌, ◌≤◌, IfErr, OnErr, OnOk, length};
ghost use Rattle.std.specs.Io.KnownBytes.{Appends};
ghost use Rattle.hfs_runs.specs.Pieces.{piece_text, text_of_pieces};
ghost use Rattle.hfs_texts.specs.Lines.{hex_digit, hex_text};
ghost use Rattle.hfs_texts.specs.Writing.{AppendsFront};

use crate::{Answers, Piece, Replies};
use hfs_commands::Fault;
use hfs_texts::put;
use std::io;
use std::io::Write;

/// How many digits are written at once.
const AT_ONCE: usize = 8_192;

/// A lower-case hexadecimal digit.
fn digit(number: u8) -> u8
    requires { number < 16 }
    ensures { result ≡ hex_digit number }
{
    if number < 10 {
        b'0' + number
    } else {
        b'a' + (number - 10)
    }
}

/// Lays two digits of each byte into as many places.
fn lay_digits(bytes: &[u8], digits: &mut [u8])
    requires { length digits.old ≡ 2 * length bytes.now }
    ensures { digits.new ≡ hex_text bytes.now }
{
    for i in 0..bytes.len() {
        let byte = bytes[i];
        digits[2 * i] = digit(byte / 16);
        digits[2 * i + 1] = digit(byte % 16);
    }
}

/// Writes the digits of as many bytes as there is room for.
fn put_some<W: Write>(writer: &mut W, bytes: &[u8], room: &mut [u8]) -> io::Result<()>
    requires { 2 * length bytes.now ≤ length room.old }
    ensures room { length room.new ≡ length room.old }
    ensures ok { OnOk result (Appends (W.contents writer.old) (W.contents writer.new) (hex_text bytes.now)) }
    ensures err { OnErr result (AppendsFront (W.contents writer.old) (W.contents writer.new) (hex_text bytes.now)) }
{
    let digits = &mut room[..2 * bytes.len()];
    lay_digits(bytes, digits);
    put(writer, digits)
}

/// Writes two digits of each byte.
fn put_digits<W: Write>(writer: &mut W, bytes: &[u8], room: &mut [u8]) -> io::Result<()>
    requires { 2 ≤ length room.old }
    ensures room { length room.new ≡ length room.old }
    ensures ok { OnOk result (Appends (W.contents writer.old) (W.contents writer.new) (hex_text bytes.now)) }
    ensures err { OnErr result (AppendsFront (W.contents writer.old) (W.contents writer.new) (hex_text bytes.now)) }
{
    let most = room.len() / 2;
    let mut done = 0;
    while done < bytes.len() {
        let end = done + most.min(bytes.len() - done);
        put_some(writer, &bytes[done..end], room)?;
        done = end;
    }
    Ok(())
}

/// Writes a piece of the answers.
fn put_piece<W: Write>(
    writer: &mut W,
    piece: &Piece,
    replies: &Replies,
    room: &mut [u8],
) -> io::Result<()>
    requires { 2 ≤ length room.old }
    ensures room { length room.new ≡ length room.old }
    ensures ok { OnOk result (Appends (W.contents writer.old) (W.contents writer.new) (piece_text replies.now piece.now)) }
    ensures err { OnErr result (AppendsFront (W.contents writer.old) (W.contents writer.new) (piece_text replies.now piece.now)) }
{
    put(writer, piece.text.as_bytes())?;
    put_digits(writer, replies.bytes_to(piece.asked), room)
}

/// Writes the pieces of the answers, and what stands after them.
fn put_pieces<W: Write>(writer: &mut W, answers: &Answers, room: &mut [u8]) -> io::Result<()>
    requires { 2 ≤ length room.old }
    ensures ok { OnOk result (Appends (W.contents writer.old) (W.contents writer.new) (text_of_pieces answers.now)) }
    ensures err { OnErr result (AppendsFront (W.contents writer.old) (W.contents writer.new) (text_of_pieces answers.now)) }
{
    for piece in &answers.pieces {
        put_piece(writer, piece, &answers.replies, room)?;
    }
    put(writer, answers.last.as_bytes())
}

/// Writes the lines of the answers to a script. The digits of long bytes are made piece by piece, without taking memory. Fault:
/// `OutputFailed`, and then only some of the first bytes may have been written.
pub fn write_answers<W: Write>(writer: &mut W, answers: &Answers) -> Result<(), Fault<'static>>
    ensures written { OnOk result (Appends (W.contents writer.old) (W.contents writer.new) (text_of_pieces answers.now)) }
    ensures part { OnErr result (AppendsFront (W.contents writer.old) (W.contents writer.new) (text_of_pieces answers.now)) }
    ensures fault { IfErr result (λ fault. fault ≡ Fault.OutputFailed) }
{
    let mut room = [0u8; AT_ONCE];
    match put_pieces(writer, answers, &mut room) {
        Ok(()) => Ok(()),
        Err(_) => Err(Fault::OutputFailed),
    }
}
