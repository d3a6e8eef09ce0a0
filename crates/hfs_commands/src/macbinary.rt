//! A file with both forks, as one MacBinary II file.
ghost use Rattle.std.specs.Prelude.{◌≡◌, ◌≤◌, replicate, IfErr, IfOk, OnErr, OnOk};
ghost use Rattle.std.specs.Io.KnownBytes.{Appends};
ghost use Rattle.hfs_encodings.specs.MacBinary.{filled, macbinary_bytes};
ghost use Rattle.hfs_texts.specs.Writing.{AppendsFront};
ghost use Rattle.hfs_commands.specs.Faults.{IsUnprinted};
ghost use Rattle.hfs_commands.specs.MacBinaryFiles.{IsCodeOf, file_of_reply, macbinary_head, macbinary_of};

use crate::fault::Fault;
use hfs_encodings::{MacBinaryHead, padding};
use hfs_model::{Info, ItemKind, NOT_FOUND, Reply, Value};
use hfs_texts::put;
use std::io::Write;

/// Writes a file in MacBinary, from a reply to GetCatInfo that describes it and its forks, and returns 0; or returns the code of
/// a reply that describes no file (-43 for a folder), and writes nothing. The fault is `OutputFailed`, and then only the
/// beginning may have been written.
pub fn put_macbinary<W: Write>(
    writer: &mut W,
    told: &Reply,
    data: &[u8],
    resource: &[u8],
) -> Result<i16, Fault<'static>>
    ensures code { IfOk result (IsCodeOf (file_of_reply told.now)) }
    ensures written { OnOk result (Appends (W.contents writer.old) (W.contents writer.new)
        (macbinary_of (file_of_reply told.now) data.now resource.now)) }
    ensures part { OnErr result (AppendsFront (W.contents writer.old) (W.contents writer.new)
        (macbinary_of (file_of_reply told.now) data.now resource.now)) }
    ensures faults { IfErr result IsUnprinted }
{
    match file_of(told) {
        Ok(info) => match put_parts(writer, &info, data, resource) {
            Ok(()) => Ok(0),
            Err(fault) => Err(fault),
        },
        Err(code) => Ok(code),
    }
}

/// Writes the header of this file, and these forks.
fn put_parts<W: Write>(
    writer: &mut W,
    info: &Info,
    data: &[u8],
    resource: &[u8],
) -> Result<(), Fault<'static>>
    ensures written { OnOk result (Appends (W.contents writer.old) (W.contents writer.new)
        (macbinary_bytes (macbinary_head info.now) data.now resource.now)) }
    ensures part { OnErr result (AppendsFront (W.contents writer.old) (W.contents writer.new)
        (macbinary_bytes (macbinary_head info.now) data.now resource.now)) }
    ensures faults { IfErr result IsUnprinted }
{
    write_bytes(writer, &macbinary_head(info).bytes())?;
    put_filled(writer, data)?;
    put_filled(writer, resource)
}

/// Writes a fork, padded to a multiple of 128 bytes.
fn put_filled<W: Write>(writer: &mut W, fork: &[u8]) -> Result<(), Fault<'static>>
    ensures written { OnOk result (Appends (W.contents writer.old) (W.contents writer.new)
        (filled fork.now)) }
    ensures part { OnErr result (AppendsFront (W.contents writer.old) (W.contents writer.new)
        (filled fork.now)) }
    ensures faults { IfErr result IsUnprinted }
{
    write_bytes(writer, fork)?;
    write_zeros(writer, padding(fork.len()))
}

/// The file that a reply describes, or the code that refuses it: -43 for a folder.
fn file_of(reply: &Reply) -> Result<Info, i16>
    ensures { result ≡ file_of_reply reply.now }
{
    match &reply.value {
        Value::One(info) => match info.kind {
            ItemKind::Folder => Err(NOT_FOUND),
            ItemKind::File => Ok(*info),
        },
        _ => Err(reply.code),
    }
}

/// The MacBinary header of this file.
fn macbinary_head(info: &Info) -> MacBinaryHead
    ensures { result ≡ macbinary_head info.now }
{
    let mut finder_info = [0; 16];
    finder_info.copy_from_slice(&info.finder[..16]);
    MacBinaryHead {
        name: info.name,
        finder_info,
        locked: info.locked,
        data_length: info.data_len,
        resource_length: info.res_len,
        created: info.created,
        modified: info.modified,
    }
}

/// Writes `count` zeros.
fn write_zeros<W: Write>(writer: &mut W, count: usize) -> Result<(), Fault<'static>>
    requires { count ≤ 128 }
    ensures written { OnOk result (Appends (W.contents writer.old) (W.contents writer.new) (replicate count 0)) }
    ensures part { OnErr result (AppendsFront (W.contents writer.old) (W.contents writer.new)
        (replicate count 0)) }
    ensures faults { IfErr result IsUnprinted }
{
    let zeros = [0; 128];
    write_bytes(writer, &zeros[..count])
}

/// Writes bytes. The fault is `OutputFailed`.
fn write_bytes<W: Write>(writer: &mut W, bytes: &[u8]) -> Result<(), Fault<'static>>
    ensures written { OnOk result (Appends (W.contents writer.old) (W.contents writer.new) bytes.now) }
    ensures part { OnErr result (AppendsFront (W.contents writer.old) (W.contents writer.new)
        bytes.now) }
    ensures faults { IfErr result IsUnprinted }
{
    match put(writer, bytes) {
        Ok(()) => Ok(()),
        Err(_) => Err(Fault::OutputFailed),
    }
}
