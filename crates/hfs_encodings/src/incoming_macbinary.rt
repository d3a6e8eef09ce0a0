//! MacBinary II and III files, taken apart. Sources: MacBinary II Standard Proposal (1987), MacBinary III (1996).
ghost use Rattle.std.specs.Prelude.{◌≡◌, ◌+◌, ◌^◌, ◌<◌, ◌≤◌, IfOk, IsTrue, OnErr, slice_index};
ghost use Rattle.hfs_encodings.specs.MacBinary.{finder_info_in};
ghost use Rattle.hfs_source.specs.Images.{FailsWhere, OfEach};
ghost use Rattle.hfs_encodings.specs.Failing.{SomeFail};
ghost use Rattle.hfs_encodings.specs.IncomingMacBinary.{data_place, filled_length, is_macbinary_head, is_version, macbinary_end, macbinary_in, macbinary_of, macbinary_with, resource_place};

use crate::forks::ForkPlace;
use crate::names::{GivenName, given_name};
use crate::pieces::read_piece;
use crate::{crc16, padding};
use hfs_fields::{FieldRow, FileFlags, u16_at, u32_at};
use hfs_source::PlacedBytes;
use std::io;

/// What a MacBinary file holds.
#[derive(Clone, Copy)]
pub struct MacBinaryFile {
    /// The file's name.
    pub name: GivenName,
    /// FInfo: type 4, creator 4, Finder flags 2, location 4, folder 2.
    pub finder_info: [u8; 16],
    /// Whether the file is locked.
    pub locked: bool,
    /// When it was made, in seconds since midnight, 1 January 1904.
    pub created: u32,
    /// When it was last changed, in the same seconds.
    pub modified: u32,
    /// Where its data fork lies.
    pub data_fork: ForkPlace,
    /// Where its resource fork lies.
    pub resource_fork: ForkPlace,
}

/// Whether a byte is the version number of MacBinary II or III.
fn is_version(byte: u8) -> bool
    ensures { result ≡ is_version byte }
{
    byte == 129 || byte == 130
}

/// Whether a header is one of MacBinary II or III: its zeros, a name of 1 to 63 bytes, its versions, and the checksum.
#[tactic(auto, unfolding(crate::specs::IncomingMacBinary::is_macbinary_head))]
fn is_macbinary_head(head: &[u8; 128]) -> bool
    ensures head { result ≡ is_macbinary_head head.now }
    ensures name { IsTrue result → slice_index head.now 1 ≤ 63 }
{
    let check = crc16(&head[..124]);
    head[0] == 0
        && head[1] >= 1
        && head[1] <= 63
        && head[74] == 0
        && head[82] == 0
        && is_version(head[122])
        && is_version(head[123])
        && u16_at(head, 124) == check
}

/// This many bytes, padded to a multiple of 128.
fn filled_length(len: u32) -> u64
    ensures filled { result ≡ filled_length len }
    ensures small { result < 2 ^ 33 }
{
    u64::from(len) + padding(len as usize) as u64
}

/// Where the data fork lies: after the header, and after a second header whose length it gives.
#[tactic(auto, unfolding(crate::specs::IncomingMacBinary::data_place))]
fn data_place(head: &[u8; 128]) -> ForkPlace
    ensures place { result ≡ data_place head.now }
    ensures small { result.start < 2 ^ 34 }
{
    ForkPlace {
        start: 128 + filled_length(u32::from(u16_at(head, 120))),
        len: u32_at(head, 83),
    }
}

/// Where the resource fork lies: after the data fork.
#[tactic(auto, unfolding(crate::specs::IncomingMacBinary::resource_place))]
fn resource_place(head: &[u8; 128]) -> ForkPlace
    ensures place { result ≡ resource_place head.now }
    ensures small { result.start < 2 ^ 35 }
{
    let data_fork = data_place(head);
    ForkPlace {
        start: data_fork.start + filled_length(data_fork.len),
        len: u32_at(head, 87),
    }
}

/// Where a file with this header ends.
#[tactic(auto, unfolding(crate::specs::IncomingMacBinary::macbinary_end))]
fn macbinary_end(head: &[u8; 128]) -> u64
    ensures { result ≡ macbinary_end head.now }
{
    let resource_fork = resource_place(head);
    resource_fork.start + filled_length(resource_fork.len)
}

/// Type, creator, flags, location and folder, in the order in which the Finder keeps them.
fn finder_info_in(head: &[u8; 128]) -> [u8; 16]
    ensures { result ≡ finder_info_in head.now }
{
    let mut row = FieldRow::new();
    row.push(&head[65..73]);
    row.push(&[head[73], head[101]]);
    row.push(&head[75..81]);
    let mut info = [0; 16];
    row.copy_to(&mut info);
    info
}

/// What the header of a MacBinary file says.
#[tactic(auto, unfolding(crate::specs::IncomingMacBinary::macbinary_of))]
fn macbinary_of(head: &[u8; 128]) -> MacBinaryFile
    requires { slice_index head.now 1 ≤ 63 }
    ensures { result ≡ macbinary_of head.now }
{
    let name = given_name(&head[2..2 + head[1] as usize]);
    MacBinaryFile {
        name,
        finder_info: finder_info_in(head),
        locked: FileFlags(head[81]).is_locked(),
        created: u32_at(head, 91),
        modified: u32_at(head, 95),
        data_fork: data_place(head),
        resource_fork: resource_place(head),
    }
}

/// What the header of a file of `len` bytes says, if the file is header and forks and nothing else.
#[tactic(auto, unfolding(crate::specs::IncomingMacBinary::macbinary_with))]
fn macbinary_with(len: u64, head: &[u8; 128]) -> Option<MacBinaryFile>
    ensures { result ≡ macbinary_with len head.now }
{
    if is_macbinary_head(head) && len == macbinary_end(head) {
        Some(macbinary_of(head))
    } else {
        None
    }
}

/// What a MacBinary II or III file holds: the header, forks as long as it says, and nothing after them. None exactly when it
/// isn't such a file. Error: a read failed. See [`crate::macbinary_read_back`].
#[tactic(auto, unfolding(crate::specs::IncomingMacBinary::macbinary_in))]
pub fn read_macbinary<S: PlacedBytes>(source: &mut S) -> io::Result<Option<MacBinaryFile>>
    ensures found { IfOk result (λ found. OfEach (S.Holds source.new)
        (λ file. found ≡ macbinary_in file)) }
    ensures held { OfEach (S.Holds source.new) (S.Holds source.old) }
    ensures fails { OnErr result (SomeFail (S.Holds source.new) (S.Fails source.old)) }
    ensures later { FailsWhere (S.Fails source.new) (S.Fails source.old) }
{
    let len = source.len();
    if len < 128 {
        return Ok(None);
    }
    let mut head = [0; 128];
    read_piece(source, len, 0, &mut head)?;
    Ok(macbinary_with(len, &head))
}
