//! MacBinary II files: an item with both forks as one sequence of bytes.
ghost use Rattle.std.specs.Prelude.{◌≡◌, ◌+◌, ◌^◌, ◌<◌, ◌≤◌, ◌↔◌, ℕ, List, ◌++◌, length, IsSome, IfSome, IsTrue, slice_index};
ghost use Rattle.std.specs.Option.{SomeIff};
ghost use Rattle.hfs_fields.specs.Mdb.{bytes_at};
ghost use Rattle.hfs_encodings.specs.MacBinary.{HoldsMacBinary, IsMacBinaryHeadValue, begins_macbinary, data_fork_at, filled, finder_info_in, lock_byte, macbinary_fields, macbinary_head_bytes, macbinary_head_of, padding, resource_fork_at, resource_place};

use crate::crc::crc16;
use hfs_fields::{FieldRow, FileFlags, Name, u16_at, u32_at};

/// The header of a MacBinary II file. Source: MacBinary II Standard Proposal (1987).
#[derive(Clone, Copy)]
pub struct MacBinaryHead {
    /// The file's name.
    pub name: Name,
    /// FInfo: type 4, creator 4, Finder flags 2, location 4, folder 2.
    pub finder_info: [u8; 16],
    /// Whether the file is locked.
    pub locked: bool,
    /// How many bytes the data fork has.
    pub data_length: u32,
    /// How many bytes the resource fork has.
    pub resource_length: u32,
    /// When it was made, in seconds since midnight, 1 January 1904.
    pub created: u32,
    /// When it was last changed, in the same seconds.
    pub modified: u32,
}

/// The lock byte of a file: bit 0 says that it is locked.
fn lock_byte(locked: bool) -> u8
    ensures { result ≡ lock_byte locked }
{
    if locked { 1 } else { 0 }
}

/// How many zeros pad a fork of `len` bytes to a multiple of 128.
pub fn padding(len: usize) -> usize
    ensures padding { result ≡ padding len }
    ensures short { result < 128 }
{
    (128 - len % 128) % 128
}

impl MacBinaryHead {
    /// How many bytes the header has.
    pub const LENGTH: usize = 128;

    /// The fields that the checksum covers, one after the other.
    #[tactic(auto, unfolding(crate::specs::MacBinary::macbinary_fields))]
    fn laid(&self) -> FieldRow
        ensures bytes { result ≡ macbinary_fields self.now }
        ensures value { IsMacBinaryHeadValue self.now }
    {
        let name = self.name.bytes();
        let mut row = FieldRow::new();
        row.push(&[0, name.len() as u8]);
        row.push(name);
        row.push_zeros(63 - name.len());
        row.push(&self.finder_info[..8]);
        row.push(&[self.finder_info[8], 0]);
        row.push(&self.finder_info[10..16]);
        row.push(&[lock_byte(self.locked), 0]);
        row.push_u32(self.data_length);
        row.push_u32(self.resource_length);
        row.push_u32(self.created);
        row.push_u32(self.modified);
        row.push(&[0, 0, self.finder_info[9]]);
        row.push_zeros(20);
        row.push(&[129, 129]);
        row
    }

    /// The bytes that the checksum covers.
    fn fields(&self) -> [u8; 124]
        ensures bytes { result ≡ macbinary_fields self.now }
        ensures value { IsMacBinaryHeadValue self.now }
    {
        let mut fields = [0; 124];
        self.laid().copy_to(&mut fields);
        fields
    }

    /// The header's 128 bytes. Followed by both forks, each padded, they are the whole file, from which everything can be read
    /// back if the file has a name.
    pub fn bytes(&self) -> [u8; 128]
        ensures bytes { result ≡ macbinary_head_bytes self.now }
        ensures back { (data_fork resource_fork : List ℕ) → 1 ≤ length self.now.name → length data_fork ≡ self.now.data_length → length resource_fork ≡ self.now.resource_length
            → HoldsMacBinary self.now data_fork resource_fork (result ++ filled data_fork ++ filled resource_fork) }
    {
        let fields = self.fields();
        let mut row = FieldRow::new();
        row.push(&fields);
        row.push_u16(crc16(&fields));
        row.push_zeros(2);
        let mut head = [0; 128];
        row.copy_to(&mut head);
        head
    }

    /// The header that a file begins with. None exactly when it has none of this form: its zeros, a name of 1 to 31 bytes, no
    /// second header, a version that asks for no more than II, and the checksum.
    #[tactic(auto, unfolding(crate::specs::MacBinary::macbinary_head_of))]
    pub fn read(file: &[u8]) -> Option<MacBinaryHead>
        ensures { SomeIff result (IsTrue (begins_macbinary file.now)) (macbinary_head_of file.now) }
    {
        if !begins_macbinary(file) {
            return None;
        }
        let name = Name::of_bytes(&file[2..2 + file[1] as usize])?;
        Some(MacBinaryHead {
            name,
            finder_info: finder_info_in(file),
            locked: FileFlags(file[81]).is_locked(),
            data_length: u32_at(file, 83),
            resource_length: u32_at(file, 87),
            created: u32_at(file, 91),
            modified: u32_at(file, 95),
        })
    }

    /// The data fork of the file that begins with this header. None exactly when the file ends before it does.
    pub fn data_fork<'a>(&self, file: &'a [u8]) -> Option<&'a [u8]>
        ensures whole { IsSome result ↔ (128 + self.now.data_length ≤ length file.now) }
        ensures fork { IfSome result (λ fork. fork.now ≡ data_fork_at self.now file.now) }
    {
        part(file, MacBinaryHead::LENGTH, self.data_length as usize)
    }

    /// The resource fork of the file that begins with this header. None exactly when the file ends before it does.
    pub fn resource_fork<'a>(&self, file: &'a [u8]) -> Option<&'a [u8]>
        ensures whole { IsSome result ↔ (resource_place self.now + self.now.resource_length ≤ length file.now) }
        ensures fork { IfSome result (λ fork. fork.now ≡ resource_fork_at self.now file.now) }
    {
        let behind_data = self.data_length as usize + padding(self.data_length as usize);
        part(
            file,
            MacBinaryHead::LENGTH + behind_data,
            self.resource_length as usize,
        )
    }
}

/// The bytes of a file from a place on. None exactly when the file has fewer.
fn part(file: &[u8], start: usize, len: usize) -> Option<&[u8]>
    requires { start + len < 2 ^ 63 }
    ensures whole { IsSome result ↔ (start + len ≤ length file.now) }
    ensures part { IfSome result (λ part. part.now ≡ bytes_at start len file.now) }
{
    if file.len() < start + len {
        return None;
    }
    Some(&file[start..start + len])
}

/// Whether a file begins with a header of this form.
#[tactic(auto, unfolding(crate::specs::MacBinary::begins_macbinary))]
fn begins_macbinary(file: &[u8]) -> bool
    ensures begins { result ≡ begins_macbinary file.now }
    ensures long { IsTrue result → 128 ≤ length file.now }
    ensures name { IsTrue result → slice_index file.now 1 ≤ 31 }
{
    if file.len() < MacBinaryHead::LENGTH {
        return false;
    }
    let check = crc16(&file[..124]);
    file[0] == 0
        && file[1] >= 1
        && file[1] <= 31
        && file[74] == 0
        && file[82] == 0
        && u16_at(file, 120) == 0
        && file[123] <= 129
        && u16_at(file, 124) == check
}

/// Type, creator, flags, location and folder, in the order in which the Finder keeps them.
fn finder_info_in(file: &[u8]) -> [u8; 16]
    requires { 128 ≤ length file.now }
    ensures { result ≡ finder_info_in file.now }
{
    let mut row = FieldRow::new();
    row.push(&file[65..73]);
    row.push(&[file[73], file[101]]);
    row.push(&file[75..81]);
    let mut info = [0; 16];
    row.copy_to(&mut info);
    info
}
