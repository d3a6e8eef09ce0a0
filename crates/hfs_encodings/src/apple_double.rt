//! AppleDouble files: what a file system without resource forks keeps of an item besides its data fork.
ghost use Rattle.std.specs.Prelude.{◌≡◌, ◌+◌, ◌≤◌, ◌↔◌, ℕ, List, ◌++◌, length, IsSome, IfSome};
ghost use Rattle.std.specs.Option.{SomeIff};
ghost use Rattle.hfs_encodings.specs.AppleDouble.{BeginsAppleDouble, HoldsAppleDouble, apple_double_head_bytes, apple_double_head_of, resource_fork_at};

use hfs_fields::{FieldRow, u32_at};

/// What precedes the resource fork in an AppleDouble file: what the Finder keeps of the item, and how many bytes its resource
/// fork has (0 for a folder). Source: AppleSingle/AppleDouble Formats for Foreign Files, version 2 (Apple, 1990).
#[derive(Clone, Copy, Debug, PartialEq, Eq)]
pub struct AppleDoubleHead {
    /// FInfo and FXInfo for a file, DInfo and DXInfo for a folder.
    pub finder: [u8; 32],
    /// How many bytes of resource fork follow.
    pub resource_length: u32,
}

/// The bytes before the resource fork's length: the file's magic number and version, 16 zeros, and the file's parts, of which
/// there are two. Each part has the number of its kind, the byte where it begins, and its length.
const LAYOUT: [u8; 46] = [
    0x00, 0x05, 0x16, 0x07, 0x00, 0x02, 0x00, 0x00, 0, 0, 0, 0, 0, 0, 0, 0, 0, 0, 0, 0, 0, 0, 0, 0,
    0, 2, 0, 0, 0, 9, 0, 0, 0, 50, 0, 0, 0, 32, 0, 0, 0, 2, 0, 0, 0, 82,
];

impl AppleDoubleHead {
    /// How many bytes precede the resource fork.
    pub const LENGTH: usize = 82;

    /// The first 82 bytes of the file. Followed by a resource fork of that length they are the whole file, from which both can be
    /// read back.
    pub fn bytes(&self) -> [u8; 82]
        ensures bytes { result ≡ apple_double_head_bytes self.now }
        ensures back { (fork : List ℕ) → length fork ≡ self.now.resource_length → HoldsAppleDouble self.now fork (result ++ fork) }
    {
        let mut row = FieldRow::new();
        row.push(&LAYOUT);
        row.push_u32(self.resource_length);
        row.push(&self.finder);
        let mut head = [0; 82];
        row.copy_to(&mut head);
        head
    }

    /// The head that a file begins with. None exactly when it has fewer than 82 bytes, or a layout other than this one.
    #[tactic(auto, unfolding(crate::specs::AppleDouble::apple_double_head_of))]
    pub fn read(file: &[u8]) -> Option<AppleDoubleHead>
        ensures { SomeIff result (BeginsAppleDouble file.now) (apple_double_head_of file.now) }
    {
        if file.len() < AppleDoubleHead::LENGTH {
            return None;
        }
        if &file[..46] != &LAYOUT[..] {
            return None;
        }
        let mut finder = [0; 32];
        finder.copy_from_slice(&file[50..82]);
        Some(AppleDoubleHead {
            finder,
            resource_length: u32_at(file, 46),
        })
    }

    /// The resource fork of the file that begins with this head. None exactly when the file ends before it does.
    pub fn resource_fork<'a>(&self, file: &'a [u8]) -> Option<&'a [u8]>
        ensures whole { IsSome result ↔ (82 + self.now.resource_length ≤ length file.now) }
        ensures fork { IfSome result (λ fork. fork.now ≡ resource_fork_at self.now.resource_length file.now) }
    {
        let end = AppleDoubleHead::LENGTH + self.resource_length as usize;
        if file.len() < end {
            return None;
        }
        Some(&file[AppleDoubleHead::LENGTH..end])
    }
}
