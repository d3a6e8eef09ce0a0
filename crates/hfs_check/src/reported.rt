//! What a report says about an image.
ghost use Rattle.std.specs.Prelude.{◌≡◌, ◌<◌, ◌≤◌};
ghost use Rattle.std.specs.Str.{bytes_eq};
ghost use Rattle.hfs_check.specs.Parts.{mdb_in};
ghost use Rattle.hfs_check.specs.Report as spec;

use crate::mount_fault::MountFault;
use hfs_blocks::Blocks;
use hfs_fields::Mdb;

/// The copy of the master directory block in the last block but one, compared with the master directory block itself.
#[derive(Clone, Copy, Debug, PartialEq, Eq)]
pub enum Alternate {
    /// It has the same bitmap, allocation blocks and volume name.
    Same,
    /// It differs in one of them.
    Differs,
    /// The block doesn't begin with the signature $4244.
    Missing,
}

/// A report on an image. If it is refused, all numbers are 0 and the alternate is `Missing`.
#[derive(Clone, Copy, Debug, PartialEq, Eq)]
pub struct Report {
    /// Why it is refused, if it is.
    pub fault: Option<MountFault>,
    /// All files.
    pub files: u32,
    /// All folders except the root.
    pub folders: u32,
    /// Allocation blocks that are not marked in the bitmap.
    pub free: u32,
    /// The alternate master directory block.
    pub alternate: Alternate,
    /// Allocation blocks that are marked in the bitmap but have no owner.
    pub unowned: u32,
}

/// Whether two names are the same bytes.
fn same_bytes(a: &[u8], b: &[u8]) -> bool
    ensures { result ≡ bytes_eq a.now b.now }
{
    a == b
}

/// Whether two master directory blocks have the same bitmap, allocation blocks and name.
fn places_the_same(a: &Mdb, b: &Mdb) -> bool
    ensures { result ≡ spec.places_the_same a.now b.now }
{
    a.bitmap_start == b.bitmap_start
        && a.allocation_blocks == b.allocation_blocks
        && a.allocation_block_size == b.allocation_block_size
        && a.allocation_start == b.allocation_start
        && same_bytes(&a.volume_name, &b.volume_name)
}

/// The alternate of a volume with this master directory block.
#[tactic(auto, unfolding(crate::specs::Report::alternate_in))]
pub(crate) fn alternate_in<B: Blocks>(blocks: &B, mdb: &Mdb) -> Alternate
    requires some { 2 ≤ B.total blocks.now }
    requires mdb { mdb.now ≡ mdb_in (B.blocks blocks.now) }
    ensures { result ≡ spec.alternate_in (B.total blocks.now) (B.blocks blocks.now) }
{
    let mut block = [0; 512];
    blocks.block(blocks.count() - 2, &mut block);
    let other = Mdb::read(&block);
    if other.signature != 0x4244 {
        return Alternate::Missing;
    }
    if places_the_same(mdb, &other) {
        Alternate::Same
    } else {
        Alternate::Differs
    }
}
