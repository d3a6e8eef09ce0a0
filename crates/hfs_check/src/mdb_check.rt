//! The check of the master directory block.
ghost use Rattle.std.specs.Prelude.{◌≡◌, ◌<◌, ◌^◌};
ghost use Rattle.hfs_check.specs.Parts.{mdb_in};
ghost use Rattle.hfs_check.specs.Faults as spec;

use crate::mount_fault::MountFault;
use hfs_blocks::Blocks;
use hfs_fields::Mdb;

/// The master directory block of a volume: block 2.
#[tactic(auto, unfolding(crate::specs::Parts::mdb_in))]
pub fn read_mdb<B: Blocks>(blocks: &B) -> Mdb
    requires { 2 < B.total blocks.now }
    ensures { result ≡ mdb_in (B.blocks blocks.now) }
{
    let mut block = [0; 512];
    blocks.block(2, &mut block);
    Mdb::read(&block)
}

/// Whether an allocation block is one or more whole blocks.
fn is_block_size(mdb: &Mdb) -> bool
    ensures { result ≡ spec.is_block_size mdb.now }
{
    512 <= mdb.allocation_block_size && mdb.allocation_block_size % 512 == 0
}

/// Whether the bitmap lies after the master directory block and before the allocation blocks.
fn is_bitmap_placed(mdb: &Mdb) -> bool
    ensures { result ≡ spec.is_bitmap_placed mdb.now }
{
    let end = u32::from(mdb.bitmap_start) + u32::from(mdb.allocation_blocks).div_ceil(4096);
    3 <= mdb.bitmap_start && end <= u32::from(mdb.allocation_start)
}

/// Whether the allocation blocks lie in a volume of `total` blocks.
fn has_area(mdb: &Mdb, total: u32) -> bool
    ensures { result ≡ spec.has_area total mdb.now }
{
    let each = u64::from(mdb.allocation_block_size / 512);
    u64::from(mdb.allocation_start) + u64::from(mdb.allocation_blocks) * each <= u64::from(total)
}

/// The first fault of the master directory block of a volume of `total` blocks: `NoMacDisk`, or `BadMdb` with the number of
/// the first test that fails.
#[tactic(auto, unfolding(crate::specs::Faults::mdb_fault))]
pub fn mdb_fault(mdb: &Mdb, total: u32) -> Option<MountFault>
    ensures { result ≡ spec.mdb_fault total mdb.now }
{
    if mdb.signature != 0x4244 {
        return Some(MountFault::NoMacDisk);
    }
    if mdb.allocation_blocks < 1 {
        return Some(MountFault::BadMdb(1));
    }
    if !is_block_size(mdb) {
        return Some(MountFault::BadMdb(2));
    }
    if !is_bitmap_placed(mdb) {
        return Some(MountFault::BadMdb(3));
    }
    if !has_area(mdb, total) {
        return Some(MountFault::BadMdb(4));
    }
    if mdb.next_id < 16 {
        return Some(MountFault::BadMdb(5));
    }
    None
}
