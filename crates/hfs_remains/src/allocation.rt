//! The allocation blocks of a directory that exist.
ghost use Rattle.std.specs.Prelude.{◌≡◌, ◌+◌, ◌<◌, ◌≤◌, ◌^◌, true};
ghost use Rattle.hfs_space.specs.Forks.{blocks_each};
ghost use Rattle.hfs_remains.specs.Allocation as spec;

use hfs_fields::Mdb;

/// Whether allocation block `b` is one of the directory's, and lies wholly within `total` logical blocks.
#[tactic(auto, unfolding(crate::specs::Allocation::is_there))]
pub fn is_there(total: u32, mdb: &Mdb, b: u16) -> bool
    ensures { result ≡ spec.is_there total mdb.now b }
{
    let each = u64::from(mdb.allocation_block_size / 512);
    let end = u64::from(mdb.allocation_start) + (u64::from(b) + 1) * each;
    b < mdb.allocation_blocks && end <= u64::from(total)
}

/// The logical block in which an allocation block begins that exists within `total` logical blocks.
#[tactic(auto, unfolding(crate::specs::Allocation::is_there))]
pub fn start_of(total: u32, mdb: &Mdb, b: u16) -> u32
    requires { spec.is_there total mdb.now b ≡ true }
    ensures start { result ≡ spec.start_of mdb.now b }
    ensures room { result + blocks_each mdb.now ≤ total }
{
    let each = u64::from(mdb.allocation_block_size / 512);
    let start = u64::from(mdb.allocation_start) + u64::from(b) * each;
    start as u32
}
