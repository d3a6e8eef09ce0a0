//! What is there, what is added, and whether there is enough.
ghost use Rattle.std.specs.Prelude.{◌≡◌};
ghost use Rattle.hfs_record_edits.specs.Wants.{blocks_wanted, want_of, ForkWantsAreTold, SetEofWantsAreTold, WriteForkWantsAreTold};

use crate::extents_need;
use hfs_model::{BlockSize, Want};

/// What a volume has for forks that grow.
#[derive(Clone, Copy)]
pub struct Supply {
    /// The free allocation blocks.
    pub blocks: u32,
    /// The free nodes of the extents tree.
    pub nodes: u32,
    /// The levels of the extents tree.
    pub depth: u16,
    /// The records of the extents tree.
    pub records: u32,
}

/// What is added to a fork that grows.
#[derive(Clone, Copy)]
pub struct Growth {
    /// Allocation blocks.
    pub blocks: u32,
    /// Records of the extents tree.
    pub records: u32,
}

/// How many allocation blocks are added to a fork that has `have` of them, and gets `length` bytes.
pub fn blocks_wanted(block_size: BlockSize, have: u32, length: u32) -> u32
    ensures { result ≡ blocks_wanted block_size have length }
{
    block_size.blocks(length).saturating_sub(have)
}

/// What is lacking, if anything: allocation blocks first, then nodes of the extents tree for the records that are added to it.
pub fn fork_want(supply: Supply, growth: Growth) -> Option<Want>
    ensures { result ≡ want_of supply growth }
{
    if supply.blocks < growth.blocks {
        return Some(Want::Room {
            free: supply.blocks,
            wanted: growth.blocks,
        });
    }
    if u64::from(supply.nodes) < extents_need(growth.records, supply.depth, supply.records) {
        return Some(Want::ExtentNodes {
            free: supply.nodes,
            depth: u32::from(supply.depth),
        });
    }
    None
}

/// For a fork that gets at most this many allocation blocks, where no more blocks are added, and no more records than there are
/// threes of them: too few blocks are reported with how many are wanted, and too few nodes if one record or more wants them.
pub fn fork_wants_are_told()
    ensures { ForkWantsAreTold }
{}

/// What a SetEof that would otherwise succeed may lack is what a fork of the new length lacks.
pub fn set_eof_wants_are_told()
    ensures { SetEofWantsAreTold }
{}

/// So is what a WriteFork may lack; the new length is the greater of the fork's length and where the bytes end.
pub fn write_fork_wants_are_told()
    ensures { WriteForkWantsAreTold }
{}
