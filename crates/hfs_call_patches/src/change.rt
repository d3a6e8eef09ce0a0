//! What a call makes of a volume.

use hfs_blocks::{Patch, Run};
use hfs_fields::Mdb;
use hfs_model::Value;
use hfs_space::ZeroRuns;

/// What a call that writes a fork writes into it.
#[derive(Drop)]
pub struct ForkBlocks {
    /// The runs of the fork's blocks that may have changed.
    pub runs: Vec<Run>,
    /// Those of them that are zeros, below the call's patch.
    pub zeros: ZeroRuns,
}

/// What a call makes of a volume: the blocks that change, the volume's counts afterwards, what is written into a fork, if the
/// call writes one, and the value of the reply.
#[derive(Drop)]
pub struct Change {
    pub patch: Patch,
    pub counts: Mdb,
    pub written: Option<ForkBlocks>,
    pub value: Value,
}
