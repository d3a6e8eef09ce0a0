//! The nodes that a new volume's trees get if no number is given.
ghost use Rattle.std.specs.Prelude.{◌≡◌, ◌≤◌, ◌<◌, ◌/◌};
ghost use Rattle.hfs_format.specs.Plan as plan;
ghost use Rattle.hfs_format.specs.SizeNumerals.{chosen_nodes};

/// How many blocks an allocation block has.
#[tactic(auto, using(crate::proofs::PlanNumbers::factor_is))]
fn block_factor(blocks: u32) -> u32
    ensures value { result ≡ plan.block_factor blocks }
    ensures some { 1 ≤ result }
    ensures enough { blocks / result < 65536 }
{
    blocks / 65_536 + 1
}

/// How many allocation blocks a volume of `blocks` blocks has.
#[tactic(auto, using(crate::proofs::NodeNumbers::allocation_blocks_is))]
fn allocation_blocks(blocks: u32) -> u32
    ensures { result ≡ plan.allocation_blocks blocks }
{
    let factor = block_factor(blocks);
    let start = 3 + (blocks / factor + 4_095) / 4_096;
    blocks.saturating_sub(2).saturating_sub(start) / factor
}

/// How many nodes a tree of a volume of `blocks` blocks gets if no number is given: one for each 128 allocation blocks, and at
/// least `least`.
#[tactic(auto, unfolding(crate::specs::SizeNumerals::chosen_nodes))]
pub fn chosen_nodes(least: u32, blocks: u32) -> u32
    ensures { result ≡ chosen_nodes least blocks }
{
    let nodes = allocation_blocks(blocks) / 128;
    if nodes < least { least } else { nodes }
}
