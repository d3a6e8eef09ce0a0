//! The smallest size that holds everything.
ghost use Rattle.std.specs.Prelude.{◌≡◌, ◌≤◌, IfSome};
ghost use Rattle.hfs_format.specs.Plan as plan;
ghost use Rattle.hfs_format.specs.Least.{FindsLeast, FindsLeastWithin};
ghost use Rattle.hfs_format.specs.Wanted.{has_blocks, holds_all};

use crate::items::NewItem;
use crate::wanted::wanted_blocks;

/// The most blocks of 512 bytes that a volume may have: 2 GB.
const MOST_BLOCKS: u32 = 4_194_304;

/// How many allocation blocks a volume of `blocks` blocks has.
#[tactic(auto, using(crate::proofs::PlanNumbers::allocation_blocks_is, crate::proofs::PlanNumbers::few_quotients))]
fn allocation_blocks(blocks: u32, factor: u32) -> u32
    requires few { blocks ≤ 4194304 }
    requires some { 1 ≤ factor }
    requires factor { factor ≡ plan.block_factor blocks }
    ensures { result ≡ plan.allocation_blocks blocks }
{
    let start = 3 + (blocks / factor + 4_095) / 4_096;
    blocks.saturating_sub(2).saturating_sub(start) / factor
}

/// Whether a volume of `blocks` blocks has `wanted` allocation blocks.
fn has_blocks(blocks: u32, factor: u32, wanted: u128) -> bool
    requires few { blocks ≤ 4194304 }
    requires some { 1 ≤ factor }
    requires factor { factor ≡ plan.block_factor blocks }
    ensures { result ≡ has_blocks wanted blocks }
{
    wanted <= u128::from(allocation_blocks(blocks, factor))
}

/// The smallest number of blocks from `first` to `last` with which a volume has `wanted` allocation blocks, each of `factor`
/// blocks.
fn least_with_blocks(first: u32, last: u32, factor: u32, wanted: u128) -> Option<u32>
    requires range { first ≤ last }
    requires few { last ≤ 4194304 }
    requires some { 1 ≤ factor }
    requires first { factor ≡ plan.block_factor first }
    requires last { factor ≡ plan.block_factor last }
    ensures { FindsLeastWithin first last (has_blocks wanted) result }
{
    if !has_blocks(last, factor, wanted) {
        return None;
    }
    let mut low = first;
    let mut high = last;
    while low < high {
        let middle = low + (high - low) / 2;
        if has_blocks(middle, factor, wanted) {
            high = middle;
        } else {
            low = middle + 1;
        }
    }
    Some(high)
}

/// The smallest number of blocks, at least `from`, with which a volume holds everything.
pub(crate) fn least_blocks(nodes: u32, items: &[NewItem], from: u32) -> Option<u32>
    ensures least { FindsLeast from (holds_all nodes items.now) result }
    ensures few { IfSome result (λ least. least ≤ 4194304) }
{
    let mut first = from;
    while first <= MOST_BLOCKS {
        let factor = first / 65_536 + 1;
        let last = (65_536 * factor - 1).min(MOST_BLOCKS);
        let wanted = wanted_blocks(nodes, items, factor);
        if let Some(least) = least_with_blocks(first, last, factor, wanted) {
            return Some(least);
        }
        first = last + 1;
    }
    None
}
