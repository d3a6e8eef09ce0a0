//! What a new volume must hold.
ghost use Rattle.std.specs.Prelude.{◌≡◌, ◌+◌, ◌*◌, ◌<◌, ◌≤◌, ◌^◌};
ghost use Rattle.std.specs.Int.{div_ceil};
ghost use Rattle.hfs_format.specs.Plan as plan;
ghost use Rattle.hfs_format.specs.Wanted as spec;

use crate::items::NewItem;

/// How many allocation blocks of `size` bytes a fork takes.
#[tactic(auto, using(crate::proofs::PlanNumbers::few_blocks))]
fn blocks_in(len: u64, size: u64) -> u64
    requires { 512 ≤ size }
    ensures value { result ≡ div_ceil len size }
    ensures few { result ≤ 2 ^ 55 }
{
    len.div_ceil(size)
}

/// How many allocation blocks of `factor` blocks the forks of an item take.
fn fork_blocks(factor: u32, item: NewItem) -> u64
    requires some { 1 ≤ factor }
    requires few { factor ≤ 65 }
    ensures value { result ≡ spec.fork_blocks factor item }
    ensures bound { result ≤ 2 ^ 56 }
{
    match item {
        NewItem::Folder(_) => 0,
        NewItem::File(file) => {
            let size = 512 * u64::from(factor);
            blocks_in(file.data_len, size) + blocks_in(file.resource_len, size)
        }
    }
}

/// How many allocation blocks `nodes` nodes take.
#[tactic(auto, using(crate::proofs::PlanNumbers::file_blocks_is))]
fn file_blocks(factor: u32, nodes: u32) -> u64
    requires some { 1 ≤ factor }
    requires few { factor ≤ 65 }
    ensures value { result ≡ plan.file_blocks factor nodes }
    ensures bound { result < 2 ^ 33 }
{
    (u64::from(nodes) + u64::from(factor - 1)) / u64::from(factor)
}

/// How many allocation blocks both trees and the forks of all items take.
pub(crate) fn wanted_blocks(nodes: u32, items: &[NewItem], factor: u32) -> u128
    requires some { 1 ≤ factor }
    requires few { factor ≤ 65 }
    ensures { result ≡ spec.wanted_blocks nodes items.now factor }
{
    let mut blocks = u128::from(file_blocks(factor, 8)) + u128::from(file_blocks(factor, nodes));
    for item in items {
        blocks += u128::from(fork_blocks(factor, *item));
    }
    blocks
}
