//! The bytes of a fork as the calls that write it make them.
ghost use Rattle.std.specs.Prelude.{◌≡◌, ◌+◌, ◌<◌, ◌^◌, length, IfOk};
ghost use Rattle.hfs_model.specs.Forks.{resized, written, fork_bytes};

use hfs_model::{Fork, Kind};
use std::alloc::{AllocError, Global};

/// The bytes of a fork; none for a folder.
pub fn fork_bytes(fork: Fork, kind: &Kind) -> &[u8]
    ensures bytes { result.now ≡ fork_bytes fork kind.now }
    ensures short { length result.now < 2 ^ 32 }
{
    match kind {
        Kind::Folder { .. } => &[],
        Kind::File(file) => match fork {
            Fork::DataFork => file.data.as_slice(),
            Fork::ResFork => file.resource.as_slice(),
        },
    }
}

/// The first `count` bytes, followed by zeros if there are fewer.
#[tactic(auto, unfolding(hfs_model::specs::Forks::resized))]
pub fn resized(alloc: Global, bytes: &[u8], count: usize) -> Result<Vec<u8>, AllocError>
    ensures bytes { IfOk result (λ made. made.items ≡ resized count bytes.now) }
    ensures long { IfOk result (λ made. length made.items ≡ count) }
{
    let mut made = Vec::from_slice(alloc, bytes)?;
    made.resize(count, 0)?;
    Ok(made)
}

/// The old bytes with new ones from `offset` on, which may be past their end.
#[tactic(auto, unfolding(hfs_model::specs::Forks::written), using(hfs_model::proofs::ForkLemmas::written_is_short))]
pub fn written(
    alloc: Global,
    bytes: &[u8],
    offset: usize,
    new: &[u8],
) -> Result<Vec<u8>, AllocError>
    requires old { length bytes.now < 2 ^ 32 }
    requires new { offset + length new.now < 2 ^ 32 }
    ensures bytes { IfOk result (λ made. made.items ≡ written offset new.now bytes.now) }
    ensures short { IfOk result (λ made. length made.items < 2 ^ 32) }
{
    let end = offset + new.len();
    let mut made = resized(alloc, bytes, bytes.len().max(end))?;
    made[offset..end].copy_from_slice(new);
    Ok(made)
}
