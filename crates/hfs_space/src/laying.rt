//! Laying a change over the changed blocks of an image.

ghost use Rattle.std.specs.Prelude.{◌≡◌, length, unwrap_or, IfOk, OnOk, OnErr};
ghost use Rattle.hfs_blocks.specs.Layers.{changes, over, AreWithin, HasJoined, IsLaid, KeepsWithin, ShowsSame};
ghost use Rattle.hfs_space.specs.Flags.{flagged};
ghost use Rattle.hfs_space.specs.Zeros.{AreAmong};
ghost use Rattle.hfs_space.specs.Laying.{IsLaidWith, IsPatchOver, IsShownStill, HasBlocks, IsFlaggedAmong};

use crate::again::zeros_again;
use crate::flagged::Flagged;
use crate::flags::flag_runs;
use hfs_blocks::{Blocks, Patch, Run};
use std::alloc::{AllocError, Global};

/// A patch over those blocks; None if there are no such blocks, and it is the patch itself.
fn patch_over<B: Blocks>(
    below: &B,
    again: Patch,
    patch: &Patch,
) -> Result<Option<Patch>, AllocError>
    requires { AreWithin (changes patch.now) (B.total below.now) }
    ensures all { IfOk result (λ all. IsPatchOver again patch.now (unwrap_or all patch.now)) }
    ensures within { IfOk result (λ all.
        KeepsWithin again (unwrap_or all patch.now) (B.total below.now)) }
{
    if again.len() == 0 {
        return Ok(None);
    }
    let mut all = again;
    all.lay(below, patch)?;
    Ok(Some(all))
}

/// The patch that was made, or else this one.
fn made_or<'a>(made: &'a Option<Patch>, patch: &'a Patch) -> &'a Patch
    ensures { result.now ≡ unwrap_or made.now patch.now }
{
    match made {
        Some(made) => made,
        None => patch,
    }
}

/// Lays a patch over the kept blocks, which lie over the flagged ones.
fn lay_over<B: Blocks>(
    below: &B,
    flags: &[bool],
    kept: &mut Patch,
    all: &Patch,
) -> Result<(), AllocError>
    requires { AreWithin (changes all.now) (B.total below.now) }
    ensures laid { OnOk result (IsLaid (over (flagged flags.now) (B.blocks below.now))
        kept.old all.now kept.new) }
    ensures joined { OnOk result
        (HasJoined (changes kept.old) (changes all.now) (changes kept.new)) }
    ensures kept { OnErr result (ShowsSame (over (flagged flags.now) (B.blocks below.now))
        (changes kept.old) (changes kept.new)) }
    ensures within { KeepsWithin kept.old kept.new (B.total below.now) }
{
    let shown = Flagged { below, flags };
    kept.lay(&shown, all)
}

/// Lays a patch, with the blocks of these runs as zeros below it, over what is kept of an image: blocks by their numbers, and
/// blocks of zeros by their flags. At an error the resulting blocks are as they were.
pub(crate) fn lay_change<B: Blocks>(
    alloc: Global,
    below: &B,
    kept: &mut Patch,
    flags: &mut [bool],
    patch: &Patch,
    runs: &[Run],
) -> Result<(), AllocError>
    requires patch { AreWithin (changes patch.now) (B.total below.now) }
    requires runs { AreAmong runs.now (B.total below.now) }
    requires flags { AreAmong runs.now (length flags.old) }
    ensures laid { OnOk result (IsLaidWith (B.blocks below.now) patch.now runs.now
        kept.old flags.old kept.new flags.new) }
    ensures joined { OnOk result (HasBlocks patch.now runs.now
        kept.old flags.old kept.new flags.new) }
    ensures unchanged { OnErr result (IsShownStill (B.blocks below.now)
        kept.old flags.old kept.new flags.new) }
    ensures within { KeepsWithin kept.old kept.new (B.total below.now) }
    ensures len { length flags.new ≡ length flags.old }
    ensures flagged { IsFlaggedAmong runs.now flags.old flags.new }
{
    let again = zeros_again(alloc, kept, runs)?;
    let all = patch_over(below, again, patch)?;
    lay_over(below, flags, kept, made_or(&all, patch))?;
    flag_runs(flags, runs);
    Ok(())
}
