//! Bytes and zeros over the runs of a file's blocks.

ghost use Rattle.std.specs.Prelude.{◌≡◌, ℕ, ◌+◌, ◌-◌, ◌*◌, ◌/◌, ◌%◌, ◌<◌, ◌≤◌, ◌^◌, length, min, take, drop, OnOk, OnErr, IfOk};
ghost use Rattle.std.specs.List.{flat_map};
ghost use Rattle.hfs_blocks.specs.Blocks.{run_of, AreRunsWithin};
ghost use Rattle.hfs_blocks.specs.Layers.{changes, over, KeepsWithin};
ghost use Rattle.hfs_space.specs.Parts.{zeros};
ghost use Rattle.hfs_space.specs.Written.{AreBothWhole};
ghost use Rattle.hfs_space.specs.Written as spec;

use crate::parts::put_part;
use hfs_blocks::{Blocks, Patch, Run, block_of, rest_of_run};
use std::alloc::AllocError;

/// Writes bytes of a file whose blocks lie in these runs, from the file's byte `at` on. They are in one block.
fn put_in_file<B: Blocks>(
    below: &B,
    patch: &mut Patch,
    runs: &[Run],
    at: u64,
    part: &[u8],
) -> Result<(), AllocError>
    requires runs { AreRunsWithin runs.now (B.total below.now) }
    requires different { spec.AreDifferent (flat_map run_of runs.now) }
    requires some { 0 < length part.now }
    requires one { at % 512 + length part.now ≤ 512 }
    requires inside { at / 512 < length (flat_map run_of runs.now) }
    ensures part { OnOk result (spec.HasPartOver (B.blocks below.now) (flat_map run_of runs.now)
        at part.now patch.old patch.new) }
    ensures beside { spec.KeepsBesideOver (B.blocks below.now) (flat_map run_of runs.now)
        at (length part.now) patch.old patch.new }
    ensures whole { AreBothWhole patch.old patch.new }
    ensures within { KeepsWithin patch.old patch.new (B.total below.now) }
{
    let n = block_of(runs, (at / 512) as u32);
    put_part(below, patch, n, (at % 512) as usize, part)?;
    Ok(())
}

/// How many of `count` bytes from byte `at` on are in the same block.
fn in_one_block(at: u64, count: u64) -> u64
    ensures { result ≡ min count (512 - at % 512) }
{
    count.min(512 - at % 512)
}

/// Writes whole blocks one after the other, the first as block `first`, into the patch over these blocks. At an error the patch is
/// as it was.
fn put_blocks<B: Blocks>(
    below: &B,
    patch: &mut Patch,
    first: u32,
    bytes: &[u8],
) -> Result<(), AllocError>
    requires whole { length bytes.now % 512 ≡ 0 }
    requires within { first + length bytes.now / 512 ≤ B.total below.now }
    ensures part { OnOk result (spec.HasBlocks first bytes.now
        (over (changes patch.old) (B.blocks below.now))
        (over (changes patch.new) (B.blocks below.now))) }
    ensures kept { OnErr result (patch.new ≡ patch.old) }
    ensures whole { AreBothWhole patch.old patch.new }
    ensures within { KeepsWithin patch.old patch.new (B.total below.now) }
{
    let (blocks, _rest) = bytes.as_chunks::<512>();
    patch.put_run(first, blocks)?;
    Ok(())
}

/// Writes some more of the bytes of a file whose blocks lie in these runs, of which the first `done` are written, from the file's
/// byte `offset` on: as many whole blocks as lie in one run, or else those that stand in one block. Answers how many are written.
fn write_some<B: Blocks>(
    below: &B,
    patch: &mut Patch,
    runs: &[Run],
    offset: u64,
    bytes: &[u8],
    done: usize,
) -> Result<usize, AllocError>
    requires runs { AreRunsWithin runs.now (B.total below.now) }
    requires different { spec.AreDifferent (flat_map run_of runs.now) }
    requires some { done < length bytes.now }
    requires fits { offset + length bytes.now ≤ 512 * length (flat_map run_of runs.now) }
    ensures some { IfOk result (λ end. done < end) }
    ensures few { IfOk result (λ end. end ≤ length bytes.now) }
    ensures part { IfOk result (λ end. spec.HasPartOver (B.blocks below.now)
        (flat_map run_of runs.now) (offset + done) (take (end - done) (drop done bytes.now))
        patch.old patch.new) }
    ensures beside { spec.KeepsBesideOver (B.blocks below.now) (flat_map run_of runs.now)
        (offset + done) (length bytes.now - done) patch.old patch.new }
    ensures whole { AreBothWhole patch.old patch.new }
    ensures within { KeepsWithin patch.old patch.new (B.total below.now) }
{
    let at = offset + done as u64;
    let left = bytes.len() - done;
    if at % 512 == 0 && left >= 512 {
        let rest = rest_of_run(runs, (at / 512) as u32);
        let end = done + 512 * (left / 512).min(rest.count as usize);
        put_blocks(below, patch, rest.first, &bytes[done..end])?;
        return Ok(end);
    }
    let end = done + in_one_block(at, left as u64) as usize;
    put_in_file(below, patch, runs, at, &bytes[done..end])?;
    Ok(end)
}

/// Writes bytes of a file whose blocks lie in these runs, from the file's byte `offset` on. Only the blocks that have one of
/// these bytes change. At an error some of them may not be written.
pub(crate) fn write_runs<B: Blocks>(
    below: &B,
    patch: &mut Patch,
    runs: &[Run],
    offset: u64,
    bytes: &[u8],
) -> Result<(), AllocError>
    requires runs { AreRunsWithin runs.now (B.total below.now) }
    requires different { spec.AreDifferent (flat_map run_of runs.now) }
    requires some { 0 < length bytes.now }
    requires fits { offset + length bytes.now ≤ 512 * length (flat_map run_of runs.now) }
    ensures part { OnOk result (spec.HasPartOver (B.blocks below.now) (flat_map run_of runs.now)
        offset bytes.now patch.old patch.new) }
    ensures beside { spec.KeepsBesideOver (B.blocks below.now) (flat_map run_of runs.now)
        offset (length bytes.now) patch.old patch.new }
    ensures whole { OnOk result (AreBothWhole patch.old patch.new) }
    ensures within { KeepsWithin patch.old patch.new (B.total below.now) }
{
    let mut done = 0;
    while done < bytes.len() {
        done = write_some(below, patch, runs, offset, bytes, done)?;
    }
    Ok(())
}

/// Writes zeros in place of `count` bytes of a file whose blocks lie in these runs, from the file's byte `offset` on. Only the
/// blocks that have one of these bytes change. At an error some of them may not be written.
pub(crate) fn clear_runs<B: Blocks>(
    below: &B,
    patch: &mut Patch,
    runs: &[Run],
    offset: u64,
    count: u64,
) -> Result<(), AllocError>
    requires runs { AreRunsWithin runs.now (B.total below.now) }
    requires different { spec.AreDifferent (flat_map run_of runs.now) }
    requires some { 0 < count }
    requires fits { offset + count ≤ 512 * length (flat_map run_of runs.now) }
    ensures part { OnOk result (spec.HasPartOver (B.blocks below.now) (flat_map run_of runs.now)
        offset (zeros count) patch.old patch.new) }
    ensures beside { spec.KeepsBesideOver (B.blocks below.now) (flat_map run_of runs.now)
        offset count patch.old patch.new }
    ensures whole { OnOk result (AreBothWhole patch.old patch.new) }
    ensures within { KeepsWithin patch.old patch.new (B.total below.now) }
{
    let zeros = [0; 512];
    let mut done = 0;
    while done < count {
        let at = offset + done;
        let more = in_one_block(at, count - done);
        put_in_file(below, patch, runs, at, &zeros[..more as usize])?;
        done += more;
    }
    Ok(())
}
