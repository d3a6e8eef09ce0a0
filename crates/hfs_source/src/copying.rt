//! The bytes of blocks, one after the other.
ghost use Rattle.std.specs.Prelude.{◌≡◌, ◌+◌, ◌≤◌, OnOk, IfOk};
ghost use Rattle.hfs_blocks.specs.Blocks.{AreRunsWithin};
ghost use Rattle.hfs_source.specs.Images.{OfEach};
ghost use Rattle.hfs_source.specs.Seen.{EachKnown};
ghost use Rattle.hfs_source.specs.Sparse.{AddsRange, HoldsRuns};

use crate::fetching::SparseFault;
use crate::source::BlockSource;
use hfs_blocks::Run;
use std::alloc::Global;

/// Appends the bytes of `count` blocks from number `first` on, in one read. At an error, zeros or some of these bytes may have
/// been appended.
fn append_range<S: BlockSource>(
    source: &mut S,
    first: u32,
    count: u32,
    bytes: &mut Vec<u8>,
) -> Result<(), SparseFault>
    ensures gains { OnOk result (AddsRange (S.image source.old) first count bytes.old bytes.new) }
    ensures image { S.image source.new ≡ S.image source.old }
    ensures each { OnOk result (EachKnown (S.Holds source.new)
        (λ known. AddsRange known first count bytes.old bytes.new)) }
    ensures narrows { OfEach (S.Holds source.new) (S.Holds source.old) }
{
    let from = bytes.len();
    let to = from + count as usize * 512;
    let Ok(()) = bytes.resize(to, 0) else {
        return Err(SparseFault::Memory);
    };
    match source.read_blocks(first, &mut bytes[from..to]) {
        Ok(()) => Ok(()),
        Err(_) => Err(SparseFault::ReadFailed),
    }
}

/// The bytes of the blocks of these runs, in order. Errors: a read failed, memory was refused.
pub fn read_runs<S: BlockSource>(
    alloc: Global,
    source: &mut S,
    runs: &[Run],
) -> Result<Vec<u8>, SparseFault>
    requires { AreRunsWithin runs.now 4294967296 }
    ensures bytes { IfOk result (HoldsRuns (S.image source.old) runs.now) }
    ensures image { S.image source.new ≡ S.image source.old }
    ensures each { IfOk result (λ bytes. EachKnown (S.Holds source.new)
        (λ known. HoldsRuns known runs.now bytes)) }
    ensures narrows { OfEach (S.Holds source.new) (S.Holds source.old) }
{
    let mut bytes = Vec::new(alloc);
    for run in runs {
        append_range(source, run.first, run.count, &mut bytes)?;
    }
    Ok(bytes)
}
