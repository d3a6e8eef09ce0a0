//! What a change writes into a fork.

ghost use Rattle.std.specs.Prelude.{◌≡◌};
ghost use Rattle.hfs_volume.specs.Steps as spec;

use hfs_blocks::Run;
use hfs_call_patches::ForkBlocks;

/// The runs that it fills with zeros.
pub(crate) fn zero_runs(written: &Option<ForkBlocks>) -> &[Run]
    ensures { result.now ≡ spec.zero_runs written.now }
{
    match written {
        Some(fork) => fork.zeros.runs(),
        None => &[],
    }
}

/// The runs of blocks that it writes.
pub(crate) fn written_runs(written: &Option<ForkBlocks>) -> &[Run]
    ensures { result.now ≡ spec.written_runs written.now }
{
    match written {
        Some(fork) => &fork.runs,
        None => &[],
    }
}
