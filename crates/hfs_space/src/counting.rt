//! How many blocks are changed.

ghost use Rattle.std.specs.Prelude.{◌≡◌, ◌<◌, true, length, nat_eq};
ghost use Rattle.std.specs.List.{IsDistinct};
ghost use Rattle.hfs_blocks.specs.Layers.{changes, numbers, AreWithin};
ghost use Rattle.hfs_space.specs.Flags.{is_flagged};
ghost use Rattle.hfs_space.specs.Changed.{all_blocks, is_zeros};

use hfs_blocks::Patch;

/// Whether the block is one of zeros that isn't kept.
fn is_zeros(kept: &Patch, flags: &[bool], n: usize) -> bool
    requires within { n < length flags.now }
    requires small { is_flagged flags.now n ≡ true → n < 4294967296 }
    ensures { result ≡ is_zeros kept.now flags.now n }
{
    if flags[n] {
        return kept.get(n as u32).is_none();
    }
    false
}

/// How many blocks are kept or zeros, each counted once.
pub(crate) fn count_all(kept: &Patch, flags: &[bool]) -> usize
    requires { AreWithin (changes (all_blocks kept.now flags.now)) 4294967296 }
    ensures len { result ≡ length (numbers (all_blocks kept.now flags.now)) }
    ensures different { IsDistinct nat_eq (numbers (all_blocks kept.now flags.now)) }
{
    let mut count = kept.len();
    for n in 0..flags.len() {
        if is_zeros(kept, flags, n) {
            count += 1;
        }
    }
    count
}
