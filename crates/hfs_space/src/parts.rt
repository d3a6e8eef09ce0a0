//! Bytes in a part of one block.

ghost use Rattle.std.specs.Prelude.{◌≡◌, ◌≢◌, ℕ, ◌+◌, ◌<◌, ◌≤◌, length, OnOk, OnErr};
ghost use Rattle.hfs_blocks.specs.Layers.{changes, over, AreWhole, KeepsWithin};
ghost use Rattle.hfs_space.specs.Parts.{with_part};
ghost use Rattle.hfs_space.specs.Written.{AreBothWhole};

use hfs_blocks::{Blocks, Patch};
use std::alloc::AllocError;

/// Reads block `n` with the patch over it, unless all of it is about to be overwritten with `count` bytes.
fn read_unless_whole<B: Blocks>(
    below: &B,
    patch: &Patch,
    n: u32,
    count: usize,
    block: &mut [u8; 512],
)
    requires { n < B.total below.now }
    ensures read { count < 512
        → block.new ≡ over (changes patch.now) (B.blocks below.now) n }
    ensures whole { AreWhole (changes patch.now) }
{
    let shown = patch.over(below);
    if count < 512 {
        shown.block(n, block);
    }
}

/// Writes a part of a block, from its byte `from` on, into the patch over these blocks. A block that is overwritten whole isn't
/// read. At an error the patch is as it was.
pub(crate) fn put_part<B: Blocks>(
    below: &B,
    patch: &mut Patch,
    n: u32,
    from: usize,
    part: &[u8],
) -> Result<(), AllocError>
    requires within { n < B.total below.now }
    requires fits { from + length part.now ≤ 512 }
    ensures part { OnOk result (over (changes patch.new) (B.blocks below.now) n
        ≡ with_part from part.now (over (changes patch.old) (B.blocks below.now) n)) }
    ensures others { (k : ℕ) → k ≢ n → over (changes patch.new) (B.blocks below.now) k
        ≡ over (changes patch.old) (B.blocks below.now) k }
    ensures kept { OnErr result (patch.new ≡ patch.old) }
    ensures whole { AreBothWhole patch.old patch.new }
    ensures within { KeepsWithin patch.old patch.new (B.total below.now) }
{
    let mut block = [0; 512];
    read_unless_whole(below, patch, n, part.len(), &mut block);
    let to = from + part.len();
    block[from..to].copy_from_slice(part);
    patch.put(n, &block)?;
    Ok(())
}
