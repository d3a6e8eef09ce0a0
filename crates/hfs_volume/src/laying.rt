//! Laying changed blocks over a piece of an image.
ghost use Rattle.std.specs.Prelude.{◌≡◌, ◌+◌, ◌/◌, ◌≤◌, length, unwrap_or};
ghost use Rattle.hfs_blocks.specs.Layers.{changes};
ghost use Rattle.hfs_volume.specs.Patched.{patched_from};

use hfs_space::ChangedBlocks;

/// Lays changed block `n`, if there is one, over the bytes of a block.
fn lay_block(changed: &ChangedBlocks, n: u32, block: &mut [u8])
    requires { length block.old ≡ 512 }
    ensures laid { block.new ≡ unwrap_or (changes changed.now n) block.old }
    ensures whole { length block.new ≡ 512 }
{
    if let Some(bytes) = changed.get(n) {
        block.copy_from_slice(bytes.as_slice());
    }
}

/// Lays those changed blocks over a piece of an image that are among its whole blocks, the first of which has number `first`.
pub(crate) fn lay_piece(changed: &ChangedBlocks, first: u32, piece: &mut [u8])
    requires { first + length piece.old / 512 ≤ 4294967295 }
    ensures { piece.new ≡ patched_from first changed.now piece.old }
{
    let count = (piece.len() / 512) as u32;
    for k in 0..count {
        let from = k as usize * 512;
        lay_block(changed, first + k, &mut piece[from..from + 512]);
    }
}
