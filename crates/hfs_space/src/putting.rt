//! What a block is, before it is put among the changed ones.

ghost use Rattle.std.specs.Prelude.{◌≡◌, ◌≢◌, true, false};
ghost use Rattle.hfs_space.specs.Changed.{blank_block};

/// Whether a block is one of zeros.
#[tactic(auto, unfolding(crate::specs::Parts::zeros))]
pub(crate) fn is_blank(block: &[u8; 512]) -> bool
    ensures same { result ≡ true → block.now ≡ blank_block }
    ensures others { result ≡ false → block.now ≢ blank_block }
{
    block.as_slice() == [0; 512].as_slice()
}
