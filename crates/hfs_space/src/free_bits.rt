//! The bits of a block of the bitmap.

ghost use Rattle.std.specs.Prelude.{◌≡◌, ℕ, ◌+◌, ◌<◌, ◌≤◌, true};
ghost use Rattle.hfs_space.specs.Bitmap.{is_marked, KeepsBitsBut, KeepsBitsOutside};

/// Whether bit `i` is set. Bit 0 is the most significant bit of the first byte.
pub(crate) fn is_set(bytes: &[u8; 512], i: usize) -> bool
    requires { i < 4096 }
    ensures { result ≡ is_marked bytes.now i }
{
    (bytes[i / 8] >> (7 - i % 8)) & 1 == 1
}

/// Sets bit `i`. Bit 0 is the most significant bit of the first byte.
fn set_bit(bytes: &mut [u8; 512], i: usize)
    requires { i < 4096 }
    ensures set { is_marked bytes.new i ≡ true }
    ensures others { KeepsBitsBut i bytes.old bytes.new }
{
    bytes[i / 8] |= 1 << (7 - i % 8);
}

/// Sets the bits from `first` up to `end`.
pub(crate) fn set_bits(bytes: &mut [u8; 512], first: usize, end: usize)
    requires order { first ≤ end }
    requires within { end ≤ 4096 }
    ensures set { (k : ℕ) → first ≤ k → k < end → is_marked bytes.new k ≡ true }
    ensures others { KeepsBitsOutside first end bytes.old bytes.new }
{
    for i in first..end {
        set_bit(bytes, i);
    }
}
