//! Bits of a block of the bitmap.

ghost use Rattle.std.specs.Prelude.{◌≡◌, ℕ, ◌+◌, ◌-◌, ◌*◌, ◌<◌, ◌≤◌, Bool, false, length, slice_index, slice_set};
ghost use Rattle.hfs_space.specs.Bitmap as spec;

/// Whether bit `i` is set. Bit 0 is the most significant bit of the first byte.
pub fn is_marked(bytes: &[u8], i: usize) -> bool
    requires { i < 8 * length bytes.now }
    ensures { result ≡ spec.is_marked bytes.now i }
{
    (bytes[i / 8] >> (7 - i % 8)) & 1 == 1
}

/// How many bits of the bytes are clear.
fn clear_in_bytes(bytes: &[u8]) -> u32
    requires { length bytes.now ≤ 512 }
    ensures { result ≡ spec.clear_below bytes.now (8 * length bytes.now) }
{
    let mut clear = 0;
    for byte in bytes {
        clear += byte.count_zeros();
    }
    clear
}

/// How many of the first `bits` bits are clear.
pub fn clear_in(bytes: &[u8; 512], bits: usize) -> u32
    requires { bits ≤ 4096 }
    ensures { result ≡ spec.clear_below bytes.now bits }
{
    let mut clear = clear_in_bytes(&bytes[..bits / 8]);
    for i in bits / 8 * 8..bits {
        if !is_marked(bytes, i) {
            clear += 1;
        }
    }
    clear
}

/// Clears bit `i`.
fn clear_bit(bytes: &mut [u8; 512], i: usize)
    requires { i < 4096 }
    ensures clear { spec.is_marked bytes.new i ≡ false }
    ensures others { spec.KeepsBitsBut i bytes.old bytes.new }
{
    bytes[i / 8] &= !(1 << (7 - i % 8));
}

/// Clears the bits from `first` up to `end`.
pub fn clear_bits(bytes: &mut [u8; 512], first: usize, end: usize)
    requires order { first ≤ end }
    requires within { end ≤ 4096 }
    ensures clear { (k : ℕ) → first ≤ k → k < end → spec.is_marked bytes.new k ≡ false }
    ensures others { spec.KeepsBitsOutside first end bytes.old bytes.new }
{
    for i in first..end {
        clear_bit(bytes, i);
    }
}
