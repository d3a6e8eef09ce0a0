//! Bits of the node map.

ghost use Rattle.std.specs.Prelude.{◌≡◌, ◌*◌, ◌<◌, length};
ghost use Rattle.hfs_btree.specs.Header.{bit_of};

/// Bit `i`, the highest of a byte first.
pub fn bit_at(bytes: &[u8], i: usize) -> bool
    requires { i < 8 * length bytes.now }
    ensures { result ≡ bit_of bytes.now i }
{
    (bytes[i / 8] >> (7 - i % 8)) % 2 == 1
}
