//! Rows of bits of which the first ones are set, as whole bytes.
ghost use Rattle.std.specs.Prelude.{◌≡◌, ◌+◌, ◌<◌, ◌≤◌, ◌++◌, length};
ghost use Rattle.hfs_format.specs.BitRow.{bit_row_byte, bit_row};

use hfs_fields::FieldRow;

/// Byte `j` of a row of bits of which the first `set` are set. The most significant bit of byte 0 comes first.
#[tactic(auto, using(crate::proofs::FirstBits::left_over), unfolding(crate::specs::BitRow::bit_row_byte))]
fn bit_row_byte(set: u32, j: u32) -> u8
    requires { j < 1048576 }
    ensures { result ≡ bit_row_byte set j }
{
    let bits = set.saturating_sub(8 * j).min(8);
    (256 - (1u32 << (8 - bits))) as u8
}

/// Appends `count` bytes of a row of bits of which the first `set` are set, starting at byte `first`.
#[tactic(auto, unfolding(crate::specs::BitRow::bit_row))]
pub fn push_bits(row: &mut FieldRow, set: u32, first: u32, count: u32)
    requires room { length row.old + count ≤ 512 }
    requires few { first + count < 1048576 }
    ensures bytes { row.new ≡ row.old ++ bit_row set first count }
    ensures length { length row.new ≡ length row.old + count }
{
    for i in 0..count {
        row.push_u8(bit_row_byte(set, first + i));
    }
}
