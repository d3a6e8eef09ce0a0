//! Numbers in a script.
ghost use Rattle.std.specs.Prelude.{◌≡◌};
ghost use Rattle.std.specs.Option.{option_zip};
ghost use Rattle.hfs_scripts.specs.Numbers.{number_of};

/// The greatest number that a field may have.
const GREATEST: u64 = 4_294_967_295;

/// The number in a field: one to ten decimal digits, at most 4,294,967,295.
#[tactic(auto, unfolding(crate::specs::Numbers::number_of))]
pub(crate) fn read_number(field: &[u8]) -> Option<u32>
    ensures { result ≡ number_of field.now }
{
    if field.is_empty() || field.len() > 10 {
        return None;
    }
    let mut value: u32 = 0;
    for byte in field {
        if !byte.is_ascii_digit() {
            return None;
        }
        let longer = u64::from(value) * 10 + u64::from(*byte - b'0');
        if longer > GREATEST {
            return None;
        }
        value = longer as u32;
    }
    Some(value)
}

/// The numbers in two fields, if both are numbers.
pub(crate) fn read_two_numbers(first: &[u8], second: &[u8]) -> Option<(u32, u32)>
    ensures { result ≡ option_zip (number_of first.now) (number_of second.now) }
{
    read_number(first).zip(read_number(second))
}
