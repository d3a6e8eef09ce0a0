//! The size of a volume, as it is typed.
ghost use Rattle.std.specs.Prelude.{◌≡◌, ◌≢◌, codes, Some};
ghost use Rattle.hfs_format.specs.SizeNumerals.{IsNumberOf};

/// The number in a text, from 0 to 4,294,967,295; None if it is no such number.
fn number_of(text: &str) -> Option<u32>
    ensures { IsNumberOf text.now result }
{
    match text.parse::<u32>() {
        Ok(number) => Some(number),
        Err(_) => None,
    }
}

/// The blocks of 512 bytes that a text stands for: `800K` and `1440K` are the two floppies of the Macintosh; anything else is the
/// number itself.
pub fn blocks_of(text: &str) -> Option<u32>
    ensures double { text.now ≡ codes "800K" → result ≡ Some 1600 }
    ensures high { text.now ≡ codes "1440K" → result ≡ Some 2880 }
    ensures number { text.now ≢ codes "800K" → text.now ≢ codes "1440K" → IsNumberOf text.now result }
{
    if text == "800K" {
        Some(1_600)
    } else if text == "1440K" {
        Some(2_880)
    } else {
        number_of(text)
    }
}
