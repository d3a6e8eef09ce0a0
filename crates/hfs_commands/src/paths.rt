//! How paths are printed.
ghost use Rattle.std.specs.Prelude.{◌≡◌, Some};
ghost use Rattle.std.specs.Fmt.{WritesOnOk};
ghost use Rattle.hfs_commands.specs.Paths.{escaped_byte, is_escaped, path_text};

use std::fmt;

/// A path as it is printed: each byte below $20, $7F and the backslash become a backslash and two hexadecimal digits, so that no
/// path controls a terminal or looks like another path.
#[derive(Clone, Copy)]
pub struct ShownPath<'a>(pub &'a str);

impl fmt::Display for ShownPath<'_> {
    ghost output = { λ shown. Some (path_text shown.0.now) };

    fn fmt<W: fmt::Write>(&self, f: &mut fmt::Formatter<W>) -> fmt::Result {
        write_path(f, self.0)
    }
}

/// Writes a path in pieces: a run of bytes that stand for themselves, then a byte that doesn't, and so on.
fn write_path<W: fmt::Write>(f: &mut fmt::Formatter<W>, path: &str) -> fmt::Result
    ensures { WritesOnOk W.write_str_gives f.old result (path_text path.now) f.new }
{
    let bytes = path.as_bytes();
    let mut start = 0;
    for at in 0..bytes.len() {
        let byte = bytes[at];
        if is_escaped(byte) {
            f.write_str(&path[start..at])?;
            write_escaped(f, byte)?;
            start = at + 1;
        }
    }
    f.write_str(&path[start..])
}

/// Whether a byte is printed as digits.
#[tactic(auto, unfolding(crate::specs::Paths::is_escaped))]
fn is_escaped(byte: u8) -> bool
    ensures { result ≡ is_escaped byte }
{
    byte < 0x20 || byte == 0x7f || byte == b'\\'
}

/// Writes a byte as a backslash and two digits.
#[tactic(auto, unfolding(crate::specs::Paths::escaped_byte))]
fn write_escaped<W: fmt::Write>(f: &mut fmt::Formatter<W>, byte: u8) -> fmt::Result
    ensures { WritesOnOk W.write_str_gives f.old result (escaped_byte byte) f.new }
{
    write!(f, "\\{byte:02x}")
}
