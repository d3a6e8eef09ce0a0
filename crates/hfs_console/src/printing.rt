//! Lines on standard output.

use hfs_commands::{Fault, put};

/// The programs' version, and the logic in which they are proved: kits that only differ in their tools have the same.
pub const VERSION: &str = "1.0.0 (proved with Rattle's logic dac8208d650f15bf)";

/// Prints lines, in as few calls as the output takes.
pub fn print_lines(rt: &HostRuntime, lines: &str) -> Result<(), Fault<'static>> {
    match put(&mut rt.stdout(), lines.as_bytes()) {
        Ok(()) => Ok(()),
        Err(_) => Err(Fault::OutputFailed),
    }
}
