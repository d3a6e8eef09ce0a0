//! One line on standard error that is rewritten while work goes on.

use hfs_commands::ShownPath;
use std::cell::Cell;
use std::io::IsTerminal;

/// A line on standard error, if that is a terminal. If the terminal takes nothing more, the work goes on.
#[derive(Drop)]
pub struct Line<'a> {
    rt: &'a HostRuntime,
    is_shown: bool,
    is_written: Cell<bool>,
}

impl<'a> Line<'a> {
    /// The line, empty at first.
    pub fn on(rt: &'a HostRuntime) -> Line<'a> {
        Line {
            rt,
            is_shown: rt.stderr().is_terminal(),
            is_written: Cell::new(false),
        }
    }

    /// Shows how many items of how many have come, and how many bytes of the last one of how many.
    pub fn show_item(&self, number: u64, all: u64, came: u64, bytes: u64) {
        if self.is_shown {
            self.is_written.set(true);
            let _printed = eprint!(self.rt;
                "\r{number} of {all} items; of the last {came} of {bytes} bytes\x1b[K"
            );
        }
    }

    /// Shows which image is read, of how many if that is known, how many bytes were read, and how many it has: an image whose
    /// digest is taken is read more than once.
    pub fn show_image(&self, number: u64, all: Option<u64>, path: &str, read: u64, bytes: u64) {
        if self.is_shown {
            self.is_written.set(true);
            let path = ShownPath(path);
            let _printed = match all {
                Some(all) => eprint!(self.rt;
                    "\r{number} of {all} images: {path}, {read} bytes read, of {bytes}\x1b[K"
                ),
                None => eprint!(self.rt;
                    "\rimage {number}: {path}, {read} bytes read, of {bytes}\x1b[K"
                ),
            };
        }
    }

    /// Shows how many bytes of how many have come.
    pub fn show_bytes(&self, came: u64, bytes: u64) {
        if self.is_shown {
            self.is_written.set(true);
            let _printed = eprint!(self.rt; "\r{came} of {bytes} bytes\x1b[K");
        }
    }

    /// Removes the line.
    pub fn end(&self) {
        if self.is_written.get() {
            self.is_written.set(false);
            let _printed = eprint!(self.rt; "\r\x1b[K");
        }
    }
}
