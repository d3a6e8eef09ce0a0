//! What a terminal is shown while long work goes on.

use crate::line::Line;
use hfs_bag::Watch;
use std::cell::Cell;

/// After how many items the line is written.
const ITEMS_SHOWN: u64 = 100;

/// After how many bytes the line is written.
const BYTES_SHOWN: u64 = 4_194_304;

/// What the line says of work.
#[derive(Clone, Copy)]
enum Shown<'a> {
    /// How many of how many items came, and how many bytes of how many of the last one.
    Items,
    /// How many of how many bytes came.
    Bytes,
    /// Which image is read, of how many where that is known, its path, and how many bytes were read, of how many: they count as often as
    /// they are read.
    Image(u64, Option<u64>, &'a str),
}

/// How far long work is: one line on standard error that is written over again and again, where that is a terminal.
#[derive(Drop)]
pub struct Progress<'a> {
    line: Line<'a>,
    shown: Shown<'a>,
    /// With which of how many things the work began last.
    number: Cell<u64>,
    all: Cell<u64>,
    /// How many bytes that has, and how many came.
    bytes: Cell<u64>,
    came: Cell<u64>,
    /// How many bytes came since the line was written.
    fresh: Cell<u64>,
}

impl<'a> Progress<'a> {
    /// Of work of which the line says this.
    fn on(rt: &'a HostRuntime, shown: Shown<'a>) -> Progress<'a> {
        Progress {
            line: Line::on(rt),
            shown,
            number: Cell::new(0),
            all: Cell::new(0),
            bytes: Cell::new(0),
            came: Cell::new(0),
            fresh: Cell::new(0),
        }
    }

    /// Of a volume whose items are taken off.
    pub fn of_items(rt: &'a HostRuntime) -> Progress<'a> {
        Progress::on(rt, Shown::Items)
    }

    /// Of a file that is written.
    pub fn of_file(rt: &'a HostRuntime) -> Progress<'a> {
        Progress::on(rt, Shown::Bytes)
    }

    /// Of an image that is read, the `number`-th, counted from 1, of so many where that is known.
    pub fn of_image(
        rt: &'a HostRuntime,
        number: u64,
        all: Option<u64>,
        path: &'a str,
    ) -> Progress<'a> {
        Progress::on(rt, Shown::Image(number, all, path))
    }

    /// Takes the line away.
    pub fn end(&self) {
        self.line.end();
    }

    /// Writes how far it is.
    fn show(&self) {
        self.fresh.set(0);
        let (came, bytes) = (self.came.get(), self.bytes.get());
        match self.shown {
            Shown::Items => {
                let (number, all) = (self.number.get(), self.all.get());
                self.line.show_item(number, all, came.min(bytes), bytes);
            }
            Shown::Bytes => self.line.show_bytes(came.min(bytes), bytes),
            Shown::Image(number, all, path) => {
                self.line.show_image(number, all, path, came, bytes);
            }
        }
    }

    /// Begins with an item: its bytes are counted anew.
    fn begin_item(&self, number: u64, all: u64) {
        self.came.set(0);
        if number <= all && number % ITEMS_SHOWN == 0 {
            self.show();
        }
    }
}

impl Watch for Progress<'_> {
    fn began(&self, number: u64, all: u64, bytes: u64) {
        let is_first = self.all.get() == 0;
        self.number.set(number);
        self.all.set(all);
        self.bytes.set(bytes);
        match self.shown {
            Shown::Items => self.begin_item(number, all),
            Shown::Image(_, _, _) if is_first => self.show(),
            Shown::Bytes | Shown::Image(_, _, _) => {}
        }
    }

    fn bytes_came(&self, count: u64) {
        self.came.set(self.came.get().saturating_add(count));
        self.fresh.set(self.fresh.get().saturating_add(count));
        if self.number.get() <= self.all.get() && self.fresh.get() >= BYTES_SHOWN {
            self.show();
        }
    }
}
