//! What is notified of how far long work is.

/// What is notified of how far long work is: which of how many things it has begun with, and how many bytes of that have come.
pub trait Watch {
    /// The work began with the `number`-th of `all` things, counted from 1, of which this many bytes are to come: an item with its
    /// forks, or a file. It may begin with one again.
    fn began(&self, number: u64, all: u64, bytes: u64);

    /// This many more bytes came: of the thing that it began with last or, after the last item, of a table.
    fn bytes_came(&self, count: u64);
}
