//! Rows of records that are written into a node, wherever their bytes lie.
ghost use Rattle.std.specs.Prelude.{◌≡◌, ℕ, ◌<◌, ◌≤◌, List, [], length, take, drop, insert, slice_set, slice_index_or};

use crate::node_view::NodeView;
use crate::records::Records;

/// Records in order.
pub trait RecordRow {
    ghost records: { Self → List (List ℕ) };

    /// How many records there are.
    fn len(&self) -> usize
        ensures { result ≡ length (records self.now) };

    /// Record `i`, counted from 0.
    fn record(&self, i: usize) -> &[u8]
        requires { i < length (records self.now) }
        ensures { result.now ≡ slice_index_or (records self.now) i [] };
}

/// Records in memory.
impl RecordRow for Records {
    ghost records = { λ s. s };

    fn len(&self) -> usize {
        self.len()
    }

    fn record(&self, i: usize) -> &[u8] {
        self.record(i)
    }
}

/// The records of a node that is read in its bytes.
impl RecordRow for NodeView<'_> {
    ghost records = { λ s. s.records };

    fn len(&self) -> usize {
        self.len()
    }

    fn record(&self, i: usize) -> &[u8] {
        self.record(i)
    }
}

/// The records of a node, with another one in place of one of them.
#[derive(Drop)]
pub struct ReplacedRow<'a> {
    /// The node.
    pub node: &'a NodeView<'a>,
    /// The place of the record that goes.
    pub place: usize,
    /// The record that comes.
    pub entry: &'a [u8],
    ghost within: { place < length node.now.records },
}

impl RecordRow for ReplacedRow<'_> {
    ghost records = { λ s. slice_set s.node.now.records s.place s.entry.now };

    fn len(&self) -> usize {
        self.node.len()
    }

    fn record(&self, i: usize) -> &[u8] {
        if i == self.place {
            self.entry
        } else {
            self.node.record(i)
        }
    }
}

/// The records of a node, with one more in front of the one at a place, or after the last.
#[derive(Drop)]
pub struct InsertedRow<'a> {
    /// The node.
    pub node: &'a NodeView<'a>,
    /// The place of the record that comes.
    pub place: usize,
    /// The record that comes.
    pub entry: &'a [u8],
    ghost within: { place ≤ length node.now.records },
}

impl RecordRow for InsertedRow<'_> {
    ghost records = { λ s. insert s.node.now.records s.place s.entry.now };

    fn len(&self) -> usize {
        self.node.len() + 1
    }

    fn record(&self, i: usize) -> &[u8] {
        if i < self.place {
            self.node.record(i)
        } else if i == self.place {
            self.entry
        } else {
            self.node.record(i - 1)
        }
    }
}
