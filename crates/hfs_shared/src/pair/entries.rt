//! The changes of a journal, as they are added to a pair.
ghost use Rattle.std.specs.Prelude.{◌≡◌, ◌≤◌, true, false, length, take};
ghost use Rattle.hfs_shared.specs.Answers.{IsAllOrNothing};
ghost use Rattle.hfs_shared.specs.Journals.{is_accepted, changes, NoneAccepted};
ghost use Rattle.hfs_shared.specs.Pairs.{with_added, with_entry};

use crate::pair::Pair;
use hfs_model::Entry;

impl Pair {
    /// Adds the accepted changes of the next entries of a journal, as far as memory allows. Returns how many of the entries are
    /// done.
    pub fn add_entries(&mut self, entries: &[Entry]) -> usize
        ensures within { result ≤ length entries.now }
        ensures added { self.new ≡ with_added self.old (changes (take result entries.now)) }
        ensures idle { NoneAccepted entries.now → result ≡ length entries.now }
    {
        for at in 0..entries.len() {
            if !self.add_entry(&entries[at]) {
                return at;
            }
        }
        entries.len()
    }

    // Adds the change of an entry, if it is one that was accepted, and returns whether the entry is done.
    fn add_entry(&mut self, entry: &Entry) -> bool
        ensures added { IsAllOrNothing result (with_entry self.old entry.now) self.old self.new }
        ensures idle { is_accepted entry.now ≡ false → result ≡ true }
    {
        if !is_accepted(entry) {
            return true;
        }
        self.add(&entry.call)
    }
}

// Whether the entry is a change that was accepted.
fn is_accepted(entry: &Entry) -> bool
    ensures { result ≡ is_accepted entry.now }
{
    !entry.call.is_reading() && entry.code == 0
}
