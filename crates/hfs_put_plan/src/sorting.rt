//! The order in which a folder's entries are taken.
ghost use Rattle.hfs_put_plan.specs.Entries.{AreInOrder};

use crate::entries::{Entry, entry_order};

/// Puts the entries of a folder in the order in which they are taken.
pub fn sort_entries(entries: &mut [Entry<'_>])
    ensures { AreInOrder entries.old entries.new }
{
    entries.sort_unstable_by(|a, b| entry_order(a.name, b.name));
}
