//! What the tables of bags say about what is in them.
ghost use Rattle.std.specs.Prelude.{IfOk, OnOk, map, IfErr};
ghost use Rattle.hfs_put_sources.specs.Faults.{FailLater, IsFaultOf};
ghost use Rattle.hfs_put_sources.specs.Trees.{OfEachTree};
ghost use Rattle.hfs_put_sources.specs.Later.{Tells, told_at};
ghost use Rattle.hfs_put_sources.specs.Told.{AreFactsOf, told_by_source};

use crate::by_path::ByPath;
use crate::facts_table::note_table;
use crate::tag_text::tag_text;
use crate::{HostFault, HostTree, ToldItems, entry_path};
use hfs_put_plan::ToldFacts;
use std::alloc::Global;
use std::marker::Model;

/// Lock and dates of what is in bags, as their tables of items give them, by paths on the host. An entry takes some 100 bytes and
/// its path. Contracts see the list of both.
#[derive(Drop)]
pub struct BagFacts {
    facts: ByPath<ToldFacts>,
}

impl Model for BagFacts {
    ghost use Rattle.hfs_put_plan.specs.declared.facts.ToldFacts.{ToldFacts};
    ghost use Rattle.hfs_put_sources.specs.Later.{Entries};

    ghost Value = { Entries ToldFacts };

    ghost view = { λ bags. bags.facts };
}

/// Notes what the table of a source says, if that is a bag and has one.
fn note_source<T: HostTree>(
    alloc: Global,
    tree: &mut T,
    source: &str,
    facts: &mut ByPath<ToldFacts>,
) -> Result<(), HostFault>
    ensures told { OnOk result (OfEachTree (T.Holds tree.new)
        (λ host. Tells (λ path. told_by_source host path source.now) facts.old facts.new)) }
    ensures held { OfEachTree (T.Holds tree.new) (T.Holds tree.old) }
    ensures failed { IfErr result (IsFaultOf (T.Fails tree.old)) }
    ensures later { FailLater (T.Fails tree.new) (T.Fails tree.old) }
{
    let text = tag_text(alloc, tree, source, "items.csv")?;
    let front = entry_path(alloc, source, "data/")?;
    note_table(alloc, front.as_str(), &text, facts)?;
    Ok(())
}

impl BagFacts {
    /// What the tables of those sources say that are bags: the `items.csv` of each, which is held while it is read. A row that
    /// isn't an item's says nothing, and of two with the same path the later counts. Faults: `CannotRead` of what can't be read,
    /// `NoMemory`; the first one ends it.
    pub fn read<T: HostTree>(
        alloc: Global,
        tree: &mut T,
        sources: &[&str],
    ) -> Result<BagFacts, HostFault>
        ensures facts { IfOk result (λ facts. OfEachTree (T.Holds tree.new)
            (AreFactsOf (map (λ s. s.now) sources.now) facts)) }
        ensures held { OfEachTree (T.Holds tree.new) (T.Holds tree.old) }
        ensures failed { IfErr result (IsFaultOf (T.Fails tree.old)) }
        ensures later { FailLater (T.Fails tree.new) (T.Fails tree.old) }
    {
        let mut facts = ByPath::new(alloc);
        for source in sources {
            note_source(alloc, tree, source, &mut facts)?;
        }
        Ok(BagFacts { facts })
    }
}

impl ToldItems for BagFacts {
    ghost told = { told_at };

    fn told(&self, path: &str) -> Option<ToldFacts> {
        self.facts.get(path.as_bytes())
    }
}
