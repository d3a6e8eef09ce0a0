//! Items that are to be put on a disk.
ghost use Rattle.std.specs.Prelude.{◌≡◌, IfOk, MatchOption, None, OnOk, Some, string_bytes, IfErr};
ghost use Rattle.hfs_put_sources.specs.Faults.{FailLater, IsFaultOf};
ghost use Rattle.hfs_put_sources.specs.Forks.{fork_path, fork_span};
ghost use Rattle.hfs_put_sources.specs.Items.{planned_item};
ghost use Rattle.hfs_put_sources.specs.Plans.{double_at, header_at, plan_at, plan_by};
ghost use Rattle.hfs_put_sources.specs.Trees.{OfEachTree};
ghost use Rattle.hfs_put_sources.specs.Walks.{with_twin};

use crate::contents::{read_double, read_header};
use crate::entry::Look;
use crate::fault::HostFault;
use crate::plan::{ForkSpan, ItemPlan, PutOptions, is_file, macbinary_plan, plain_plan};
use crate::told::ToldItems;
use crate::tree::HostTree;
use hfs_encodings::{AppleDoubleFile, MacBinaryFile};
use hfs_model::Fork;
use std::alloc::Global;
use std::marker::Model;

/// An item that is to be put on a disk. Contracts see its path on the host, the path of the file that belongs to it by its name,
/// the place of its parent among the items, and its plan.
#[derive(Drop)]
pub struct SourceItem {
    path: String,
    double: Option<String>,
    parent: Option<usize>,
    plan: ItemPlan,
}

impl Model for SourceItem {
    ghost use Rattle.std.specs.Prelude.{option_map, string_bytes};
    ghost use Rattle.hfs_put_sources.specs.Items.{PlannedItem};

    ghost Value = { PlannedItem };

    ghost view = { λ item. record {
      path = string_bytes item.path;
      double = option_map string_bytes item.double;
      parent = item.parent;
      plan = item.plan;
    } };
}

impl SourceItem {
    /// An item with this path, and the path of the file that belongs to it, if there is one.
    pub(crate) fn new(
        path: String,
        double_path: String,
        parent: Option<usize>,
        plan: ItemPlan,
    ) -> SourceItem
        ensures { result ≡ planned_item (string_bytes path) (string_bytes double_path) parent plan }
    {
        let double = match plan.double {
            Some(_) => Some(double_path),
            None => None,
        };
        SourceItem {
            path,
            double,
            parent,
            plan,
        }
    }

    /// Its path on the host.
    pub fn path(&self) -> &str
        ensures { result.now ≡ self.now.path }
    {
        self.path.as_str()
    }

    /// The path on the host of the file that belongs to it by its name; None if there is none, or if it is ignored.
    pub fn double(&self) -> Option<&str>
        ensures { MatchOption result (self.now.double ≡ None)
            (λ path. self.now.double ≡ Some path.now) }
    {
        match &self.double {
            Some(path) => Some(path.as_str()),
            None => None,
        }
    }

    /// The place, among the items of the walk, of the folder that it is in; None for the sources themselves.
    pub fn parent(&self) -> Option<usize>
        ensures { result ≡ self.now.parent }
    {
        self.parent
    }

    /// The path on the host of the file that has one of its forks: a MacBinary file has both itself; otherwise the resource fork
    /// is in the file that belongs to it by its name. None if there is no such file.
    pub fn fork_path(&self, fork: Fork) -> Option<&str>
        ensures { MatchOption result (fork_path self.now fork ≡ None)
            (λ path. fork_path self.now fork ≡ Some path.now) }
    {
        match fork {
            Fork::DataFork => Some(self.path()),
            Fork::ResFork => {
                if self.plan().is_macbinary {
                    Some(self.path())
                } else {
                    self.double()
                }
            }
        }
    }

    /// Where the fork lies in that file.
    pub fn fork_span(&self, fork: Fork) -> ForkSpan
        ensures { result ≡ fork_span self.now.plan fork }
    {
        match fork {
            Fork::DataFork => self.plan().data_fork,
            Fork::ResFork => self.plan().resource_fork,
        }
    }

    /// The same item, with a note whether an earlier one in its folder has its name.
    pub(crate) fn with_twin(self, twin: bool) -> SourceItem
        ensures { result ≡ with_twin self twin }
    {
        let mut item = self;
        item.plan.found.is_first = !twin;
        item
    }

    /// The plan of the item.
    pub fn plan(&self) -> ItemPlan
        ensures { result ≡ self.now.plan }
    {
        self.plan
    }
}

/// An item's name, what is seen of its own entry and of the one that belongs to it, and the paths of both.
#[derive(Clone, Copy)]
pub(crate) struct ItemPlace<'a> {
    pub(crate) name: &'a str,
    pub(crate) own: Option<Look>,
    pub(crate) double: Option<Look>,
    pub(crate) path: &'a str,
    pub(crate) double_path: &'a str,
}

/// What an item's own file holds as MacBinary, if that is asked for.
fn own_header<T: HostTree>(
    alloc: Global,
    tree: &mut T,
    how: PutOptions,
    own: Option<Look>,
    path: &str,
) -> Result<Option<MacBinaryFile>, HostFault>
    ensures found { IfOk result (λ found. OfEachTree (T.Holds tree.new)
        (λ host. found ≡ header_at host how own path.now)) }
    ensures held { OfEachTree (T.Holds tree.new) (T.Holds tree.old) }
    ensures failed { IfErr result (IsFaultOf (T.Fails tree.old)) }
    ensures later { FailLater (T.Fails tree.new) (T.Fails tree.old) }
{
    if how.macbinary && is_file(own) {
        read_header(alloc, tree, path)
    } else {
        Ok(None)
    }
}

/// What the AppleDouble file that belongs to an item holds.
fn own_double<T: HostTree>(
    alloc: Global,
    tree: &mut T,
    double: Option<Look>,
    path: &str,
) -> Result<Option<AppleDoubleFile>, HostFault>
    ensures found { IfOk result (λ found. OfEachTree (T.Holds tree.new)
        (λ host. found ≡ double_at host double path.now)) }
    ensures held { OfEachTree (T.Holds tree.new) (T.Holds tree.old) }
    ensures failed { IfErr result (IsFaultOf (T.Fails tree.old)) }
    ensures later { FailLater (T.Fails tree.new) (T.Fails tree.old) }
{
    if is_file(double) {
        read_double(alloc, tree, path)
    } else {
        Ok(None)
    }
}

/// The plan of an item.
pub(crate) fn read_plan<T: HostTree, B: ToldItems>(
    alloc: Global,
    tree: &mut T,
    told: &B,
    how: PutOptions,
    at: &ItemPlace<'_>,
) -> Result<ItemPlan, HostFault>
    ensures plan { IfOk result (λ plan. OfEachTree (T.Holds tree.new)
        (λ host. plan ≡ plan_at host how (B.told told.now at.now.path.now)
        at.now.own at.now.double at.now.name.now at.now.path.now
        at.now.double_path.now)) }
    ensures held { OfEachTree (T.Holds tree.new) (T.Holds tree.old) }
    ensures failed { IfErr result (IsFaultOf (T.Fails tree.old)) }
    ensures later { FailLater (T.Fails tree.new) (T.Fails tree.old) }
{
    let facts = told.told(at.path);
    match own_header(alloc, tree, how, at.own, at.path)? {
        Some(file) => Ok(macbinary_plan(how, facts, at.own, file)),
        None => {
            let double = own_double(alloc, tree, at.double, at.double_path)?;
            Ok(plain_plan(how, facts, at.own, at.double, at.name, double))
        }
    }
}
