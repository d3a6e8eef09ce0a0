//! The items of sources, each of which is the path of a file, of a folder, or of a bag.
ghost use Rattle.std.specs.Prelude.{◌≡◌, IfOk, map, string_bytes, IfErr};
ghost use Rattle.hfs_put_sources.specs.Faults.{FailLater, IsFaultOf, IsListingFault, IsSourceFault};
ghost use Rattle.hfs_put_sources.specs.Sources.{Gives, GivesBy, GiveAll, IsFolderListing, IsListing, beside, is_bag, named_plan, nameless, source_double, source_item, source_plan};
ghost use Rattle.hfs_put_sources.specs.Trees.{OfEachTree};
ghost use Rattle.std.specs.Path.{path_file_name};

use crate::entry::Look;
use crate::fault::{HostFault, cannot_read};
use crate::folder::{FolderPlace, items_in};
use crate::host_paths::{behind_mark, entry_path};
use crate::item::{ItemPlace, SourceItem, read_plan};
use crate::plan::{ItemPlan, PutOptions, is_file, is_folder, plain_plan};
use crate::told::ToldItems;
use crate::tree::HostTree;
use crate::walking::walk;
use std::alloc::{AllocError, Global};
use std::path::Path;

/// The path of the file that belongs, by its name, to a source.
#[tactic(auto, unfolding(crate::specs::Sources::beside))]
fn beside(alloc: Global, source: &str, name: &str) -> Result<String, AllocError>
    ensures { IfOk result (λ path. string_bytes path ≡ beside source.now name.now) }
{
    let name = format!(in alloc; "._{name}")?;
    let path = Path::new(source).with_file_name(alloc, name.as_str())?;
    String::from_str(alloc, path.as_str())
}

/// The same plan, without a name.
fn nameless(plan: ItemPlan) -> ItemPlan
    ensures { result ≡ nameless plan }
{
    let mut plan = plan;
    plan.name = None;
    plan.found.is_named = false;
    plan
}

/// The plan of a source, given its name.
fn named_plan<T: HostTree, B: ToldItems>(
    alloc: Global,
    tree: &mut T,
    told: &B,
    how: PutOptions,
    source: &str,
    look: Look,
    name: &str,
) -> Result<ItemPlan, HostFault>
    ensures plan { IfOk result (λ plan. OfEachTree (T.Holds tree.new)
        (λ host. plan ≡ named_plan host (B.told told.now) how source.now look name.now)) }
    ensures held { OfEachTree (T.Holds tree.new) (T.Holds tree.old) }
    ensures failed { IfErr result (IsFaultOf (T.Fails tree.old)) }
    ensures later { FailLater (T.Fails tree.new) (T.Fails tree.old) }
{
    match behind_mark(name) {
        Some(own) => {
            let at = ItemPlace {
                name: own,
                own: None,
                double: Some(look),
                path: source,
                double_path: source,
            };
            read_plan(alloc, tree, told, how, &at)
        }
        None => {
            let double_path = beside(alloc, source, name)?;
            let double = tree.look(alloc, double_path.as_str())?;
            let at = ItemPlace {
                name,
                own: Some(look),
                double,
                path: source,
                double_path: double_path.as_str(),
            };
            read_plan(alloc, tree, told, how, &at)
        }
    }
}

/// The plan of a source.
fn source_plan<T: HostTree, B: ToldItems>(
    alloc: Global,
    tree: &mut T,
    told: &B,
    how: PutOptions,
    source: &str,
    look: Look,
) -> Result<ItemPlan, HostFault>
    ensures plan { IfOk result (λ plan. OfEachTree (T.Holds tree.new)
        (λ host. plan ≡ source_plan host (B.told told.now) how source.now look (path_file_name source.now))) }
    ensures held { OfEachTree (T.Holds tree.new) (T.Holds tree.old) }
    ensures failed { IfErr result (IsFaultOf (T.Fails tree.old)) }
    ensures later { FailLater (T.Fails tree.new) (T.Fails tree.old) }
{
    match Path::new(source).file_name() {
        Some(name) => named_plan(alloc, tree, told, how, source, look, name),
        None => {
            let plan = plain_plan(how, told.told(source), Some(look), None, "", None);
            Ok(nameless(plan))
        }
    }
}

/// The path of the file that belongs, by its name, to a source.
fn source_double(alloc: Global, source: &str) -> Result<String, AllocError>
    ensures { IfOk result (λ path. string_bytes path ≡ source_double source.now (path_file_name source.now)) }
{
    match Path::new(source).file_name() {
        Some(name) => match behind_mark(name) {
            Some(_) => String::from_str(alloc, source),
            None => beside(alloc, source, name),
        },
        None => String::from_str(alloc, source),
    }
}

/// The item that a source is.
fn source_item<T: HostTree, B: ToldItems>(
    alloc: Global,
    tree: &mut T,
    told: &B,
    how: PutOptions,
    source: &str,
    look: Look,
) -> Result<SourceItem, HostFault>
    ensures item { IfOk result (λ item. OfEachTree (T.Holds tree.new)
        (λ host. item ≡ source_item host (B.told told.now) how source.now look)) }
    ensures held { OfEachTree (T.Holds tree.new) (T.Holds tree.old) }
    ensures failed { IfErr result (IsFaultOf (T.Fails tree.old)) }
    ensures later { FailLater (T.Fails tree.new) (T.Fails tree.old) }
{
    let plan = source_plan(alloc, tree, told, how, source, look)?;
    let path = String::from_str(alloc, source)?;
    let double_path = source_double(alloc, source)?;
    Ok(SourceItem::new(path, double_path, None, plan))
}

/// Whether a source is a bag, from what its path leads to: a folder with `bagit.txt` and `data`. Faults: as for
/// [`HostTree::look`].
pub fn is_bag<T: HostTree>(
    alloc: Global,
    tree: &mut T,
    source: &str,
    look: Look,
) -> Result<bool, HostFault>
    ensures bag { IfOk result (λ found. OfEachTree (T.Holds tree.new)
        (λ host. found ≡ is_bag host source.now look)) }
    ensures held { OfEachTree (T.Holds tree.new) (T.Holds tree.old) }
    ensures failed { IfErr result (IsFaultOf (T.Fails tree.old)) }
    ensures later { FailLater (T.Fails tree.new) (T.Fails tree.old) }
{
    if !is_folder(Some(look)) {
        return Ok(false);
    }
    let declaration = entry_path(alloc, source, "bagit.txt")?;
    let declaration = tree.look(alloc, declaration.as_str())?;
    let payload = entry_path(alloc, source, "data")?;
    let payload = tree.look(alloc, payload.as_str())?;
    Ok(is_file(declaration) && is_folder(payload))
}

/// The items of a source whose path leads to what is seen here.
fn given_by<T: HostTree, B: ToldItems>(
    alloc: Global,
    tree: &mut T,
    told: &B,
    how: PutOptions,
    source: &str,
    look: Look,
) -> Result<Vec<SourceItem>, HostFault>
    ensures items { IfOk result (λ items. OfEachTree (T.Holds tree.new)
        (λ host. GivesBy (is_bag host source.now look) host (B.told told.now) how source.now look items.items)) }
    ensures held { OfEachTree (T.Holds tree.new) (T.Holds tree.old) }
    ensures failed { IfErr result (IsFaultOf (T.Fails tree.old)) }
    ensures later { FailLater (T.Fails tree.new) (T.Fails tree.old) }
{
    if is_bag(alloc, tree, source, look)? {
        let payload = entry_path(alloc, source, "data")?;
        let folder = FolderPlace {
            path: payload.as_str(),
            place: None,
        };
        return items_in(alloc, tree, told, how, &folder);
    }
    let item = source_item(alloc, tree, told, how, source, look)?;
    let mut items = Vec::new(alloc);
    items.push(item)?;
    Ok(items)
}

/// The items of a source.
fn gives<T: HostTree, B: ToldItems>(
    alloc: Global,
    tree: &mut T,
    told: &B,
    how: PutOptions,
    source: &str,
) -> Result<Vec<SourceItem>, HostFault>
    ensures items { IfOk result (λ items. OfEachTree (T.Holds tree.new)
        (λ host. Gives host (B.told told.now) how source.now items.items)) }
    ensures held { OfEachTree (T.Holds tree.new) (T.Holds tree.old) }
    ensures failed { IfErr result (IsSourceFault (T.Fails tree.old) (T.Holds tree.new) source.now) }
    ensures later { FailLater (T.Fails tree.new) (T.Fails tree.old) }
{
    match tree.target(alloc, source)? {
        Some(look) => given_by(alloc, tree, told, how, source, look),
        None => Err(cannot_read(alloc, source)),
    }
}

/// The items of all sources, one after the other.
fn give_all<T: HostTree, B: ToldItems>(
    alloc: Global,
    tree: &mut T,
    told: &B,
    how: PutOptions,
    sources: &[&str],
) -> Result<Vec<SourceItem>, HostFault>
    ensures items { IfOk result (λ items. OfEachTree (T.Holds tree.new)
        (λ host. GiveAll host (B.told told.now) how (map (λ s. s.now) sources.now) items.items)) }
    ensures held { OfEachTree (T.Holds tree.new) (T.Holds tree.old) }
    ensures failed { IfErr result (IsListingFault (T.Fails tree.old) (T.Holds tree.new)
        (map (λ s. s.now) sources.now)) }
    ensures later { FailLater (T.Fails tree.new) (T.Fails tree.old) }
{
    let mut items = Vec::new(alloc);
    for source in sources {
        let mut more = gives(alloc, tree, told, how, source)?;
        items.append(&mut more)?;
    }
    Ok(items)
}

/// The list of everything that is to be put, in the order of the walk: for each source in turn, the file, or the folder and then
/// what is in it, or what is in the `data` of a bag. A source that is a link is followed, but no link below it. What can't be put
/// is listed, but nothing below it. Faults: `CannotRead` of what can't be read or doesn't exist, `NotUtf8` of a folder,
/// `NoMemory`; the first one ends the list.
pub fn list_sources<T: HostTree, B: ToldItems>(
    alloc: Global,
    tree: &mut T,
    told: &B,
    how: PutOptions,
    sources: &[&str],
) -> Result<Vec<SourceItem>, HostFault>
    ensures items { IfOk result (λ items. OfEachTree (T.Holds tree.new)
        (λ host. IsListing host (B.told told.now) how (map (λ s. s.now) sources.now) items.items)) }
    ensures held { OfEachTree (T.Holds tree.new) (T.Holds tree.old) }
    ensures failed { IfErr result (IsListingFault (T.Fails tree.old) (T.Holds tree.new)
        (map (λ s. s.now) sources.now)) }
    ensures later { FailLater (T.Fails tree.new) (T.Fails tree.old) }
{
    let top = give_all(alloc, tree, told, how, sources)?;
    walk(alloc, tree, told, how, top)
}

/// The list of everything in a folder, in the order of the walk, as [`list_sources`] lists what is in the `data` of a bag.
/// Faults: as for [`list_sources`].
pub fn list_folder<T: HostTree, B: ToldItems>(
    alloc: Global,
    tree: &mut T,
    told: &B,
    how: PutOptions,
    path: &str,
) -> Result<Vec<SourceItem>, HostFault>
    ensures items { IfOk result (λ items. OfEachTree (T.Holds tree.new)
        (λ host. IsFolderListing host (B.told told.now) how path.now items.items)) }
    ensures held { OfEachTree (T.Holds tree.new) (T.Holds tree.old) }
    ensures failed { IfErr result (IsFaultOf (T.Fails tree.old)) }
    ensures later { FailLater (T.Fails tree.new) (T.Fails tree.old) }
{
    let folder = FolderPlace { path, place: None };
    let top = items_in(alloc, tree, told, how, &folder)?;
    walk(alloc, tree, told, how, top)
}
