//! The list of what is put on a new volume.
ghost use Rattle.std.specs.Prelude.{◌≡◌, ◌∷◌, [], IfErr, IfOk, map};
ghost use Rattle.hfs_put_sources.specs.Faults.{FailLater, IsFaultOf, IsListingFault};
ghost use Rattle.hfs_put_sources.specs.Trees.{OfEachTree};
ghost use Rattle.hfs_word_make.specs.Lists.{IsListOf, IsNewList, is_folder_kind, is_plain, is_plain_folder};

use hfs_put_plan::EntryKind;
use hfs_put_sources::{
    HostFault, HostTree, Look, PutOptions, SourceItem, ToldItems, is_bag, list_folder, list_sources,
};
use std::alloc::Global;

/// Whether it is a folder.
fn is_folder(look: Look) -> bool
    ensures { result ≡ is_folder_kind look.kind }
{
    match look.kind {
        EntryKind::Folder => true,
        EntryKind::File(_) => false,
        EntryKind::Other => false,
    }
}

/// Whether a source that leads to what is seen here is a folder and no bag.
fn is_plain<T: HostTree>(
    alloc: Global,
    tree: &mut T,
    source: &str,
    look: Look,
) -> Result<bool, HostFault>
    ensures plain { IfOk result (λ plain. OfEachTree (T.Holds tree.new)
        (λ host. plain ≡ is_plain host source.now look)) }
    ensures held { OfEachTree (T.Holds tree.new) (T.Holds tree.old) }
    ensures failed { IfErr result (IsFaultOf (T.Fails tree.old)) }
    ensures later { FailLater (T.Fails tree.new) (T.Fails tree.old) }
{
    if is_folder(look) {
        Ok(!is_bag(alloc, tree, source, look)?)
    } else {
        Ok(false)
    }
}

/// Whether a source is a folder and no bag.
fn is_plain_folder<T: HostTree>(
    alloc: Global,
    tree: &mut T,
    source: &str,
) -> Result<bool, HostFault>
    ensures plain { IfOk result (λ plain. OfEachTree (T.Holds tree.new)
        (λ host. plain ≡ is_plain_folder (host.target source.now) host source.now)) }
    ensures held { OfEachTree (T.Holds tree.new) (T.Holds tree.old) }
    ensures failed { IfErr result (IsFaultOf (T.Fails tree.old)) }
    ensures later { FailLater (T.Fails tree.new) (T.Fails tree.old) }
{
    match tree.target(alloc, source)? {
        Some(look) => is_plain(alloc, tree, source, look),
        None => Ok(false),
    }
}

/// The list of one source; for a folder that is no bag, what is in it.
#[tactic(auto, using(hfs_put_sources::proofs::SourceFaults::listing_before))]
fn list_one<T: HostTree, B: ToldItems>(
    alloc: Global,
    tree: &mut T,
    told: &B,
    how: PutOptions,
    source: &str,
) -> Result<Vec<SourceItem>, HostFault>
    ensures items { IfOk result (λ items. OfEachTree (T.Holds tree.new)
        (λ host. IsListOf (is_plain_folder (host.target source.now) host source.now)
        host (B.told told.now) how source.now items.items)) }
    ensures held { OfEachTree (T.Holds tree.new) (T.Holds tree.old) }
    ensures failed { IfErr result (IsListingFault (T.Fails tree.old) (T.Holds tree.new)
        (source.now ∷ [])) }
    ensures later { FailLater (T.Fails tree.new) (T.Fails tree.old) }
{
    if is_plain_folder(alloc, tree, source)? {
        list_folder(alloc, tree, told, how, source)
    } else {
        list_sources(alloc, tree, told, how, &[source])
    }
}

/// The list of what is put on a new volume: for one folder that is no bag, what is in it; otherwise what `put` puts. Faults: as
/// for `list_sources` of `hfs_put_sources`.
pub fn list_new<T: HostTree, B: ToldItems>(
    alloc: Global,
    tree: &mut T,
    told: &B,
    how: PutOptions,
    sources: &[&str],
) -> Result<Vec<SourceItem>, HostFault>
    ensures items { IfOk result (λ items. OfEachTree (T.Holds tree.new)
        (λ host. IsNewList host (B.told told.now) how (map (λ s. s.now) sources.now) items.items)) }
    ensures held { OfEachTree (T.Holds tree.new) (T.Holds tree.old) }
    ensures failed { IfErr result (IsListingFault (T.Fails tree.old) (T.Holds tree.new)
        (map (λ s. s.now) sources.now)) }
    ensures later { FailLater (T.Fails tree.new) (T.Fails tree.old) }
{
    match sources {
        [source] => list_one(alloc, tree, told, how, source),
        _ => list_sources(alloc, tree, told, how, sources),
    }
}
