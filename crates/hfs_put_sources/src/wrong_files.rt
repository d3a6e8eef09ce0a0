//! Files of bags whose bytes have another digest than their manifests give.
ghost use Rattle.std.specs.Prelude.{◌≡◌, IfOk, option_map, IfErr};
ghost use Rattle.sha2.specs.Sha256.{sha256};
ghost use Rattle.hfs_put_sources.specs.Faults.{FailLater, IsFaultOf};
ghost use Rattle.hfs_put_sources.specs.Trees.{OfEachTree};
ghost use Rattle.hfs_put_sources.specs.Digests.{double_path, first_wrong, is_wrong, own_path, wrong_at, wrong_of};
ghost use Rattle.hfs_put_sources.specs.Later.{told_at};

use crate::manifest_digests::ManifestDigests;
use crate::{HostFault, HostTree, SourceItem, cannot_read, is_file};
use hfs_bag::file_digest;
use std::alloc::Global;

/// The SHA-256 digest of the file at a path, which is read once, in pieces. Faults: `CannotRead` of the path, `NoMemory`.
fn digest_at<T: HostTree>(alloc: Global, tree: &mut T, path: &str) -> Result<[u8; 32], HostFault>
    ensures digest { IfOk result (λ digest. OfEachTree (T.Holds tree.new)
        (λ host. digest ≡ sha256 (host.bytes path.now))) }
    ensures held { OfEachTree (T.Holds tree.new) (T.Holds tree.old) }
    ensures failed { IfErr result (IsFaultOf (T.Fails tree.old)) }
    ensures later { FailLater (T.Fails tree.new) (T.Fails tree.old) }
{
    let mut file = tree.open(alloc, path)?;
    let Ok(digest) = file_digest(&mut file) else {
        return Err(cannot_read(alloc, path));
    };
    tree.take_back(path, file);
    Ok(digest)
}

/// Whether the file at a path has another digest than the one that is given for it. A file without a given digest isn't read.
fn is_wrong<T: HostTree>(
    alloc: Global,
    tree: &mut T,
    manifests: &ManifestDigests,
    path: &str,
) -> Result<bool, HostFault>
    ensures wrong { IfOk result (λ wrong. OfEachTree (T.Holds tree.new)
        (λ host. wrong ≡ is_wrong host (told_at manifests.now path.now) path.now)) }
    ensures held { OfEachTree (T.Holds tree.new) (T.Holds tree.old) }
    ensures failed { IfErr result (IsFaultOf (T.Fails tree.old)) }
    ensures later { FailLater (T.Fails tree.new) (T.Fails tree.old) }
{
    match manifests.digest(path) {
        Some(told) => Ok(digest_at(alloc, tree, path)? != told),
        None => Ok(false),
    }
}

/// The path, if the file that it leads to is wrong in this way.
fn wrong_at<'a, T: HostTree>(
    alloc: Global,
    tree: &mut T,
    manifests: &ManifestDigests,
    path: Option<&'a str>,
) -> Result<Option<&'a str>, HostFault>
    ensures wrong { IfOk result (λ wrong. OfEachTree (T.Holds tree.new)
        (λ host. option_map (λ p. p.now) wrong
        ≡ wrong_at host (told_at manifests.now) (option_map (λ p. p.now) path.entry))) }
    ensures held { OfEachTree (T.Holds tree.new) (T.Holds tree.old) }
    ensures failed { IfErr result (IsFaultOf (T.Fails tree.old)) }
    ensures later { FailLater (T.Fails tree.new) (T.Fails tree.old) }
{
    let Some(path) = path else {
        return Ok(None);
    };
    if is_wrong(alloc, tree, manifests, path)? {
        Ok(Some(path))
    } else {
        Ok(None)
    }
}

/// The path of an item's own file, if it has one.
fn own_path(item: &SourceItem) -> Option<&str>
    ensures { option_map (λ p. p.now) result ≡ own_path item.now }
{
    if is_file(item.plan().own) {
        Some(item.path())
    } else {
        None
    }
}

/// The path of the file that belongs to it by its name, if there is one that counts.
fn double_path(item: &SourceItem) -> Option<&str>
    ensures { option_map (λ p. p.now) result ≡ double_path item.now }
{
    if is_file(item.plan().double) {
        item.double()
    } else {
        None
    }
}

/// The path of the first of an item's files that is wrong.
fn wrong_of<'a, T: HostTree>(
    alloc: Global,
    tree: &mut T,
    manifests: &ManifestDigests,
    item: &'a SourceItem,
) -> Result<Option<&'a str>, HostFault>
    ensures wrong { IfOk result (λ wrong. OfEachTree (T.Holds tree.new)
        (λ host. option_map (λ p. p.now) wrong ≡ wrong_of host (told_at manifests.now) item.now)) }
    ensures held { OfEachTree (T.Holds tree.new) (T.Holds tree.old) }
    ensures failed { IfErr result (IsFaultOf (T.Fails tree.old)) }
    ensures later { FailLater (T.Fails tree.new) (T.Fails tree.old) }
{
    match wrong_at(alloc, tree, manifests, own_path(item))? {
        Some(path) => Ok(Some(path)),
        None => wrong_at(alloc, tree, manifests, double_path(item)),
    }
}

/// The path of the first file of these items whose bytes have another SHA-256 digest than the manifests give: for each item its
/// own file, and then the one that belongs to it by its name. A file without a given digest isn't read; other files are read
/// once, in pieces. Faults: `CannotRead` of what can't be read, `NoMemory`; the first one ends it.
pub fn first_wrong_file<'a, T: HostTree>(
    alloc: Global,
    tree: &mut T,
    manifests: &ManifestDigests,
    items: &'a [SourceItem],
) -> Result<Option<&'a str>, HostFault>
    ensures wrong { IfOk result (λ wrong. OfEachTree (T.Holds tree.new)
        (λ host. option_map (λ p. p.now) wrong ≡ first_wrong host (told_at manifests.now) items.now)) }
    ensures held { OfEachTree (T.Holds tree.new) (T.Holds tree.old) }
    ensures failed { IfErr result (IsFaultOf (T.Fails tree.old)) }
    ensures later { FailLater (T.Fails tree.new) (T.Fails tree.old) }
{
    for item in items {
        if let Some(path) = wrong_of(alloc, tree, manifests, item)? {
            return Ok(Some(path));
        }
    }
    Ok(None)
}
