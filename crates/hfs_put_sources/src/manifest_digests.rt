//! The digests that the manifests of bags give for their files.
ghost use Rattle.std.specs.Prelude.{◌≡◌, IfOk, OnOk, map, IfErr};
ghost use Rattle.hfs_put_sources.specs.Faults.{FailLater, IsFaultOf};
ghost use Rattle.hfs_put_sources.specs.Trees.{OfEachTree};
ghost use Rattle.hfs_put_sources.specs.Digests.{AreDigestsOf, digest_by_line, digest_by_lines, digest_by_source};
ghost use Rattle.hfs_put_sources.specs.Later.{Tells, told_at};

use crate::by_path::ByPath;
use crate::tag_paths::path_behind;
use crate::tag_text::{tag_text, without_return};
use crate::{HostFault, HostTree, entry_path, manifest_line, next_line};
use std::alloc::{AllocError, Global};
use std::marker::Model;

/// The SHA-256 digests of files in bags, as their manifests give them, by paths on the host. An entry takes some 100 bytes and
/// its path. Contracts see the list of both.
#[derive(Drop)]
pub struct ManifestDigests {
    digests: ByPath<[u8; 32]>,
}

impl Model for ManifestDigests {
    ghost use Rattle.std.specs.Prelude.{ℕ, List};
    ghost use Rattle.hfs_put_sources.specs.Later.{Entries};

    ghost Value = { Entries (List ℕ) };

    ghost view = { λ manifests. manifests.digests };
}

/// Notes what a line says, with this in front of its path.
fn note_line(
    alloc: Global,
    front: &str,
    line: &[u8],
    digests: &mut ByPath<[u8; 32]>,
) -> Result<(), AllocError>
    ensures { OnOk result (Tells (λ path. digest_by_line front.now path line.now) digests.old digests.new) }
{
    let Some(found) = manifest_line(without_return(line)) else {
        return Ok(());
    };
    let digest = found.0;
    let path = path_behind(alloc, front, found.1)?;
    digests.put(path, digest)
}

/// Notes what the lines of a manifest say, with this in front of their paths.
fn note_lines(
    alloc: Global,
    front: &str,
    text: &[u8],
    digests: &mut ByPath<[u8; 32]>,
) -> Result<(), AllocError>
    ensures { OnOk result (Tells (digest_by_lines front.now text.now) digests.old digests.new) }
{
    let mut rest = text;
    while !rest.is_empty() {
        let (line, behind) = next_line(rest);
        note_line(alloc, front, line, digests)?;
        rest = behind;
    }
    Ok(())
}

/// Notes what the manifest of a source says, if that is a bag and has one.
fn note_source<T: HostTree>(
    alloc: Global,
    tree: &mut T,
    source: &str,
    digests: &mut ByPath<[u8; 32]>,
) -> Result<(), HostFault>
    ensures told { OnOk result (OfEachTree (T.Holds tree.new)
        (λ host. Tells (λ path. digest_by_source host path source.now) digests.old digests.new)) }
    ensures held { OfEachTree (T.Holds tree.new) (T.Holds tree.old) }
    ensures failed { IfErr result (IsFaultOf (T.Fails tree.old)) }
    ensures later { FailLater (T.Fails tree.new) (T.Fails tree.old) }
{
    let text = tag_text(alloc, tree, source, "manifest-sha256.txt")?;
    let front = entry_path(alloc, source, "")?;
    note_lines(alloc, front.as_str(), &text, digests)?;
    Ok(())
}

impl ManifestDigests {
    /// What the manifests of those sources say that are bags: the `manifest-sha256.txt` of each, which is held while it is read.
    /// A line that isn't a manifest's says nothing, and of two with the same path the later counts. Faults: `CannotRead` of what
    /// can't be read, `NoMemory`; the first one ends it.
    pub fn read<T: HostTree>(
        alloc: Global,
        tree: &mut T,
        sources: &[&str],
    ) -> Result<ManifestDigests, HostFault>
        ensures digests { IfOk result (λ digests. OfEachTree (T.Holds tree.new)
            (AreDigestsOf (map (λ s. s.now) sources.now) digests)) }
        ensures held { OfEachTree (T.Holds tree.new) (T.Holds tree.old) }
        ensures failed { IfErr result (IsFaultOf (T.Fails tree.old)) }
        ensures later { FailLater (T.Fails tree.new) (T.Fails tree.old) }
    {
        let mut digests = ByPath::new(alloc);
        for source in sources {
            note_source(alloc, tree, source, &mut digests)?;
        }
        Ok(ManifestDigests { digests })
    }

    /// The digest of the file at a path, if one is given.
    pub fn digest(&self, path: &str) -> Option<[u8; 32]>
        ensures { result ≡ told_at self.now path.now }
    {
        self.digests.get(path.as_bytes())
    }
}
