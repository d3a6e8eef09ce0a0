//! The name that a new volume gets from its sources.
ghost use Rattle.std.specs.Path.{path_file_name};
ghost use Rattle.std.specs.Prelude.{◌≡◌, IfErr, IfOk, map};
ghost use Rattle.hfs_put_sources.specs.Tags.{name_told};
ghost use Rattle.hfs_put_sources.specs.Faults.{FailLater, IsListingFault, IsSourceFault};
ghost use Rattle.hfs_put_sources.specs.Trees.{OfEachTree};
ghost use Rattle.hfs_word_make.specs.SourceNames.{IsReadAs, found_name, look_name, part_name, plain_name, source_name, target_name};

use hfs_format::{MakeFault, NameSource, VolumeName, read_name};
use hfs_put_plan::EntryKind;
use hfs_put_sources::{HostFault, HostTree, Look, bag_name, cannot_read};
use std::alloc::Global;
use std::path::Path;
use std::str::from_utf8;

/// The name from the plain text that a bag gives for its disk.
fn plain_name(text: &[u8]) -> Result<VolumeName, MakeFault>
    ensures { IsReadAs (plain_name text.now) result }
{
    match from_utf8(text) {
        Ok(text) => read_name(NameSource::PlainText(text)),
        Err(_) => read_name(NameSource::Nameless),
    }
}

/// The name from the last part of a path.
fn part_name(path: &str) -> Result<VolumeName, MakeFault>
    ensures { IsReadAs (part_name (path_file_name path.now)) result }
{
    match Path::new(path).file_name() {
        Some(name) => read_name(NameSource::FolderName(name)),
        None => read_name(NameSource::Nameless),
    }
}

/// The name from what is seen of a source; a file gives none.
fn look_name(look: Look, source: &str) -> Result<VolumeName, MakeFault>
    ensures { IsReadAs (look_name look.kind source.now) result }
{
    match look.kind {
        EntryKind::Folder => part_name(source),
        EntryKind::File(_) => read_name(NameSource::Nameless),
        EntryKind::Other => read_name(NameSource::Nameless),
    }
}

/// The name from what a source leads to.
fn target_name<T: HostTree>(
    alloc: Global,
    tree: &mut T,
    source: &str,
) -> Result<Result<VolumeName, MakeFault>, HostFault>
    ensures name { IfOk result (λ read. OfEachTree (T.Holds tree.new)
        (λ host. IsReadAs (target_name (host.target source.now) source.now) read)) }
    ensures held { OfEachTree (T.Holds tree.new) (T.Holds tree.old) }
    ensures failed { IfErr result (IsSourceFault (T.Fails tree.old) (T.Holds tree.new) source.now) }
    ensures later { FailLater (T.Fails tree.new) (T.Fails tree.old) }
{
    match tree.target(alloc, source)? {
        Some(look) => Ok(look_name(look, source)),
        None => Err(cannot_read(alloc, source)),
    }
}

/// The name from one source.
#[tactic(auto, using(hfs_put_sources::proofs::SourceFaults::source_before))]
fn source_name<T: HostTree>(
    alloc: Global,
    tree: &mut T,
    source: &str,
) -> Result<Result<VolumeName, MakeFault>, HostFault>
    ensures name { IfOk result (λ read. OfEachTree (T.Holds tree.new)
        (λ host. IsReadAs (source_name (name_told host source.now) host source.now) read)) }
    ensures held { OfEachTree (T.Holds tree.new) (T.Holds tree.old) }
    ensures failed { IfErr result (IsSourceFault (T.Fails tree.old) (T.Holds tree.new) source.now) }
    ensures later { FailLater (T.Fails tree.new) (T.Fails tree.old) }
{
    match bag_name(alloc, tree, source)? {
        Some(text) => Ok(plain_name(&text)),
        None => target_name(alloc, tree, source),
    }
}

/// The name of a volume from its sources: from one bag, the name that it gives for its disk; from one folder, the last part of
/// its path. `BadName` if there is none, or one that no volume may have. Faults: `CannotRead` of what can't be read or doesn't
/// exist, `NoMemory`.
#[tactic(auto, using(hfs_put_sources::proofs::SourceFaults::of_one))]
pub fn found_name<T: HostTree>(
    alloc: Global,
    tree: &mut T,
    sources: &[&str],
) -> Result<Result<VolumeName, MakeFault>, HostFault>
    ensures name { IfOk result (λ read. OfEachTree (T.Holds tree.new)
        (λ host. IsReadAs (found_name host (map (λ s. s.now) sources.now)) read)) }
    ensures held { OfEachTree (T.Holds tree.new) (T.Holds tree.old) }
    ensures failed { IfErr result (IsListingFault (T.Fails tree.old) (T.Holds tree.new)
        (map (λ s. s.now) sources.now)) }
    ensures later { FailLater (T.Fails tree.new) (T.Fails tree.old) }
{
    match sources {
        [] => Ok(read_name(NameSource::Nameless)),
        [source] => source_name(alloc, tree, source),
        [_, _, ..] => Ok(read_name(NameSource::Nameless)),
    }
}
