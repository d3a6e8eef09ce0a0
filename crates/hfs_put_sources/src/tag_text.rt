//! The tag files of a bag that is a source.
ghost use Rattle.std.specs.Prelude.{◌≡◌, IfOk, IfErr};
ghost use Rattle.hfs_put_sources.specs.Faults.{FailLater, IsFaultOf};
ghost use Rattle.hfs_put_sources.specs.Trees.{OfEachTree};
ghost use Rattle.hfs_put_sources.specs.Tags.{leads_to_bag, tag_text, without_return};

use crate::{HostFault, HostTree, cannot_read, entry_path, is_bag, is_file};
use hfs_source::PlacedBytes;
use std::alloc::Global;

/// A line without the carriage return at its end, for programs that end lines with two characters.
pub(crate) fn without_return(line: &[u8]) -> &[u8]
    ensures { result.now ≡ without_return line.now }
{
    if line.len() >= 1 && line[line.len() - 1] == b'\r' {
        &line[..line.len() - 1]
    } else {
        line
    }
}

/// All bytes of a file. Faults: `CannotRead` of its path, `NoMemory`.
#[tactic(auto, using(crate::proofs::FileReads::read_whole_failed))]
fn file_bytes<T: HostTree>(alloc: Global, tree: &mut T, path: &str) -> Result<Vec<u8>, HostFault>
    ensures bytes { IfOk result (λ bytes. OfEachTree (T.Holds tree.new)
        (λ host. bytes.items ≡ host.bytes path.now)) }
    ensures held { OfEachTree (T.Holds tree.new) (T.Holds tree.old) }
    ensures failed { IfErr result (IsFaultOf (T.Fails tree.old)) }
    ensures later { FailLater (T.Fails tree.new) (T.Fails tree.old) }
{
    let mut file = tree.open(alloc, path)?;
    let Ok(mut bytes) = vec![in alloc; 0u8; file.len() as usize] else {
        return Err(HostFault::NoMemory);
    };
    let Ok(()) = file.read_at(0, &mut bytes) else {
        return Err(cannot_read(alloc, path));
    };
    tree.take_back(path, file);
    Ok(bytes)
}

/// Whether a source leads to a bag.
fn leads_to_bag<T: HostTree>(alloc: Global, tree: &mut T, source: &str) -> Result<bool, HostFault>
    ensures bag { IfOk result (λ found. OfEachTree (T.Holds tree.new)
        (λ host. found ≡ leads_to_bag host source.now (host.target source.now))) }
    ensures held { OfEachTree (T.Holds tree.new) (T.Holds tree.old) }
    ensures failed { IfErr result (IsFaultOf (T.Fails tree.old)) }
    ensures later { FailLater (T.Fails tree.new) (T.Fails tree.old) }
{
    match tree.target(alloc, source)? {
        Some(look) => is_bag(alloc, tree, source, look),
        None => Ok(false),
    }
}

/// The text of a tag file by its name; empty if the source is no bag, or if it has no file of this name. Faults: `CannotRead` of
/// what can't be read, `NoMemory`.
pub(crate) fn tag_text<T: HostTree>(
    alloc: Global,
    tree: &mut T,
    source: &str,
    name: &str,
) -> Result<Vec<u8>, HostFault>
    ensures text { IfOk result (λ text. OfEachTree (T.Holds tree.new)
        (λ host. text.items ≡ tag_text host source.now name.now)) }
    ensures held { OfEachTree (T.Holds tree.new) (T.Holds tree.old) }
    ensures failed { IfErr result (IsFaultOf (T.Fails tree.old)) }
    ensures later { FailLater (T.Fails tree.new) (T.Fails tree.old) }
{
    let path = entry_path(alloc, source, name)?;
    if !leads_to_bag(alloc, tree, source)? {
        return Ok(Vec::new(alloc));
    }
    let look = tree.look(alloc, path.as_str())?;
    if !is_file(look) {
        return Ok(Vec::new(alloc));
    }
    file_bytes(alloc, tree, path.as_str())
}
