//! The name of the disk that a bag was taken from.
ghost use Rattle.std.specs.Prelude.{◌≡◌, IfOk, option_map, IfErr};
ghost use Rattle.hfs_put_sources.specs.Faults.{FailLater, IsFaultOf};
ghost use Rattle.hfs_put_sources.specs.Trees.{OfEachTree};
ghost use Rattle.hfs_put_sources.specs.Tags.{name_told, tag_text};

use crate::tag_text::{tag_text, without_return};
use crate::{HostFault, HostTree, external_identifier};
use std::alloc::Global;

/// The plain text of the name of the disk that a bag was taken from, from the first line of its `bag-info.txt` that has it; None
/// if no line has it, or if the source is no bag. It may not be text: `plain_item_name` of `hfs_encodings` takes text. Faults:
/// `CannotRead` of what can't be read, `NoMemory`.
pub fn bag_name<T: HostTree>(
    alloc: Global,
    tree: &mut T,
    source: &str,
) -> Result<Option<Vec<u8>>, HostFault>
    ensures name { IfOk result (λ name. OfEachTree (T.Holds tree.new)
        (λ host. option_map (λ text. text.items) name ≡ name_told host source.now)) }
    ensures held { OfEachTree (T.Holds tree.new) (T.Holds tree.old) }
    ensures failed { IfErr result (IsFaultOf (T.Fails tree.old)) }
    ensures later { FailLater (T.Fails tree.new) (T.Fails tree.old) }
{
    let text = tag_text(alloc, tree, source, "bag-info.txt")?;
    match external_identifier(&text) {
        Some(name) => Ok(Some(Vec::from_slice(alloc, without_return(name))?)),
        None => Ok(None),
    }
}
