//! What AppleDouble and MacBinary files of a tree hold.
ghost use Rattle.std.specs.Prelude.{◌≡◌, IfOk, IfErr};
ghost use Rattle.hfs_encodings.specs.IncomingAppleDouble.{apple_double_in};
ghost use Rattle.hfs_encodings.specs.IncomingMacBinary.{macbinary_in};
ghost use Rattle.hfs_put_sources.specs.Faults.{FailLater, IsFaultOf};
ghost use Rattle.hfs_put_sources.specs.Trees.{OfEachTree};

use crate::fault::{HostFault, cannot_read};
use crate::tree::HostTree;
use hfs_encodings::{AppleDoubleFile, MacBinaryFile, read_apple_double, read_macbinary};
use std::alloc::Global;

/// What the AppleDouble file at a path holds; None if it isn't one. Only the head and the parts that are used are read.
pub(crate) fn read_double<T: HostTree>(
    alloc: Global,
    tree: &mut T,
    path: &str,
) -> Result<Option<AppleDoubleFile>, HostFault>
    ensures found { IfOk result (λ found. OfEachTree (T.Holds tree.new)
        (λ host. found ≡ apple_double_in (host.bytes path.now))) }
    ensures held { OfEachTree (T.Holds tree.new) (T.Holds tree.old) }
    ensures failed { IfErr result (IsFaultOf (T.Fails tree.old)) }
    ensures later { FailLater (T.Fails tree.new) (T.Fails tree.old) }
{
    let mut file = tree.open(alloc, path)?;
    let Ok(found) = read_apple_double(&mut file) else {
        return Err(cannot_read(alloc, path));
    };
    tree.take_back(path, file);
    Ok(found)
}

/// What the MacBinary file at a path holds; None if it isn't one. Only its header is read.
pub(crate) fn read_header<T: HostTree>(
    alloc: Global,
    tree: &mut T,
    path: &str,
) -> Result<Option<MacBinaryFile>, HostFault>
    ensures found { IfOk result (λ found. OfEachTree (T.Holds tree.new)
        (λ host. found ≡ macbinary_in (host.bytes path.now))) }
    ensures held { OfEachTree (T.Holds tree.new) (T.Holds tree.old) }
    ensures failed { IfErr result (IsFaultOf (T.Fails tree.old)) }
    ensures later { FailLater (T.Fails tree.new) (T.Fails tree.old) }
{
    let mut file = tree.open(alloc, path)?;
    let Ok(found) = read_macbinary(&mut file) else {
        return Err(cannot_read(alloc, path));
    };
    tree.take_back(path, file);
    Ok(found)
}
