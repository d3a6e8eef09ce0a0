//! The header record of a tree, written.

ghost use Rattle.std.specs.Prelude.{◌≡◌, ◌<◌, ◌≤◌, IfOk, OnOk, length};
ghost use Rattle.hfs_btree.specs.Header.{header_of, record_in};
ghost use Rattle.hfs_btree_edits.specs.Stored.{HasHeaderPut};

use crate::nodes_mut::NodesMut;
use crate::stored::{store_replaced, viewed};
use hfs_btree::Header;
use std::alloc::{AllocError, Global};

/// A header record with these fields, followed by the bytes of the old one.
fn rewritten(alloc: Global, header: &Header, old: &[u8]) -> Result<Vec<u8>, AllocError>
    requires { 30 ≤ length old.now }
    ensures fields { IfOk result (λ made. header_of made.items ≡ header.now) }
    ensures length { IfOk result (λ made. length made.items ≡ length old.now) }
{
    let mut entry = Vec::from_slice(alloc, old)?;
    header.write(entry.as_mut_slice());
    Ok(entry)
}

/// Writes the fields of the header record; the bytes after them stay as they are.
pub fn put_header<S: NodesMut>(
    alloc: Global,
    nodes: &mut S,
    header: &Header,
) -> Result<(), AllocError>
    requires within { 0 < length (S.nodes nodes.old) }
    requires long { 30 ≤ length (record_in (S.nodes nodes.old) 0 0) }
    ensures put { OnOk result (HasHeaderPut header.now (S.nodes nodes.old) (S.nodes nodes.new)) }
    ensures kept { OnOk result (S.kept nodes.new ≡ S.kept nodes.old) }
{
    let mut bytes = [0; 512];
    nodes.read(0, &mut bytes);
    let head = viewed(nodes, 0, &bytes);
    let entry = rewritten(alloc, header, head.record(0))?;
    store_replaced(nodes, 0, &head, 0, entry)
}
