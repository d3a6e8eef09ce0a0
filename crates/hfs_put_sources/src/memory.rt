//! A tree in memory.
ghost use Rattle.std.specs.Prelude.{◌≡◌, ◌++◌, IfOk, OnOk, bytes_eq, find};
ghost use Rattle.hfs_put_sources.specs.Nodes.{IsNowhere, bytes_at, bytes_of, entry_in, entry_of, listed_in, look_at, node_at, tree_of};

use crate::entry::{HostEntry, Look};
use crate::fault::{HostFault, cannot_read};
use crate::tree::HostTree;
use hfs_source::MemoryBytes;
use std::alloc::{AllocError, Global};

/// A file, a folder, or something else, in a tree in memory.
#[derive(Clone, Copy)]
pub struct HostNode<'a> {
    /// The path of the folder that it is in.
    pub folder: &'a str,
    pub name: &'a str,
    pub path: &'a str,
    pub look: Look,
    /// The bytes of a file.
    pub bytes: &'a [u8],
}

/// A tree whose nodes are in memory. Its only faults are running out of memory and that of a file which isn't there.
#[derive(Drop)]
pub struct MemoryTree<'a> {
    pub nodes: &'a [HostNode<'a>],
}

/// The first node with this path.
fn node_at<'a>(path: &str, nodes: &[HostNode<'a>]) -> Option<HostNode<'a>>
    ensures { result ≡ node_at path.now nodes.now }
{
    nodes.iter().copied().find(|node| node.path == path)
}

/// The entry of a node in its folder.
fn entry_of(alloc: Global, node: &HostNode<'_>) -> Result<HostEntry, AllocError>
    ensures { IfOk result (λ entry. entry ≡ entry_of node.now) }
{
    let name = String::from_str(alloc, node.name)?;
    Ok(HostEntry::new(name, node.look))
}

/// Lists a node, if it is in this folder.
fn list_node(
    alloc: Global,
    folder: &str,
    node: &HostNode<'_>,
    entries: &mut Vec<HostEntry>,
) -> Result<(), AllocError>
    ensures { OnOk result (entries.new.items ≡ entries.old.items ++ entry_in folder.now node.now) }
{
    if node.folder == folder {
        entries.push(entry_of(alloc, node)?)?;
    }
    Ok(())
}

/// The entries of the folder at a path.
fn listed_in(
    alloc: Global,
    folder: &str,
    nodes: &[HostNode<'_>],
) -> Result<Vec<HostEntry>, AllocError>
    ensures { IfOk result (λ entries. entries.items ≡ listed_in folder.now nodes.now) }
{
    let mut entries = Vec::new(alloc);
    for node in nodes {
        list_node(alloc, folder, node, &mut entries)?;
    }
    Ok(entries)
}

/// What is seen at a path.
fn look_at(path: &str, nodes: &[HostNode<'_>]) -> Option<Look>
    ensures { result ≡ look_at path.now nodes.now }
{
    match node_at(path, nodes) {
        Some(node) => Some(node.look),
        None => None,
    }
}

impl<'a> HostTree for MemoryTree<'a> {
    ghost Holds = { λ memory tree. tree ≡ tree_of memory.nodes.now };

    ghost Opens = { λ memory path image. image ≡ bytes_at path memory.nodes.now };

    ghost Fails = { λ memory. IsNowhere memory.nodes.now };

    type File = MemoryBytes<'a>;

    fn list(&mut self, alloc: Global, folder: &str) -> Result<Vec<HostEntry>, HostFault> {
        let entries = listed_in(alloc, folder, self.nodes)?;
        Ok(entries)
    }

    fn look(&mut self, _alloc: Global, path: &str) -> Result<Option<Look>, HostFault> {
        Ok(look_at(path, self.nodes))
    }

    fn target(&mut self, _alloc: Global, path: &str) -> Result<Option<Look>, HostFault> {
        Ok(look_at(path, self.nodes))
    }

    fn open(&mut self, alloc: Global, path: &str) -> Result<MemoryBytes<'a>, HostFault> {
        match node_at(path, self.nodes) {
            Some(node) => Ok(MemoryBytes { bytes: node.bytes }),
            None => Err(cannot_read(alloc, path)),
        }
    }

    fn take_back(&mut self, _path: &str, _file: MemoryBytes<'a>) {}
}
