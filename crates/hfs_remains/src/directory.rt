//! The block that is taken for an image's directory.
ghost use Rattle.std.specs.Prelude.{◌≡◌, ◌*◌, ◌<◌, ◌≤◌, find, length, true, IfSome};
ghost use Rattle.std.specs.Option.{option_or};
ghost use Rattle.hfs_blocks.specs.Blocks.{block_at, block_count};
ghost use Rattle.hfs_btree.specs.Node.{node_of};
ghost use Rattle.hfs_check.specs.Faults.{is_block_size};
ghost use Rattle.hfs_remains.specs.Directory as spec;

use crate::allocation::{is_there, start_of};
use hfs_blocks::{Blocks, ImageBytes};
use hfs_btree::{NodeKind, view};
use hfs_fields::{Extent, Mdb};

/// Which trees must begin where a directory says.
#[derive(Debug, Clone, Copy, PartialEq, Eq)]
pub enum Beginning {
    /// Both the extents tree and the catalog.
    Both,
    /// Only the catalog.
    Catalog,
    /// Neither.
    Neither,
}

/// The fields of block `n`, as a master directory block has them, whatever the block holds.
pub fn read_mdb_at<B: Blocks>(blocks: &B, n: u32) -> Mdb
    requires { n < B.total blocks.now }
    ensures { result ≡ spec.mdb_at (B.blocks blocks.now) n }
{
    let mut block = [0; 512];
    blocks.block(n, &mut block);
    Mdb::read(&block)
}

/// Whether an allocation block is one or more whole blocks.
fn is_block_size(mdb: &Mdb) -> bool
    ensures { result ≡ is_block_size mdb.now }
{
    512 <= mdb.allocation_block_size && mdb.allocation_block_size % 512 == 0
}

/// Whether the fields give a valid allocation block size, and at least one block.
fn will_do(mdb: &Mdb) -> bool
    ensures size { result ≡ true → 512 ≤ mdb.now.allocation_block_size }
    ensures is { result ≡ spec.will_do mdb.now }
{
    mdb.signature == 0x4244 && mdb.allocation_blocks >= 1 && is_block_size(mdb)
}

/// Whether 512 bytes can be decoded as a header node.
fn is_header(bytes: &[u8; 512]) -> bool
    ensures { result ≡ spec.is_header (node_of bytes.now) }
{
    match view(bytes) {
        Ok(node) => node.kind() == NodeKind::Header,
        Err(_) => false,
    }
}

/// The first extent that has a block.
fn first_extent(extents: &[Extent]) -> Option<Extent>
    ensures { result ≡ spec.first_extent extents.now }
{
    extents.iter().copied().find(|e| e.count > 0)
}

/// The block that says whether the tree whose file has these extents begins, in an image of `total` logical blocks; None if it
/// doesn't exist, or the fields give no valid allocation block size.
pub fn beginning_of(total: u32, mdb: &Mdb, extents: &[Extent]) -> Option<u32>
    ensures block { result ≡ spec.beginning_of total mdb.now extents.now }
    ensures within { IfSome result (λ n. n < total) }
{
    if !will_do(mdb) {
        return None;
    }
    let Some(extent) = first_extent(extents) else {
        return None;
    };
    if !is_there(total, mdb, extent.first) {
        return None;
    }
    Some(start_of(total, mdb, extent.first))
}

/// Whether the tree whose file has these extents begins.
pub fn tree_begins<B: Blocks>(blocks: &B, mdb: &Mdb, extents: &[Extent]) -> bool
    requires { 512 ≤ mdb.now.allocation_block_size }
    ensures { result ≡ spec.tree_begins
        (B.total blocks.now) (B.blocks blocks.now) mdb.now extents.now }
{
    let Some(extent) = first_extent(extents) else {
        return false;
    };
    let total = blocks.count();
    if !is_there(total, mdb, extent.first) {
        return false;
    }
    let mut bytes = [0; 512];
    blocks.block(start_of(total, mdb, extent.first), &mut bytes);
    is_header(&bytes)
}

/// Whether these trees begin.
fn has_beginning<B: Blocks>(blocks: &B, mdb: &Mdb, beginning: Beginning) -> bool
    requires { 512 ≤ mdb.now.allocation_block_size }
    ensures { result ≡ spec.has_beginning
        (B.total blocks.now) (B.blocks blocks.now) mdb.now beginning }
{
    match beginning {
        Beginning::Both => {
            tree_begins(blocks, mdb, &mdb.extents_file)
                && tree_begins(blocks, mdb, &mdb.catalog_file)
        }
        Beginning::Catalog => tree_begins(blocks, mdb, &mdb.catalog_file),
        Beginning::Neither => true,
    }
}

/// Whether block `n` can serve as a directory whose trees begin as asked.
#[tactic(auto, unfolding(crate::specs::Directory::serves))]
fn serves<B: Blocks>(blocks: &B, beginning: Beginning, n: u32) -> bool
    requires { n < B.total blocks.now }
    ensures is { result ≡ spec.serves (B.total blocks.now) (B.blocks blocks.now) beginning n }
    ensures size { result ≡ true → 512 ≤ (spec.mdb_at (B.blocks blocks.now)
        n).allocation_block_size }
{
    let mdb = read_mdb_at(blocks, n);
    will_do(&mdb) && has_beginning(blocks, &mdb, beginning)
}

/// The first of a directory's two places with a block that serves.
fn in_usual_places<B: Blocks>(blocks: &B, beginning: Beginning) -> Option<u32>
    requires { 3 ≤ B.total blocks.now }
    ensures first { result ≡ find (spec.serves (B.total blocks.now) (B.blocks blocks.now) beginning)
        (spec.usual_places (B.total blocks.now)) }
    ensures is { IfSome result (spec.IsDirectory (B.total blocks.now) (B.blocks blocks.now)) }
{
    if serves(blocks, beginning, 2) {
        return Some(2);
    }
    let last_but_one = blocks.count() - 2;
    if serves(blocks, beginning, last_but_one) {
        return Some(last_but_one);
    }
    None
}

/// The first of a directory's two places with a block that can serve, and whose two trees begin.
pub fn usual_directory<B: Blocks>(blocks: &B) -> Option<u32>
    requires { 3 ≤ B.total blocks.now }
    ensures first { result ≡ spec.usual_directory (B.total blocks.now) (B.blocks blocks.now) }
    ensures is { IfSome result (spec.IsDirectory (B.total blocks.now) (B.blocks blocks.now)) }
{
    in_usual_places(blocks, Beginning::Both)
}

/// The last block that serves.
fn last_serving<B: Blocks>(blocks: &B, beginning: Beginning) -> Option<u32>
    ensures first { result ≡ find (spec.serves (B.total blocks.now) (B.blocks blocks.now) beginning)
        (spec.downward (B.total blocks.now)) }
    ensures is { IfSome result (spec.IsDirectory (B.total blocks.now) (B.blocks blocks.now)) }
{
    let mut n = blocks.count();
    while n > 0 {
        n -= 1;
        if serves(blocks, beginning, n) {
            return Some(n);
        }
    }
    None
}

/// The first block that serves: of a directory's two places, or else of all blocks from the last to the first.
fn in_all_places<B: Blocks>(blocks: &B, beginning: Beginning) -> Option<u32>
    requires { 3 ≤ B.total blocks.now }
    ensures first { result ≡ find (spec.serves (B.total blocks.now) (B.blocks blocks.now) beginning)
        (spec.all_places (B.total blocks.now)) }
    ensures is { IfSome result (spec.IsDirectory (B.total blocks.now) (B.blocks blocks.now)) }
{
    match in_usual_places(blocks, beginning) {
        Some(n) => Some(n),
        None => last_serving(blocks, beginning),
    }
}

/// The number of the block that is taken for the directory of a volume with these blocks; None if none can serve.
///
/// Of block 2 and the last block but one, it is the first that can serve and both of whose trees begin. If neither is such a
/// block, it is the first whose catalog begins, of these two and then of all others, from the last to the first; or else the
/// first that can serve. A block can serve if it has the signature $4244, at least one allocation block, and an allocation block
/// size that is a positive multiple of 512. Reads each block at most twice, and its trees' first nodes.
#[tactic(auto, unfolding(crate::specs::Directory::directory_in))]
pub fn directory_in<B: Blocks>(blocks: &B) -> Option<u32>
    requires { 3 ≤ B.total blocks.now }
    ensures first { result ≡ spec.directory_in (B.total blocks.now) (B.blocks blocks.now) }
    ensures is { IfSome result (spec.IsDirectory (B.total blocks.now) (B.blocks blocks.now)) }
{
    if let Some(n) = usual_directory(blocks) {
        return Some(n);
    }
    if let Some(n) = in_all_places(blocks, Beginning::Catalog) {
        return Some(n);
    }
    in_all_places(blocks, Beginning::Neither)
}

/// The number of the block that is taken for an image's directory, as `directory_in` says; None also if the image has fewer than
/// 1,536 bytes or more than 2,147,483,648.
#[tactic(auto, unfolding(crate::specs::Directory::directory_of, hfs_check::specs::Faults::length_fault))]
pub fn directory_of(image: &[u8]) -> Option<u32>
    ensures first { result ≡ spec.directory_of image.now }
    ensures is { IfSome result (spec.IsDirectory (block_count image.now) (block_at image.now)) }
{
    if image.len() < 1536 || image.len() > 2_147_483_648 {
        return None;
    }
    directory_in(&ImageBytes { bytes: image })
}
