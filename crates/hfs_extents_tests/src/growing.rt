//! Forks that get blocks and lose them, in trees that are empty at first.

ghost use Rattle.std.specs.Prelude.{◌≡◌, ◌+◌, ◌<◌, ◌≤◌, ◌↔◌, true, IsTrue, IfOk, [], ◌∷◌};
ghost use Rattle.std.specs.List.{All};
ghost use Rattle.hfs_space.specs.Extents.{block_total};
ghost use Rattle.hfs_record_edits.specs.Lengthened.{none};
ghost use Rattle.hfs_record_edits.specs.Whole.{IsWhole};

use crate::trees::{begins_with, counts, empty_tree, key_of};
use hfs_btree::{find, read_header};
use hfs_btree_checks::check_tree;
use hfs_fields::{ExtKey, Extent};
use hfs_fixtures::NodeTable;
use hfs_record_edits::{NodesWanted, ShortFork, lengthen_fork, shorten_fork};
use hfs_space::{ForkKind, are_within, fork_extents};
use std::alloc::Global;
use std::test::Fail;

/// An extent.
fn run(first: u16, count: u16) -> Extent
    ensures { result ≡ record { first = first; count = count } }
{
    Extent { first, count }
}

/// The extents of a file that has no block.
fn no_extents() -> [Extent; 3]
    ensures { result ≡ none ∷ none ∷ none ∷ [] }
{
    [run(0, 0), run(0, 0), run(0, 0)]
}

/// Whether each piece has a block.
fn have_blocks(pieces: &[Extent]) -> bool
    ensures { IsTrue result ↔ All (λ piece. 0 < piece.count) pieces.now }
{
    pieces.iter().all(|piece| piece.count > 0)
}

/// How many blocks extents have; 65,536 if there are more than 65,535.
fn blocks_of(extents: &[Extent]) -> u32
    ensures { result ≤ 65535 → block_total extents.now ≡ result }
{
    let mut total = 0;
    for i in 0..extents.len() {
        total += u32::from(extents[i].count);
        if total > 65_535 {
            return 65_536;
        }
    }
    total
}

/// Whether extents, and pieces after them, have at most 65,535 blocks.
fn are_few(extents: &[Extent], pieces: &[Extent]) -> bool
    ensures { result ≡ true → block_total extents.now + block_total pieces.now ≤ 65535 }
{
    let all = u64::from(blocks_of(extents)) + u64::from(blocks_of(pieces));
    all <= 65_535
}

/// Lengthens the data fork of a file in a sound tree. An error if one of the conditions isn't met.
fn grow(
    alloc: Global,
    nodes: &mut NodeTable,
    file: u32,
    first: &[Extent; 3],
    pieces: &[Extent],
) -> Result<Result<[Extent; 3], NodesWanted>, Fail>
    requires { IsWhole file 0 first.now nodes.old.nodes.items }
    ensures { IfOk result (λ answer. IfOk answer (λ extents.
        IsWhole file 0 extents nodes.new.nodes.items)) }
{
    let Ok(_) = check_tree::<ExtKey, NodeTable>(alloc, nodes, nodes.size()) else {
        return Err(Fail::new("not a sound tree"));
    };
    let extents = fork_extents(alloc, nodes, file, ForkKind::Data, first)?;
    if !have_blocks(pieces) || !are_within(pieces, 65_535) || !are_few(&extents, pieces) {
        return Err(Fail::new("no such pieces"));
    }
    if read_header(nodes).nodes as usize > nodes.nodes.len() {
        return Err(Fail::new("too short a file"));
    }
    let answer = lengthen_fork(alloc, nodes, file, ForkKind::Data, first, pieces)?;
    Ok(answer)
}

/// Whether the tree is sound and has no record, so that a fork without extents has none there.
fn has_none(alloc: Global, nodes: &NodeTable, file: u32) -> bool
    ensures { result ≡ true → IsWhole file 0 (none ∷ none ∷ none ∷ []) nodes.now.nodes.items }
{
    let Ok(_) = check_tree::<ExtKey, NodeTable>(alloc, nodes, nodes.size()) else {
        return false;
    };
    read_header(nodes).depth == 0
}

/// Cuts the data fork of a file in a sound tree to its first blocks. An error if one of the conditions isn't met.
fn shrink(
    alloc: Global,
    nodes: &mut NodeTable,
    file: u32,
    first: &[Extent; 3],
    count: u16,
) -> Result<ShortFork, Fail>
    requires { IsWhole file 0 first.now nodes.old.nodes.items }
{
    let Ok(_) = check_tree::<ExtKey, NodeTable>(alloc, nodes, nodes.size()) else {
        return Err(Fail::new("not a sound tree"));
    };
    let extents = fork_extents(alloc, nodes, file, ForkKind::Data, first)?;
    if !are_within(&extents, 65_535) || !are_few(&extents, &[]) {
        return Err(Fail::new("no such extents"));
    }
    let short = shorten_fork(alloc, nodes, file, ForkKind::Data, first, count)?;
    Ok(short)
}

/// Single blocks, every second one from `first` on.
fn singles(alloc: Global, first: u16, count: u16) -> Result<Vec<Extent>, Fail> {
    let mut pieces = Vec::new(alloc);
    for i in 0..count {
        pieces.push(run(first.wrapping_add(i.wrapping_mul(2)), 1))?;
    }
    Ok(pieces)
}

/// Gives file 16, which has no blocks, this many single blocks from 43 on, in an empty tree.
fn begin(
    alloc: Global,
    nodes: &mut NodeTable,
    count: u16,
) -> Result<Result<[Extent; 3], NodesWanted>, Fail>
    ensures { IfOk result (λ answer. IfOk answer (λ extents.
        IsWhole 16 0 extents nodes.new.nodes.items)) }
{
    if !has_none(alloc, nodes, 16) {
        return Err(Fail::new("no empty tree"));
    }
    let pieces = singles(alloc, 43, count)?;
    grow(alloc, nodes, 16, &no_extents(), &pieces)
}

/// Whether there is a record of file 16 in the tree for this block, with this body.
fn has_body(alloc: Global, nodes: &NodeTable, block: u16, body: &[u8; 12]) -> Result<bool, Fail> {
    let Ok(_) = check_tree::<ExtKey, NodeTable>(alloc, nodes, nodes.size()) else {
        return Ok(false);
    };
    let Some(found) = find(alloc, nodes, &key_of(16, block))? else {
        return Ok(false);
    };
    Ok(found.as_slice() == body.as_slice())
}

/// With 69 blocks there are 22 records, which fit into one leaf.
#[test]
fn as_many_as_fit(rt: HostRuntime) -> Result<(), Fail> {
    let alloc = rt.alloc();
    let mut nodes = empty_tree(alloc, 4)?;
    let came = begin(alloc, &mut nodes, 69)?;
    assert!(rt; came == Ok([run(43, 1), run(45, 1), run(47, 1)]));
    assert!(rt; counts(alloc, &nodes) == Some((1, 2, 22)));
    Ok(())
}

/// 70 need 23 records, for which three free nodes are too few: the tree stays as it was.
#[test]
fn one_too_many(rt: HostRuntime) -> Result<(), Fail> {
    let alloc = rt.alloc();
    let before = empty_tree(alloc, 4)?;
    let mut nodes = empty_tree(alloc, 4)?;
    let came = begin(alloc, &mut nodes, 70)?;
    assert!(rt; came == Err(NodesWanted { free: 3, depth: 0 }));
    assert!(rt; nodes.nodes.as_slice() == before.nodes.as_slice());
    Ok(())
}

/// The record after the 22nd goes into a second leaf, with a root above both.
#[test]
fn one_more(rt: HostRuntime) -> Result<(), Fail> {
    let alloc = rt.alloc();
    let mut nodes = empty_tree(alloc, 4)?;
    let Ok(first) = begin(alloc, &mut nodes, 69)? else {
        return Err(Fail::new("refused"));
    };
    let came = grow(alloc, &mut nodes, 16, &first, &[run(300, 1)])?;
    assert!(rt; came == Ok(first) && counts(alloc, &nodes) == Some((2, 0, 23)));
    Ok(())
}

/// Five single blocks: three in the file's own record, two in one of the tree, which is removed with them.
#[test]
fn a_record_comes_and_goes(rt: HostRuntime) -> Result<(), Fail> {
    let alloc = rt.alloc();
    let mut nodes = empty_tree(alloc, 8)?;
    let Ok(first) = begin(alloc, &mut nodes, 5)? else {
        return Err(Fail::new("refused"));
    };
    let one = counts(alloc, &nodes) == Some((1, 6, 1));
    let body = has_body(alloc, &nodes, 3, &[0, 49, 0, 1, 0, 51, 0, 1, 0, 0, 0, 0])?;
    assert!(rt; one && body && first == [run(43, 1), run(45, 1), run(47, 1)]);
    let short = shrink(alloc, &mut nodes, 16, &first, 3)?;
    assert!(rt; short.first == first && counts(alloc, &nodes) == Some((0, 7, 0)));
    assert!(rt; short.surplus.as_slice() == [run(49, 1), run(51, 1)].as_slice());
    Ok(())
}

/// The fork of five single blocks, and then a piece that joins the last one, and two more: the first of them takes the last place
/// of the record, the other begins one for the fork's block 8.
fn with_two_records(alloc: Global, nodes: &mut NodeTable) -> Result<[Extent; 3], Fail>
    ensures { IfOk result (λ extents. IsWhole 16 0 extents nodes.new.nodes.items) }
{
    let Ok(first) = begin(alloc, nodes, 5)? else {
        return Err(Fail::new("refused"));
    };
    let pieces = [run(52, 2), run(60, 1), run(70, 1)];
    let Ok(now) = grow(alloc, nodes, 16, &first, &pieces)? else {
        return Err(Fail::new("refused"));
    };
    Ok(now)
}

/// Both records, and what is left of them when the fork has four blocks.
#[test]
fn a_piece_that_joins(rt: HostRuntime) -> Result<(), Fail> {
    let alloc = rt.alloc();
    let mut nodes = empty_tree(alloc, 8)?;
    let first = with_two_records(alloc, &mut nodes)?;
    assert!(rt; begins_with(alloc, &nodes, &[(16, 3), (16, 8)])?);
    assert!(rt; has_body(alloc, &nodes, 3, &[0, 49, 0, 1, 0, 51, 0, 3, 0, 60, 0, 1])?);
    let short = shrink(alloc, &mut nodes, 16, &first, 4)?;
    let lost = [run(51, 3), run(60, 1), run(70, 1)];
    assert!(rt; short.first == first && short.surplus.as_slice() == lost.as_slice());
    assert!(rt; has_body(alloc, &nodes, 3, &[0, 49, 0, 1, 0, 0, 0, 0, 0, 0, 0, 0])?);
    assert!(rt; counts(alloc, &nodes) == Some((1, 6, 1)));
    Ok(())
}
