//! Adding records.
use crate::trees::{begins_with, counts, empty_tree, put, put_run};
use hfs_record_edits::extents_need;
use std::alloc::Global;
use std::test::Fail;

/// Two records of two files in a tree of two nodes: the second needs none.
#[test]
fn the_first_leaf(rt: HostRuntime) -> Result<(), Fail> {
    let alloc = rt.alloc();
    let mut nodes = empty_tree(alloc, 2)?;
    let empty = counts(alloc, &nodes) == Some((0, 1, 0));
    put(alloc, &mut nodes, 18, 3)?;
    let one = counts(alloc, &nodes) == Some((1, 0, 1));
    put(alloc, &mut nodes, 17, 3)?;
    assert!(rt; empty && one && counts(alloc, &nodes) == Some((1, 0, 2)));
    assert!(rt; begins_with(alloc, &nodes, &[(17, 3), (18, 3)])?);
    Ok(())
}

/// What a tree of four nodes is with this many records of a file.
fn grown(alloc: Global, count: u16) -> Result<Option<(u16, u32, u32)>, Fail> {
    let mut nodes = empty_tree(alloc, 4)?;
    put_run(alloc, &mut nodes, 16, count)?;
    Ok(counts(alloc, &nodes))
}

/// 22 records fit into one leaf; with 23 there are two of them, and a root.
#[test]
fn more_than_a_leaf(rt: HostRuntime) -> Result<(), Fail> {
    assert!(rt; grown(rt.alloc(), 22)? == Some((1, 2, 22)));
    assert!(rt; grown(rt.alloc(), 23)? == Some((2, 0, 23)));
    Ok(())
}

/// A record below all others of a full leaf, and one below those of two.
#[test]
fn below_the_least(rt: HostRuntime) -> Result<(), Fail> {
    let alloc = rt.alloc();
    let mut nodes = empty_tree(alloc, 8)?;
    put_run(alloc, &mut nodes, 21, 22)?;
    put(alloc, &mut nodes, 20, 6)?;
    assert!(rt; counts(alloc, &nodes) == Some((2, 4, 23)));
    put(alloc, &mut nodes, 20, 3)?;
    assert!(rt; counts(alloc, &nodes) == Some((2, 4, 24)));
    assert!(rt; begins_with(alloc, &nodes, &[(20, 3), (20, 6), (21, 3), (21, 6)])?);
    Ok(())
}

/// None for no record; the one leaf; one node for each level and a root, again and again; more than 16 levels.
#[test]
fn needs(rt: HostRuntime) -> Result<(), Fail> {
    assert!(rt;
        extents_need(0, 3, 100) == 0 && extents_need(22, 0, 0) == 1 && extents_need(1, 1, 21) == 0
    );
    assert!(rt; extents_need(1, 1, 22) == 2 && extents_need(3, 2, 30) == 12);
    assert!(rt; extents_need(2, 4, 10_000) == 11 && extents_need(4, 2, 40) == 18);
    assert!(rt; extents_need(14, 2, 30) == 133 && extents_need(15, 2, 30) == 4_294_967_296);
    Ok(())
}
