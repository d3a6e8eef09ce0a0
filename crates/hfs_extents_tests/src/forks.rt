//! Records of one fork among others.

use crate::trees::{begins_with, counts, empty_tree, put, put_run};
use hfs_btree_checks::check_tree;
use hfs_fields::ExtKey;
use hfs_fixtures::NodeTable;
use hfs_record_edits::cut_records;
use hfs_space::ForkKind;
use std::alloc::Global;
use std::test::Fail;

/// Takes the records of a fork from a block on out of a sound tree.
fn cut_from(
    alloc: Global,
    nodes: &mut NodeTable,
    file: u32,
    fork: ForkKind,
    block: u16,
) -> Result<(), Fail> {
    let Ok(_) = check_tree::<ExtKey, NodeTable>(alloc, nodes, nodes.size()) else {
        return Err(Fail::new("not a sound tree"));
    };
    cut_records(alloc, nodes, file, fork, block)?;
    Ok(())
}

/// Four records of a data fork and one of another file's: cutting the resource fork leaves all, cutting the data fork at its
/// block 9 leaves the first two and the other file's.
#[test]
fn the_records_of_one_fork(rt: HostRuntime) -> Result<(), Fail> {
    let alloc = rt.alloc();
    let mut nodes = empty_tree(alloc, 8)?;
    put(alloc, &mut nodes, 15, 3)?;
    put_run(alloc, &mut nodes, 16, 4)?;
    cut_from(alloc, &mut nodes, 16, ForkKind::Resource, 0)?;
    let all = counts(alloc, &nodes) == Some((1, 6, 5));
    cut_from(alloc, &mut nodes, 16, ForkKind::Data, 9)?;
    assert!(rt; all && begins_with(alloc, &nodes, &[(15, 3), (16, 3), (16, 6)])?);
    assert!(rt; counts(alloc, &nodes) == Some((1, 6, 3)));
    Ok(())
}
