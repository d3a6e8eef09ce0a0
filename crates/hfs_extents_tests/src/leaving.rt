//! Removing records, and changing one.

ghost use Rattle.hfs_space.specs.TreeKeys.{IsExtentsTree};

use crate::trees::{begins_with, counts, empty_tree, key_of, put, put_run};
use hfs_btree::find;
use hfs_btree_checks::check_tree;
use hfs_fields::ExtKey;
use hfs_fixtures::NodeTable;
use hfs_record_edits::{change, cut_fork};
use std::alloc::Global;
use std::test::Fail;

/// Cuts a file's data fork from a block on, in a sound tree.
fn cut(alloc: Global, nodes: &mut NodeTable, file: u32, block: u16) -> Result<(), Fail> {
    let Ok(_) = check_tree::<ExtKey, NodeTable>(alloc, nodes, nodes.size()) else {
        return Err(Fail::new("not a sound tree"));
    };
    cut_fork(alloc, nodes, &key_of(file, block))?;
    Ok(())
}

/// The records of a fork between others are removed from a block on, and then the rest: the other files' stay, each in a leaf of
/// its own, since leaves aren't joined.
#[test]
fn the_end_of_a_fork(rt: HostRuntime) -> Result<(), Fail> {
    let alloc = rt.alloc();
    let mut nodes = empty_tree(alloc, 8)?;
    put(alloc, &mut nodes, 15, 3)?;
    put_run(alloc, &mut nodes, 16, 30)?;
    put(alloc, &mut nodes, 17, 3)?;
    cut(alloc, &mut nodes, 16, 9)?;
    let some = begins_with(alloc, &nodes, &[(15, 3), (16, 3), (16, 6), (17, 3)])?;
    cut(alloc, &mut nodes, 16, 0)?;
    assert!(rt; some && begins_with(alloc, &nodes, &[(15, 3), (17, 3)])?);
    assert!(rt; counts(alloc, &nodes) == Some((2, 4, 2)));
    Ok(())
}

/// Whether the tree is as it was before any record was added.
#[test]
fn the_empty_tree_again(rt: HostRuntime) -> Result<(), Fail> {
    let alloc = rt.alloc();
    let before = empty_tree(alloc, 8)?;
    let mut nodes = empty_tree(alloc, 8)?;
    put_run(alloc, &mut nodes, 16, 40)?;
    cut(alloc, &mut nodes, 16, 0)?;
    assert!(rt; counts(alloc, &nodes) == Some((0, 7, 0)));
    assert!(rt; nodes.nodes.as_slice() == before.nodes.as_slice());
    Ok(())
}

/// Gives a record of a sound tree this body, and returns whether it then has it.
fn change_sound(
    alloc: Global,
    nodes: &mut NodeTable,
    key: &ExtKey,
    body: &[u8; 12],
) -> Result<bool, Fail>
    requires { IsExtentsTree nodes.old.nodes.items }
{
    let Some(_old) = find(alloc, nodes, key)? else {
        return Err(Fail::new("no such record"));
    };
    change(alloc, nodes, key, body)?;
    let Some(found) = find(alloc, nodes, key)? else {
        return Ok(false);
    };
    Ok(found.as_slice() == body.as_slice())
}

/// A record among others gets another body.
#[test]
fn another_body(rt: HostRuntime) -> Result<(), Fail> {
    let alloc = rt.alloc();
    let mut nodes = empty_tree(alloc, 2)?;
    put_run(alloc, &mut nodes, 16, 3)?;
    let Ok(_) = check_tree::<ExtKey, NodeTable>(alloc, &nodes, nodes.size()) else {
        return Err(Fail::new("not a sound tree"));
    };
    let body = [0, 9, 0, 1, 0, 0, 0, 0, 0, 0, 0, 0];
    assert!(rt; change_sound(alloc, &mut nodes, &key_of(16, 6), &body)?);
    assert!(rt; counts(alloc, &nodes) == Some((1, 0, 3)));
    Ok(())
}
