//! What a fork that grows lacks, with numbers by hand.
use hfs_model::{BlockSize, Want};
use hfs_record_edits::{Growth, Supply, blocks_wanted, fork_want};
use std::test::Fail;

/// The free blocks and nodes, levels and records of a volume, and the blocks and records that are added to a fork.
fn want(there: (u32, u32, u16, u32), coming: (u32, u32)) -> Option<Want> {
    let supply = Supply {
        blocks: there.0,
        nodes: there.1,
        depth: there.2,
        records: there.3,
    };
    let growth = Growth {
        blocks: coming.0,
        records: coming.1,
    };
    fork_want(supply, growth)
}

/// The free blocks and those that are wanted, if blocks are lacking.
fn room(there: (u32, u32, u16, u32), coming: (u32, u32)) -> Option<(u32, u32)> {
    match want(there, coming) {
        Some(Want::Room { free, wanted }) => Some((free, wanted)),
        _ => None,
    }
}

/// The free nodes of the extents tree and its levels, if such nodes are lacking.
fn nodes(there: (u32, u32, u16, u32), coming: (u32, u32)) -> Option<(u32, u32)> {
    match want(there, coming) {
        Some(Want::ExtentNodes { free, depth }) => Some((free, depth)),
        _ => None,
    }
}

/// How many blocks of 512 bytes are added to a fork that has this many, and gets this many bytes.
fn coming(have: u32, length: u32) -> Option<u32> {
    Some(blocks_wanted(BlockSize::new(512)?, have, length))
}

/// A fork that fills all blocks, one byte of another, and one byte more of the first; a fork that is cut.
#[test]
fn blocks_that_are_wanted(rt: HostRuntime) -> Result<(), Fail> {
    assert!(rt; coming(0, 8192) == Some(16) && coming(16, 8192) == Some(0));
    assert!(rt; coming(0, 1) == Some(1) && coming(16, 8193) == Some(1) && coming(16, 3) == Some(0));
    Ok(())
}

/// As many blocks as there are; one more; blocks before nodes. Then 70 blocks in as many extents: 23 records don't fit into a
/// leaf, 22 do, and one more needs two nodes.
#[test]
fn what_a_fork_wants(rt: HostRuntime) -> Result<(), Fail> {
    assert!(rt;
        want((16, 0, 0, 0), (16, 0)).is_none() && room((0, 0, 0, 0), (1, 0)) == Some((0, 1))
    );
    assert!(rt; room((69, 0, 0, 0), (70, 23)) == Some((69, 70)));
    assert!(rt;
        nodes((70, 3, 0, 0), (70, 23)) == Some((3, 0)) && want((70, 3, 0, 0), (69, 22)).is_none()
    );
    assert!(rt;
        want((1, 2, 1, 22), (1, 1)).is_none() && nodes((1, 1, 1, 22), (1, 1)) == Some((1, 1))
    );
    Ok(())
}
