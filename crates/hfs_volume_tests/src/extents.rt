//! Where the extents of forks that calls wrote are, and how many blocks are changed then.
//!
//! The new volume has 64 blocks and 58 allocation blocks, of which 42 to 57 are free; its first new item gets the ID 16.
use hfs_fixtures::{FixtureFault, new_image, one_file_image};
use hfs_model::Fork;
use hfs_volume_fixtures::{changed_after, lies_after};
use std::alloc::Global;
use std::test::Fail;

/// The files `a` to `p`, IDs 16 to 31, with a block each: 42 to 57.
const SIXTEEN: &[u8] =
    b"1\tcreate\t2\ta\n1\tseteof\t2\ta\tdata\t512\n1\tcreate\t2\tb\n1\tseteof\t2\tb\tdata\t512\n1\tcreate\t2\tc\n1\tseteof\t2\tc\tdata\t512\n1\tcreate\t2\td\n1\tseteof\t2\td\tdata\t512\n1\tcreate\t2\te\n1\tseteof\t2\te\tdata\t512\n1\tcreate\t2\tf\n1\tseteof\t2\tf\tdata\t512\n1\tcreate\t2\tg\n1\tseteof\t2\tg\tdata\t512\n1\tcreate\t2\th\n1\tseteof\t2\th\tdata\t512\n1\tcreate\t2\ti\n1\tseteof\t2\ti\tdata\t512\n1\tcreate\t2\tj\n1\tseteof\t2\tj\tdata\t512\n1\tcreate\t2\tk\n1\tseteof\t2\tk\tdata\t512\n1\tcreate\t2\tl\n1\tseteof\t2\tl\tdata\t512\n1\tcreate\t2\tm\n1\tseteof\t2\tm\tdata\t512\n1\tcreate\t2\tn\n1\tseteof\t2\tn\tdata\t512\n1\tcreate\t2\to\n1\tseteof\t2\to\tdata\t512\n1\tcreate\t2\tp\n1\tseteof\t2\tp\tdata\t512\n";

/// Blocks 43, 45, 47, 49 and 51 become free, and the file `x`, ID 32, gets them.
const FIVE_APART: &[u8] =
    b"1\tdelete\t2\tb\n1\tdelete\t2\td\n1\tdelete\t2\tf\n1\tdelete\t2\th\n1\tdelete\t2\tj\n1\tcreate\t2\tx\n1\tseteof\t2\tx\tdata\t2560\n";

/// Then blocks 42, 53, 55 and 57 become free, and the file `y`, ID 33, gets them.
const FOUR_APART: &[u8] =
    b"1\tdelete\t2\tb\n1\tdelete\t2\td\n1\tdelete\t2\tf\n1\tdelete\t2\th\n1\tdelete\t2\tj\n1\tcreate\t2\tx\n1\tseteof\t2\tx\tdata\t2560\n1\tdelete\t2\ta\n1\tdelete\t2\tl\n1\tdelete\t2\tn\n1\tdelete\t2\tp\n1\tcreate\t2\ty\n1\tseteof\t2\ty\tdata\t2048\n";

/// Then both have three blocks.
const THREE_EACH: &[u8] =
    b"1\tdelete\t2\tb\n1\tdelete\t2\td\n1\tdelete\t2\tf\n1\tdelete\t2\th\n1\tdelete\t2\tj\n1\tcreate\t2\tx\n1\tseteof\t2\tx\tdata\t2560\n1\tdelete\t2\ta\n1\tdelete\t2\tl\n1\tdelete\t2\tn\n1\tdelete\t2\tp\n1\tcreate\t2\ty\n1\tseteof\t2\ty\tdata\t2048\n1\tseteof\t2\tx\tdata\t1536\n1\tseteof\t2\ty\tdata\t1536\n";

/// Blocks 43, 45 and so on to 57 become free; of the files `x` and `y`, IDs 32 and 33, the latter continues in the extents tree
/// first, and then the former, whose record comes before it.
const HIGHER_FIRST: &[u8] =
    b"1\tdelete\t2\tb\n1\tdelete\t2\td\n1\tdelete\t2\tf\n1\tdelete\t2\th\n1\tdelete\t2\tj\n1\tdelete\t2\tl\n1\tdelete\t2\tn\n1\tdelete\t2\tp\n1\tcreate\t2\tx\n1\tcreate\t2\ty\n1\tseteof\t2\ty\tres\t2048\n1\tseteof\t2\tx\tdata\t2048\n";

/// What isn't used of an extents record.
const NONE: (u16, u16) = (0, 0);

/// Whether a fork lies there after these calls on the sixteen files.
fn lies(
    alloc: Global,
    text: &[u8],
    fork: (u32, Fork),
    wanted: &[(u16, u16)],
) -> Result<bool, FixtureFault> {
    lies_after(alloc, new_image(alloc, 40)?, [SIXTEEN, text], fork, wanted)
}

#[test]
fn forks_go_on_in_the_extents_tree(rt: HostRuntime) -> Result<(), Fail> {
    let x = [(43, 1), (45, 1), (47, 1), (49, 1), (51, 1), NONE];
    assert!(rt; lies(rt.alloc(), FIVE_APART, (32, Fork::DataFork), &x)?);
    let y = [(42, 1), (53, 1), (55, 1), (57, 1), NONE, NONE];
    assert!(rt; lies(rt.alloc(), FOUR_APART, (33, Fork::DataFork), &y)?);
    Ok(())
}

#[test]
fn shorter_forks_leave_the_extents_tree(rt: HostRuntime) -> Result<(), Fail> {
    let x = [(43, 1), (45, 1), (47, 1)];
    assert!(rt; lies(rt.alloc(), THREE_EACH, (32, Fork::DataFork), &x)?);
    let y = [(42, 1), (53, 1), (55, 1)];
    assert!(rt; lies(rt.alloc(), THREE_EACH, (33, Fork::DataFork), &y)?);
    Ok(())
}

#[test]
fn the_higher_id_goes_on_first(rt: HostRuntime) -> Result<(), Fail> {
    let x = [(51, 1), (53, 1), (55, 1), (57, 1), NONE, NONE];
    assert!(rt; lies(rt.alloc(), HIGHER_FIRST, (32, Fork::DataFork), &x)?);
    let y = [(43, 1), (45, 1), (47, 1), (49, 1), NONE, NONE];
    assert!(rt; lies(rt.alloc(), HIGHER_FIRST, (33, Fork::ResFork), &y)?);
    Ok(())
}

/// Four bytes over the end of one block and the beginning of the next.
const FOUR_BYTES: &[u8] = b"1\twrite\t2\tf\tdata\t510\tffffffff\n";

/// No byte.
const EMPTIED: &[u8] = b"1\tseteof\t2\tf\tdata\t0\n";

/// Whether the fork of the one file lies there after the bytes and another call.
fn one_lies(alloc: Global, text: &[u8], wanted: &[(u16, u16)]) -> Result<bool, FixtureFault> {
    let fork = (16, Fork::DataFork);
    lies_after(
        alloc,
        one_file_image(alloc)?,
        [FOUR_BYTES, text],
        fork,
        wanted,
    )
}

#[test]
fn a_fork_that_is_written_in_its_blocks_stays_there(rt: HostRuntime) -> Result<(), Fail> {
    let all = [(10, 1), (12, 1), (14, 1), (16, 1), NONE, NONE];
    assert!(rt; one_lies(rt.alloc(), FOUR_BYTES, &all)?);
    assert!(rt; one_lies(rt.alloc(), EMPTIED, &[NONE; 3])?);
    Ok(())
}

/// A file with zeros in all free blocks.
const ZEROS: &[u8] = b"1\tcreate\t2\ta\n1\tseteof\t2\ta\tdata\t8192\n";

/// The fork's sixteen blocks, blocks 2 and 3, the catalog's header node and its leaf.
#[test]
fn blocks_of_zeros_count_as_changed(rt: HostRuntime) -> Result<(), Fail> {
    let changed = changed_after(rt.alloc(), new_image(rt.alloc(), 40)?, ZEROS)?;
    assert!(rt; changed == Some(20));
    Ok(())
}
