//! Where the forks of files lie on the new volume with 64 blocks, of which allocation block 0 is block 4: its first free
//! allocation block is 42, and its first new item gets the ID 16.
use crate::items::item;
use hfs_fixtures::{FixtureFault, new_image};
use hfs_model::{Fork, ItemKind};
use hfs_put::{fork_runs, lay_items};
use hfs_put_sources::ForkRun;
use hfs_volume_fixtures::mounted;
use std::alloc::Global;
use std::test::Fail;

/// Where the forks of two files lie, with a folder between them.
fn runs(alloc: Global) -> Result<Vec<ForkRun>, FixtureFault> {
    let mut volume = mounted(alloc, new_image(alloc, 40)?)?;
    let items = [
        item(None, ItemKind::File, b"b", (600, 1))?,
        item(None, ItemKind::Folder, b"c", (0, 0))?,
        item(None, ItemKind::File, b"a", (0, 513))?,
    ];
    match lay_items(alloc, &mut volume, 2, 7, &items) {
        Ok(ids) => Ok(fork_runs(alloc, &volume, &items, &ids)?),
        Err(_) => Err(FixtureFault::Unsound),
    }
}

/// Whether a run is as wanted: the byte where it begins, how many bytes it has, and its item's place.
fn is_run(run: &ForkRun, wanted: &(u64, u64, usize, Fork)) -> bool {
    run.place == wanted.0
        && run.len == wanted.1
        && run.item == wanted.2
        && run.fork == wanted.3
        && run.offset == 0
}

#[test]
fn forks_lie_in_their_places(rt: HostRuntime) -> Result<(), Fail> {
    let runs = runs(rt.alloc())?;
    let wanted = [
        (46 * 512, 2 * 512, 0, Fork::DataFork),
        (48 * 512, 512, 0, Fork::ResFork),
        (49 * 512, 2 * 512, 2, Fork::ResFork),
    ];
    assert!(rt; runs.len() == 3);
    assert!(rt;
        runs.iter()
            .zip(wanted.iter())
            .all(|(run, row)| is_run(run, row))
    );
    Ok(())
}
