//! A shared volume that no viewer reads.
use crate::sharing::new_volume;
use hfs_shared::{Parts, Pass, ViewFault, Viewer};
use std::alloc::Global;
use std::test::Fail;

/// A new volume that no viewer reads: the passes of two workers, and the viewer that closes.
fn begun_unread(alloc: Global) -> Result<(Vec<Pass>, Viewer), Fail> {
    match Parts::start_unread(alloc, new_volume(alloc)?, 2) {
        Ok((_parts, passes, viewer)) => Ok((passes, viewer)),
        Err(_fault) => Err(Fail::from("not shared")),
    }
}

/// Whether a list is refused, since nothing is kept for viewers.
fn is_gone(alloc: Global, viewer: &mut Viewer) -> bool {
    match viewer.list(alloc, 2) {
        Ok(_reply) => false,
        Err(ViewFault::Gone) => true,
        Err(ViewFault::Memory) => false,
    }
}

#[test]
fn where_nobody_reads_a_list_is_gone(rt: HostRuntime) -> Result<(), Fail> {
    let (passes, mut viewer) = begun_unread(rt.alloc())?;
    assert!(rt; passes.len() == 2 && is_gone(rt.alloc(), &mut viewer));
    Ok(())
}
