//! Images that are refused, and handed back as they were.
use hfs_check::MountFault;
use hfs_volume::{Refused, mount, mount_repaired};
use std::alloc::{AllocError, Global};
use std::test::Fail;

/// The refusal of an image that isn't mounted.
fn refusal_of(alloc: Global, image: Vec<u8>) -> Option<Refused> {
    match mount(alloc, image) {
        Ok(_volume) => None,
        Err(refused) => Some(refused),
    }
}

/// The refusal of one that isn't mounted even with its counts mended.
fn refusal_in_repair(alloc: Global, image: Vec<u8>) -> Option<Refused> {
    match mount_repaired(alloc, image) {
        Ok(_mended) => None,
        Err(refused) => Some(refused),
    }
}

/// Whether an image is refused for this fault, and handed back as it was.
fn is_for(refused: Option<Refused>, given: &[u8], fault: MountFault) -> bool {
    match refused {
        Some(refused) => refused.fault == fault && refused.image.as_slice() == given,
        None => false,
    }
}

/// Whether `len` bytes of 0 are refused for this fault both times, and handed back as they were.
fn are_zeros_refused(alloc: Global, len: usize, fault: MountFault) -> Result<bool, AllocError> {
    let zeros = vec![in alloc; 0u8; len]?;
    let is_refused = is_for(refusal_of(alloc, zeros.clone()?), &zeros, fault);
    Ok(is_refused && is_for(refusal_in_repair(alloc, zeros.clone()?), &zeros, fault))
}

#[test]
fn what_is_no_volume_is_refused(rt: HostRuntime) -> Result<(), Fail> {
    for (len, fault) in [(1535, MountFault::Short), (1536, MountFault::NoMacDisk)] {
        assert!(rt; are_zeros_refused(rt.alloc(), len, fault)?, "{len}");
    }
    Ok(())
}
