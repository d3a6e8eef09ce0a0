//! Bytes that several owners share.
use hfs_model::SharedBytes;
use std::alloc::{AllocError, Global};
use std::test::Fail;

/// A part of shared bytes outlives them, and so does a copy of the part.
fn part_of_five(alloc: Global) -> Result<SharedBytes, AllocError> {
    let bytes = SharedBytes::from_slice(alloc, b"abcde")?;
    let part = bytes.part(1, 4)?;
    part.clone()
}

/// A part of a vector's bytes.
fn part_of_a_vector(alloc: Global) -> Result<SharedBytes, AllocError> {
    let bytes = SharedBytes::from_vec(Vec::from_slice(alloc, b"abcde")?)?;
    bytes.part(3, 5)
}

#[test]
fn a_vector_is_shared(rt: HostRuntime) -> Result<(), Fail> {
    let part = part_of_a_vector(rt.alloc())?;
    assert!(rt; part.as_slice() == b"de".as_slice());
    Ok(())
}

#[test]
fn a_part_is_shared(rt: HostRuntime) -> Result<(), Fail> {
    let part = part_of_five(rt.alloc())?;
    assert!(rt; part.as_slice() == b"bcd".as_slice());
    Ok(())
}
