//! Parts of a fork that is laid.
use crate::fixture::{file_item, lay, root_item, volume};
use hfs_fields::Name;
use hfs_model::{Fork, Reply, Value};
use hfs_store::PlainVolume;
use std::alloc::{AllocError, Global};
use std::process::Abort;
use std::test::Fail;

/// Whether a reply has this code and these bytes of a fork.
fn is_part(reply: &Reply, code: i16, wanted: &[u8]) -> bool {
    match &reply.value {
        Value::Bytes(part) => reply.code == code && part.as_slice() == wanted,
        _ => false,
    }
}

/// Whether a part of the data fork of a file of the root is answered with that code and these bytes.
fn is_read(
    plain: &PlainVolume,
    name: &[u8],
    offset: u32,
    count: u32,
    code: i16,
    wanted: &[u8],
) -> Result<bool, AllocError> {
    let reply = plain.read_fork(2, name, Fork::DataFork, offset, count)?;
    Ok(is_part(&reply, code, wanted))
}

/// The code of reading a fork of a file of the root from its beginning on.
fn read_code(plain: &PlainVolume, name: &[u8], fork: Fork, count: u32) -> Result<i16, AllocError> {
    let reply = plain.read_fork(2, name, fork, 0, count)?;
    Ok(reply.code)
}

/// Bytes, of which byte k is k mod 251.
fn fork_bytes() -> [u8; 2000] {
    let mut bytes = [0; 2000];
    for k in 0..2000 {
        bytes[k] = (k % 251) as u8;
    }
    bytes
}

/// Lays the file `f` in the root, with these bytes in its data fork.
fn lay_fork(rt: &impl Abort, alloc: Global, plain: &mut PlainVolume) -> Result<(), Fail> {
    match Name::new(b"f") {
        Some(name) => lay(rt, plain, 16, file_item(alloc, name, &fork_bytes())?),
        None => Err(Fail::new("no name")),
    }
}

/// Wants parts of the data fork of `f` to be answered with a code and bytes.
fn expect_parts(rt: &impl Abort, plain: &PlainVolume) -> Result<(), Fail> {
    let parts: [(u32, u32, i16, &[u8]); 5] = [
        (
            1530,
            10,
            0,
            &[0x18, 0x19, 0x1a, 0x1b, 0x1c, 0x1d, 0x1e, 0x1f, 0x20, 0x21],
        ),
        (1995, 10, -39, &[0xee, 0xef, 0xf0, 0xf1, 0xf2]),
        (2000, 0, 0, &[]),
        (2001, 0, -39, &[]),
        (4294967295, 65536, -39, &[]),
    ];
    for (offset, count, code, wanted) in parts {
        assert!(rt;
            is_read(plain, b"f", offset, count, code, wanted)?,
            "at {offset}"
        );
    }
    Ok(())
}

/// Whether a file of the root has 2,000 bytes in its data fork and none in the other.
fn has_lengths(plain: &PlainVolume, name: &[u8]) -> bool {
    match root_item(plain, name) {
        Some(info) => info.data_len == 2000 && info.res_len == 0,
        None => false,
    }
}

/// Lays the file `f`, and reads its forks.
fn expect_forks(rt: &impl Abort, alloc: Global, plain: &mut PlainVolume) -> Result<(), Fail> {
    lay_fork(rt, alloc, plain)?;
    expect_parts(rt, plain)?;
    for (fork, count, code) in [(Fork::DataFork, 65537, -50), (Fork::ResFork, 1, -39)] {
        assert!(rt; read_code(plain, b"f", fork, count)? == code, "{count}");
    }
    assert!(rt; has_lengths(plain, b"f"));
    Ok(())
}

/// Parts of a fork of 2,000 bytes, of which byte k is k mod 251.
#[test]
fn parts_of_a_fork(rt: HostRuntime) -> Result<(), Fail> {
    let mut plain = volume(rt.alloc())?;
    expect_forks(&rt, rt.alloc(), &mut plain)
}
