//! Forks that are written: codes, bytes, lengths and dates by hand. Blocks have 512 bytes unless said otherwise.
use crate::fixture::{root_item, volume};
use hfs_model::{Call, File, Fork, Kind, SharedBytes, Value};
use hfs_store::PlainVolume;
use std::alloc::{AllocError, Global};
use std::test::Fail;

/// The code of a SetEof of an item of the root at moment 8.
fn set_eof(plain: &mut PlainVolume, name: &[u8], fork: Fork, length: u32) -> Result<i16, Fail> {
    let reply = plain.set_eof(2, name, fork, length, 8)?;
    Ok(reply.code)
}

/// The code of a WriteFork to the data fork of `a` at moment 7.
fn write(plain: &mut PlainVolume, offset: u32, bytes: &[u8]) -> Result<i16, Fail> {
    let reply = plain.write_fork(2, b"a", Fork::DataFork, offset, bytes, 7)?;
    Ok(reply.code)
}

/// The bytes of the data fork of `a`, as a read of 2,000 gives them.
fn is_data(plain: &PlainVolume, wanted: &[u8]) -> Result<bool, Fail> {
    let reply = plain.read_fork(2, b"a", Fork::DataFork, 0, 2000)?;
    Ok(match &reply.value {
        Value::Bytes(part) => part.as_slice() == wanted,
        _ => false,
    })
}

/// Whether the data fork of `a` begins with these bytes, and has zeros from there to its end.
fn is_filled(plain: &PlainVolume, first: &[u8], length: usize) -> Result<bool, Fail> {
    let reply = plain.read_fork(2, b"a", Fork::DataFork, 0, 2000)?;
    Ok(match &reply.value {
        Value::Bytes(part) => has_zeros(part.as_slice(), first, length),
        _ => false,
    })
}

/// Whether bytes begin with these, and are zeros from there up to that length.
fn has_zeros(bytes: &[u8], first: &[u8], length: usize) -> bool {
    bytes.len() == length
        && bytes.starts_with(first)
        && bytes.iter().filter(|byte| **byte == 0).count() + first.len() == length
}

/// The file `a`, the only item besides the root.
fn file_a(plain: &PlainVolume) -> Option<&File> {
    match plain.entries() {
        [_, (_, item)] => match &item.kind {
            Kind::File(file) => Some(file),
            Kind::Folder { .. } => None,
        },
        _ => None,
    }
}

/// The physical lengths of both forks of `a`.
fn physical_lengths(plain: &PlainVolume) -> Option<(u32, u32)> {
    let kept = &file_a(plain)?.kept;
    let data = u32::from_be_bytes([kept[30], kept[31], kept[32], kept[33]]);
    let resource = u32::from_be_bytes([kept[40], kept[41], kept[42], kept[43]]);
    Some((data, resource))
}

/// The lengths of both forks of `a`, and when it was modified.
fn lengths(plain: &PlainVolume) -> Option<(u32, u32, u32)> {
    let info = root_item(plain, b"a")?;
    Some((info.data_len, info.res_len, info.modified))
}

/// `count` bytes 7.
fn sevens(alloc: Global, count: usize) -> Result<Vec<u8>, AllocError> {
    vec![in alloc; 7; count]
}

/// A volume with the file `a`.
fn with_a(alloc: Global) -> Result<PlainVolume, Fail> {
    let mut plain = volume(alloc)?;
    plain.create(2, b"a", 1)?;
    Ok(plain)
}

/// A WriteFork to the data fork of `a` at moment 7.
fn write_call(alloc: Global, offset: u32, bytes: &[u8]) -> Result<Call, AllocError> {
    Ok(Call::WriteFork {
        dir: 2,
        name: SharedBytes::from_slice(alloc, b"a")?,
        fork: Fork::DataFork,
        offset,
        bytes: SharedBytes::from_slice(alloc, bytes)?,
        now: 7,
    })
}

/// A SetEof of the data fork of `a` at moment 7.
fn set_eof_call(alloc: Global, length: u32) -> Result<Call, AllocError> {
    Ok(Call::SetEof {
        dir: 2,
        name: SharedBytes::from_slice(alloc, b"a")?,
        fork: Fork::DataFork,
        length,
        now: 7,
    })
}

/// The code of a call, of which a copy is made.
fn code(plain: &mut PlainVolume, call: &Call) -> Result<i16, Fail> {
    let reply = plain.call(&call.copied()?)?;
    Ok(reply.code)
}

/// The code of a WriteFork to the data fork of `a`, as a call of the model.
fn write_code(alloc: Global, plain: &mut PlainVolume, at: u32, bytes: &[u8]) -> Result<i16, Fail> {
    code(plain, &write_call(alloc, at, bytes)?)
}

/// The same calls, as calls of the model.
#[test]
fn calls_write_forks(rt: HostRuntime) -> Result<(), Fail> {
    let mut plain = with_a(rt.alloc())?;
    assert!(rt;
        write_code(rt.alloc(), &mut plain, 0, b"hello")? == 0 && is_data(&plain, b"hello")?
    );
    assert!(rt; code(&mut plain, &set_eof_call(rt.alloc(), 3)?)? == 0 && is_data(&plain, b"hel")?);
    assert!(rt; lengths(&plain) == Some((3, 0, 7)) && plain.changed() == 7);
    assert!(rt; physical_lengths(&plain) == Some((512, 0)));
    assert!(rt; write_code(rt.alloc(), &mut plain, 4, b"x")? == -39 && is_data(&plain, b"hel")?);
    Ok(())
}

/// The definitions know nothing of a lack of blocks: a fork has as many as its bytes take.
#[test]
fn blocks_are_never_wanting(rt: HostRuntime) -> Result<(), Fail> {
    let mut plain = with_a(rt.alloc())?;
    let first = set_eof(&mut plain, b"a", Fork::DataFork, 8192)?;
    let second = set_eof(&mut plain, b"a", Fork::ResFork, 1)?;
    assert!(rt; first == 0 && second == 0 && physical_lengths(&plain) == Some((8192, 512)));
    assert!(rt; set_eof(&mut plain, b"a", Fork::DataFork, 8193)? == 0);
    assert!(rt; physical_lengths(&plain) == Some((8704, 512)));
    Ok(())
}

/// Five bytes are written and read, and change length, physical length and both moments.
#[test]
fn bytes_are_written(rt: HostRuntime) -> Result<(), Fail> {
    let mut plain = with_a(rt.alloc())?;
    assert!(rt; write(&mut plain, 0, b"hello")? == 0 && is_data(&plain, b"hello")?);
    assert!(rt; lengths(&plain) == Some((5, 0, 7)) && plain.changed() == 7);
    assert!(rt; physical_lengths(&plain) == Some((512, 0)));
    Ok(())
}

/// Past the end; at the end, no bytes; longer, shorter and longer again, with zeros where `lo` stood.
#[test]
fn ends_are_set(rt: HostRuntime) -> Result<(), Fail> {
    let mut plain = with_a(rt.alloc())?;
    let five = write(&mut plain, 0, b"hello")?;
    assert!(rt; five == 0 && write(&mut plain, 6, b"")? == -39 && write(&mut plain, 5, b"")? == 0);
    assert!(rt;
        set_eof(&mut plain, b"a", Fork::DataFork, 1024)? == 0 && is_filled(&plain, b"hello", 1024)?
    );
    assert!(rt; physical_lengths(&plain) == Some((1024, 0)));
    assert!(rt; set_eof(&mut plain, b"a", Fork::DataFork, 3)? == 0 && is_data(&plain, b"hel")?);
    assert!(rt; physical_lengths(&plain) == Some((512, 0)));
    assert!(rt;
        set_eof(&mut plain, b"a", Fork::DataFork, 600)? == 0 && is_filled(&plain, b"hel", 600)?
    );
    assert!(rt;
        lengths(&plain) == Some((600, 0, 8)) && physical_lengths(&plain) == Some((1024, 0))
    );
    Ok(())
}

/// Bytes over old ones, and past the end; then the other fork.
#[test]
fn bytes_are_laid_over_others(rt: HostRuntime) -> Result<(), Fail> {
    let mut plain = with_a(rt.alloc())?;
    let first = write(&mut plain, 0, b"hello")?;
    let second = write(&mut plain, 1, b"u")?;
    let third = write(&mut plain, 4, b"a!")?;
    assert!(rt; first == 0 && second == 0 && third == 0 && is_data(&plain, b"hulla!")?);
    assert!(rt; set_eof(&mut plain, b"a", Fork::ResFork, 513)? == 0 && is_data(&plain, b"hulla!")?);
    assert!(rt;
        lengths(&plain) == Some((6, 513, 8)) && physical_lengths(&plain) == Some((512, 1024))
    );
    Ok(())
}

/// Lengths and places past 2,147,483,647 bytes, and more than 65,536 bytes.
#[test]
fn lengths_are_refused(rt: HostRuntime) -> Result<(), Fail> {
    let mut plain = with_a(rt.alloc())?;
    assert!(rt; set_eof(&mut plain, b"a", Fork::DataFork, 2_147_483_648)? == -50);
    assert!(rt;
        write(&mut plain, 2_147_483_647, b"x")? == -50
            && write(&mut plain, 2_147_483_646, b"x")? == -39
    );
    let many = sevens(rt.alloc(), 65_537)?;
    let most = sevens(rt.alloc(), 65_536)?;
    assert!(rt; write(&mut plain, 0, &many)? == -50 && write(&mut plain, 1, &most)? == -39);
    assert!(rt; write(&mut plain, 0, &most)? == 0);
    assert!(rt;
        lengths(&plain) == Some((65_536, 0, 7)) && physical_lengths(&plain) == Some((65_536, 0))
    );
    Ok(())
}

/// A locked file, a folder, no item, no folder and a name that is none.
#[test]
fn files_are_refused(rt: HostRuntime) -> Result<(), Fail> {
    let mut plain = with_a(rt.alloc())?;
    plain.dir_create(2, b"d", 1)?;
    plain.set_lock(true, 2, b"a", 1);
    assert!(rt;
        set_eof(&mut plain, b"a", Fork::DataFork, 1)? == -45 && write(&mut plain, 0, b"x")? == -45
    );
    assert!(rt;
        set_eof(&mut plain, b"d", Fork::DataFork, 1)? == -43
            && set_eof(&mut plain, b"b", Fork::DataFork, 1)? == -43
    );
    assert!(rt;
        set_eof(&mut plain, b"A:B", Fork::DataFork, 1)? == -37
            && codes_in(&mut plain, 9, b"a")? == (-120, -120)
    );
    assert!(rt; plain.changed() == 1);
    Ok(())
}

/// The codes of a SetEof of 1 and of a WriteFork of one byte at 1, in the resource fork of an item of that folder.
fn codes_in(plain: &mut PlainVolume, dir: u32, name: &[u8]) -> Result<(i16, i16), Fail> {
    let set = plain.set_eof(dir, name, Fork::ResFork, 1, 9)?.code;
    let written = plain.write_fork(dir, name, Fork::ResFork, 1, b"x", 9)?.code;
    Ok((set, written))
}

/// The codes of a SetEof and a WriteFork that are too long.
fn codes_past_the_most(plain: &mut PlainVolume) -> Result<(i16, i16), Fail> {
    let set = plain
        .set_eof(9, b"A:B", Fork::DataFork, 2_147_483_648, 9)?
        .code;
    let written = plain
        .write_fork(9, b"A:B", Fork::DataFork, 2_147_483_647, b"x", 9)?
        .code;
    Ok((set, written))
}

/// Of several codes that apply, the first is answered: -50, that of the locked volume, -37, -120, -43, -45, -39.
#[test]
fn the_first_code_is_told(rt: HostRuntime) -> Result<(), Fail> {
    let mut plain = with_a(rt.alloc())?;
    plain.set_lock(true, 2, b"a", 1);
    plain.set_locks(true, true);
    assert!(rt;
        codes_past_the_most(&mut plain)? == (-50, -50)
            && codes_in(&mut plain, 9, b"A:B")? == (-44, -44)
    );
    plain.set_locks(false, true);
    assert!(rt; codes_in(&mut plain, 9, b"A:B")? == (-46, -46));
    plain.set_locks(false, false);
    assert!(rt;
        codes_in(&mut plain, 9, b"A:B")? == (-37, -37)
            && codes_in(&mut plain, 9, b"b")? == (-120, -120)
    );
    assert!(rt;
        codes_in(&mut plain, 2, b"b")? == (-43, -43) && codes_in(&mut plain, 2, b"a")? == (-45, -45)
    );
    plain.set_lock(false, 2, b"a", 1);
    assert!(rt; write(&mut plain, 1, b"x")? == -39 && lengths(&plain) == Some((0, 0, 1)));
    Ok(())
}

/// Blocks of 1,024 bytes; then blocks of no bytes, which no image has.
#[test]
fn blocks_have_a_size(rt: HostRuntime) -> Result<(), Fail> {
    let mut plain = with_a(rt.alloc())?;
    plain.set_block_size(1024);
    assert!(rt;
        write(&mut plain, 0, b"hello")? == 0 && set_eof(&mut plain, b"a", Fork::ResFork, 1025)? == 0
    );
    assert!(rt; physical_lengths(&plain) == Some((1024, 2048)));
    plain.set_block_size(0);
    assert!(rt; set_eof(&mut plain, b"a", Fork::DataFork, 2)? == 0 && is_data(&plain, b"he")?);
    assert!(rt; physical_lengths(&plain) == Some((0, 2048)) && plain.block_size() == 0);
    Ok(())
}
