//! Reading from any reader.
ghost use Rattle.std.specs.Prelude.{◌≡◌, ◌<◌, ◌≤◌, ◌+◌, ◌-◌, ◌^◌, ℕ, List, IfOk, OnOk, OnErr, IsErrOf, Ok, true, false, ◌++◌, length, vec_len, take, drop};
ghost use Rattle.std.specs.Io.KnownBytes.{Consumes, IsAtEnd};
ghost use Rattle.hfs_texts.specs.Reading.{EndsIfShort, GaveAtMost, GaveFewer, GaveSo, HasFilled, HasLoaded, StopsPast};

use std::alloc::{AllocError, Global};
use std::io;
use std::io::{ErrorKind, Read};
use thiserror::Error;

/// Reads until the buffer is full or the input ends, and returns how many bytes were read. At an error, less of the input was
/// read than the buffer holds.
pub fn fill<R: Read>(reader: &mut R, buffer: &mut [u8]) -> io::Result<usize>
    requires { 0 < length buffer.old }
    ensures within { IfOk result (λ count. count ≤ length buffer.new) }
    ensures taken { HasFilled (R.remaining reader.old) (R.remaining reader.new) buffer.new result }
    ensures ended { IfOk result (λ n. EndsIfShort (R.remaining reader.new) buffer.new n) }
    ensures err { OnErr result (GaveFewer (R.remaining reader.old) (R.remaining reader.new)
        (length buffer.new)) }
{
    let mut count = 0;
    for _turn in 0..u64::MAX {
        match reader.read(&mut buffer[count..]) {
            Ok(0) => return Ok(count),
            Ok(more) => {
                count += more;
                if count == buffer.len() {
                    return Ok(count);
                }
            }
            Err(error) => {
                if error.kind() != ErrorKind::Interrupted {
                    return Err(error);
                }
            }
        }
    }
    Err(io::Error::from(ErrorKind::TimedOut))
}

/// The most bytes that an image may have: 2 GiB.
pub const IMAGE_LIMIT: usize = 2_147_483_648;

/// How many bytes are read at once.
const CHUNK: usize = 65_536;

/// How many zeros are written at once to make room for what is read: few enough that the processor keeps them in registers.
const ZEROS: usize = 2_048;

/// Why an input was not loaded.
#[derive(Debug, Drop, Error)]
pub enum LoadFault {
    /// The reader failed.
    #[error("cannot read")]
    ReadFailed,
    /// The reader gave more bytes than are taken.
    #[error("too large")]
    TooLarge,
    /// Memory for the bytes was refused.
    #[error("out of memory")]
    Memory,
}

/// All bytes up to the reader's end, at most `IMAGE_LIMIT`. A reader that has more is given up after exactly one more byte, even
/// a device that never ends.
pub fn load<R: Read>(alloc: Global, reader: &mut R) -> Result<Vec<u8>, LoadFault>
    ensures whole { HasLoaded (R.remaining reader.old) (R.remaining reader.new) result }
    ensures ended { OnOk result (IsAtEnd (R.remaining reader.new)) }
    ensures limit { IfOk result (λ bytes. length bytes.items ≤ IMAGE_LIMIT) }
    ensures too_large { IsErrOf result LoadFault.TooLarge
        → GaveSo (R.remaining reader.old) (R.remaining reader.new) (IMAGE_LIMIT + 1) }
    ensures stops { StopsPast (R.remaining reader.old) (R.remaining reader.new) IMAGE_LIMIT result }
{
    load_within(alloc, reader, IMAGE_LIMIT as u64)
}

/// All bytes up to the reader's end, at most `limit`, which is at most `IMAGE_LIMIT`. A reader that has more is given up after
/// exactly one more byte.
pub fn load_within<R: Read>(alloc: Global, reader: &mut R, limit: u64) -> Result<Vec<u8>, LoadFault>
    requires { limit ≤ IMAGE_LIMIT }
    ensures whole { HasLoaded (R.remaining reader.old) (R.remaining reader.new) result }
    ensures ended { OnOk result (IsAtEnd (R.remaining reader.new)) }
    ensures limit { IfOk result (λ bytes. length bytes.items ≤ limit) }
    ensures too_large { IsErrOf result LoadFault.TooLarge
        → GaveSo (R.remaining reader.old) (R.remaining reader.new) (limit + 1) }
    ensures stops { StopsPast (R.remaining reader.old) (R.remaining reader.new) limit result }
{
    let most = limit as usize;
    let mut bytes = Vec::new(alloc);
    while bytes.len() <= most {
        let room = CHUNK.min(most + 1 - bytes.len());
        if load_more(reader, &mut bytes, room)? && bytes.len() <= most {
            return Ok(bytes);
        }
    }
    Err(LoadFault::TooLarge)
}

/// Reads as many bytes as there is room for, after those that are there. Returns whether the input ended.
fn load_more<R: Read>(reader: &mut R, bytes: &mut Vec<u8>, room: usize) -> Result<bool, LoadFault>
    requires some { 0 < room }
    requires end { vec_len bytes.old + room < 2 ^ 64 }
    ensures ok { OnOk result ((more : List ℕ) × (length more ≤ room)
        × Consumes (R.remaining reader.old) (R.remaining reader.new) more
        × (bytes.new.items ≡ bytes.old.items ++ more)) }
    ensures ended { result ≡ Ok true → IsAtEnd (R.remaining reader.new) }
    ensures goes_on { result ≡ Ok false → vec_len bytes.new ≡ vec_len bytes.old + room }
    ensures err { OnErr result (GaveAtMost (R.remaining reader.old) (R.remaining reader.new) room) }
    ensures not_large { IsErrOf result LoadFault.TooLarge → ⊥ }
{
    let start = bytes.len();
    let Ok(()) = make_room(bytes, start + room) else {
        return Err(LoadFault::Memory);
    };
    let Ok(count) = fill_behind(reader, bytes.as_mut_slice(), start) else {
        return Err(LoadFault::ReadFailed);
    };
    bytes.truncate(start + count);
    Ok(count < room)
}

/// Appends zeros until there are `end` bytes, if there are fewer.
fn make_room(bytes: &mut Vec<u8>, end: usize) -> Result<(), AllocError>
    requires { vec_len bytes.old ≤ end }
    ensures kept { OnOk result (take (vec_len bytes.old) bytes.new.items ≡ bytes.old.items) }
    ensures len { OnOk result (vec_len bytes.new ≡ end) }
{
    while bytes.len() < end {
        let more = ZEROS.min(end - bytes.len());
        bytes.resize(bytes.len() + more, 0)?;
    }
    Ok(())
}

/// Reads into the bytes after the first `start`, as `fill` does.
fn fill_behind<R: Read>(reader: &mut R, bytes: &mut [u8], start: usize) -> io::Result<usize>
    requires { start < length bytes.old }
    ensures front { take start bytes.new ≡ take start bytes.old }
    ensures within { IfOk result (λ count. start + count ≤ length bytes.new) }
    ensures taken { HasFilled (R.remaining reader.old) (R.remaining reader.new)
        (drop start bytes.new) result }
    ensures ended { IfOk result (λ n. EndsIfShort (R.remaining reader.new) bytes.new (start + n)) }
    ensures err { OnErr result (GaveFewer (R.remaining reader.old) (R.remaining reader.new)
        (length bytes.new - start)) }
{
    fill(reader, &mut bytes[start..])
}
