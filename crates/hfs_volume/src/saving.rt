//! Writing an image to any writer, without taking memory.

ghost use Rattle.std.specs.Prelude.{◌≡◌, ℕ, ◌-◌, ◌*◌, ◌<◌, ◌≤◌, IfErr, is_some, false, IsSome};
ghost use Rattle.hfs_blocks.specs.Blocks.{block_count};
ghost use Rattle.hfs_blocks.specs.Layers.{changes, AreWithin};
ghost use Rattle.hfs_volume.specs.Image.{patched};
ghost use Rattle.hfs_volume.specs.Saving.{WritesAll, WritesFirst, BreaksOff, BreaksOffBehind, bytes_between};

use hfs_space::ChangedBlocks;
use std::io::{ErrorKind, Write};
use thiserror::Error;

/// A write failed, or took no bytes.
#[derive(Debug, Clone, Copy, PartialEq, Eq, Error)]
#[error("cannot write")]
pub struct SaveFault {
    /// How many bytes were written: the first ones, and no others.
    pub written: u64,
}

/// Writes the bytes. At an error, returns how many of the first ones were written.
fn write_counted<W: Write>(writer: &mut W, bytes: &[u8]) -> Result<(), usize>
    ensures ok { WritesAll result W.contents writer.old writer.new bytes.now }
    ensures err { IfErr result (WritesFirst W.contents writer.old writer.new bytes.now) }
{
    let mut done = 0;
    for _turn in 0..u64::MAX {
        if done == bytes.len() {
            return Ok(());
        }
        match writer.write(&bytes[done..]) {
            Ok(0) => return Err(done),
            Ok(more) => done += more,
            Err(error) => {
                if error.kind() != ErrorKind::Interrupted {
                    return Err(done);
                }
            }
        }
    }
    Err(done)
}

/// Writes bytes of an image from block `n` on, after those before it were written. The fault counts these as well.
pub(crate) fn write_at<W: Write>(writer: &mut W, n: u32, bytes: &[u8]) -> Result<(), SaveFault>
    ensures ok { WritesAll result W.contents writer.old writer.new bytes.now }
    ensures err { BreaksOffBehind n result W.contents writer.old writer.new bytes.now }
{
    match write_counted(writer, bytes) {
        Ok(()) => Ok(()),
        Err(more) => Err(SaveFault {
            written: u64::from(n) * 512 + more as u64,
        }),
    }
}

/// The first changed block from `n` on, or `count`.
fn next_changed(changed: &ChangedBlocks, n: u32, count: u32) -> u32
    requires { n ≤ count }
    ensures after { n ≤ result }
    ensures within { result ≤ count }
    ensures unchanged { (k : ℕ) → n ≤ k → k < result → is_some (changes changed.now k) ≡ false }
    ensures changed { result < count → IsSome (changes changed.now result) }
{
    for k in n..count {
        if changed.get(k).is_some() {
            return k;
        }
    }
    count
}

/// The longest piece from block `n` on that lies in one place, and the block after it.
fn piece<'a>(changed: &'a ChangedBlocks, base: &'a [u8], n: u32, count: u32) -> (&'a [u8], u32)
    requires count { count ≡ block_count base.now }
    requires in_range { n < count }
    requires within { AreWithin (changes changed.now) (block_count base.now) }
    ensures after { n < result.1 }
    ensures within { result.1 ≤ count }
    ensures bytes { result.0.now ≡ bytes_between n result.1 (patched changed.now base.now) }
{
    let end = next_changed(changed, n, count);
    if n < end {
        let from = n as usize * 512;
        let to = end as usize * 512;
        return (&base[from..to], end);
    }
    match changed.get(n) {
        Some(block) => (block, n + 1),
        None => unreachable!(),
    }
}

/// Writes the bytes of the base, with the changed blocks in place of its own: each piece from where it lies, and last what
/// follows the last whole block.
pub(crate) fn save_laid<W: Write>(
    changed: &ChangedBlocks,
    base: &[u8],
    count: u32,
    writer: &mut W,
) -> Result<(), SaveFault>
    requires count { count ≡ block_count base.now }
    requires within { AreWithin (changes changed.now) (block_count base.now) }
    ensures ok { WritesAll result W.contents writer.old writer.new (patched changed.now base.now) }
    ensures err { BreaksOff result W.contents writer.old writer.new (patched changed.now base.now) }
{
    let mut n = 0;
    while n < count {
        let (bytes, next) = piece(changed, base, n, count);
        write_at(writer, n, bytes)?;
        n = next;
    }
    write_at(writer, count, &base[count as usize * 512..])
}
