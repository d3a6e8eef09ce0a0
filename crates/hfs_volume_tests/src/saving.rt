//! Images with changed blocks that are saved by writers that fail: how many bytes were written.
ghost use Rattle.std.specs.Prelude.{◌<◌};
ghost use Rattle.hfs_blocks.specs.Blocks.{block_count};

use hfs_blocks::Patch;
use hfs_volume::{Image, SaveFault};
use hfs_volume_fixtures::LimitedWriter;
use std::alloc::{AllocError, Global};
use std::process::Abort;
use std::test::Fail;

/// Bytes whose blocks all differ: byte `k` is `k` mod 251.
pub fn pattern(alloc: Global, len: usize) -> Result<Vec<u8>, AllocError> {
    let mut bytes = Vec::new(alloc);
    for k in 0..len {
        bytes.push((k % 251) as u8)?;
    }
    Ok(bytes)
}

/// The pattern, with three blocks that have one value each.
fn changed_pattern(alloc: Global, len: usize, values: [u8; 3]) -> Result<Vec<u8>, AllocError> {
    let mut bytes = Vec::new(alloc);
    for k in 0..len {
        let byte = match k / 512 {
            1 => values[0],
            2 => values[1],
            4 => values[2],
            _ => (k % 251) as u8,
        };
        bytes.push(byte)?;
    }
    Ok(bytes)
}

/// An image of the pattern.
fn pattern_image(alloc: Global, len: usize) -> Result<Image, Fail> {
    let bytes = pattern(alloc, len)?;
    if bytes.len() > 4096 {
        return Err(Fail::new("too long"));
    }
    match Image::new(alloc, bytes) {
        Ok(image) => Ok(image),
        Err(_failed) => Err(Fail::new("memory was refused")),
    }
}

/// Commits blocks 1, 2 and 4, each with bytes of one value.
fn commit_three(alloc: Global, image: &mut Image, values: [u8; 3]) -> Result<(), AllocError>
    requires { 4 < block_count image.old.current }
{
    let mut patch = Patch::new(alloc);
    patch.put(4, &[values[2]; 512])?;
    patch.put(1, &[values[0]; 512])?;
    patch.put(2, &[values[1]; 512])?;
    image.commit(alloc, &patch, &[], &[])
}

/// Commits blocks 1, 2 and 4 of an image that has five blocks.
fn change(alloc: Global, image: &mut Image, values: [u8; 3]) -> Result<(), AllocError> {
    if image.count() == 5 {
        commit_three(alloc, image, values)
    } else {
        Ok(())
    }
}

/// What is saved of an image by a writer that takes `left` bytes, and how the saving ended.
fn saved(alloc: Global, image: &Image, left: usize) -> (Vec<u8>, Result<(), SaveFault>) {
    let mut writer = LimitedWriter::new(alloc, left);
    let end = image.save(&mut writer);
    (writer.taken, end)
}

/// Whether a writer that takes `left` bytes gets these.
pub fn is_saved(alloc: Global, image: &Image, left: usize, whole: &[u8]) -> bool {
    let (bytes, end) = saved(alloc, image, left);
    end.is_ok() && bytes.as_slice() == whole
}

/// Whether a writer that fails after `left` bytes has the first of these and no others.
pub fn is_front(alloc: Global, image: &Image, whole: &[u8], left: usize) -> bool {
    let (bytes, end) = saved(alloc, image, left);
    match end {
        Ok(()) => false,
        Err(fault) => fault.written == left as u64
            && whole.starts_with(bytes.as_slice())
            && bytes.len() == left,
    }
}

/// Changes three blocks, and wants each front of the changed pattern to be saved by a writer that fails.
fn expect_fronts(rt: &impl Abort, alloc: Global, image: &mut Image) -> Result<(), Fail> {
    change(alloc, image, [7, 8, 9])?;
    let whole = changed_pattern(alloc, 2660, [7, 8, 9])?;
    for left in 0..2660 {
        assert!(rt; is_front(alloc, image, &whole, left), "after {left}");
    }
    Ok(())
}

#[test]
fn a_writer_that_fails_has_the_first_bytes(rt: HostRuntime) -> Result<(), Fail> {
    let mut image = pattern_image(rt.alloc(), 2660)?;
    expect_fronts(&rt, rt.alloc(), &mut image)
}
