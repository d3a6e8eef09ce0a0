//! A base of which two blocks were read.
ghost use Rattle.std.specs.Prelude.{IfOk};
ghost use Rattle.hfs_blocks.specs.Layers.{changes, AreWithin};

use crate::saving::{is_front, is_saved, pattern};
use hfs_blocks::Blocks;
use hfs_source::{ByteSource, SparseBlocks, fetch};
use hfs_volume::{Base, BaseBlocks, Image};
use std::alloc::{AllocError, Global};
use std::test::Fail;

/// The blocks 2 and 4 of these bytes.
fn two_blocks(alloc: Global, bytes: &[u8]) -> Result<SparseBlocks, Fail>
    ensures { IfOk result (λ read. AreWithin (changes read) 5) }
{
    let mut read = SparseBlocks::new(alloc);
    let mut source = ByteSource { bytes };
    let Ok(()) = fetch(&mut source, &mut read, 2) else {
        return Err(Fail::new("block 2 is not read"));
    };
    let Ok(()) = fetch(&mut source, &mut read, 4) else {
        return Err(Fail::new("block 4 is not read"));
    };
    Ok(read)
}

/// The base of blocks 2 and 4 of 2,660 bytes of the pattern.
fn read_base(alloc: Global) -> Result<Base, Fail> {
    let bytes = pattern(alloc, 2660)?;
    let read = two_blocks(alloc, &bytes)?;
    match Base::of_read(alloc, read, 2660) {
        Ok(base) => Ok(base),
        Err(_failed) => Err(Fail::new("memory was refused")),
    }
}

/// The pattern in blocks 2 and 4 of 2,660 bytes, and zeros elsewhere: byte `k` of these blocks is `k` mod 251.
fn two_of_five(alloc: Global) -> Result<Vec<u8>, AllocError> {
    let mut bytes = Vec::new(alloc);
    for k in 0..2660_usize {
        let byte = match k / 512 {
            2 | 4 => (k % 251) as u8,
            _ => 0,
        };
        bytes.push(byte)?;
    }
    Ok(bytes)
}

/// Whether block `n` is there, and begins and ends with these bytes.
fn has_block(blocks: &BaseBlocks<'_>, n: u32, first: u8, last: u8) -> bool {
    if n >= blocks.count() {
        return false;
    }
    let mut block = [0; 512];
    blocks.block(n, &mut block);
    block[0] == first && block[511] == last
}

/// Whether there are five blocks, of which the two have bytes of the pattern: 1,024, 1,535, 2,048 and 2,559 are 20, 29, 40 and 49
/// mod 251.
fn has_two(base: &Base) -> bool {
    let blocks = base.blocks();
    blocks.count() == 5
        && has_block(&blocks, 1, 0, 0)
        && has_block(&blocks, 2, 20, 29)
        && has_block(&blocks, 3, 0, 0)
        && has_block(&blocks, 4, 40, 49)
}

#[test]
fn blocks_that_were_not_read_are_zeros(rt: HostRuntime) -> Result<(), Fail> {
    let base = read_base(rt.alloc())?;
    assert!(rt; base.bytes().is_none() && base.len() == 2660);
    assert!(rt; has_two(&base));
    Ok(())
}

/// Whether an image of these blocks is saved with zeros elsewhere, and its front by a writer that fails in block 2.
fn is_saved_with_zeros(alloc: Global, image: &Image) -> Result<bool, AllocError> {
    let whole = two_of_five(alloc)?;
    Ok(is_saved(alloc, image, 2660, &whole) && is_front(alloc, image, &whole, 1100))
}

#[test]
fn an_image_of_read_blocks_is_saved_with_zeros(rt: HostRuntime) -> Result<(), Fail> {
    let image = Image::over(rt.alloc(), read_base(rt.alloc())?);
    assert!(rt; is_saved_with_zeros(rt.alloc(), &image)?);
    Ok(())
}
