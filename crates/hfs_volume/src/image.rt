//! An image: its bytes as they were opened, and the blocks that have changed since.

ghost use Rattle.std.specs.Prelude.{◌≡◌, [], ◌++◌, ◌<◌, ◌≤◌, ◌^◌, length, IfOk, IfErr, OnOk, OnErr, nat_eq};
ghost use Rattle.std.specs.List.{IsDistinct, flat_map};
ghost use Rattle.hfs_blocks.specs.Blocks.{block_at, block_count, length-block_at, few-block_count, run_of};
ghost use Rattle.hfs_blocks.specs.Layers.{changes, AreWithin, numbers};
ghost use Rattle.hfs_space.specs.Changed.{laid_changes};
ghost use Rattle.hfs_space.specs.Zeros.{AreAmong};
ghost use Rattle.hfs_volume.specs.BaseBytes.{EndsInZeros};
ghost use Rattle.hfs_volume.specs.Image.{HasKept, IsSameBeside, patched};
ghost use Rattle.hfs_volume.specs.Laid.{laid_over};
ghost use Rattle.hfs_volume.specs.Saving.{WritesAll, BreaksOff};

use crate::base::Base;
use crate::saving::{SaveFault, save_laid, write_at};
use hfs_blocks::{Blocks, Patch, Run};
use hfs_space::{ChangedBlocks, WrittenLog, WrittenRuns};
use std::alloc::{AllocError, AllocFailed, Global};
use std::io::Write;
use std::marker::Model;

/// An image of at most 2,147,483,648 bytes: blocks of 512 bytes, counted from 0, and what may follow the last whole block.
/// Contracts see its bytes as they were opened and as they are now, and which blocks of forks were written since.
#[derive(Drop)]
pub struct Image {
    base: Base,
    changed: ChangedBlocks,
    written: WrittenLog,
}

impl Model for Image {
    ghost use Rattle.hfs_volume.specs.Image.{ImageValue, image_of, IsImage};

    ghost Value = { ImageValue };

    ghost view = { λ m. image_of m.base m.changed m.written.blocks };

    ghost invariant = { λ m. IsImage m.base m.changed };
}

impl Image {
    /// An image in which nothing has changed. When out of memory, the bytes are handed back.
    pub fn new(alloc: Global, bytes: Vec<u8>) -> Result<Image, AllocFailed<Vec<u8>>>
        requires { length bytes.items ≤ 2147483648 }
        ensures base { IfOk result (λ image. image.base ≡ bytes.items) }
        ensures current { IfOk result (λ image. image.current ≡ bytes.items) }
        ensures changed { IfOk result (λ image. image.changed ≡ []) }
        ensures written { IfOk result (λ image. image.written ≡ []) }
        ensures value_returned { IfErr result (λ failed. failed.value ≡ bytes) }
    {
        let base = Base::new(alloc, bytes)?;
        Ok(Image::over(alloc, base))
    }

    /// An image of these bytes in which nothing has changed. Takes no memory.
    pub fn over(alloc: Global, base: Base) -> Image
        ensures base { result.base ≡ base }
        ensures current { result.current ≡ base }
        ensures changed { result.changed ≡ [] }
        ensures written { result.written ≡ [] }
    {
        // Once the bytes are counted, a proof knows how many there can be.
        let _len = base.len();
        Image {
            base,
            changed: ChangedBlocks::new(alloc),
            written: WrittenLog::new(),
        }
    }

    /// The changed blocks, to be laid over the bytes as they were opened.
    pub fn changes(&self) -> &ChangedBlocks
        ensures current { self.now.current ≡ patched result.now self.now.base }
        ensures changed { self.now.changed ≡ numbers result.now }
    {
        &self.changed
    }

    /// The bytes as they were opened, without copying them. Fails only when out of memory.
    pub fn base(&self) -> Result<Base, AllocError>
        ensures { IfOk result (λ base. base ≡ self.now.base) }
    {
        self.base.share()
    }

    /// How many blocks are kept as changed. They include each block that differs from what it was when the image was opened.
    pub fn changed(&self) -> u32
        ensures count { result ≡ length self.now.changed }
        ensures once { IsDistinct nat_eq self.now.changed }
        ensures others { IsSameBeside self.now }
    {
        // Once the blocks are counted, a proof knows how many there can be.
        let _count = self.count();
        self.changed.len() as u32
    }

    /// How many whole blocks there are.
    pub fn count(&self) -> u32
        ensures count { result ≡ block_count self.now.current }
        ensures small { length self.now.current ≤ 2147483648 }
    {
        (self.base.len() / 512) as u32
    }

    /// Copies block `n` as it is now into 512 bytes.
    pub fn block(&self, n: u32, into: &mut [u8; 512])
        requires { n < block_count self.now.current }
        ensures { into.new ≡ block_at self.now.current n }
    {
        let base = self.base.blocks();
        self.changed.over(&base).block(n, into);
    }

    /// Lays a patch over the image. The blocks of `zeros` become zeros below the patch; those of `written` are the blocks of a
    /// fork that were written. At an error the bytes are as they were. The bytes as they were opened never change.
    pub fn commit(
        &mut self,
        alloc: Global,
        patch: &Patch,
        zeros: &[Run],
        written: &[Run],
    ) -> Result<(), AllocError>
        requires patch { AreWithin (changes patch.now) (block_count self.old.current) }
        requires zeros { AreAmong zeros.now (block_count self.old.current) }
        ensures current { OnOk result (self.new.current
            ≡ laid_over (laid_changes patch.now zeros.now) self.old.current) }
        ensures changed { OnOk result
            (HasKept self.old (laid_changes patch.now zeros.now) self.new) }
        ensures written { OnOk result (self.new.written
            ≡ self.old.written ++ flat_map run_of written.now) }
        ensures unchanged { OnErr result (self.new.current ≡ self.old.current) }
        ensures unwritten { OnErr result (self.new.written ≡ self.old.written) }
        ensures base { self.new.base ≡ self.old.base }
    {
        let base = self.base.blocks();
        self.changed.lay(alloc, &base, patch, zeros)?;
        self.written = self.written.then(&WrittenRuns { runs: written });
        Ok(())
    }

    /// Writes the bytes as they are now. Takes no memory. At a fault, the first bytes were written, and no others.
    pub fn save<W: Write>(&self, writer: &mut W) -> Result<(), SaveFault>
        ensures ok { WritesAll result W.contents writer.old writer.new self.now.current }
        ensures err { BreaksOff result W.contents writer.old writer.new self.now.current }
    {
        match self.base.bytes() {
            Some(base) => save_laid(&self.changed, base, (base.len() / 512) as u32, writer),
            None => self.save_blocks(writer),
        }
    }

    /// Writes all whole blocks, and then the bytes that follow the last one.
    fn save_blocks<W: Write>(&self, writer: &mut W) -> Result<(), SaveFault>
        requires { EndsInZeros self.now.current }
        ensures ok { WritesAll result W.contents writer.old writer.new self.now.current }
        ensures err { BreaksOff result W.contents writer.old writer.new self.now.current }
    {
        let mut block = [0; 512];
        let count = self.count();
        for n in 0..count {
            self.block(n, &mut block);
            write_at(writer, n, &block)?;
        }
        block = [0; 512];
        let rest = (self.base.len() % 512) as usize;
        write_at(writer, count, &block[..rest])
    }

    /// A copy of the bytes as they are now. Fails only when out of memory.
    pub fn copy(&self, alloc: Global) -> Result<Vec<u8>, AllocError>
        ensures { IfOk result (λ bytes. bytes.items ≡ self.now.current) }
    {
        let mut bytes = Vec::with_capacity(alloc, self.base.len() as usize)?;
        match self.save(&mut bytes) {
            Ok(()) => Ok(bytes),
            Err(_fault) => Err(AllocError),
        }
    }

    /// The image opened anew: its bytes as they are now count as those that it was opened with, and nothing has changed. Takes no
    /// memory if nothing had. When out of memory, the image is handed back.
    pub fn opened_anew(self, alloc: Global) -> Result<Image, AllocFailed<Image>>
        ensures base { IfOk result (λ image. image.base ≡ self.current) }
        ensures current { IfOk result (λ image. image.current ≡ self.current) }
        ensures changed { IfOk result (λ image. image.changed ≡ []) }
        ensures written { IfOk result (λ image. image.written ≡ []) }
        ensures value_returned { IfErr result (λ failed. failed.value ≡ self) }
    {
        if self.changed() == 0 {
            return Ok(self.as_opened(alloc));
        }
        // Once the blocks are counted, a proof knows how many there can be.
        let _count = self.count();
        let Ok(bytes) = self.copy(alloc) else {
            return Err(AllocFailed { value: self });
        };
        match Image::new(alloc, bytes) {
            Ok(image) => Ok(image),
            Err(_failed) => Err(AllocFailed { value: self }),
        }
    }

    /// The image, in which nothing has changed, over its own base.
    fn as_opened(self, alloc: Global) -> Image
        requires { length self.changed ≡ 0 }
        ensures base { result.base ≡ self.current }
        ensures current { result.current ≡ self.current }
        ensures changed { result.changed ≡ [] }
        ensures written { result.written ≡ [] }
    {
        let Image {
            base,
            changed: _,
            written: _,
        } = self;
        Image::over(alloc, base)
    }

    /// The blocks as they are now.
    pub fn blocks(&self) -> ImageBlocks<'_>
        ensures { result.image.now ≡ self.now }
    {
        // Once the blocks are counted, a proof knows how many there can be.
        let _count = self.count();
        ImageBlocks { image: self }
    }
}

/// The blocks of an image as they are now.
#[derive(Drop)]
pub struct ImageBlocks<'a> {
    /// The image.
    pub image: &'a Image,
    ghost limit: { length image.now.current ≤ 2 ^ 32 },
}

impl Blocks for ImageBlocks<'_> {
    ghost blocks = { λ s. block_at s.image.now.current };

    ghost total = { λ s. block_count s.image.now.current };

    fn count(&self) -> u32 {
        self.image.count()
    }

    fn block(&self, n: u32, into: &mut [u8; 512]) {
        self.image.block(n, into);
    }

    ghost few = { λ s. few-block_count s.image.now.current s.limit };

    ghost whole = { λ s n within. length-block_at s.image.now.current n within };
}
