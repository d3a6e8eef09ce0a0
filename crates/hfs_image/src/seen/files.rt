//! The files of an image, whose forks are read or written out, where a failed read is told from refused memory.
ghost use Rattle.std.specs.Prelude.{◌≡◌, Err, IfErr, IfOk, OnErr};
ghost use Rattle.hfs_texts.specs.Writing.{AppendsFront};
ghost use Rattle.hfs_source.specs.Images.{FailsWhere, OfEach};
ghost use Rattle.hfs_image.specs.Failing.{SomeReadFails};
ghost use Rattle.hfs_image.specs.Seen.{IsSeenAs};
ghost use Rattle.hfs_image.specs.SeenFiles.{HasForkOf, IsFileFound, IsForkWritten};

use super::SeenImage;
use crate::forks::{NamedFork, write_opened};
use crate::noted::{NotedBlocks, PickedFailures, noted_copy, noted_fault};
use crate::opening::NeededVolume;
use crate::whole_files::{NeededFile, opened_file};
use hfs_model::{Fork, Reply};
use hfs_source::{CopyFault, PlacedBlocks, SeenBlocks, SparseFault};
use std::alloc::Global;
use std::io::Write;
use std::marker::Brand;

impl<S: PlacedBlocks> SeenImage<S> {
    /// Writes the bytes of a file's fork piece by piece, while they are read, at most 65,536 at a time, so memory doesn't grow
    /// with the fork. If there is no such fork, writes nothing and returns what a call that reads it answers: -37, -120 or -43.
    /// The image is handed back. Errors: memory was refused or a read failed, before anything was written; a read failed after
    /// some bytes were written, or the writer failed: then only the beginning of the fork may have been written.
    pub fn write_fork<W: Write>(
        self,
        alloc: Global,
        dir: u32,
        name: &[u8],
        fork: Fork,
        writer: &mut W,
    ) -> (Result<Result<(), Reply>, CopyFault>, SeenImage<S>)
        ensures written { IfOk result.0 (λ found. OfEach (S.Holds result.1) (IsForkWritten dir name.now
            fork (W.contents writer.old) (W.contents writer.new) found)) }
        ensures part { OnErr result.0 (OfEach (S.Holds result.1) (HasForkOf dir name.now fork
            (AppendsFront (W.contents writer.old) (W.contents writer.new)))) }
        ensures unwritten { IfOk result.0 (λ found. OnErr found (writer.new ≡ writer.old)) }
        ensures none { result.0 ≡ Err CopyFault.ReadFailed → writer.new ≡ writer.old }
        ensures memory { result.0 ≡ Err CopyFault.Memory → writer.new ≡ writer.old }
        ensures failed { result.0 ≡ Err CopyFault.ReadFailed
            → SomeReadFails (S.Holds self) (S.Fails self) }
        ensures broken { result.0 ≡ Err CopyFault.BrokenOff
            → SomeReadFails (S.Holds self) (S.Fails self) }
        ensures narrows { OfEach (S.Holds result.1) (S.Holds self) }
        ensures later { FailsWhere (S.Fails result.1) (S.Fails self) }
    {
        let SeenImage {
            source,
            len,
            volume,
        } = self;
        let named = NamedFork { dir, name, fork };
        let (told, source) = write_noted::<Brand, S, W>(
            alloc, source, len, &volume, &named, writer,
        );
        let image = SeenImage {
            source,
            len,
            volume,
        };
        (told, image)
    }
}

impl<S: PlacedBlocks + Drop> SeenImage<S> {
    /// The reply about a file, the bytes of both its forks, and what they are read from; only the forks' own blocks are read. Or
    /// what a call that reads a fork answers if there is no such file: -37, -120 or -43. Errors: a read failed, memory was
    /// refused.
    pub fn file(
        self,
        alloc: Global,
        dir: u32,
        name: &[u8],
    ) -> Result<(Result<NeededFile, Reply>, SeenBlocks<S>), SparseFault>
        ensures found { IfOk result (λ told. OfEach (S.Holds told.1.blocks)
            (IsFileFound dir name.now told.0)) }
        ensures narrows { IfOk result (λ told. OfEach (S.Holds told.1.blocks) (S.Holds self)) }
        ensures later { IfOk result (λ told. FailsWhere (S.Fails told.1.blocks) (S.Fails self)) }
        ensures failed { IfErr result (λ fault. fault ≡ SparseFault.ReadFailed
            → SomeReadFails (S.Holds self) (S.Fails self)) }
    {
        let SeenImage {
            source,
            len,
            volume,
        } = self;
        file_noted::<Brand, S>(alloc, source, len, &volume, dir, name)
    }
}

/// A file of an image of `len` bytes as [`SeenImage::file`] returns it, with the reads that may fail already picked.
fn file_noted<K: PickedFailures, S: PlacedBlocks + Drop>(
    alloc: Global,
    source: SeenBlocks<S>,
    len: u64,
    volume: &NeededVolume,
    dir: u32,
    name: &[u8],
) -> Result<(Result<NeededFile, Reply>, SeenBlocks<S>), SparseFault>
    requires fails { FailsWhere (S.Fails source.blocks) K.fails }
    requires seen { IsSeenAs (S.Holds source.blocks) len volume.now }
    requires len { len ≡ K.len }
    ensures found { IfOk result (λ told. OfEach (S.Holds told.1.blocks)
        (IsFileFound dir name.now told.0)) }
    ensures narrows { IfOk result (λ told. OfEach (S.Holds told.1.blocks) (S.Holds source.blocks)) }
    ensures later { IfOk result (λ told. FailsWhere (S.Fails told.1.blocks) K.fails) }
    ensures failed { IfErr result (λ fault. fault ≡ SparseFault.ReadFailed
        → SomeReadFails (S.Holds source.blocks) K.fails) }
{
    let mut noted = NotedBlocks::<S, K>::new(source, len);
    let told = opened_file(alloc, &mut noted, volume, dir, name);
    let (source, failed) = noted.into_source();
    match told {
        Ok(found) => Ok((found, source)),
        Err(why) => Err(noted_fault(why, failed)),
    }
}

/// Writes a file's fork of an image of `len` bytes as [`SeenImage::write_fork`] does, where the reads that may fail are picked.
fn write_noted<K: PickedFailures, S: PlacedBlocks, W: Write>(
    alloc: Global,
    source: SeenBlocks<S>,
    len: u64,
    volume: &NeededVolume,
    named: &NamedFork<'_>,
    writer: &mut W,
) -> (Result<Result<(), Reply>, CopyFault>, SeenBlocks<S>)
    requires fails { FailsWhere (S.Fails source.blocks) K.fails }
    requires seen { IsSeenAs (S.Holds source.blocks) len volume.now }
    requires len { len ≡ K.len }
    ensures written { IfOk result.0 (λ found. OfEach (S.Holds result.1.blocks) (IsForkWritten
        named.now.dir named.now.name.now named.now.fork
        (W.contents writer.old) (W.contents writer.new) found)) }
    ensures part { OnErr result.0 (OfEach (S.Holds result.1.blocks) (HasForkOf named.now.dir
        named.now.name.now named.now.fork
        (AppendsFront (W.contents writer.old) (W.contents writer.new)))) }
    ensures unwritten { IfOk result.0 (λ found. OnErr found (writer.new ≡ writer.old)) }
    ensures none { result.0 ≡ Err CopyFault.ReadFailed → writer.new ≡ writer.old }
    ensures memory { result.0 ≡ Err CopyFault.Memory → writer.new ≡ writer.old }
    ensures failed { result.0 ≡ Err CopyFault.ReadFailed
        → SomeReadFails (S.Holds source.blocks) K.fails }
    ensures broken { result.0 ≡ Err CopyFault.BrokenOff
        → SomeReadFails (S.Holds source.blocks) K.fails }
    ensures narrows { OfEach (S.Holds result.1.blocks) (S.Holds source.blocks) }
    ensures later { FailsWhere (S.Fails result.1.blocks) K.fails }
{
    let mut noted = NotedBlocks::<S, K>::new(source, len);
    let told = write_opened(alloc, &mut noted, volume, named, writer);
    let (source, failed) = noted.into_source();
    match told {
        Ok(found) => (Ok(found), source),
        Err(why) => (Err(noted_copy(why, failed)), source),
    }
}
