//! A file with both forks, by the needed blocks of an image.
ghost use Rattle.std.specs.Prelude.{◌≡◌, None, IfOk};
ghost use Rattle.hfs_check.specs.Parts.{catalog_in};
ghost use Rattle.hfs_check.specs.Sound.{AreBlocksSound};
ghost use Rattle.hfs_check.specs.Trees.{HasTrees};
ghost use Rattle.hfs_items.specs.Told as told;
ghost use Rattle.hfs_source.specs.Images.{OfEach};
ghost use Rattle.hfs_source.specs.Sparse.{sparse};
ghost use Rattle.hfs_image.specs.Opened.{IsOpenedOf};
ghost use Rattle.hfs_image.specs.SeenFiles.{IsFileFound, IsReadOfEach};

use crate::forks::{find_file, read_file};
use crate::opening::NeededVolume;
use hfs_btree::RunNodes;
use hfs_items::get_cat_info;
use hfs_model::{Fork, Reply};
use hfs_source::{BlockSource, SparseFault};
use std::alloc::Global;

/// A file with both forks.
#[derive(Drop)]
pub struct NeededFile {
    /// The reply to GetCatInfo of the file.
    pub told: Reply,
    /// The bytes of its data fork.
    pub data: Vec<u8>,
    /// The bytes of its resource fork.
    pub resource: Vec<u8>,
}

/// The reply about the folder's item of that name.
fn tell_of(volume: &NeededVolume, dir: u32, name: &[u8]) -> Reply
    requires sound { AreBlocksSound volume.now.count (sparse volume.now.read) }
    requires trees { HasTrees volume.now.count (sparse volume.now.read) volume.now.sound.trees }
    ensures { result ≡ told.cat_info (catalog_in (sparse volume.now.read)) dir name.now }
{
    let nodes = RunNodes {
        blocks: &volume.read.volume(volume.count),
        runs: &volume.sound.trees.catalog,
    };
    get_cat_info(&nodes, dir, name)
}

/// The reply about a file of an image that was opened this way, and the bytes of both its forks; or what a call that reads a fork
/// answers if there is no such file: -37, -120 or -43. Errors: a read failed, memory was refused.
pub(crate) fn opened_file<S: BlockSource>(
    alloc: Global,
    source: &mut S,
    volume: &NeededVolume,
    dir: u32,
    name: &[u8],
) -> Result<Result<NeededFile, Reply>, SparseFault>
    requires opened { IsOpenedOf None volume.now.count volume.now }
    requires seen { IsReadOfEach (S.Holds source.old) volume.now }
    ensures found { IfOk result (λ found. OfEach (S.Holds source.new)
        (IsFileFound dir name.now found)) }
    ensures narrows { OfEach (S.Holds source.new) (S.Holds source.old) }
{
    let file = match find_file(volume, dir, name) {
        Ok(file) => file,
        Err(reply) => return Ok(Err(reply)),
    };
    let told = tell_of(volume, dir, name);
    let data = read_file(alloc, source, volume, &file, Fork::DataFork)?;
    match read_file(alloc, source, volume, &file, Fork::ResFork) {
        Ok(resource) => Ok(Ok(NeededFile {
            told,
            data,
            resource,
        })),
        Err(fault) => Err(fault),
    }
}
