//! Finding what there is of an image from the needed blocks alone.
ghost use Rattle.std.specs.Prelude.{◌≡◌, IfOk};
ghost use Rattle.hfs_source.specs.Images.{OfEach};
ghost use Rattle.hfs_source.specs.Seen.{EachKnown};
ghost use Rattle.hfs_remains_forks.specs.NeededFinds.{IsNeededOf};

use crate::finding::finds_by;
use crate::finds::Finds;
use crate::gathering::{Gathered, gather};
use hfs_remains::read_mdb_at;
use hfs_source::{BlockSource, SparseFault};
use std::alloc::Global;

/// What is found of an image from the blocks that are needed for it.
#[derive(Drop)]
pub enum NeededFinds {
    /// What `find_in` returns for the whole image.
    Found(Option<Finds>),
    /// Other blocks are wanted: there is no directory in its two places, or the catalog does not pass its check and is
    /// incomplete.
    Whole,
}

/// What is found of an image of `len` bytes by the block that is taken for its directory, if that block is in one of a
/// directory's two places, and the catalog passes its check, or has all blocks that its size asks for and a record. Then only
/// these blocks are read: those that say which of the two serves, and those of both trees' files, in runs of up to 64 KB.
/// Otherwise other blocks of the image are looked at, so all of them must be read. Errors: a read failed, memory was refused.
pub fn needed_finds<S: BlockSource>(
    alloc: Global,
    source: &mut S,
    len: u64,
) -> Result<NeededFinds, SparseFault>
    ensures needed { IfOk result (IsNeededOf (S.image source.old) len) }
    ensures image { S.image source.new ≡ S.image source.old }
    ensures each { IfOk result (λ found. EachKnown (S.Holds source.new)
        (λ known. IsNeededOf known len found)) }
    ensures narrows { OfEach (S.Holds source.new) (S.Holds source.old) }
{
    if len < 1_536 || len > 2_147_483_648 {
        return Ok(NeededFinds::Found(None));
    }
    let count = (len / 512) as u32;
    let Gathered { read, directory } = gather(alloc, source, count)?;
    let Some(n) = directory else {
        return Ok(NeededFinds::Whole);
    };
    let blocks = read.volume(count);
    let mdb = read_mdb_at(&blocks, n);
    match finds_by(alloc, &blocks, n, mdb) {
        Ok(finds) => Ok(NeededFinds::Found(Some(finds))),
        Err(_) => Err(SparseFault::Memory),
    }
}
