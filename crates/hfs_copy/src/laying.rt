//! Putting bytes into blocks, each block as it was read or as it was changed before.
ghost use Rattle.std.specs.Prelude.{◌≡◌, ◌*◌, ◌<◌, ◌∷◌, [], OnOk, IfOk};
ghost use Rattle.hfs_blocks.specs.Layers.{changes, AreWithin, KeepsWithin};
ghost use Rattle.hfs_image.specs.Gathered.{HasRead};
ghost use Rattle.hfs_source.specs.Seen.{SeesMore};
ghost use Rattle.hfs_repair.specs.Puts.{AreInBlocks};
ghost use Rattle.hfs_copy.specs.Mended.{PutsBytes};

use hfs_blocks::{Blocks, Patch};
use hfs_repair::BytePut;
use hfs_source::{BlockSource, SparseBlocks, SparseFault, fetch};
use std::alloc::Global;

/// Puts one byte into its block of an image of `count` blocks. Errors: a read failed, memory was refused.
fn lay_put<S: BlockSource>(
    source: &mut S,
    read: &mut SparseBlocks,
    patch: &mut Patch,
    count: u32,
    put: &BytePut,
) -> Result<(), SparseFault>
    requires within { put.now.at < 512 * count }
    ensures put { OnOk result
        (PutsBytes read.new count (put.now ∷ []) patch.old patch.new) }
    ensures within { KeepsWithin patch.old patch.new count }
    ensures reads { HasRead (S.image source.old) count read.old read.new }
    ensures image { S.image source.new ≡ S.image source.old }
    ensures sees { SeesMore (S.Holds source.old) (S.Holds source.new) read.old read.new }
{
    let n = (put.at / 512) as u32;
    fetch(source, read, n)?;
    let mut block = [0; 512];
    patch.over(&read.volume(count)).block(n, &mut block);
    block[put.at % 512] = put.byte;
    match patch.put(n, &block) {
        Ok(()) => Ok(()),
        Err(_) => Err(SparseFault::Memory),
    }
}

/// The blocks of an image of `count` blocks with these bytes put into them, one after the other. Errors: as for the first that
/// fails.
#[tactic(auto, using(hfs_source::proofs::Seen::sees_itself))]
pub(crate) fn lay_puts<S: BlockSource>(
    alloc: Global,
    source: &mut S,
    read: &mut SparseBlocks,
    count: u32,
    puts: &[BytePut],
) -> Result<Patch, SparseFault>
    requires within { AreInBlocks count puts.now }
    ensures puts { IfOk result (λ patch. PutsBytes read.new count puts.now [] patch) }
    ensures within { IfOk result (λ patch. AreWithin (changes patch) count) }
    ensures reads { HasRead (S.image source.old) count read.old read.new }
    ensures image { S.image source.new ≡ S.image source.old }
    ensures sees { SeesMore (S.Holds source.old) (S.Holds source.new) read.old read.new }
{
    let mut patch = Patch::new(alloc);
    for put in puts {
        lay_put(source, read, &mut patch, count, put)?;
    }
    Ok(patch)
}
