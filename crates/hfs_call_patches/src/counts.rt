//! The counts in a volume's master directory block.

ghost use Rattle.std.specs.Prelude.{◌≡◌, ◌<◌};
ghost use Rattle.hfs_fields.specs.Counts.{with_counts};
ghost use Rattle.hfs_call_patches.specs.Settings.{PutsCountsOver};

use hfs_blocks::{Blocks, Patch};
use hfs_fields::Mdb;
use std::alloc::AllocError;

/// Puts the volume's master directory block with these counts into a patch: block 2, in which no other byte changes. Fails only
/// when out of memory.
pub fn put_counts<B: Blocks>(below: &B, patch: &mut Patch, counts: &Mdb) -> Result<(), AllocError>
    requires { 2 < B.total below.now }
    ensures { PutsCountsOver result counts.now (B.blocks below.now) patch.old patch.new }
{
    let mut block = [0; 512];
    below.block(2, &mut block);
    counts.write_counts(&mut block);
    patch.put(2, &block)?;
    Ok(())
}

/// A master directory block's fields, with the counts of another.
pub fn with_counts(counts: &Mdb, mdb: &Mdb) -> Mdb
    ensures { result ≡ with_counts counts.now mdb.now }
{
    Mdb {
        modified: counts.modified,
        root_files: counts.root_files,
        next_id: counts.next_id,
        free_blocks: counts.free_blocks,
        root_folders: counts.root_folders,
        files: counts.files,
        folders: counts.folders,
        ..*mdb
    }
}
