//! The counts in the master directory block.

ghost use Rattle.std.specs.Prelude.{◌+◌, ◌≤◌, OnOk};
ghost use Rattle.hfs_space.specs.Bitmap.{bitmap_len};
ghost use Rattle.hfs_repair.specs.Placed.{placed_in_mdb, AddsWrong};

use crate::fixed::FixPlace;
use crate::wrong_number::{WrongNumber, push_long, push_short};
use hfs_blocks::Blocks;
use hfs_catalog::{CatalogRecord, count_files, count_files_in, count_folders, count_folders_in};
use hfs_fields::Mdb;
use hfs_space::Bitmap;
use std::alloc::AllocError;

/// Adds those counts of the master directory block that are wrong, on a volume with these catalog records. The block is block 2
/// of the image, which begins at byte 1024.
#[tactic(auto, unfolding(hfs_catalog::specs::Sound::counts_of))]
pub(crate) fn push_mdb_numbers<B: Blocks>(
    wrong: &mut Vec<WrongNumber>,
    blocks: &B,
    mdb: &Mdb,
    records: &[CatalogRecord],
) -> Result<(), AllocError>
    requires { mdb.now.bitmap_start + bitmap_len mdb.now.allocation_blocks ≤ B.total blocks.now }
    ensures { OnOk result (AddsWrong wrong.old.items wrong.new.items
        (placed_in_mdb (B.blocks blocks.now) mdb.now records.now)) }
{
    let bitmap = Bitmap {
        blocks,
        start: mdb.bitmap_start,
        count: mdb.allocation_blocks,
    };
    let free = bitmap.free_count() as usize;
    let root_files = count_files_in(records, 2);
    let root_folders = count_folders_in(records, 2);
    let files = count_files(records);
    let folders = count_folders(records).saturating_sub(1);
    push_short(wrong, FixPlace::RootFiles, mdb.root_files, root_files, 1036)?;
    push_short(wrong, FixPlace::FreeBlocks, mdb.free_blocks, free, 1058)?;
    push_short(
        wrong,
        FixPlace::RootFolders,
        mdb.root_folders,
        root_folders,
        1106,
    )?;
    push_long(wrong, FixPlace::Files, mdb.files, files, 1108)?;
    push_long(wrong, FixPlace::Folders, mdb.folders, folders, 1112)
}
