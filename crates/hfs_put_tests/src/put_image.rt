//! What is written after lists were put on the new volume with 64 blocks, of which allocation block 0 is block 4 and allocation
//! block 42 the first that is free.
use crate::items::item;
use hfs_fixtures::{FixtureFault, lay, new_image};
use hfs_model::ItemKind;
use hfs_put::{PutBlocks, put_items};
use hfs_put_plan::PutItem;
use hfs_volume::mount;
use std::alloc::Global;
use std::test::Fail;

/// What is written after a list is put on an image.
fn put(alloc: Global, image: Vec<u8>, items: &[PutItem]) -> Result<PutBlocks, FixtureFault> {
    let Ok(mut volume) = mount(alloc, image) else {
        return Err(FixtureFault::Unsound);
    };
    match put_items(alloc, &mut volume, 2, 7, items) {
        Ok(put) => Ok(put),
        Err(_) => Err(FixtureFault::Unsound),
    }
}

#[test]
fn blocks_and_runs_go_out(rt: HostRuntime) -> Result<(), Fail> {
    let items = [item(None, ItemKind::File, b"a", (513, 0))?];
    let put = put(rt.alloc(), new_image(rt.alloc(), 40)?, &items)?;
    assert!(rt; put.ids.len() == 1 && put.ids[0] == 16);
    assert!(rt; put.runs.len() == 1 && put.runs[0].place == 512 * 46 && put.runs[0].len == 1_024);
    assert!(rt; put.patch.get(2).is_some() && put.patch.get(3).is_some());
    assert!(rt; put.patch.get(46).is_none() && put.patch.get(47).is_none());
    Ok(())
}

/// The volume with 60 allocation blocks, so that the last two blocks of the image are among them. The last but one has the copy
/// of the master directory block, and no file owns it.
fn image_to_the_end(alloc: Global) -> Result<Vec<u8>, FixtureFault> {
    let mut image = new_image(alloc, 40)?;
    lay(&mut image, 2, 18, &[0, 60])?;
    lay(&mut image, 2, 34, &[0, 18])?;
    Ok(image)
}

/// A file that gets every free block also gets the last but one. Its old bytes aren't zeros, but it isn't written: the file's
/// bytes go there.
#[test]
fn the_last_block_but_one_is_the_files(rt: HostRuntime) -> Result<(), Fail> {
    let items = [item(None, ItemKind::File, b"a", (9_216, 0))?];
    let put = put(rt.alloc(), image_to_the_end(rt.alloc())?, &items)?;
    assert!(rt; put.runs.len() == 1 && put.runs[0].place == 512 * 46 && put.runs[0].len == 9_216);
    assert!(rt; put.patch.get(2).is_some() && put.patch.get(62).is_none());
    Ok(())
}
