//! Files of a mounted volume: calls from text, where forks lie after them, and how many blocks are changed.
use crate::volumes::mounted;
use hfs_fields::{Extent, FileRecord};
use hfs_fixtures::FixtureFault;
use hfs_model::Fork;
use hfs_scripts::read_script;
use hfs_volume::Volume;
use std::alloc::{AllocError, Global};

/// Makes the calls of these lines of a script, at the moment 0. Whether each has the code 0.
fn are_made(alloc: Global, volume: &mut Volume, text: &[u8]) -> Result<bool, AllocError> {
    let Ok(script) = read_script(alloc, text, 0) else {
        return Ok(false);
    };
    let mut are_made = true;
    for line in script.lines() {
        let reply = volume.call(alloc, &line.call)?;
        are_made = are_made && reply.code == 0;
    }
    Ok(are_made)
}

/// The record of the file with that ID.
fn file_with(alloc: Global, volume: &Volume, id: u32) -> Result<Option<FileRecord>, AllocError> {
    let mut found = None;
    for record in volume.records(alloc)? {
        let file = FileRecord::read(record.body());
        if file.is_some_and(|file| file.id == id) {
            found = file;
        }
    }
    Ok(found)
}

/// Whether the extents have these first blocks and these numbers of blocks.
fn are_extents(extents: &[Extent], wanted: &[(u16, u16)]) -> bool {
    if extents.len() != wanted.len() {
        return false;
    }
    extents.iter().zip(wanted.iter()).all(|(extent, (first, count))| extent.first == *first
        && extent.count == *count)
}

/// Whether the fork of the file with that ID has these extents: the three of its record, and three for each of its records in the
/// extents tree, including those that aren't used.
fn has_extents(
    alloc: Global,
    volume: &Volume,
    id: u32,
    fork: Fork,
    wanted: &[(u16, u16)],
) -> Result<bool, AllocError> {
    let Some(file) = file_with(alloc, volume, id)? else {
        return Ok(false);
    };
    let extents = volume.file_extents(alloc, &file, fork)?;
    Ok(are_extents(&extents, wanted))
}

/// Whether the calls of these texts are made on the volume of an image, and a fork then lies there, as [`has_extents`] says.
pub fn lies_after(
    alloc: Global,
    image: Vec<u8>,
    texts: [&[u8]; 2],
    (id, fork): (u32, Fork),
    wanted: &[(u16, u16)],
) -> Result<bool, FixtureFault> {
    let mut volume = mounted(alloc, image)?;
    let is_made = are_made(alloc, &mut volume, texts[0])?
        && are_made(alloc, &mut volume, texts[1])?;
    Ok(is_made && has_extents(alloc, &volume, id, fork, wanted)?)
}

/// How many blocks are changed after the calls of a text on the volume of an image. None if a call has a code other than 0.
pub fn changed_after(
    alloc: Global,
    image: Vec<u8>,
    text: &[u8],
) -> Result<Option<u32>, FixtureFault> {
    let mut volume = mounted(alloc, image)?;
    let is_made = are_made(alloc, &mut volume, text)?;
    Ok(is_made.then_some(volume.changed()))
}
