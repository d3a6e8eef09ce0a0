//! A repair, while memory is refused once.

use anyhow::Result;
use hfs_volume::{MountFault, Refused, mount_repaired};
use hfs_volume_fixtures::refused::{Edit, has_bytes, image_with};
use std::alloc::Global;

/// The image that a refusal for lack of memory hands back, if it is this one.
fn given_back(refused: Refused, given: &[u8]) -> Option<Vec<u8>> {
    let Refused { fault, image } = refused;
    if fault == MountFault::Memory && image.as_slice() == given {
        Some(image)
    } else {
        None
    }
}

/// Each of the counts, laid wrong: those of the master directory block, of both header records, of the root and of `d`.
const WRONG: [Edit<'static>; 11] = [
    Edit {
        block: 2,
        at: 12,
        bytes: &[0, 9],
    },
    Edit {
        block: 2,
        at: 34,
        bytes: &[1, 0],
    },
    Edit {
        block: 2,
        at: 82,
        bytes: &[0, 7],
    },
    Edit {
        block: 2,
        at: 84,
        bytes: &[0, 1, 0, 0],
    },
    Edit {
        block: 2,
        at: 88,
        bytes: &[0, 0, 0, 8],
    },
    Edit {
        block: 4,
        at: 20,
        bytes: &[0, 0, 0, 3],
    },
    Edit {
        block: 4,
        at: 40,
        bytes: &[0, 0, 0, 0],
    },
    Edit {
        block: 6,
        at: 20,
        bytes: &[0, 0, 0, 9],
    },
    Edit {
        block: 6,
        at: 40,
        bytes: &[0, 0, 0, 6],
    },
    Edit {
        block: 7,
        at: 26,
        bytes: &[0, 3],
    },
    Edit {
        block: 7,
        at: 158,
        bytes: &[255, 255],
    },
];

/// Whether an image is mended of each wrong count, and the volume has these bytes.
fn repairs_once(alloc: Global, image: Vec<u8>, sound: &[u8]) -> Result<bool, Refused> {
    match mount_repaired(alloc, image) {
        Ok((volume, fixes)) => Ok(fixes.len() == WRONG.len() && has_bytes(&volume, sound)),
        Err(refused) => Err(refused),
    }
}

/// The same for an image that was handed back, if it was.
fn repairs_again(alloc: Global, image: Option<Vec<u8>>, sound: &[u8]) -> bool {
    match image {
        Some(image) => repairs_once(alloc, image, sound).unwrap_or(false),
        None => false,
    }
}

/// Whether an image is mended so, or handed back as it was, and then mended.
fn repairs_at_last(alloc: Global, given: &Vec<u8>, sound: &[u8]) -> Result<bool> {
    match repairs_once(alloc, given.clone()?, sound) {
        Ok(is_sound) => Ok(is_sound),
        Err(refused) => Ok(repairs_again(alloc, given_back(refused, given), sound)),
    }
}

/// Whether an image in which each count is wrong is mended, or handed back as it was, and then mended.
pub fn repairs(alloc: Global) -> Result<bool> {
    let sound = image_with(alloc, &[])?;
    let given = image_with(alloc, &WRONG)?;
    repairs_at_last(alloc, &given, &sound)
}
