//! Where a word finds what it reads: an image, a volume in it, and an item on that by its path.

use clap::ArgMatches;
use hfs_console::{Argument, NoValue, Takes};

/// An image that a word looks at.
#[derive(Clone, Copy)]
pub struct ImageWords<'a> {
    /// Its path.
    pub path: &'a str,
    /// The number of the volume in it, if one is asked for.
    pub volume: Option<u64>,
}

/// An item, by its path in an image.
#[derive(Clone, Copy)]
pub struct PathWords<'a> {
    pub image: ImageWords<'a>,
    /// The path of the item.
    pub path: &'a str,
}

/// The image of a volume, by its path: the volume itself, or a file in which the only volume is looked for.
pub const IMAGE: Argument = Argument {
    name: "IMAGE",
    takes: Takes::Text,
    help: "The image: a bare volume, or a file with volumes inside",
    excludes: &[],
};

/// The image of a volume that is taken as it is, by its path.
pub const BARE_IMAGE: Argument = Argument {
    name: "IMAGE",
    takes: Takes::Text,
    help: "The image: a bare volume, or with --volume a file with volumes inside",
    excludes: &[],
};

/// The number of the volume in an image.
pub const VOLUME: Argument = Argument {
    name: "volume",
    takes: Takes::GivenNumberOption { value: "N" },
    help: "The number of the volume, as hfs_tool volumes prints it; 0 for the image as it is",
    excludes: &[],
};

/// An item by its path.
pub const PATH: Argument = Argument {
    name: "path",
    takes: Takes::AnyTextOption { value: "PATH" },
    help: "The item's path, as hfs_tool items prints it (Disk:Folder:File), or without the volume's name (:Folder:File)",
    excludes: &["DIR"],
};

/// The file that is written, whatever it has.
pub const FILE: Argument = Argument {
    name: "FILE",
    takes: Takes::Text,
    help: "The file to write; its contents are replaced",
    excludes: &[],
};

/// The folder of a bag, by its path.
pub const FOLDER: Argument = Argument {
    name: "FOLDER",
    takes: Takes::Text,
    help: "The folder to make; it must not exist yet",
    excludes: &[],
};

/// The choice of a bag without the image's digest.
pub const NO_DIGEST: Argument = Argument {
    name: "no-digest",
    takes: Takes::Flag,
    help: "Leaves out the image's SHA-256 digest, for which the whole image is read",
    excludes: &[],
};

/// The moment of every change; 0 by default.
pub const NOW: Argument = Argument {
    name: "now",
    takes: Takes::NumberOption {
        value: "N",
        default: "0",
    },
    help: "The time to record, in seconds since midnight, 1 January 1904",
    excludes: &[],
};

/// What the help says about the file that gets a changed image.
pub const OUT_HELP: &str =
    "The file for the changed image; its contents are replaced; it may be IMAGE";

/// The image that is asked for, by the argument that has its path.
pub fn image_words<'a>(
    argument: Argument,
    matches: &ArgMatches<'a>,
) -> Result<ImageWords<'a>, NoValue> {
    Ok(ImageWords {
        path: argument.text(matches)?,
        volume: volume_of(matches)?,
    })
}

/// The number of the volume in an image, if one is given.
pub fn volume_of(matches: &ArgMatches<'_>) -> Result<Option<u64>, NoValue> {
    match VOLUME.given_number(matches)? {
        Some(number) => Ok(Some(u64::from(number))),
        None => Ok(None),
    }
}
