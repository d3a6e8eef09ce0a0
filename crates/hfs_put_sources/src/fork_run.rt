//! Where the forks of items lie in an image.
use hfs_model::Fork;

/// A run of blocks of an image that a fork of an item has, where the fork's bytes are to be put.
#[derive(Clone, Copy)]
pub struct ForkRun {
    /// The byte of the image where it begins, counted from 0.
    pub place: u64,
    /// How many bytes it has: whole blocks.
    pub len: u64,
    /// The place of the item in the list.
    pub item: usize,
    pub fork: Fork,
    /// The byte of the fork that goes at its beginning.
    pub offset: u64,
}
