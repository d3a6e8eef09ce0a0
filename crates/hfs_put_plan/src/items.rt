//! What is to be put on a disk.
use crate::{ItemFacts, Placing};
use hfs_fields::Name;
use hfs_model::ItemKind;

/// An item of a list that is put into a folder of a disk; a folder is followed directly by its items.
#[derive(Clone, Copy)]
pub struct PutItem {
    /// The place in the list of the folder that it is in, counted from 0; None if that is the folder into which the list is put.
    pub parent: Option<usize>,
    pub kind: ItemKind,
    pub name: Name,
    /// How it is placed.
    pub placing: Placing,
    /// What is kept of it.
    pub facts: ItemFacts,
    /// How many bytes its data fork has, if it is a file.
    pub data_len: u32,
    /// How many bytes its resource fork has, if it is a file.
    pub resource_len: u32,
}
