//! The items of a new volume, as far as its size depends on them.

/// A file that is to be put on the volume.
#[derive(Clone, Copy)]
pub struct NewFile {
    /// How many characters its name has.
    pub name_len: u8,
    /// How many bytes its data fork has.
    pub data_len: u64,
    /// How many bytes its resource fork has.
    pub resource_len: u64,
}

/// An item that is to be put on the volume.
#[derive(Clone, Copy)]
pub enum NewItem {
    /// A folder, whose name has this many characters.
    Folder(u8),
    File(NewFile),
}
