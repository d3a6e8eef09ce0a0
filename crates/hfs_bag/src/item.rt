//! What a bag keeps of an item.

/// What a bag has of an item.
#[derive(Clone, Copy, Debug, PartialEq, Eq)]
pub enum BagKind {
    /// An AppleDouble file, and then the folder.
    Folder,
    /// A file with the data fork, and then an AppleDouble file.
    File,
    /// The folder alone, such as when it is needed before its item comes.
    FolderAlone,
    /// The AppleDouble file alone, such as that of a folder that was made before.
    DoubleAlone,
}

/// What is known of an item before its forks are read.
#[derive(Clone, Copy, Debug)]
pub struct BagHead {
    pub kind: BagKind,
    /// FInfo and FXInfo for a file, DInfo and DXInfo for a folder.
    pub finder: [u8; 32],
    /// How many bytes the data fork has; 0 for a folder.
    pub data_length: u32,
    /// How many bytes the resource fork has; 0 for a folder.
    pub resource_length: u32,
    /// When the item was modified, in seconds since the beginning of 1970; None if that was before.
    pub modified: Option<u32>,
}

/// The SHA-256 digests of the files that a bag has for an item.
#[derive(Clone, Copy, Debug, PartialEq, Eq)]
pub enum ItemDigests {
    /// Those of a file's data fork and of its AppleDouble file.
    File([u8; 32], [u8; 32]),
    /// That of an AppleDouble file.
    Double([u8; 32]),
    /// It has no files.
    NoFile,
}
