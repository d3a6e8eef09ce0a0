//! What a repair reports about a number.

/// A count of a volume, by the place where the volume has it. The variants are in the order in which a repair reports them, and
/// valences among themselves in the order of their IDs.
#[derive(Clone, Copy, Debug, PartialEq, Eq)]
pub enum FixPlace {
    /// drNmFls: the files in the root.
    RootFiles,
    /// drFreeBks: the allocation blocks that are not marked as in use.
    FreeBlocks,
    /// drNmRtDirs: the folders in the root.
    RootFolders,
    /// drFilCnt: all files.
    Files,
    /// drDirCnt: all folders except the root.
    Folders,
    /// bthNRecs of the extents tree: the records of its leaves.
    ExtentsRecords,
    /// bthFree of the extents tree: its free nodes.
    ExtentsFree,
    /// bthNRecs of the catalog tree: the records of its leaves.
    CatalogRecords,
    /// bthFree of the catalog tree: its free nodes.
    CatalogFree,
    /// dirVal of the folder with this ID: its files and folders.
    Valence(u32),
}

/// A number that was wrong, and is mended.
#[derive(Clone, Copy, Debug, PartialEq, Eq)]
pub struct Fix {
    /// Which number.
    pub place: FixPlace,
    /// What the volume had.
    pub was: u32,
    /// What is counted.
    pub now: u32,
}
