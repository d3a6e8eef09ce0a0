//! What is put on a volume, and how.
use hfs_put_sources::PutOptions;

/// What is put on a volume, and how.
#[derive(Clone, Copy)]
pub struct PutOrder<'a> {
    /// The paths of the sources, in order.
    pub sources: &'a [&'a str],
    /// The path of the folder on the volume into which they are put; the root if there is none.
    pub to: Option<&'a str>,
    /// How the sources are read.
    pub how: PutOptions,
    /// Whether files of the same name are replaced.
    pub replace: bool,
    /// The moment of every change, in seconds since midnight, 1 January 1904.
    pub now: u32,
}
