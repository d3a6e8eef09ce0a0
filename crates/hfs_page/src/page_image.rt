//! What a page says about an image besides its volume.

/// An image besides its volume: the name of its file, and where the files of its volume are.
#[derive(Clone, Copy, Drop)]
pub struct PageImage<'a> {
    /// The name of its file.
    pub name: &'a [u8],
    /// The hexadecimal digits of its SHA-256 digest, if it was taken.
    pub digest: Option<&'a [u8]>,
    /// The URL of the bag that its volume was taken into. Each file's name is a link below it.
    pub base: Option<&'a [u8]>,
}
