//! The texts of a page that don't depend on a volume.

use crate::page_image::PageImage;

/// What is the same on every page: its style, what comes between the description of the volume and its items, the legend after
/// the picture, the script at the end, and the version of the program that prints it; and what is known of the image.
#[derive(Clone, Copy, Drop)]
pub struct PageTexts<'a> {
    /// In the head.
    pub style: &'a [u8],
    /// Before the items: their heading, the field of the search, and the heads of their columns.
    pub columns: &'a [u8],
    /// After the picture: what its squares mean.
    pub legend: &'a [u8],
    /// At the end.
    pub script: &'a [u8],
    /// The version of the program, as text.
    pub version: &'a [u8],
    /// The image besides its volume.
    pub image: PageImage<'a>,
}
