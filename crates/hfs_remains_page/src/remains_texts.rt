//! The texts of a page of remains that don't depend on a disk.

use hfs_page::PageTexts;

/// What a page of remains says besides what was found: what all pages of disks say, with some texts of its own instead.
#[derive(Clone, Copy, Drop)]
pub struct RemainsTexts<'a> {
    /// The style, the script, the version and the image, as all pages of disks have them.
    pub page: PageTexts<'a>,
    /// After that style, the style of pages of remains.
    pub style: &'a [u8],
    /// Before the items: their heading, the search field, and the heads of their columns.
    pub columns: &'a [u8],
    /// After the picture: what its squares mean.
    pub legend: &'a [u8],
}

/// Why a disk is refused.
#[derive(Clone, Copy, Drop)]
pub struct FaultTexts<'a> {
    /// Its fault in words.
    pub refusal: &'a [u8],
    /// What that means.
    pub meaning: &'a [u8],
}
