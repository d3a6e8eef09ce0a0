//! The texts of a collection's page that don't depend on a row.

/// What a collection's page says besides the rows of its database.
#[derive(Clone, Copy, Drop)]
pub struct CollectionTexts<'a> {
    /// In the head, the style that pages of disks have as well.
    pub shared_style: &'a [u8],
    /// After that, the style of collections' pages.
    pub style: &'a [u8],
    /// Before the volumes: links to both parts, a heading, and the search field.
    pub columns: &'a [u8],
    /// Between the volumes and the contents.
    pub between: &'a [u8],
    /// At the end.
    pub script: &'a [u8],
    /// The version of the program, as text.
    pub version: &'a [u8],
    /// The name of the database.
    pub name: &'a [u8],
    /// The URL of the folder with the pages of disks. Each volume's image is a link below it.
    pub base: Option<&'a [u8]>,
}
