//! The dates and Finder bytes of an item, as a call sets them.

/// What SetCatInfo sets: three dates, in seconds since midnight, 1 January 1904, and all Finder bytes.
#[derive(Clone, Copy)]
pub struct ItemSettings {
    pub created: u32,
    pub modified: u32,
    pub backup: u32,
    pub info: [u8; 32],
}
