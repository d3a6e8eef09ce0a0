//! What a page of remains lists.

use hfs_rescue_items::Found;

/// What was found, and the URL of a bag that has the files, if it is known: then each is a link.
#[derive(Clone, Copy)]
pub(crate) struct LinkedItems<'a> {
    pub(crate) base: Option<&'a [u8]>,
    pub(crate) found: &'a Found<'a>,
}
