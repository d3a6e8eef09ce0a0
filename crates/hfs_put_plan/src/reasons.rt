//! Why an item can't be put.
ghost use Rattle.std.specs.Prelude.{◌≡◌};
ghost use Rattle.hfs_put_plan.specs.Why.{is_too_large, why_not};

/// The most bytes that a fork may have.
const MOST_BYTES: u64 = 2_147_483_647;

/// Why an item can't be put.
#[derive(Clone, Copy, Debug, PartialEq, Eq)]
pub enum Why {
    /// It is neither a file nor a folder.
    NotAFile,
    /// One of its forks has more bytes than a fork may have.
    TooLarge,
    /// The file that belongs to it by its name is no AppleDouble file.
    NotAppleDouble,
    /// It has no item name.
    NoName,
    /// An earlier item in the same folder has the same name.
    TwoOfOneName,
    /// The first call that puts it is refused.
    Refused,
}

/// What was found of an item.
#[derive(Clone, Copy)]
pub struct Findings {
    /// It is a file or a folder.
    pub is_item: bool,
    /// Neither fork is larger than a fork may be.
    pub fits: bool,
    /// The file that belongs to it by its name is AppleDouble, or there is none.
    pub is_double: bool,
    /// It has an item name.
    pub is_named: bool,
    /// No earlier item in the same folder has the same name.
    pub is_first: bool,
    /// The first call that puts it is accepted.
    pub is_accepted: bool,
}

/// Whether a fork of `len` bytes is larger than a fork may be.
pub fn is_too_large(len: u64) -> bool
    ensures { result ≡ is_too_large len }
{
    len > MOST_BYTES
}

/// Why an item can't be put, from what was found of it: the first of the reasons that holds.
pub fn why_not(found: &Findings) -> Option<Why>
    ensures { result ≡ why_not found.now }
{
    if !found.is_item {
        Some(Why::NotAFile)
    } else if !found.fits {
        Some(Why::TooLarge)
    } else if !found.is_double {
        Some(Why::NotAppleDouble)
    } else if !found.is_named {
        Some(Why::NoName)
    } else if !found.is_first {
        Some(Why::TwoOfOneName)
    } else if !found.is_accepted {
        Some(Why::Refused)
    } else {
        None
    }
}
