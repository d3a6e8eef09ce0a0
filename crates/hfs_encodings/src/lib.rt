//! The two forms in which a file's forks and Finder bytes leave a Macintosh: AppleDouble and MacBinary II.
//!
//! Files of a host that are to be put on a disk, taken apart: the name of each, what the Finder keeps about it, its dates, and
//! where its forks lie.
#![tactic(auto)]

mod apple_double;
mod crc;
mod forks;
mod incoming_apple_double;
mod incoming_macbinary;
mod laws;
mod macbinary;
mod names;
mod pieces;
mod spelled;

pub use crate::apple_double::AppleDoubleHead;
pub use crate::crc::crc16;
pub use crate::forks::ForkPlace;
pub use crate::incoming_apple_double::{AppleDoubleFile, FileDates, read_apple_double};
pub use crate::incoming_macbinary::{MacBinaryFile, read_macbinary};
pub use crate::laws::{
    apple_double_read_back, host_item_name_laws, macbinary_read_back, plain_text_laws,
};
pub use crate::macbinary::{MacBinaryHead, padding};
pub use crate::names::{GivenName, given_name, host_item_name, plain_item_name};
