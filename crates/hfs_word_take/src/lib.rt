//! The items of an opened image, as the source of a bag.
//!
//! The word `take`: all items of an image's volume as a bag of folders and files.
#![tactic(auto)]

mod beside;
mod blocks;
mod digest;
mod facts;
mod fault;
mod fork_reading;
mod giving;
mod image;
mod items;
mod laws;
mod opened_blocks;
mod opening;
mod paths;
mod pieces;
mod reading;
mod table_reading;
mod taking;
mod words;

pub use crate::blocks::ImageBlocks;
pub use crate::digest::image_digest;
pub use crate::facts::{image_name, plain_name, report_text};
pub use crate::fault::TakeFault;
pub use crate::giving::{GivenBag, give_image};
pub use crate::image::TakenImage;
pub use crate::items::{ImageItems, Unbegun};
pub use crate::laws::{
    bag_paths_are_told, items_are_placed, paths_are_printed_back, sound_catalogs_tell_tables,
    sound_items_are_placed, sound_paths_are_told,
};
pub use crate::opening::{FoundPart, find_part};
pub use crate::taking::{
    PlacedBag, Taken, UnplacedBag, folder_path, take, take_opened, taken_text,
};
pub use crate::words::TakeWords;
pub use hfs_bag::{BagSums, Watch, left_folder};
