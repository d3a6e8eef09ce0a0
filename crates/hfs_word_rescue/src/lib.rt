//! The word `rescue`: what remains of a damaged volume, as a list and as a bag of folders and files.
#![tactic(auto)]

mod answer;
mod facts;
mod filling;
mod found;
mod image;
mod laws;
mod listing;
mod loading;
mod looking;
mod paging;
mod remains;
mod rescuing;
mod showing;
mod words;

pub use crate::answer::{RescueAnswer, Rescued};
pub use crate::filling::{GivenRemains, give_remains};
pub use crate::image::{HoldFault, RescuedImage, Unfound};
pub use crate::laws::{
    remains_are_found, rescued_paths_are_lawful, sound_payloads_are_volumes, sums_are_of_bags,
    taken_paths_are_lawful,
};
pub use crate::listing::{list_rescue, write_remains};
pub use crate::loading::Part;
pub use crate::paging::write_found_page;
pub use crate::remains::{Remains, remains_of};
pub use crate::rescuing::{PlacedBag, UnplacedBag, rescue, rescue_opened};
pub use crate::showing::{
    ShownFork, image_fault, write_found_folder, write_found_fork, write_found_items,
};
pub use crate::words::{BagWords, RescueWords};
pub use hfs_remains_forks::{RefusedImage, look};
pub use hfs_remains_page::{RemainsTexts, found_texts};
