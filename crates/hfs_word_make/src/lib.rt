//! What is put on a new volume from folders and files of a host: the list, what the volume's size depends on, and the name that
//! the volume gets from it.
//!
//! What the word `make` does: a new volume with files and folders of a host.
#![tactic(auto)]

mod filling;
mod items;
mod laying;
mod lines;
mod listing;
mod making;
mod mounting;
mod naming;
mod order;
mod refusing;
mod settled_image;
mod source_listing;
mod source_naming;
#[cfg(test)]
mod source_tests;
#[cfg(test)]
mod tests;
mod unplanned;

pub use crate::items::new_items;
pub use crate::lines::made_lines;
pub use crate::listing::list_all_new;
pub use crate::making::make_volume;
pub use crate::order::MakeOrder;
pub use crate::settled_image::SettledImage;
pub use crate::source_listing::list_new;
pub use crate::source_naming::found_name;
