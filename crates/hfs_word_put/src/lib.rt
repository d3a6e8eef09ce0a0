//! What the word `put` does: puts files and folders of a host on a volume in a file, and prints what it did.
#![tactic(auto)]

mod contents;
mod fault;
mod laying;
mod lines;
mod listing;
mod moment;
mod mounting;
mod order;
mod placing;
mod putting;
mod reason;
mod target;
mod wants;

pub use crate::contents::LaidFile;
pub use crate::fault::PutFault;
pub use crate::laying::{BlockWants, lay_all, of_lay, wants_of};
pub use crate::lines::{PutSums, line_at, put_lines, refusal_line, refused_lines};
pub use crate::listing::{Listed, list_all, need_digests};
pub use crate::moment::date_of;
pub use crate::mounting::mount_image;
pub use crate::order::PutOrder;
pub use crate::placing::{PlacedList, place_all};
pub use crate::putting::{
    PutImage, PutItems, PutList, put_image, put_items, put_on, put_sources, unsaved,
};
pub use crate::reason::PutReason;
pub use crate::target::target_folder;
pub use crate::wants::{put_sums, wanted_of};
pub use hfs_bag::Watch;
