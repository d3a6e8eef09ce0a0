//! The rows that a collection has about an image: the image's own, those of the volumes in it, and those of their items, with the
//! digests of their forks.
//!
//! Images that are collected in one database, compared to what it has about them, or printed as text.
#![tactic(auto)]

mod collect_fault;
mod collecting;
mod comparing;
mod content;
mod counts;
mod digests;
mod fault;
mod files;
mod giving;
mod giving_remains;
mod giving_volumes;
mod image;
mod items;
mod lines;
mod noted;
mod places;
mod reader;
mod remains;
mod source;
mod telling;
mod values;
mod volumes;
mod watched;
mod writing;

pub use crate::collect_fault::RunFault;
pub use crate::collecting::{ImageRows, collect_image};
pub use crate::comparing::{compare_file, compare_image, compare_known, open_image};
pub use crate::counts::ImageCounts;
pub use crate::fault::CollectFault;
pub use crate::files::{FileByPath, RowsOfFile, can_open_database, rows_at};
pub use crate::image::{ImageFacts, give_image};
pub use crate::lines::{comparison_line, image_line};
pub use crate::reader::{NotedFile, Reopen};
pub use crate::source::{ImageFile, OpenedPart};
pub use crate::watched::WatchedFile;
pub use crate::writing::write_image;
pub use hfs_database::{
    Collection, Comparison, DatabaseFiles, FileCollection, Form, Obstacle, Table, TakerFault,
    TextTaker, is_no_file_name, next_path, write_head,
};
