//! A page for what remains of a disk that is refused: its fault in words, what was found as a tree with the verdict on each fork,
//! and a picture of the blocks in use.
#![tactic(auto)]

mod added_rows;
mod document;
mod dress;
mod facts;
mod file_rows;
mod folder_rows;
mod laws;
mod linked_items;
mod lists;
mod numbers;
mod page;
mod pictures;
mod pieces;
mod remains_texts;
mod row_parts;
mod rows;
mod steps;
mod trees;
mod verdicts;
mod walks;
mod writing;

pub use dress::found_texts;
pub use laws::{remains_pages_nest, things_stand_once};
pub use page::write_remains_page;
pub use pictures::TreeFiles;
pub use remains_texts::{FaultTexts, RemainsTexts};
