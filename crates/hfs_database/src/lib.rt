//! Takers of rows: where rows go, one after the other.
//!
//! A collection of images in an SQLite database.
//!
//! The rows of a collection as text: a taker of rows that writes a line for each, in JSON or in CSV.
//!
//! A page for a collection: a line for each volume, and for each content that is on several volumes.
#![tactic(auto)]

mod asking;
mod cells;
mod collection;
mod collection_texts;
mod column;
mod comparing;
mod csv_line;
mod dress;
mod fault;
mod files;
mod form;
mod given;
mod json_line;
mod keys;
mod laws;
mod line;
mod line_fault;
mod lines;
mod listing;
mod memory;
mod output;
mod page;
mod putting;
mod row_fault;
mod row_taker;
mod script;
mod source;
mod statements;
mod style;
mod tables;
mod taker;
mod text_putting;
mod text_taker;
mod value;
mod values;
mod writing;

pub use crate::asking::{known_image, next_path};
pub use crate::collection::{Collection, FileCollection};
pub use crate::collection_texts::CollectionTexts;
pub use crate::comparing::{Comparison, KnownImage};
pub use crate::dress::standard_texts;
pub use crate::fault::{DatabaseFault, Obstacle, PutFault};
pub use crate::files::{DatabaseFiles, is_no_file_name};
pub use crate::form::Form;
pub use crate::given::{Given, GivenRow};
pub use crate::laws::collection_pages_nest;
pub use crate::listing::{Listing, listed};
pub use crate::memory::{MemoryTaker, StoredRow};
pub use crate::output::write_head;
pub use crate::page::collection_page;
pub use crate::row_fault::TakerFault;
pub use crate::row_taker::RowTaker;
pub use crate::source::RowSource;
pub use crate::text_taker::TextTaker;
pub use crate::value::{RowValue, Table};
pub use crate::writing::{CollectionFault, write_collection_page};
pub use hfs_page::is_base;
