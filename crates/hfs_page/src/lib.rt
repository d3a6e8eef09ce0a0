//! A page for a disk: one document of HTML, with a picture of the disk and its items.
//!
//! The page of an image: of one that was opened, and of one that is refused.
#![tactic(auto)]

mod bases;
mod cells;
mod disk;
mod document;
mod dress;
mod escaping;
mod extents;
mod facts;
mod holdings;
mod image_page;
mod items;
mod laws;
mod links;
mod page_image;
mod page_texts;
mod parts;
mod picture;
mod pieces;
mod refused_page;
mod rows;
mod script;
mod sizes;
mod style;
mod texts;
mod uses;

pub use bases::is_base;
pub use cells::{Cell, picture_cells};
pub use disk::write_page;
pub use document::{push_refused_page, push_version};
pub use dress::standard_texts;
pub use escaping::push_escaped;
pub use extents::push_extents;
pub use facts::{push_count_row, push_dates, push_head, push_image_rows};
pub use holdings::{push_fork_held, push_held, volume_holdings};
pub use image_page::write_image_page;
pub use items::{push_closings, push_items_word, push_opening, push_sizes, push_type};
pub use laws::{escaped_texts_are_text, refused_pages_nest, volume_pages_nest};
pub use links::{push_link_end, push_link_start};
pub use page_image::PageImage;
pub use page_texts::PageTexts;
pub use parts::{BlockUse, FileFork, Holding, Part};
pub use picture::{push_blocks, push_kind, push_part, push_rect_head};
pub use pieces::push_bytes;
pub use refused_page::write_refused_page;
pub use rows::{PageFault, put_piece};
pub use style::page_style;
pub use texts::{push_date, push_shown, push_told_count, push_told_number};
pub use uses::{block_uses, lay_all};
