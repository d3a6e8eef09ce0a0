//! What holds for each element of a list, and the first element that fails a test.
//!
//! Numbers, records, keys and names of an HFS volume, read from its bytes and written to them.
#![tactic(auto)]

mod attributes;
mod dir_record;
mod extent;
mod field_row;
mod file_flags;
mod file_record;
mod key;
mod laws;
mod mdb;
mod name;
mod numbers;
mod thread_record;

pub use crate::attributes::VolumeAttributes;
pub use crate::dir_record::DirRecord;
pub use crate::extent::Extent;
pub use crate::field_row::FieldRow;
pub use crate::file_flags::FileFlags;
pub use crate::file_record::{FileRecord, ForkRecord};
pub use crate::key::{CatKey, ExtKey, cat_key_order_laws, ext_key_order_laws};
pub use crate::mdb::Mdb;
pub use crate::name::{Name, is_item_name, name_order_laws, same_name};
pub use crate::numbers::{put, put_u16, put_u32, u16_at, u32_at};
pub use crate::thread_record::{ThreadKind, ThreadRecord};
pub use laws::{scans_are_first, scans_are_whole};
