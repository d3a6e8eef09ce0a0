//! The catalog of a volume: its records, when they are sound, the items that they hold, and look-ups.
//!
//! The checks at mounting on the records of a catalog, each as its first fault, and what it implies that there is none.
#![tactic(auto)]

mod checks;
mod id_check;
mod id_set;
mod index;
mod item;
mod laws;
mod lookups;
mod numbers;
mod order_check;
mod parent_check;
mod place_check;
mod record;
mod records;
mod thread_check;
mod valence_check;

pub use checks::{
    count_fault, count_files, count_files_in, count_folders, count_folders_in, name_fault,
    record_fault,
};
pub use id_check::id_fault;
pub use index::IndexedCatalog;
pub use item::{CatalogItem, ItemRecord, is_file, is_folder, is_item, is_thread, item_id, item_of};
pub use laws::reaches_soon;
pub use lookups::{by_id, child_at, children, lookup, thread};
pub use numbers::Numbers;
pub use place_check::place_fault;
pub use record::CatalogRecord;
pub use records::read_records;
pub use valence_check::{child_counts, valence_fault};
