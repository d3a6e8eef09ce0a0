//! The tag files of a bag, read back: what its table of items says about each item, what its lines say about the disk, and the
//! digests of its files.
//!
//! What is put on a disk from folders and files of a host: the host's tree, and the walk over it.
//!
//! What bags say about what is in them: lock and dates of items, digests of files, and the name of the disk.
#![tactic(auto)]

mod bag_facts;
mod bag_laws;
mod by_path;
mod contents;
mod disk_name;
mod entry;
mod facts_table;
mod fault;
mod folder;
mod fork_run;
mod host_paths;
mod item;
mod lines;
mod log;
mod manifest_digests;
mod manifests;
mod memory;
mod moments;
mod order;
mod plan;
mod rows;
mod sources;
mod system_tree;
mod tag_laws;
mod tag_paths;
mod tag_text;
mod told;
mod tree;
mod twins;
mod walking;
mod walking_laws;
mod wrong_files;

pub use crate::bag_facts::BagFacts;
pub use crate::bag_laws::bag_paths;
pub use crate::disk_name::bag_name;
pub use crate::entry::{HostEntry, HostTime, Look, host_date};
pub use crate::fault::{HostFault, cannot_read};
pub use crate::fork_run::ForkRun;
pub use crate::host_paths::entry_path;
pub use crate::item::SourceItem;
pub use crate::lines::{external_identifier, next_line};
pub use crate::log::{HostLog, Step};
pub use crate::manifest_digests::ManifestDigests;
pub use crate::manifests::manifest_line;
pub use crate::memory::{HostNode, MemoryTree};
pub use crate::moments::read_moment;
pub use crate::plan::{ForkSpan, ItemPlan, PutOptions, is_file};
pub use crate::rows::{ItemRow, bag_path, item_row};
pub use crate::sources::{is_bag, list_folder, list_sources};
pub use crate::system_tree::SystemTree;
pub use crate::tag_laws::{
    info_read_back, item_row_read_back, manifest_read_back, moments_read_back,
};
pub use crate::told::{NothingTold, ToldItems};
pub use crate::tree::HostTree;
pub use crate::walking::walk;
pub use crate::walking_laws::walk_laws;
pub use crate::wrong_files::first_wrong_file;
