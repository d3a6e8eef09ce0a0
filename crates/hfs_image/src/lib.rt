//! The blocks of a volume that its checks, its report and its items are read from, and what they decide.
#![tactic(auto)]

mod finding;
mod fork_runs;
mod forks;
mod gathering;
mod kept;
mod laws;
mod listing;
mod noted;
mod opening;
mod paths;
mod reporting;
mod seen;
mod sound_trees;
mod told_report;
mod tree_header;
mod tree_nodes;
mod whole_files;

pub use crate::fork_runs::{FileRuns, ForkRuns};
pub use crate::gathering::gather_needed;
pub use crate::kept::{KeptRange, PickedRange};
pub use crate::laws::{marked_nodes_decide, needed_is_enough, needed_of_images};
pub use crate::listing::catalog_records;
pub use crate::noted::{NotedBlocks, PickedFailures, noted_fault};
pub use crate::opening::{NeededFault, NeededVolume};
pub use crate::seen::{SeenImage, Unopened, open_range, open_range_reported};
pub use crate::told_report::seen_report;
pub use crate::whole_files::NeededFile;
