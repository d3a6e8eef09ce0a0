//! Small volumes for tests: new ones, and two with an item or two, whose bytes are laid by hand over a new one's.
//!
//! Block 2 is a volume's master directory block and block 3 its bitmap. Its allocation blocks have 512 bytes each and begin with
//! block 4: blocks 4 and 5 are the extents tree, blocks 6 to 11 the catalog tree.
//!
//! Besides, there are nodes in memory that edits of trees can write, and a test whether a tree's index keys are exact.
#![tactic(auto)]

mod blocks;
mod exact;
mod fault;
mod node_table;
mod volumes;

pub use crate::blocks::lay;
pub use crate::exact::is_exact;
pub use crate::fault::FixtureFault;
pub use crate::node_table::NodeTable;
pub use crate::volumes::{fork_byte, new_image, one_file_image, tiny_image};
