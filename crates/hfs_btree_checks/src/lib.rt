//! The checks of a tree: its shape, its order, and its keys.
#![tactic(auto)]

mod fault;
mod index_levels;
mod key_levels;
mod key_range;
mod key_test;
mod order;
mod order_index;
mod order_leaves;
mod shape;
mod shape_chain;
mod shape_header;
mod shape_levels;
mod shape_map;
mod shape_node;
mod shaped;
mod tree_counts;

pub use fault::TreeFault;
pub use index_levels::index_keys;
pub use key_test::KeyTest;
pub use order::check_tree;
pub use order_index::index_keys_in_order;
pub use shape::{check_shape, count_tree};
pub use shaped::ShapedTree;
pub use tree_counts::TreeCounts;
