//! Edits of B*-trees: their form, nodes that are claimed and released, and a pair that is replaced.
#![tactic(auto)]

mod claim;
mod first_key;
mod header_store;
mod laws;
mod map_bit;
mod nodes_mut;
mod patch_nodes;
mod releasing;
mod replacing;
mod seeking;
mod stored;

pub use claim::claim_node;
pub use first_key::first_key_of;
pub use header_store::put_header;
pub use laws::{edits_keep_the_rest, insertions_take_few_nodes, new_keys_pass};
pub use nodes_mut::NodesMut;
pub use patch_nodes::PatchNodes;
pub use releasing::release;
pub use replacing::{replace, replace_at};
pub use seeking::{RecordPlace, find_place, place_of, seek};
pub use stored::{load, store, store_inserted, store_replaced, store_row, viewed};
