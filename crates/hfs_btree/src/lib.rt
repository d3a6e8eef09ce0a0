//! Nodes of a B*-tree file: 512 bytes that hold a list of records.
//!
//! B*-trees over numbered nodes of 512 bytes: their keys, look-ups and walks.
#![tactic(auto)]

mod bits;
mod bytes;
mod counts;
mod decoding;
mod encoding;
mod entry;
mod fault;
mod header;
mod index_search;
mod key;
mod keys;
mod kind;
mod leaf;
mod near;
mod node;
mod node_list;
mod node_view;
mod nodes;
mod records;
mod rows;
mod run_nodes;
mod search;
mod walk;

pub use crate::decoding::decode;
pub use crate::encoding::{encode, encode_row};
pub use crate::fault::NodeFault;
pub use crate::kind::NodeKind;
pub use crate::node::{BLANK_NODE, Descriptor, Node, fits};
pub use crate::node_view::{NodeView, view};
pub use crate::records::Records;
pub use crate::rows::{InsertedRow, RecordRow, ReplacedRow};
pub use bits::bit_at;
pub use counts::{depth, free_nodes};
pub use entry::{body_of, child_of, index_key_of, is_above, key_of};
pub use header::Header;
pub use index_search::first_above;
pub use key::Key;
pub use leaf::{count_in, entry_in, forward_in, place_in};
pub use near::{LastLeaf, find_near};
pub use node_list::NodeList;
pub use nodes::Nodes;
pub use run_nodes::RunNodes;
pub use search::{child_in, descend, find, next_after, place_above, place_in_index, read_header};
pub use walk::{Pair, Walk};
