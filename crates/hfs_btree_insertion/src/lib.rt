//! Insertion of pairs into B*-trees.
#![tactic(auto)]

mod cut_place;
mod halving;
mod insertion;
mod leaf_begin;
mod leaf_put;
mod level_cut;
mod low_leaf;
mod lowering;
mod new_root;
mod record_key;
mod way;

pub use insertion::insert;
