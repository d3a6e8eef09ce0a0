//! Removal of pairs from B*-trees.
#![tactic(auto)]

mod detach;
mod down;
mod pass_up;
mod removal;
mod top;
mod unlink;

pub use removal::remove;
