//! The table of a volume's items, a row at a time: with tabs, in CSV and in JSON.
#![tactic(auto)]

mod bag_line;
mod cells;
mod column;
mod csv_line;
mod format;
mod json_line;
mod own_line;
mod tab_line;

pub use bag_line::{push_bag_head, push_bag_path, push_bag_row, push_own_bag_row};
pub use format::{Format, push_head, push_row};
pub use own_line::push_own_row;
