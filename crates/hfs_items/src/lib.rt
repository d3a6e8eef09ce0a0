//! What calls find in a volume's catalog: the item with an ID or a name, the items of a folder, and the replies of the calls that
//! read it.
//!
//! The items of a volume in the order of its table: the root first, after each folder those of its children in name order, and
//! after each child what is in it.
#![tactic(auto)]

mod inventory;
mod laws;
mod levels;
mod reading;
mod reply;
mod runs;
mod told;

pub use inventory::Inventory;
pub use laws::tables_are_inventories;
pub use reading::{
    file_named, folder, folder_child, get_cat_info, get_dir_info, get_indexed, list,
    resolve_file_id,
};
pub use reply::{Detail, refusal, success};
