//! What calls that change a volume make of its blocks, as patches of them, from what was chosen in its catalog.
//!
//! What the edits of one fork make of a sound volume: it stays sound, and is the one that SetEof or WriteFork makes.
//!
//! What SetEof and WriteFork make of a volume's blocks, for a file that has already been looked up: which code refuses the call,
//! what it lacks, and the change.
#![tactic(auto)]

mod bits;
mod calls;
mod catalog_patch;
mod change;
mod choosing;
mod counts;
mod creating;
mod deleting_file;
mod deleting_folder;
mod dropping;
mod extents;
mod file_ids;
mod file_threads;
mod gaining;
mod growing;
mod laws;
mod laying;
mod losing;
mod moving;
mod new_counts;
mod new_items;
mod overflow;
mod recorded;
mod recorded_forks;
mod records;
mod rekeying;
mod renaming;
mod resizing;
mod room;
mod settings;
mod settling;
mod shrinking;
mod valences;
mod volume;
mod written;

pub use calls::{ForkWrite, set_eof, write_fork};
pub use change::{Change, ForkBlocks};
pub use choosing::{FoundFile, to_set_eof, to_write_fork};
pub use counts::{put_counts, with_counts};
pub use creating::{add_new_file, add_new_folder};
pub use deleting_file::patch_delete_file;
pub use deleting_folder::{patch_delete_folder, without_folder};
pub use dropping::ParentFolder;
pub use file_ids::{patch_create_file_id, patch_delete_file_id};
pub use laws::{
    edits_are_set_eof, edits_are_write_fork, edits_leave_no_old_byte, fork_edits_are_set_eof,
    fork_edits_are_write_fork,
};
pub use moving::{Moving, counts_moved, patch_move};
pub use new_items::{FoundPlace, NewPlace};
pub use rekeying::Rekeying;
pub use renaming::patch_rename;
pub use settings::{
    FoundFolder, patch_set_f_info, patch_set_file_info, patch_set_folder_info, patch_set_lock,
};
pub use valences::FolderPlace;
pub use volume::{ForkRefusal, MountedBlocks};
