//! What the program's words do, as functions over readers, writers and values: what is read, and the lines or bytes that are
//! written. The words themselves, and standard input and output, are in `hfs_tool`.
#![tactic(auto)]

mod beside;
mod by_path;
mod checking;
mod contents;
mod extracting;
mod fault;
mod files;
mod free_place;
mod items;
mod listing;
mod macbinary;
mod opened_file;
mod patched_image;
mod paths;
mod range_facts;
mod raw_file;
mod repairing;
mod saving;
mod seen_files;
mod trusted_input;
mod unopened;
mod volume_files;
mod volumes;
mod watched_image;
mod watched_range;
mod watched_volume;

pub use beside::Leftover;
pub use by_path::{file_path_reply, path_reply};
pub use checking::{CheckAnswer, needed_check_answer, refused_text, report_answer};
pub use contents::{Contents, ReadContents, UnwrittenFault};
pub use extracting::{ImageContents, extracted_text, need_volume, write_range};
pub use fault::{Fault, Status};
pub use files::load_script;
pub use hfs_check::{Hint, Refusal};
pub use hfs_copy::FailingBlocks;
pub use hfs_image::{NeededFault, NeededFile, SeenImage, Unopened};
pub use hfs_source::{
    BlockSource, ByteRange, CopyFault, Counted, Layout, NumberedRange, SparseFault, UserData,
    Watched, Window,
};
pub use hfs_table::Format;
pub use hfs_texts::{InfoFault, LoadFault, put, run_info};
pub use items::write_items;
pub use listing::{children_text, code_text, seen_list_text};
pub use macbinary::put_macbinary;
pub use opened_file::{OpenedFile, StoredFile, content_of};
pub use patched_image::PatchedImage;
pub use paths::ShownPath;
pub use range_facts::{DescribedRange, RangeFacts, describe_range};
pub use repairing::{RepairAnswer, repair_answer};
pub use saving::{Saved, save_file, save_new, save_read};
pub use seen_files::{PartBlocks, PartImage, open_seen, part_blocks};
pub use trusted_input::TrustedInput;
pub use unopened::{LeftFile, UnopenedFile};
pub use volume_files::{FilePart, open_asked, open_file, open_part};
pub use volumes::volume_lines;
pub use watched_image::{WatchedImage, open_watched};
pub use watched_range::{ImageInFile, WatchedBytes, WatchedRange};
pub use watched_volume::{WatchedVolume, open_volume};
