//! Where an image's bytes are read from. Each read may fail: what is promised about the bytes holds for every image
//! consistent with those read.
//!
//! Raw CD sectors of 2,352 bytes: which of them have user data, and reading that data as if it were the file.
//!
//! Images of which only some blocks are read, each when it is needed, with zeros in place of the others.
//!
//! The system's files, as words that write use them: new ones, whose bytes are known by what was done with them, and looks at
//! files that are read, even after the last read.
//!
//! Where volumes lie in a file: the file itself, MacBinary, Disk Copy 4.2, partition maps, the user data of raw CD sectors.
#![tactic(auto)]

mod asking;
mod blocks;
mod bytes;
mod copying;
mod counting;
mod data;
mod disk_copy;
mod fetching;
mod file;
mod finding;
mod held;
mod laws;
mod log;
mod looks;
mod macbinary;
mod memory;
mod new_file;
mod new_file_writer;
mod partition_map;
mod pieces;
mod placed;
mod range;
mod ranges;
mod raw;
mod reader;
mod sector;
mod sector_pieces;
mod seeking;
mod seen_blocks;
mod source;
mod sparse_blocks;
mod stamp;
mod sums;
mod volume;
mod volumes;
mod watched;
mod window;
mod write_log;
mod writer;
mod writing;

pub use crate::asking::{Asked, Counted, NumberedRange, find_asked};
pub use crate::blocks::{BlocksOf, PlacedBlocks};
pub use crate::bytes::ByteSource;
pub use crate::copying::read_runs;
pub use crate::counting::{are_whole_sectors, count_others, is_raw};
pub use crate::data::UserData;
pub use crate::fetching::{SparseFault, fetch, fetch_range, fetch_runs};
pub use crate::file::TrustedFile;
pub use crate::finding::{find_in_layout, find_ranges, find_raw_ranges, nth_range};
pub use crate::laws::told_of_memory;
pub use crate::log::{ReadLog, Step};
pub use crate::looks::{Looks, TrustedLooks, look_again};
pub use crate::memory::MemoryBytes;
pub use crate::new_file::TrustedNewFile;
pub use crate::new_file_writer::NewFileWriter;
pub use crate::placed::PlacedBytes;
pub use crate::range::{RangeBlocks, RangeBytes, read_in_range};
pub use crate::ranges::{ByteRange, Container, FoundRange, Layout};
pub use crate::raw::layout_in;
pub use crate::reader::PlacedReader;
pub use crate::sector::{data_start, put_data};
pub use crate::sector_pieces::read_data;
pub use crate::seeking::SeekableBytes;
pub use crate::seen_blocks::SeenBlocks;
pub use crate::source::BlockSource;
pub use crate::sparse_blocks::SparseBlocks;
pub use crate::stamp::Stamp;
pub use crate::sums::{range_sum, sum_from, sum_told};
pub use crate::volume::SparseVolume;
pub use crate::volumes::volume_name;
pub use crate::watched::Watched;
pub use crate::window::Window;
pub use crate::write_log::{WriteLog, WriteNote};
pub use crate::writer::PlacedWriter;
pub use crate::writing::{CopyFault, copy_runs};
