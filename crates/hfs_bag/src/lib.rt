//! Shelves: where folders and files go one after the other, in pieces.
//!
//! SHA-256 digests of what is written.
//!
//! Bags: a volume's items as folders and files, with the digests of their bytes.
//!
//! What the bytes of an image are: their digest, and the ranges in which volumes lie. Each holds for every image consistent with
//! the bytes read.
#![tactic(auto)]

mod bag;
mod digest;
mod facts;
mod fault;
mod files;
mod filling;
mod finding;
mod fork_reading;
mod giving;
mod head;
mod item;
mod items;
mod laws;
mod log;
mod manifests;
mod memory;
mod part;
mod paths;
mod piece;
mod removal;
mod shelf;
mod shelf_fault;
mod source;
mod sums;
mod system;
mod system_files;
mod tags;
mod times;
mod watch;
mod watched;
mod writer;
mod written;

pub use crate::bag::{give_bag, give_payload, give_tag_files};
pub use crate::digest::file_digest;
pub use crate::facts::BagFacts;
pub use crate::fault::BagFault;
pub use crate::files::{FileShelf, Unmade, left_folder, left_in};
pub use crate::finding::find_contents;
pub use crate::fork_reading::{ForkReading, read_fork};
pub use crate::giving::GivenPayload;
pub use crate::item::{BagHead, BagKind, ItemDigests};
pub use crate::laws::bag_path_laws;
pub use crate::log::{Step, SystemLog};
pub use crate::memory::{MemoryShelf, Stored};
pub use crate::part::{ImagePart, PickedImage};
pub use crate::piece::Piece;
pub use crate::shelf::Shelf;
pub use crate::shelf_fault::ShelfFault;
pub use crate::source::{BagSource, SourceFault, Stream};
pub use crate::sums::BagSums;
pub use crate::system::{FileSystem, Removal};
pub use crate::system_files::SystemFiles;
pub use crate::times::since_1970;
pub use crate::watch::Watch;
pub use crate::watched::WatchedItems;
pub use crate::writer::DigestWriter;
pub use crate::written::{Written, WrittenPiece};
