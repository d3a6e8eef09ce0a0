//! A file's fork that calls wrote, in pieces: parts of the fork as it was, zeros, and parts of the calls' bytes, which are
//! shared.
//!
//! The items of a volume as rows in two ordered maps: look-ups, the calls that read, and what each change makes of them.
//!
//! The rows that viewers read: a volume's items by their IDs and by their names, over the base that it shares. They answer
//! the calls that read without a lock, and take in the changes that were accepted.
#![tactic(auto)]

mod changed;
mod changes;
mod choices;
mod coming;
mod edits;
mod extents;
mod finding;
mod following;
mod fork;
mod kept;
mod locks;
mod mounted_forks;
mod moving;
mod opening;
mod piece;
mod piece_list;
mod place;
mod place_choices;
mod reading;
mod row;
mod rows;
mod table;
mod table_forks;
mod threads;
mod writing_forks;

pub use extents::Extents;
pub use fork::ForkPieces;
pub use piece::{Piece, Source};
pub use piece_list::PieceList;
pub use place::Place;
pub use reading::Stretch;
pub use row::{Row, RowFile, RowFork, RowKind};
pub use rows::Rows;
pub use table::{Found, Table};
