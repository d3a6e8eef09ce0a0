//! What closing returns.
use hfs_model::Entry;
use hfs_volume::Volume;

/// The volume of a shared volume that was closed, all its calls in order, and how many of them the published list covers.
#[derive(Drop)]
pub struct Closed {
    pub volume: Volume,
    pub journal: Vec<Entry>,
    pub shown: u64,
}
