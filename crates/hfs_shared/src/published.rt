//! What both copies hold, and what goes into them.
use crate::front::Front;
use hfs_model::Call;
use hfs_viewers::Rows;

/// What readers see: rows, and the list that they stand for.
#[derive(Drop)]
pub struct Published {
    pub rows: Rows,
    pub front: Front,
}

/// A change, with the list that it leaves.
#[derive(Drop)]
pub struct Change {
    pub call: Call,
    pub front: Front,
}
