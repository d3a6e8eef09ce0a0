//! The image of a new volume, whose blocks are made one by one.
ghost use Rattle.hfs_format.specs.Plan.{IsPlanned};

use crate::layout::Layout;

/// The image of a new volume. No block is held: each is made when it is read.
#[derive(Clone, Copy)]
pub struct PlannedImage {
    pub(crate) volume: Layout,
    ghost planned: { IsPlanned volume },
}
