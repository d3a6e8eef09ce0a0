//! How a change goes into a copy.
use crate::published::{Change, Published};
use left_right::Absorb;
use std::alloc::AllocError;

impl Absorb<Change> for Published {
    ghost use Rattle.hfs_shared.specs.Lists.{absorb};

    type State = Published;

    ghost state = { λ s. s };

    ghost applied = { absorb };

    fn absorb_first(&mut self, operation: &Change, _other: &Published) -> Result<(), AllocError> {
        self.rows.absorb(&operation.call)?;
        self.front = operation.front.again();
        Ok(())
    }
}
