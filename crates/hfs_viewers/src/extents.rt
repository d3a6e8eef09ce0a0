//! The extents of a fork, in memory.
ghost use Rattle.std.specs.Prelude.{◌≡◌};

use hfs_fields::Extent;
use std::alloc::AllocError;
use std::marker::Model;

/// Extents, one after the other. Contracts see their list.
#[derive(Drop)]
pub struct Extents {
    items: Vec<Extent>,
}

impl Model for Extents {
    ghost use Rattle.std.specs.Prelude.{List};
    ghost use Rattle.hfs_fields.specs.declared.extent.Extent.{Extent};

    ghost Value = { List Extent };

    ghost view = { λ e. e.items.items };
}

impl Extents {
    /// The extents of a `Vec`; takes no memory.
    pub fn new(items: Vec<Extent>) -> Extents
        ensures { result ≡ items.items }
    {
        Extents { items }
    }

    /// The extents, in order.
    pub fn as_slice(&self) -> &[Extent]
        ensures { result.now ≡ self.now }
    {
        &self.items
    }
}

impl Clone for Extents {
    ghost is_clone = { λ x y. y ≡ x };

    fn clone(&self) -> Result<Extents, AllocError> {
        Ok(Extents {
            items: Vec::from_slice(self.items.allocator().clone()?, self.as_slice())?,
        })
    }
}
