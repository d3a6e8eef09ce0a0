//! Bytes that several owners share.
ghost use Rattle.std.specs.Prelude.{◌≡◌, ◌≤◌, length, slice_range, IfOk};

use crate::call::Call;
use std::alloc::{AllocError, Global};
use std::marker::Model;

/// Bytes in memory that never change, such as those that calls take. Copying them, or a part of them, copies no byte, and other
/// threads may hold the copy. Contracts see their list.
#[derive(Drop)]
pub struct SharedBytes {
    bytes: bytes::Bytes,
}

impl Model for SharedBytes {
    ghost use Rattle.std.specs.Prelude.{ℕ, List};

    ghost Value = { List ℕ };

    ghost view = { λ a. a.bytes };
}

impl SharedBytes {
    /// A copy of the bytes, shared from then on. `Err` only when out of memory.
    pub fn from_slice(alloc: Global, bytes: &[u8]) -> Result<Self, AllocError>
        ensures { IfOk result (λ b. b ≡ bytes.now) }
    {
        Ok(SharedBytes {
            bytes: bytes::Bytes::copy_from_slice(alloc, bytes)?,
        })
    }

    /// The bytes of a `Vec`, shared from then on; none is copied. `Err` only when out of memory.
    pub fn from_vec(items: Vec<u8>) -> Result<Self, AllocError>
        ensures { IfOk result (λ b. b ≡ items.items) }
    {
        Ok(SharedBytes {
            bytes: bytes::Bytes::from_vec(items)?,
        })
    }

    /// The bytes.
    pub fn as_slice(&self) -> &[u8]
        ensures { result.now ≡ self.now }
    {
        self.bytes.as_slice()
    }

    /// The bytes from `from` up to `to`, shared as well. `Err` only if there are too many owners.
    pub fn part(&self, from: usize, to: usize) -> Result<Self, AllocError>
        requires rising { from ≤ to }
        requires within { to ≤ length self.now }
        ensures { IfOk result (λ b. b ≡ slice_range self.now from to) }
    {
        Ok(SharedBytes {
            bytes: self.bytes.slice(from..to)?,
        })
    }
}

impl Clone for SharedBytes {
    ghost is_clone = { λ x y. y ≡ x };

    fn clone(&self) -> Result<SharedBytes, AllocError> {
        Ok(SharedBytes {
            bytes: self.bytes.clone()?,
        })
    }
}

fn crosses<T: Send>() {}

fn shares<T: Sync>() {}

/// Shared bytes and calls may go to other threads, and several threads may read them at once. Does nothing: that it compiles is
/// what it says.
pub fn may_cross() {
    crosses::<SharedBytes>();
    shares::<SharedBytes>();
    crosses::<Call>();
    shares::<Call>();
}
