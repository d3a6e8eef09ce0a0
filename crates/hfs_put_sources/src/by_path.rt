//! What is known of files by their paths, in the order of the paths and without hashing, since a host chooses its paths.
ghost use Rattle.std.specs.Prelude.{◌≡◌, [], OnOk};
ghost use Rattle.hfs_put_sources.specs.Later.{Tells, told_at, told_of};

use std::alloc::{AllocError, Global};
use std::collections::BTreeMap;
use std::marker::Model;

/// Values by paths on the host. Contracts see the list of both.
#[derive(Drop)]
pub struct ByPath<V> {
    values: BTreeMap<Vec<u8>, V>,
}

impl<V> Model for ByPath<V> {
    ghost use Rattle.hfs_put_sources.specs.Later.{Entries};

    ghost Value = { Entries V };

    ghost view = { λ m. m.values.entries };
}

impl<V: Copy + Drop> ByPath<V> {
    /// No value for any path. Takes no memory.
    pub(crate) fn new(alloc: Global) -> ByPath<V>
        ensures { result ≡ [] }
    {
        ByPath {
            values: BTreeMap::new(alloc),
        }
    }

    /// The value of a path, if it has one.
    pub(crate) fn get(&self, path: &[u8]) -> Option<V>
        ensures { result ≡ told_at self.now path.now }
    {
        self.values.get(path).copied()
    }

    /// Gives a path this value, in place of the one that it may have. `Err` only when out of memory.
    pub(crate) fn put(&mut self, path: Vec<u8>, value: V) -> Result<(), AllocError>
        ensures { OnOk result (Tells (told_of path.items value) self.old self.new) }
    {
        self.values.insert(path, value)?;
        Ok(())
    }
}
