//! The keys of threads.
ghost use Rattle.std.specs.Prelude.{◌≡◌};
ghost use Rattle.hfs_catalog.specs.Lookups.{first_key};

use hfs_fields::{CatKey, Name};

/// The key of an ID's thread: the ID and an empty name.
pub fn thread_key(id: u32) -> CatKey
    ensures { result ≡ first_key id }
{
    let Some(name) = Name::of_bytes(&[]) else {
        unreachable!()
    };
    CatKey { parent: id, name }
}
