//! One record of a catalog.
ghost use Rattle.std.specs.Prelude.{◌≡◌};

use hfs_fields::CatKey;
use hfs_model::OwnedBytes;
use std::marker::Model;

/// A record of the catalog's leaves: a key, and the body under it. Contracts see the pair of them.
#[derive(Drop)]
pub struct CatalogRecord {
    key: CatKey,
    body: OwnedBytes,
}

impl Model for CatalogRecord {
    ghost use Rattle.hfs_catalog.specs.Records.{Record};

    ghost Value = { Record };

    ghost view = { λ r. (r.key, r.body) };
}

impl CatalogRecord {
    /// The record with this key and this body.
    pub fn new(key: CatKey, body: OwnedBytes) -> Self
        ensures { result ≡ (key, body) }
    {
        CatalogRecord { key, body }
    }

    /// The record's key, with its parent and its name.
    pub fn key(&self) -> &CatKey
        ensures { result.now ≡ self.now.0 }
    {
        &self.key
    }

    /// The bytes after the key.
    pub fn body(&self) -> &[u8]
        ensures { result.now ≡ self.now.1 }
    {
        self.body.as_slice()
    }
}
