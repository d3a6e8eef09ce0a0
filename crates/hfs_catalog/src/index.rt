//! A catalog with its items by their IDs.

ghost use Rattle.std.specs.Prelude.{◌≡◌, ℕ, length, IfOk, OnOk};
ghost use Rattle.std.specs.Option.{option_or, option_copied};
ghost use Rattle.hfs_catalog.specs.Records.{has_id, item_with};
ghost use Rattle.hfs_catalog.specs.Indexes.{number_of, item_place, only_if, NotesItem};

use crate::numbers::Numbers;
use crate::{CatalogRecord, item_id};
use std::alloc::{AllocError, Global};
use std::marker::Model;

/// Notes the place of a record under its ID, if it is a file's or a folder's and the first with that ID.
fn note_item(places: &mut Numbers, i: usize, r: &CatalogRecord) -> Result<(), AllocError>
    ensures { OnOk result (NotesItem places.old places.new i r.now) }
{
    if let Some(id) = item_id(r.body()) {
        places.put_first(id, i)?;
    }
    Ok(())
}

/// The place of each file's and folder's record by its ID; of two with the same ID, that of the first.
fn item_places(alloc: Global, records: &[CatalogRecord]) -> Result<Numbers, AllocError>
    ensures { IfOk result (λ places. (id : ℕ) → number_of places id ≡ item_place records.now id) }
{
    let mut places = Numbers::new(alloc);
    for i in 0..records.len() {
        note_item(&mut places, i, &records[i])?;
    }
    Ok(places)
}

/// The records of a catalog, with an index of its files and folders by their IDs. Contracts see the records.
#[derive(Drop)]
pub struct IndexedCatalog<'a> {
    records: &'a [CatalogRecord],
    places: Numbers,
}

impl<'a> Model for IndexedCatalog<'a> {
    ghost use Rattle.std.specs.Prelude.{◌≡◌, ℕ};
    ghost use Rattle.hfs_catalog.specs.Records.{Catalog};
    ghost use Rattle.hfs_catalog.specs.Indexes.{number_of, item_place};

    ghost Value = { Catalog };

    ghost view = { λ x. x.records.now };

    ghost invariant = { λ x. (id : ℕ) → number_of x.places id ≡ item_place x.records.now id };
}

impl<'a> IndexedCatalog<'a> {
    /// The catalog with these records. Reads each once, and takes memory for an index of the items. `Err` only when out of
    /// memory.
    pub fn of(alloc: Global, records: &'a [CatalogRecord]) -> Result<IndexedCatalog<'a>, AllocError>
        ensures { IfOk result (λ catalog. catalog ≡ records.now) }
    {
        let places = item_places(alloc, records)?;
        Ok(IndexedCatalog { records, places })
    }

    /// The records, in order.
    pub fn records(&self) -> &'a [CatalogRecord]
        ensures { result.now ≡ self.now }
    {
        self.records
    }

    /// How many records the catalog has.
    pub(crate) fn len(&self) -> usize
        ensures { result ≡ length self.now }
    {
        self.records.len()
    }

    /// The place of the first record of a file or a folder with that ID, from 0 on. None if there is none.
    pub(crate) fn place(&self, id: u32) -> Option<usize>
        ensures { result ≡ item_place self.now id }
    {
        self.places.get(id)
    }

    /// The first record of a file or a folder with that ID. None if there is none.
    pub(crate) fn item(&self, id: u32) -> Option<&CatalogRecord>
        ensures { option_copied result ≡ item_with self.now id }
    {
        let i = self.places.get(id)?;
        self.records.get(i)
    }
}
