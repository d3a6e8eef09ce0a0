//! The files of a list, by their IDs.
ghost use Rattle.std.specs.Prelude.{◌≡◌, Some, IfOk, OnOk, slice_get};
ghost use Rattle.std.specs.BTreeMap as tree;
ghost use Rattle.std.specs.Ordering.{nat_cmp};
ghost use Rattle.hfs_put.specs.ForkRuns.{AreFilePlaces, NotesPlace, file_id};

use hfs_model::ItemKind;
use hfs_put_plan::PutItem;
use std::alloc::{AllocError, Global};
use std::collections::BTreeMap;

/// The ID of the item at a place, if it is a file.
fn file_id(item: &PutItem, ids: &[u32], place: usize) -> Option<u32>
    ensures { result ≡ file_id (Some item.now) (slice_get ids.now place) }
{
    match item.kind {
        ItemKind::File => ids.get(place).copied(),
        ItemKind::Folder => None,
    }
}

/// Notes the place of an item that is a file, under its ID.
fn note_place(
    places: &mut BTreeMap<u32, usize>,
    item: &PutItem,
    ids: &[u32],
    place: usize,
) -> Result<(), AllocError>
    ensures { OnOk result (NotesPlace (file_id (Some item.now) (slice_get ids.now place)) place
        (tree.get nat_cmp places.old) (tree.get nat_cmp places.new)) }
{
    match file_id(item, ids, place) {
        Some(id) => {
            places.insert(id, place)?;
            Ok(())
        }
        None => Ok(()),
    }
}

/// The places of the files of a list by their IDs.
pub(crate) fn file_places(
    alloc: Global,
    items: &[PutItem],
    ids: &[u32],
) -> Result<BTreeMap<u32, usize>, AllocError>
    ensures { IfOk result (λ places.
        AreFilePlaces items.now ids.now (tree.get nat_cmp places)) }
{
    let mut places = BTreeMap::new(alloc);
    for (place, item) in items.iter().enumerate() {
        note_place(&mut places, item, ids, place)?;
    }
    Ok(places)
}
