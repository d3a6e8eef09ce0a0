//! The keys of rows: the last of the images and volumes that rows belong to.
ghost use Rattle.std.specs.Prelude.{◌≡◌, IfOk, OnOk};
ghost use Rattle.hfs_database.specs.Keys.{keys_after, no_keys, value_at};

use crate::{RowValue, Table};
use hfs_model::OwnedBytes;
use std::alloc::{AllocError, Global};

/// The keys of the rows that come next.
#[derive(Drop)]
pub(crate) struct Keys {
    /// The path of the image that came last.
    pub(crate) path: RowValue,
    /// Its digest.
    pub(crate) digest: RowValue,
    /// The number of the volume that came last.
    pub(crate) number: RowValue,
}

/// A copy of the value at this place of a row. Fails only when out of memory.
fn copied(alloc: Global, values: &[RowValue], place: usize) -> Result<RowValue, AllocError>
    ensures { IfOk result (λ copy. copy ≡ value_at values.now place) }
{
    match values.get(place) {
        Some(RowValue::Text(text)) => Ok(RowValue::Text(OwnedBytes::from_slice(
            alloc,
            text.as_slice(),
        )?)),
        Some(RowValue::Number(n)) => Ok(RowValue::Number(*n)),
        Some(RowValue::Empty) | None => Ok(RowValue::Empty),
    }
}

impl Keys {
    /// No keys, as before the first row.
    pub(crate) fn none() -> Keys
        ensures { result ≡ no_keys }
    {
        Keys {
            path: RowValue::Empty,
            digest: RowValue::Empty,
            number: RowValue::Empty,
        }
    }

    /// The keys of the rows after this one. Fails only when out of memory.
    pub(crate) fn note(
        &mut self,
        alloc: Global,
        table: Table,
        values: &[RowValue],
    ) -> Result<(), AllocError>
        ensures { OnOk result (self.new ≡ keys_after self.old table values.now) }
    {
        match table {
            Table::Image => {
                *self = image_keys(alloc, values)?;
                Ok(())
            }
            Table::Volume => {
                self.number = copied(alloc, values, 0)?;
                Ok(())
            }
            Table::Item => Ok(()),
        }
    }
}

/// The keys of the rows after an image's. Fails only when out of memory.
fn image_keys(alloc: Global, values: &[RowValue]) -> Result<Keys, AllocError>
    ensures path { IfOk result (λ keys. keys.path ≡ value_at values.now 0) }
    ensures digest { IfOk result (λ keys. keys.digest ≡ value_at values.now 2) }
    ensures number { IfOk result (λ keys. keys.number ≡ no_keys.number) }
{
    let path = copied(alloc, values, 0)?;
    let digest = copied(alloc, values, 2)?;
    Ok(Keys {
        path,
        digest,
        number: RowValue::Empty,
    })
}
