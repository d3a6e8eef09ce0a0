//! Rows of a bag's table of items, by the paths that they describe.
ghost use Rattle.std.specs.Prelude.{◌≡◌, OnOk};
ghost use Rattle.csv.specs.Records.{fields_of};
ghost use Rattle.hfs_put_sources.specs.Later.{Tells};
ghost use Rattle.hfs_put_sources.specs.Told.{facts_of, path_field, told_by_row, told_by_table};

use crate::by_path::ByPath;
use crate::tag_paths::path_behind;
use crate::{ItemRow, bag_path, item_row};
use csv::{ByteRecord, ReaderBuilder};
use hfs_put_plan::ToldFacts;
use std::alloc::{AllocError, Global};

fn facts_of(row: ItemRow) -> ToldFacts
    ensures { result ≡ facts_of row }
{
    ToldFacts {
        locked: row.locked,
        dates: row.dates,
    }
}

/// The path of a row's item below the payload; empty if there is none.
fn path_field(row: &ByteRecord) -> &[u8]
    ensures { result.now ≡ path_field (fields_of row.now) }
{
    match bag_path(row) {
        Some(path) => path,
        None => &[],
    }
}

/// Notes what a row says, with this in front of its path: nothing, if it isn't the row of an item.
fn note_row(
    alloc: Global,
    front: &str,
    row: &ByteRecord,
    facts: &mut ByPath<ToldFacts>,
) -> Result<(), AllocError>
    ensures { OnOk result (Tells (λ path. told_by_row front.now path (fields_of row.now)) facts.old facts.new) }
{
    let Some(item) = item_row(row) else {
        return Ok(());
    };
    let path = path_behind(alloc, front, path_field(row))?;
    facts.put(path, facts_of(item))
}

/// Notes what a table of items says, with this in front of its paths. Fails only when out of memory.
pub(crate) fn note_table(
    alloc: Global,
    front: &str,
    text: &[u8],
    facts: &mut ByPath<ToldFacts>,
) -> Result<(), AllocError>
    ensures { OnOk result (Tells (told_by_table front.now text.now) facts.old facts.new) }
{
    let reader = ReaderBuilder::new()
        .has_headers(false)
        .flexible(true)
        .from_reader(alloc, text);
    for row in reader.into_byte_records() {
        let Ok(row) = row else {
            return Err(AllocError);
        };
        note_row(alloc, front, &row, facts)?;
    }
    Ok(())
}
