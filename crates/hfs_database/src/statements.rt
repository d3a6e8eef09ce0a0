//! The statements that put a row into its table, within a transaction.
ghost use Rattle.std.specs.Prelude.{◌≡◌, ◌⊎◌, [], ◌∷◌, map, IfErr, IfOk, OnOk};
ghost use Rattle.sqlite.specs.declared.types.Value.TheVariants.{Int};
ghost use Rattle.sqlite.specs.Held.{state};
ghost use Rattle.sqlite_value.specs.Order.{column};
ghost use Rattle.sqlite.specs.Values.{IsInt, bound};
ghost use Rattle.hfs_database.specs.Doing.{HasFound, HasReplaced, HasRunAll, HasShown};
ghost use Rattle.hfs_database.specs.Faults.{IsUnreadable};
ghost use Rattle.hfs_database.specs.Refusals.{FailsToAsk, FailsToShowNumber, FailsToShowRow, HasLargeNumber, IsUntaken, RefusesImage, RefusesRow};
ghost use Rattle.hfs_database.specs.Rows.{PutsRow};
ghost use Rattle.hfs_database.specs.StatementTexts.{drop_volumes_text, put_item_text, put_volume_text};
ghost use Rattle.hfs_database.specs.Transactions.{KeepsFile};
ghost use Rattle.hfs_database.specs.Values.{sql_value};

use crate::fault::taking_fault;
use crate::values::{parameters_under, push_parameters};
use crate::{RowValue, Table, TakerFault};
use sqlite::types::ValueRef;
use sqlite::{Alter, Connection, Row};
use std::alloc::Global;

/// The numbers of the rows that came last.
#[derive(Clone, Copy)]
pub(crate) struct LastRows {
    /// The image's number.
    pub(crate) image: i64,
    /// The volume's number.
    pub(crate) volume: i64,
}

/// Runs a statement within the transaction, and returns the first row that it yields.
#[tactic(auto, using(crate::proofs::Keeping::keeps_itself))]
fn shown_row<S: Alter>(
    conn: &mut Connection<S>,
    text: &str,
    parameters: &[ValueRef<'_>],
) -> Result<Row, TakerFault>
    ensures done { IfOk result (HasShown (state S.Store conn.old) (state S.Store conn.new)
        text.now (bound parameters.now)) }
    ensures fails { IfErr result (IsUntaken (FailsToShowRow S.Store conn.old
        conn.new text.now (bound parameters.now))) }
    ensures keeps { KeepsFile S.Store conn.old conn.new }
{
    if conn.is_autocommit() {
        return Err(TakerFault::CannotWrite);
    }
    match conn.query_row(text, parameters) {
        Ok(row) => Ok(row),
        Err(error) => Err(taking_fault(&error)),
    }
}

/// Runs a statement within the transaction, whatever it yields.
#[tactic(auto, using(crate::proofs::Keeping::keeps_itself))]
fn run<S: Alter>(
    conn: &mut Connection<S>,
    text: &str,
    parameters: &[ValueRef<'_>],
) -> Result<(), TakerFault>
    ensures done { OnOk result (HasRunAll (state S.Store conn.old) (state S.Store conn.new)
        text.now (bound parameters.now)) }
    ensures fails { IfErr result (IsUntaken (FailsToAsk S.Store conn.old
        conn.new text.now (bound parameters.now))) }
    ensures keeps { KeepsFile S.Store conn.old conn.new }
{
    if conn.is_autocommit() {
        return Err(TakerFault::CannotWrite);
    }
    match conn.query_all(text, parameters) {
        Ok(_) => Ok(()),
        Err(error) => Err(taking_fault(&error)),
    }
}

/// The number that a row begins with.
fn number_of(row: &Row) -> Result<i64, TakerFault>
    ensures number { IfOk result (λ number. column row.now 0 ≡ Int number) }
    ensures unread { IfErr result (IsUntaken (IsUnreadable IsInt row.now 0)) }
{
    match row.get(0) {
        Ok(number) => Ok(number),
        Err(error) => Err(taking_fault(&error)),
    }
}

/// Runs a statement that inserts a row, and returns the row's number.
#[tactic(auto, using(crate::proofs::Keeping::keeps_itself, crate::proofs::Keeping::keeps_then))]
fn put<S: Alter>(
    conn: &mut Connection<S>,
    text: &str,
    parameters: &[ValueRef<'_>],
) -> Result<i64, TakerFault>
    ensures done { IfOk result (HasFound (state S.Store conn.old) (state S.Store conn.new)
        text.now (bound parameters.now)) }
    ensures fails { IfErr result (IsUntaken (FailsToShowNumber S.Store conn.old
        conn.new text.now (bound parameters.now))) }
    ensures keeps { KeepsFile S.Store conn.old conn.new }
{
    let row = shown_row(conn, text, parameters)?;
    number_of(&row)
}

/// Removes the volumes of an image, with their items.
#[tactic(auto, unfolding(crate::specs::StatementTexts::drop_volumes_text))]
fn drop_volumes<S: Alter>(conn: &mut Connection<S>, image: i64) -> Result<(), TakerFault>
    ensures done { OnOk result (HasRunAll (state S.Store conn.old) (state S.Store conn.new)
        drop_volumes_text (Int image ∷ [])) }
    ensures fails { IfErr result (IsUntaken (FailsToAsk S.Store conn.old
        conn.new drop_volumes_text (Int image ∷ []))) }
    ensures keeps { KeepsFile S.Store conn.old conn.new }
{
    let parameters = [ValueRef::Int(image)];
    run(
        conn,
        "DELETE FROM volume WHERE image = ?1 RETURNING id",
        &parameters,
    )
}

/// Inserts the row of an image, or updates the one with its path, whose volumes are removed. Returns the row's number.
#[tactic(auto, using(crate::proofs::Keeping::keeps_itself, crate::proofs::Keeping::keeps_then), unfolding(crate::specs::StatementTexts::put_image_text))]
fn replace_image<S: Alter>(
    alloc: Global,
    conn: &mut Connection<S>,
    values: &[RowValue],
) -> Result<i64, TakerFault>
    ensures done { IfOk result (HasReplaced S.Store conn.old conn.new
        (map sql_value values.now)) }
    ensures fails { IfErr result (IsUntaken (HasLargeNumber values.now
        ⊎ RefusesImage S.Store (map sql_value values.now) conn.old conn.new)) }
    ensures keeps { KeepsFile S.Store conn.old conn.new }
{
    let mut parameters = Vec::new(alloc);
    push_parameters(&mut parameters, values)?;
    let id = put(
        conn,
        "INSERT INTO image (path, bytes, sha256, program) VALUES (?1, ?2, ?3, ?4) ON CONFLICT (path) DO UPDATE SET bytes = excluded.bytes, sha256 = excluded.sha256, program = excluded.program RETURNING id",
        &parameters,
    )?;
    drop_volumes(conn, id)?;
    Ok(id)
}

/// Inserts the row of a volume of an image, and returns the row's number.
#[tactic(auto, using(crate::proofs::Keeping::keeps_itself, crate::proofs::Keeping::keeps_then), unfolding(crate::specs::StatementTexts::put_volume_text))]
fn put_volume<S: Alter>(
    alloc: Global,
    conn: &mut Connection<S>,
    image: i64,
    values: &[RowValue],
) -> Result<i64, TakerFault>
    ensures done { IfOk result (HasFound (state S.Store conn.old)
        (state S.Store conn.new) put_volume_text
        (Int image ∷ map sql_value values.now)) }
    ensures fails { IfErr result (IsUntaken (HasLargeNumber values.now
        ⊎ FailsToShowNumber S.Store conn.old conn.new
        put_volume_text (Int image ∷ map sql_value values.now))) }
    ensures keeps { KeepsFile S.Store conn.old conn.new }
{
    let parameters = parameters_under(alloc, image, values)?;
    put(
        conn,
        "INSERT INTO volume (image, number, how, first_byte, bytes, name, created, modified, backup, blocks, block_bytes, free_blocks, verdict) VALUES (?1, ?2, ?3, ?4, ?5, ?6, ?7, ?8, ?9, ?10, ?11, ?12, ?13) RETURNING id",
        &parameters,
    )
}

/// Inserts the row of an item of a volume.
#[tactic(auto, using(crate::proofs::Keeping::keeps_itself, crate::proofs::Keeping::keeps_then), unfolding(crate::specs::StatementTexts::put_item_text))]
fn put_item<S: Alter>(
    alloc: Global,
    conn: &mut Connection<S>,
    volume: i64,
    values: &[RowValue],
) -> Result<(), TakerFault>
    ensures done { OnOk result (HasRunAll (state S.Store conn.old)
        (state S.Store conn.new) put_item_text
        (Int volume ∷ map sql_value values.now)) }
    ensures fails { IfErr result (IsUntaken (HasLargeNumber values.now
        ⊎ FailsToAsk S.Store conn.old conn.new
        put_item_text (Int volume ∷ map sql_value values.now))) }
    ensures keeps { KeepsFile S.Store conn.old conn.new }
{
    let parameters = parameters_under(alloc, volume, values)?;
    run(
        conn,
        "INSERT INTO item (volume, number, path, bag_path, kind, cnid, parent, type, creator, flags, locked, file_id, created, modified, backup, items, data_bytes, resource_bytes, finder, data_sha256, resource_sha256, data_verdict, resource_verdict) VALUES (?1, ?2, ?3, ?4, ?5, ?6, ?7, ?8, ?9, ?10, ?11, ?12, ?13, ?14, ?15, ?16, ?17, ?18, ?19, ?20, ?21, ?22, ?23) RETURNING id",
        &parameters,
    )
}

/// Inserts a row into its table: a volume under the image that came last, an item under the volume that came last.
#[tactic(auto, using(crate::proofs::Keeping::keeps_itself, crate::proofs::Keeping::keeps_then))]
pub(crate) fn put_row<S: Alter>(
    alloc: Global,
    conn: &mut Connection<S>,
    last: &mut LastRows,
    table: Table,
    values: &[RowValue],
) -> Result<(), TakerFault>
    ensures done { OnOk result (PutsRow S.Store table (map sql_value values.now) conn.old conn.new
        last.old last.new) }
    ensures refused { IfErr result (IsUntaken (RefusesRow S.Store table values.now
        conn.old conn.new last.old)) }
    ensures keeps { KeepsFile S.Store conn.old conn.new }
{
    match table {
        Table::Image => last.image = replace_image(alloc, conn, values)?,
        Table::Volume => last.volume = put_volume(alloc, conn, last.image, values)?,
        Table::Item => put_item(alloc, conn, last.volume, values)?,
    }
    Ok(())
}
