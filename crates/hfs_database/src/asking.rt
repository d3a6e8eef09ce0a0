//! Asking a collection about images.
ghost use Rattle.std.specs.Prelude.{◌≡◌, [], ◌∷◌, string_bytes, IfErr, IfOk};
ghost use Rattle.sqlite.specs.declared.types.Value.TheVariants.{Text};
ghost use Rattle.sqlite.specs.Held.{state};
ghost use Rattle.sqlite.specs.Values.{bound, bound_value};
ghost use Rattle.sqlite_value.specs.Order.{column};
ghost use Rattle.sqlite_value.specs.Value.{owned};
ghost use Rattle.hfs_database.specs.Asking.{IsAnswered, IsKnown, IsNext, TellsImage, known_image_text, next_path_text, text_or_null};
ghost use Rattle.hfs_database.specs.Faults.{FailsToAnswer, FailsToTell, IsTextOrNull, IsUnreadAt, IsUnreadImage, IsUnreadPath};

use crate::collection::Collection;
use crate::comparing::KnownImage;
use crate::fault::{DatabaseFault, writing_fault};
use sqlite::types::ValueRef;
use sqlite::{Alter, Connection, Error, Row};

/// The first row of the answer to a question, if it has one. Faults: `CannotWrite` if the database can't be read, `NoMemory`.
#[tactic(auto, using(crate::proofs::FaultLemmas::fails_but_for_rows))]
fn first_row<S: Alter>(
    conn: &mut Connection<S>,
    text: &str,
    parameters: &[ValueRef<'_>],
) -> Result<Option<Row>, DatabaseFault>
    ensures answered { IfOk result (IsAnswered (state S.Store conn.old) (state S.Store conn.new)
        text.now (bound parameters.now)) }
    ensures fault { IfErr result (FailsToAnswer (state S.Store conn.old) (state S.Store conn.new)
        text.now (bound parameters.now)) }
{
    match conn.query_row(text, parameters) {
        Ok(row) => Ok(Some(row)),
        Err(Error::QueryReturnedNoRows) => Ok(None),
        Err(error) => Err(writing_fault(&error)),
    }
}

/// The digest in a row, after the number of bytes, if it has one.
#[tactic(auto, using(crate::proofs::FaultLemmas::unread_at))]
fn digest_in(row: &Row) -> Result<Option<String>, DatabaseFault>
    ensures fault { IfErr result (IsUnreadAt IsTextOrNull row.now 1) }
    ensures digest { IfOk result (λ digest. column row.now 1 ≡ text_or_null digest) }
{
    match row.get(1) {
        Ok(digest) => Ok(digest),
        Err(error) => Err(writing_fault(&error)),
    }
}

/// What a row says about an image.
#[tactic(auto, using(crate::proofs::FaultLemmas::unread_at))]
fn image_of(row: &Row) -> Result<KnownImage, DatabaseFault>
    ensures fault { IfErr result (IsUnreadImage row.now) }
    ensures image { IfOk result (TellsImage row.now) }
{
    let digest = digest_in(row)?;
    match row.get(0) {
        Ok(bytes) => Ok(KnownImage { bytes, digest }),
        Err(error) => Err(writing_fault(&error)),
    }
}

/// The path that a row begins with.
#[tactic(auto, using(crate::proofs::FaultLemmas::unread_at))]
fn path_in(row: &Row) -> Result<String, DatabaseFault>
    ensures fault { IfErr result (IsUnreadPath row.now) }
    ensures path { IfOk result (λ path. column row.now 0 ≡ Text (string_bytes path)) }
{
    match row.get(0) {
        Ok(path) => Ok(path),
        Err(error) => Err(writing_fault(&error)),
    }
}

/// A text as a parameter, if there is one.
fn parameter(text: &Option<String>) -> ValueRef<'_>
    ensures { bound_value (owned result) ≡ text_or_null text.now }
{
    match text {
        Some(text) => ValueRef::Text(text.as_bytes()),
        None => ValueRef::Null,
    }
}

/// What the collection says about the image at this path, if it has it. Faults: `CannotWrite` if its row can't be read,
/// `NoMemory`.
#[tactic(auto, using(crate::proofs::FaultLemmas::told_unanswered, crate::proofs::FaultLemmas::told_unread), unfolding(crate::specs::Asking::known_image_text))]
pub fn known_image<S: Alter>(
    collection: &mut Collection<S>,
    path: &str,
) -> Result<Option<KnownImage>, DatabaseFault>
    ensures known { IfOk result (IsKnown (state S.Store collection.old.conn)
        (state S.Store collection.new.conn) path.now) }
    ensures fault { IfErr result (FailsToTell IsUnreadImage (state S.Store collection.old.conn)
        (state S.Store collection.new.conn) known_image_text (Text path.now ∷ [])) }
{
    let parameters = [ValueRef::Text(path.as_bytes())];
    let text = "SELECT bytes, sha256 FROM image WHERE path = ?1";
    match first_row(&mut collection.conn, text, &parameters)? {
        Some(row) => Ok(Some(image_of(&row)?)),
        None => Ok(None),
    }
}

/// The first path of the collection after this one, in the order of their bytes, or the first of all. None if there is none.
/// Faults: as for [`known_image`].
#[tactic(auto, using(crate::proofs::FaultLemmas::told_unanswered, crate::proofs::FaultLemmas::told_unread), unfolding(crate::specs::Asking::next_path_text))]
pub fn next_path<S: Alter>(
    collection: &mut Collection<S>,
    last: &Option<String>,
) -> Result<Option<String>, DatabaseFault>
    ensures next { IfOk result (IsNext (state S.Store collection.old.conn)
        (state S.Store collection.new.conn) last.now) }
    ensures fault { IfErr result (FailsToTell IsUnreadPath (state S.Store collection.old.conn)
        (state S.Store collection.new.conn) next_path_text (text_or_null last.now ∷ [])) }
{
    let parameters = [parameter(last)];
    let text = "SELECT path FROM image WHERE ?1 IS NULL OR path > ?1 ORDER BY path LIMIT 1";
    match first_row(&mut collection.conn, text, &parameters)? {
        Some(row) => Ok(Some(path_in(&row)?)),
        None => Ok(None),
    }
}
