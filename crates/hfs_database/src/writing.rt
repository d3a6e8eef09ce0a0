//! The page of a collection, from its database.
ghost use Rattle.std.specs.Prelude.{◌≡◌, Err, IfErr, IfOk, OnOk};
ghost use Rattle.hfs_database.specs.Pages.{collection_page};
ghost use Rattle.hfs_database.specs.Writing.{HasNoPage, IsPage, WritesPage, WritesPageFront};

use crate::collection_texts::CollectionTexts;
use crate::page::collection_page;
use crate::{Collection, DatabaseFault, Listing, listed};
use hfs_texts::put;
use sqlite::{Alter, Row};
use std::alloc::Global;
use std::io::Write;

/// Why a collection's page is not written whole.
#[derive(Clone, Copy, Debug, PartialEq, Eq)]
pub enum CollectionFault {
    /// The database was not read, or memory was refused; nothing was written.
    Database(DatabaseFault),
    /// The writer failed.
    OutputFailed,
}

/// [`collection_page`] with the fault of a database.
fn page_with(
    alloc: Global,
    texts: &CollectionTexts<'_>,
    volumes: &[Row],
    contents: &[Row],
) -> Result<Vec<u8>, DatabaseFault>
    ensures page { IfOk result (λ page. page.items ≡
        collection_page texts.now volumes.now contents.now) }
    ensures memory { IfErr result (λ fault. fault ≡ DatabaseFault.NoMemory) }
{
    match collection_page(alloc, texts, volumes, contents) {
        Ok(page) => Ok(page),
        Err(_) => Err(DatabaseFault::NoMemory),
    }
}

/// The page of a collection, from what its database lists. Faults: as for [`listed`].
fn page_of<S: Alter>(
    alloc: Global,
    collection: &mut Collection<S>,
    texts: &CollectionTexts<'_>,
) -> Result<Vec<u8>, DatabaseFault>
    ensures page { IfOk result (λ page. IsPage S.Store collection.old.conn collection.new.conn
        texts.now page.items) }
    ensures fault { IfErr result (HasNoPage S.Store collection.old.conn collection.new.conn) }
{
    let volumes = listed(collection, Listing::Volumes)?;
    let contents = listed(collection, Listing::Copies)?;
    let page = page_with(alloc, texts, &volumes, &contents)?;
    Ok(page)
}

/// Writes the page of a collection: a line for each volume that the database lists, and one for each content. Faults: the
/// database can't be read, memory was refused, and nothing was written; or the writer failed: then only the beginning of the page
/// may have been written.
pub fn write_collection_page<S: Alter, W: Write>(
    alloc: Global,
    collection: &mut Collection<S>,
    texts: &CollectionTexts<'_>,
    writer: &mut W,
) -> Result<(), CollectionFault>
    ensures written { OnOk result (WritesPage S.Store collection.old.conn collection.new.conn
        texts.now (W.contents writer.old) (W.contents writer.new)) }
    ensures part { result ≡ Err CollectionFault.OutputFailed → WritesPageFront S.Store
        collection.old.conn collection.new.conn texts.now (W.contents writer.old)
        (W.contents writer.new) }
    ensures untouched { (fault : DatabaseFault) → result ≡ Err (CollectionFault.Database fault)
        → W.contents writer.new ≡ W.contents writer.old }
    ensures fault { (fault : DatabaseFault) → result ≡ Err (CollectionFault.Database fault)
        → HasNoPage S.Store collection.old.conn collection.new.conn fault }
{
    match page_of(alloc, collection, texts) {
        Ok(page) => match put(writer, &page) {
            Ok(()) => Ok(()),
            Err(_) => Err(CollectionFault::OutputFailed),
        },
        Err(fault) => Err(CollectionFault::Database(fault)),
    }
}
