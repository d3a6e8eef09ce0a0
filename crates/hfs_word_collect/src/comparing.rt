//! Comparing images with what the database has about them.
ghost use Rattle.std.specs.Prelude.{◌≡◌, ◌≢◌, IfErr, IfNone, IfOk, IfSome, OnErr, string_bytes};
ghost use Rattle.hex.specs.Hex.{encode_lower};
ghost use Rattle.sha2.specs.Sha256.{sha256};
ghost use Rattle.sqlite.specs.Held.{state};
ghost use Rattle.hfs_bag.specs.Failing.{SomeFail};
ghost use Rattle.hfs_database.specs.Comparing.{comparison};
ghost use Rattle.hfs_database.specs.declared.comparing.Comparison.TheVariants.{Missing};
ghost use Rattle.hfs_source.specs.Images.{FailsWhere, OfEach};
ghost use Rattle.hfs_word_collect.specs.Comparing.{FailsToCompare, IsAsked, IsAskedOrMissing, IsCompared, IsComparedIn, IsComparison, IsReadUnless};
ghost use Rattle.hfs_word_collect.specs.declared.collect_fault.RunFault.TheVariants.{NoMemory};

use crate::Reopen;
use crate::collect_fault::RunFault;
use crate::files::FileByPath;
use crate::watched::WatchedFile;
use hfs_bag::{Watch, file_digest};
use hfs_database::{Collection, Comparison, KnownImage, known_image};
use hfs_source::PlacedBytes;
use sqlite::Alter;
use std::alloc::Global;
use std::io;
use std::rt::Files;

/// The hexadecimal digits of the digest of an image. None if a read fails.
fn image_digits<S: PlacedBytes>(alloc: Global, source: &mut S) -> Result<Option<String>, RunFault>
    ensures digits { IfOk result (λ found. IfSome found (λ digits. OfEach (S.Holds source.new)
        (λ file. string_bytes digits ≡ encode_lower (sha256 file)))) }
    ensures none { IfOk result (λ found. IfNone found
        (SomeFail (S.Holds source.new) (S.Fails source.old))) }
    ensures held { OfEach (S.Holds source.new) (S.Holds source.old) }
    ensures fault { IfErr result (λ fault. fault ≡ NoMemory) }
{
    let Ok(digest) = file_digest(source) else {
        return Ok(None);
    };
    match hex::encode(alloc, digest.as_slice()) {
        Ok(digits) => Ok(Some(digits)),
        Err(_) => Err(RunFault::NoMemory),
    }
}

/// How an image of `len` bytes compares to what the database has about it, by the digits of its digest; if these aren't needed,
/// any do.
fn told_by(known: &KnownImage, len: u64, digits: &str) -> Comparison
    ensures told { result ≡ comparison known.now len digits.now }
    ensures read { result ≢ Missing }
{
    known.compared(len, digits)
}

/// How an image compares to what the database has about it. It is read if its digest is needed; if a read fails, it is missing.
/// The only fault is `NoMemory`.
#[tactic(auto, using(crate::proofs::Comparisons::told_by, crate::proofs::Comparisons::told_missing, crate::proofs::Comparisons::compared_missing_of, crate::proofs::Comparisons::compared_unread, crate::proofs::Comparisons::compared_read, crate::proofs::Comparisons::known_read, crate::proofs::Comparisons::unread_missing))]
pub fn compare_known<S: PlacedBytes>(
    alloc: Global,
    source: &mut S,
    known: &KnownImage,
) -> Result<Comparison, RunFault>
    ensures compared { IfOk result (λ found. OfEach (S.Holds source.new)
        (IsCompared known.now found)) }
    ensures comparison { IfOk result (IsComparison known.now) }
    ensures read { IfOk result (IsReadUnless (S.Holds source.new) (S.Fails source.old)) }
    ensures held { OfEach (S.Holds source.new) (S.Holds source.old) }
    ensures fault { IfErr result (λ fault. fault ≡ NoMemory) }
{
    let len = source.len();
    if !known.needs_digest(len) {
        return Ok(told_by(known, len, ""));
    }
    match image_digits(alloc, source)? {
        Some(digits) => Ok(told_by(known, len, digits.as_str())),
        None => Ok(Comparison::Missing),
    }
}

/// How an image compares to what the database has for this path: `New` if it has no row of it, otherwise by its length and its
/// digest; `Missing` if a read fails. Faults: `CannotWrite` if the database can't be read, `NoMemory`.
#[tactic(auto, using(crate::proofs::Comparisons::asked_known, crate::proofs::Comparisons::asked_new, crate::proofs::Comparisons::compared_known, crate::proofs::Comparisons::compared_new, crate::proofs::Comparisons::known_read, crate::proofs::Comparisons::new_read, crate::proofs::Comparisons::fails_by_database, crate::proofs::Comparisons::fails_by_memory))]
pub fn compare_file<D: Alter + Drop, S: PlacedBytes>(
    alloc: Global,
    collection: &mut Collection<D>,
    path: &str,
    source: &mut S,
) -> Result<Comparison, RunFault>
    ensures asked { IfOk result (IsAsked (state D.Store collection.old.conn)
        (state D.Store collection.new.conn) path.now) }
    ensures compared { IfOk result (λ found. OfEach (S.Holds source.new) (IsComparedIn
        (state D.Store collection.old.conn) (state D.Store collection.new.conn) path.now found)) }
    ensures read { IfOk result (IsReadUnless (S.Holds source.new) (S.Fails source.old)) }
    ensures held { OfEach (S.Holds source.new) (S.Holds source.old) }
    ensures fault { IfErr result (FailsToCompare (state D.Store collection.old.conn)
        (state D.Store collection.new.conn) path.now) }
{
    match known_image(collection, path)? {
        Some(known) => compare_known(alloc, source, &known),
        None => Ok(Comparison::New),
    }
}

/// Reads the first byte of an image, if it has any.
fn read_first<S: PlacedBytes>(source: &mut S) -> io::Result<()>
    ensures held { OfEach (S.Holds source.new) (S.Holds source.old) }
    ensures fails { OnErr result (SomeFail (S.Holds source.new) (S.Fails source.old)) }
    ensures later { FailsWhere (S.Fails source.new) (S.Fails source.old) }
{
    if source.len() == 0 {
        return Ok(());
    }
    let mut first = [0; 1];
    source.read_at(0, &mut first)?;
    Ok(())
}

/// How an opened image compares to what the database has for its path, as [`compare_file`] says; `Missing` also if its first byte
/// can't be read, and then the database isn't asked. This holds for every image consistent with the bytes read.
#[tactic(auto, using(crate::proofs::Comparisons::asked_missing, crate::proofs::Comparisons::asked_or_missing, crate::proofs::Comparisons::compared_missing, crate::proofs::Comparisons::unread_missing, crate::proofs::Comparisons::read_before))]
pub fn compare_image<D: Alter + Drop, S: PlacedBytes>(
    alloc: Global,
    collection: &mut Collection<D>,
    path: &str,
    source: &mut S,
) -> Result<Comparison, RunFault>
    ensures asked { IfOk result (IsAskedOrMissing D.Store
        collection.old.conn collection.new.conn path.now) }
    ensures compared { IfOk result (λ found. OfEach (S.Holds source.new) (IsComparedIn
        (state D.Store collection.old.conn) (state D.Store collection.new.conn) path.now found)) }
    ensures read { IfOk result (IsReadUnless (S.Holds source.new) (S.Fails source.old)) }
    ensures held { OfEach (S.Holds source.new) (S.Holds source.old) }
    ensures fault { IfErr result (FailsToCompare (state D.Store collection.old.conn)
        (state D.Store collection.new.conn) path.now) }
{
    let Ok(()) = read_first(source) else {
        return Ok(Comparison::Missing);
    };
    compare_file(alloc, collection, path, source)
}

/// Opens the image at this path, whose length is reported to the watch. None if it can't be opened; something that can't be
/// sought in, such as a pipe, is read whole and held.
pub fn open_image<'a, R: Files + AllocGlobal, W: Watch>(
    rt: &'a R,
    path: &'a str,
    watch: &'a W,
) -> Option<WatchedFile<'a, R::File, W>> {
    let mut file = FileByPath::new(rt, path, watch);
    file.reopen().ok()
}
