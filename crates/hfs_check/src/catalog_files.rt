//! The files of a catalog.
ghost use Rattle.std.specs.Prelude.{◌≡◌, IfOk, OnOk};
ghost use Rattle.hfs_check.specs.Answers.{with_file};
ghost use Rattle.hfs_space.specs.Runs.{files_in};

use hfs_catalog::CatalogRecord;
use hfs_space::CatalogFile;
use std::alloc::{AllocError, Global};

/// Takes a file's record with its number, if it is one.
fn take_file(files: &mut Vec<CatalogFile>, number: usize, body: &[u8]) -> Result<(), AllocError>
    ensures { OnOk result (files.new.items ≡ with_file files.old.items number body.now) }
{
    if let Some(file) = CatalogFile::read(number, body) {
        files.push(file)?;
    }
    Ok(())
}

/// The files of a catalog with these records, each with the number of its record, counted from 0.
pub(crate) fn catalog_files(
    alloc: Global,
    records: &[CatalogRecord],
) -> Result<Vec<CatalogFile>, AllocError>
    ensures { IfOk result (λ files. files.items ≡ files_in 0 records.now) }
{
    let mut files = Vec::new(alloc);
    for i in 0..records.len() {
        take_file(&mut files, i, records[i].body())?;
    }
    Ok(files)
}
