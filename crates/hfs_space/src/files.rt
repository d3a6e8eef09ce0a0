//! The files of a catalog.
ghost use Rattle.hfs_fields.specs.Records.{is_file, begins_file, file_record_of};
ghost use Rattle.std.specs.Prelude.{IsTrue};
ghost use Rattle.std.specs.Option.{SomeIff};
ghost use Rattle.hfs_space.specs.Runs.{file_at};

use hfs_fields::FileRecord;

/// A file of the catalog.
#[derive(Clone, Copy)]
pub struct CatalogFile {
    /// The number of the record among all leaf records, counted from 0.
    pub number: usize,
    /// The file's record.
    pub file: FileRecord,
}

impl CatalogFile {
    /// The file whose record in the catalog has this number. None exactly when the record's body isn't a file's.
    #[tactic(auto, unfolding(hfs_fields::specs::Records::begins_file))]
    pub fn read(number: usize, body: &[u8]) -> Option<CatalogFile>
        ensures { SomeIff result (IsTrue (is_file body.now)) (file_at number body.now) }
    {
        if body.len() != FileRecord::LENGTH {
            return None;
        }
        match FileRecord::read(body) {
            Some(file) => Some(CatalogFile { number, file }),
            None => None,
        }
    }
}
