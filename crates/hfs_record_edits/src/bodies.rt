//! The bodies of records, as they are written.
ghost use Rattle.std.specs.Prelude.{◌≡◌};
ghost use Rattle.hfs_fields.specs.RecordForms.{IsDirRecordValue, dir_record_bytes, IsFileRecordValue, file_record_bytes, IsThreadRecordValue, thread_record_bytes};

use hfs_fields::{DirRecord, FileRecord, ThreadRecord};

/// The 70 bytes of a folder's record.
pub(crate) fn folder_body(folder: &DirRecord) -> [u8; 70]
    ensures bytes { result ≡ dir_record_bytes folder.now }
    ensures value { IsDirRecordValue folder.now }
{
    let mut bytes = [0; 70];
    folder.write(&mut bytes);
    bytes
}

/// The 102 bytes of a file's record.
pub(crate) fn file_body(file: &FileRecord) -> [u8; 102]
    ensures bytes { result ≡ file_record_bytes file.now }
    ensures value { IsFileRecordValue file.now }
{
    let mut bytes = [0; 102];
    file.write(&mut bytes);
    bytes
}

/// The 46 bytes of a thread's record.
pub(crate) fn thread_body(thread: &ThreadRecord) -> [u8; 46]
    ensures bytes { result ≡ thread_record_bytes thread.now }
    ensures value { IsThreadRecordValue thread.now }
{
    let mut bytes = [0; 46];
    thread.write(&mut bytes);
    bytes
}
