//! A file that was opened, whatever kind it is.
ghost use Rattle.std.specs.Prelude.{◌≡◌, IfErr, IfOk, IfNone, IfSome, None};
ghost use Rattle.hfs_source.specs.Raw.{layout_of};
ghost use Rattle.hfs_source.specs.Sectors.{other_count};
ghost use Rattle.hfs_source.specs.Images.{FailsWhere, OfEach};
ghost use Rattle.hfs_commands.specs.OpenedFiles.{AreHeldOthers, AreOthersOf, HasSectorsOf, StaysHeld, failures_of, files_of, held_bytes, images_of, opened_layout, range_by, raw_range, stored_bytes, stored_failures, stored_images};

use crate::fault::Fault;
use hfs_source::{
    ByteRange, Layout, MemoryBytes, PlacedBytes, SeekableBytes, SparseFault, TrustedFile, UserData,
    Window, count_others, layout_in,
};
use std::alloc::AllocError;
use std::io;
use std::io::{Read, Seek};
use std::sync::Arc;

/// The bytes of a file that was opened, as they are in it.
#[derive(Drop)]
pub enum StoredFile<F: Read + Seek> {
    /// A file that can be sought in, to be read on demand.
    Seekable(SeekableBytes<TrustedFile<F>>),
    /// All bytes of anything else, such as a pipe; several may read them.
    Whole(Arc<Vec<u8>>),
}

impl<F: Read + Seek> StoredFile<F> {
    /// A file that can be sought in, wherever it stands; or the file back, if it can't be.
    pub fn sought(file: F) -> Result<StoredFile<F>, F>
        ensures { IfOk result (λ opened. stored_bytes opened ≡ None) }
    {
        match SeekableBytes::open(TrustedFile::new(file)) {
            Ok(bytes) => Ok(StoredFile::Seekable(bytes)),
            Err(reader) => Err(reader.into_file()),
        }
    }

    /// Another handle to the same bytes, if they are held; no byte is copied. None for a file, which must be opened again. Fails
    /// only when out of memory.
    pub fn again(&self) -> Result<Option<StoredFile<F>>, AllocError>
        ensures held { IfOk result (λ found. IfSome found (λ again. stored_bytes again ≡ stored_bytes self.now)) }
        ensures whole { IfOk result (λ found. IfNone found (stored_bytes self.now ≡ None)) }
    {
        match self {
            StoredFile::Seekable(_) => Ok(None),
            StoredFile::Whole(all) => Ok(Some(StoredFile::Whole(all.clone()?))),
        }
    }
}

impl<F: Read + Seek> PlacedBytes for StoredFile<F> {
    ghost Holds = { λ file. stored_images file };

    ghost Fails = { λ file. stored_failures file };

    fn len(&self) -> u64 {
        match self {
            StoredFile::Seekable(bytes) => bytes.len(),
            StoredFile::Whole(all) => all.len() as u64,
        }
    }

    fn read_at(&mut self, place: u64, into: &mut [u8]) -> io::Result<()> {
        match self {
            StoredFile::Seekable(bytes) => bytes.read_at(place, into),
            StoredFile::Whole(all) => {
                let bytes = all.as_slice();
                MemoryBytes { bytes }.read_at(place, into)
            }
        }
    }
}

/// The bytes in which volumes are looked for.
#[derive(Drop)]
pub enum OpenedFile<F: Read + Seek> {
    /// Those of the file itself.
    Plain(StoredFile<F>),
    /// The user data of its raw CD sectors.
    Raw(UserData<StoredFile<F>>),
}

impl<F: Read + Seek> PlacedBytes for OpenedFile<F> {
    ghost Holds = { λ file. images_of file };

    ghost Fails = { λ file. failures_of file };

    fn len(&self) -> u64 {
        match self {
            OpenedFile::Plain(file) => file.len(),
            OpenedFile::Raw(user) => user.len(),
        }
    }

    fn read_at(&mut self, place: u64, into: &mut [u8]) -> io::Result<()> {
        match self {
            OpenedFile::Plain(file) => file.read_at(place, into),
            OpenedFile::Raw(user) => user.read_at(place, into),
        }
    }
}

/// How many raw sectors of a file have no user data: each is looked at. Error: a read failed.
#[tactic(auto, using(crate::proofs::HeldBytes::stays_held))]
fn others_of<F: Read + Seek>(file: &mut StoredFile<F>) -> Result<u64, SparseFault>
    ensures others { IfOk result (λ others. OfEach (stored_images file.new)
        (λ bytes. others ≡ other_count bytes)) }
    ensures known { IfOk result (λ others. IfSome (stored_bytes file.old)
        (λ bytes. others ≡ other_count bytes)) }
    ensures held { OfEach (stored_images file.new) (stored_images file.old) }
    ensures stays { StaysHeld (stored_bytes file.old) (stored_bytes file.new) }
    ensures later { FailsWhere (stored_failures file.new) (stored_failures file.old) }
{
    match count_others(file) {
        Ok(others) => Ok(others),
        Err(_) => Err(SparseFault::ReadFailed),
    }
}

impl<F: Read + Seek> OpenedFile<F> {
    /// How the file's bytes are laid out.
    pub fn layout(&self) -> Layout
        ensures { result ≡ opened_layout self.now }
    {
        match self {
            OpenedFile::Plain(_) => Layout::Plain,
            OpenedFile::Raw(_) => Layout::Raw,
        }
    }

    /// How many of its raw sectors have no user data; each sector is read. 0 if it has no raw sectors. Error: a read failed.
    #[tactic(auto, using(crate::proofs::PartLemmas::data_later))]
    pub fn others(&mut self) -> Result<u64, SparseFault>
        ensures others { IfOk result (AreOthersOf self.new) }
        ensures known { IfOk result (AreHeldOthers self.old) }
        ensures layout { opened_layout self.new ≡ opened_layout self.old }
        ensures later { FailsWhere (failures_of self.new) (failures_of self.old) }
        ensures files { OfEach (files_of self.new) (files_of self.old) }
        ensures held { OfEach (images_of self.new) (images_of self.old) }
        ensures stays { StaysHeld (held_bytes self.old) (held_bytes self.new) }
    {
        match self {
            OpenedFile::Plain(_) => Ok(0),
            OpenedFile::Raw(user) => others_of(&mut user.bytes),
        }
    }
}

/// The user data of raw sectors, of a file of `len` bytes.
fn raw_content<F: Read + Seek>(source: StoredFile<F>, len: u64) -> Window<OpenedFile<F>>
    ensures layout { opened_layout result.source ≡ Layout.Raw }
    ensures files { OfEach (files_of result.source) (stored_images source) }
    ensures sectors { OfEach (files_of result.source) (HasSectorsOf result.source) }
    ensures held { held_bytes result.source ≡ stored_bytes source }
    ensures range { result.range ≡ raw_range len }
{
    Window {
        source: OpenedFile::Raw(UserData::new(source)),
        range: ByteRange {
            start: 0,
            len: len / 2_352 * 2_048,
        },
    }
}

/// The bytes in which volumes are looked for: the user data of a file of raw sectors, or any other file as it is. Faults: a read
/// failed.
#[tactic(auto, using(crate::proofs::HeldBytes::stays_held))]
pub fn content_of<'a, F: Read + Seek + Drop>(
    file: Window<StoredFile<F>>,
    path: &'a str,
) -> Result<Window<OpenedFile<F>>, Fault<'a>>
    ensures layout { IfOk result (λ content. OfEach (files_of content.source)
        (λ bytes. opened_layout content.source ≡ layout_of bytes)) }
    ensures sectors { IfOk result (λ content. OfEach (files_of content.source)
        (HasSectorsOf content.source)) }
    ensures held { IfOk result (λ content. OfEach (files_of content.source)
        (stored_images file.source)) }
    ensures stays { IfOk result (λ content. StaysHeld (stored_bytes file.source)
        (held_bytes content.source)) }
    ensures range { IfOk result (λ content. content.range
        ≡ range_by (opened_layout content.source) file.range) }
    ensures fault { IfErr result (λ why. why ≡ Fault.CannotRead path.entry) }
{
    let Window { mut source, range } = file;
    match layout_in(&mut source) {
        Ok(Layout::Plain) => Ok(Window {
            source: OpenedFile::Plain(source),
            range,
        }),
        Ok(Layout::Raw) => Ok(raw_content(source, range.len)),
        Err(_) => Err(Fault::CannotRead(path)),
    }
}
