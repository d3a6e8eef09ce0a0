//! What is said of a range in a file, besides where it lies.
ghost use Rattle.std.specs.Prelude.{◌≡◌, IfOk};
ghost use Rattle.hfs_commands.specs.OpenedFiles.{AreOthersOf, IsLaidOut, failures_of, images_of, opened_layout};
ghost use Rattle.hfs_source.specs.Images.{FailsWhere, OfEach};
ghost use Rattle.hfs_source.specs.Ranges.{bytes_in, volume_name_in};
ghost use Rattle.hfs_source.specs.Sums.{sum_told};

use crate::opened_file::OpenedFile;
use crate::raw_file::{raw_data, stored_data};
use hfs_source::{FoundRange, PlacedBytes, SparseFault, sum_told, volume_name};
use std::io::{Read, Seek};

/// The name of the volume in a range, and whether the range's sum is right.
#[derive(Clone, Copy, Debug, PartialEq, Eq)]
pub struct RangeFacts {
    /// The name field of the volume in the range, if there is one.
    pub name: Option<[u8; 28]>,
    /// Whether the sum in a disk copy's header is right, if the range lies in one.
    pub sum: Option<bool>,
}

/// A file, and what was read of it to describe a range in it.
#[derive(Drop)]
pub struct DescribedRange<F: Read + Seek> {
    pub file: OpenedFile<F>,
    pub facts: RangeFacts,
    /// How many raw sectors of the file have no user data.
    pub others: u64,
}

/// The name of the volume in a range of these bytes, and whether the range's sum is right. Errors: a read failed, memory was
/// refused.
fn facts_of<S: PlacedBytes>(source: &mut S, found: &FoundRange) -> Result<RangeFacts, SparseFault>
    ensures name { IfOk result (λ facts. OfEach (S.Holds source.new)
        (λ file. facts.name ≡ volume_name_in found.now.range file)) }
    ensures sum { IfOk result (λ facts. OfEach (S.Holds source.new)
        (λ file. facts.sum ≡ sum_told found.now.container (bytes_in found.now.range file))) }
    ensures held { OfEach (S.Holds source.new) (S.Holds source.old) }
    ensures later { FailsWhere (S.Fails source.new) (S.Fails source.old) }
{
    let name = volume_name(source, found.range)?;
    let sum = sum_told(source, found)?;
    Ok(RangeFacts { name, sum })
}

/// A file, and what was read of a range in it.
#[derive(Drop)]
struct ReadRange<F: Read + Seek> {
    file: OpenedFile<F>,
    facts: RangeFacts,
}

/// The same of a range of a file, which is handed back. Errors: a read failed, memory was refused.
fn read_range<F: Read + Seek + Drop>(
    file: OpenedFile<F>,
    found: &FoundRange,
) -> Result<ReadRange<F>, SparseFault>
    requires { IsLaidOut file }
    ensures layout { IfOk result (λ read. opened_layout read.file ≡ opened_layout file) }
    ensures laid_out { IfOk result (λ read. IsLaidOut read.file) }
    ensures held { IfOk result (λ read. OfEach (images_of read.file) (images_of file)) }
    ensures later { IfOk result (λ read. FailsWhere (failures_of read.file) (failures_of file)) }
    ensures name { IfOk result (λ read. OfEach (images_of read.file)
        (λ bytes. read.facts.name ≡ volume_name_in found.now.range bytes)) }
    ensures sum { IfOk result (λ read. OfEach (images_of read.file)
        (λ bytes. read.facts.sum ≡ sum_told found.now.container (bytes_in found.now.range bytes))) }
{
    match file {
        OpenedFile::Plain(mut bytes) => {
            let facts = facts_of(&mut bytes, found)?;
            let file = OpenedFile::Plain(bytes);
            Ok(ReadRange { file, facts })
        }
        OpenedFile::Raw(user) => {
            let mut data = raw_data(user);
            let facts = facts_of(&mut data, found)?;
            let file = OpenedFile::Raw(stored_data(data));
            Ok(ReadRange { file, facts })
        }
    }
}

/// What is said of a range in a file, besides where it lies; each raw sector of the file is looked at, and all bytes of a range
/// that has a sum. The file is laid out as before. Errors: a read failed, memory was refused.
pub fn describe_range<F: Read + Seek + Drop>(
    file: OpenedFile<F>,
    found: &FoundRange,
) -> Result<DescribedRange<F>, SparseFault>
    requires { IsLaidOut file }
    ensures layout { IfOk result (λ described. opened_layout described.file ≡ opened_layout file) }
    ensures laid_out { IfOk result (λ described. IsLaidOut described.file) }
    ensures held { IfOk result (λ described. OfEach (images_of described.file) (images_of file)) }
    ensures later { IfOk result (λ described. FailsWhere (failures_of described.file)
        (failures_of file)) }
    ensures name { IfOk result (λ described. OfEach (images_of described.file)
        (λ bytes. described.facts.name ≡ volume_name_in found.now.range bytes)) }
    ensures sum { IfOk result (λ described. OfEach (images_of described.file)
        (λ bytes. described.facts.sum
        ≡ sum_told found.now.container (bytes_in found.now.range bytes))) }
    ensures others { IfOk result (λ described. AreOthersOf described.file described.others) }
{
    let ReadRange { mut file, facts } = read_range(file, found)?;
    let others = file.others()?;
    Ok(DescribedRange {
        file,
        facts,
        others,
    })
}
