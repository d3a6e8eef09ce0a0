//! The plan of an item that is to be put on a disk.
ghost use Rattle.std.specs.Prelude.{◌≡◌, None};
ghost use Rattle.hfs_put_sources.specs.Plans.{data_span, double_span, findings, fit, is_file, is_file_kind, is_folder, is_folder_kind, is_item, kind_span, macbinary_plan, modified_date, plain_plan, resource_span, span_of};

use crate::entry::{Look, host_date};
use hfs_encodings::{AppleDoubleFile, ForkPlace, MacBinaryFile};
use hfs_fields::Name;
use hfs_put_plan::{
    EntryKind, Findings, ItemFacts, ToldFacts, double_facts, is_too_large, macbinary_facts,
    put_name, read_put_name,
};

/// How the sources are read.
#[derive(Clone, Copy)]
pub struct PutOptions {
    /// MacBinary files are taken apart.
    pub macbinary: bool,
    /// Names that are no item names are changed into some.
    pub rename: bool,
}

/// Where a fork lies in a file of the host.
#[derive(Clone, Copy)]
pub struct ForkSpan {
    /// The byte where it begins, counted from 0.
    pub start: u64,
    /// How many bytes it has.
    pub len: u64,
}

/// The plan of an item that is to be put on a disk.
#[derive(Clone, Copy)]
pub struct ItemPlan {
    /// What is seen of its own file or folder; None if there is only the file that belongs to it by its name.
    pub own: Option<Look>,
    /// What is seen of the file that belongs to it by its name, if that counts.
    pub double: Option<Look>,
    /// It is a MacBinary file, which has both forks. Otherwise the resource fork is in the file that belongs to it.
    pub is_macbinary: bool,
    /// The name that it gets, if it has one.
    pub name: Option<Name>,
    /// What is kept of it besides its forks.
    pub facts: ItemFacts,
    pub data_fork: ForkSpan,
    pub resource_fork: ForkSpan,
    /// What was found of it. Whether it is the first with its name is known once all items of its folder are; whether its first
    /// call is accepted is for the caller to say.
    pub found: Findings,
}

fn is_file_kind(kind: EntryKind) -> bool
    ensures { result ≡ is_file_kind kind }
{
    match kind {
        EntryKind::File(_) => true,
        EntryKind::Folder => false,
        EntryKind::Other => false,
    }
}

fn is_folder_kind(kind: EntryKind) -> bool
    ensures { result ≡ is_folder_kind kind }
{
    match kind {
        EntryKind::File(_) => false,
        EntryKind::Folder => true,
        EntryKind::Other => false,
    }
}

/// Whether it exists and is a file.
pub fn is_file(look: Option<Look>) -> bool
    ensures { result ≡ is_file look }
{
    match look {
        Some(look) => is_file_kind(look.kind),
        None => false,
    }
}

/// Whether it exists and is a folder.
pub(crate) fn is_folder(look: Option<Look>) -> bool
    ensures { result ≡ is_folder look }
{
    match look {
        Some(look) => is_folder_kind(look.kind),
        None => false,
    }
}

/// Whether an item with this entry of its own is a file or a folder; without an entry of its own it is a file.
fn is_item(own: Option<Look>) -> bool
    ensures { result ≡ is_item own }
{
    own.is_none() || is_file(own) || is_folder(own)
}

/// No bytes.
const NO_SPAN: ForkSpan = ForkSpan { start: 0, len: 0 };

fn span_of(place: ForkPlace) -> ForkSpan
    ensures { result ≡ span_of place }
{
    ForkSpan {
        start: place.start,
        len: u64::from(place.len),
    }
}

fn kind_span(kind: EntryKind) -> ForkSpan
    ensures { result ≡ kind_span kind }
{
    match kind {
        EntryKind::File(len) => ForkSpan { start: 0, len },
        EntryKind::Folder => NO_SPAN,
        EntryKind::Other => NO_SPAN,
    }
}

/// All bytes of a file.
fn data_span(own: Option<Look>) -> ForkSpan
    ensures { result ≡ data_span own }
{
    match own {
        Some(look) => kind_span(look.kind),
        None => NO_SPAN,
    }
}

fn double_span(double: Option<AppleDoubleFile>) -> ForkSpan
    ensures { result ≡ double_span double }
{
    match double {
        Some(double) => span_of(double.resource_fork),
        None => NO_SPAN,
    }
}

/// The resource fork in the file that belongs to an item by its name; a folder has none.
fn resource_span(own: Option<Look>, double: Option<AppleDoubleFile>) -> ForkSpan
    ensures { result ≡ resource_span own double }
{
    if is_folder(own) {
        NO_SPAN
    } else {
        double_span(double)
    }
}

/// Whether neither fork is larger than a fork may be.
fn fit(data_fork: ForkSpan, resource_fork: ForkSpan) -> bool
    ensures { result ≡ fit data_fork resource_fork }
{
    !is_too_large(data_fork.len) && !is_too_large(resource_fork.len)
}

/// When an item was last changed.
fn modified_date(own: Option<Look>, double: Option<Look>) -> u32
    ensures { result ≡ modified_date own double }
{
    match own {
        Some(own) => host_date(own.modified),
        None => match double {
            Some(double) => host_date(double.modified),
            None => 0,
        },
    }
}

/// What was found of one item.
fn findings(is_item: bool, fits: bool, is_double: bool, is_named: bool) -> Findings
    ensures { result ≡ findings is_item fits is_double is_named }
{
    Findings {
        is_item,
        fits,
        is_double,
        is_named,
        is_first: true,
        is_accepted: true,
    }
}

/// The plan of an item, given the file that belongs to it by its name.
pub(crate) fn plain_plan(
    how: PutOptions,
    told: Option<ToldFacts>,
    own: Option<Look>,
    double: Option<Look>,
    name: &str,
    found: Option<AppleDoubleFile>,
) -> ItemPlan
    ensures { result ≡ plain_plan how told own double name.now found }
{
    let name = read_put_name(name, how.rename);
    let data_fork = data_span(own);
    let resource_fork = resource_span(own, found);
    ItemPlan {
        own,
        double,
        is_macbinary: false,
        name,
        facts: double_facts(told, found, modified_date(own, double)),
        data_fork,
        resource_fork,
        found: findings(
            is_item(own),
            fit(data_fork, resource_fork),
            double.is_none() || found.is_some(),
            name.is_some(),
        ),
    }
}

/// The plan of a file by its own MacBinary header.
pub(crate) fn macbinary_plan(
    how: PutOptions,
    told: Option<ToldFacts>,
    own: Option<Look>,
    file: MacBinaryFile,
) -> ItemPlan
    ensures { result ≡ macbinary_plan how told own file }
{
    let name = put_name(file.name, how.rename);
    let data_fork = span_of(file.data_fork);
    let resource_fork = span_of(file.resource_fork);
    ItemPlan {
        own,
        double: None,
        is_macbinary: true,
        name,
        facts: macbinary_facts(told, file),
        data_fork,
        resource_fork,
        found: findings(true, fit(data_fork, resource_fork), true, name.is_some()),
    }
}
