//! The name of a new volume.
ghost use Rattle.std.specs.Prelude.{◌≡◌, MatchResult};
ghost use Rattle.hfs_format.specs.Names.{IsBadName, IsNameOf, item_letters, name_in};

use crate::make_fault::MakeFault;
use crate::volume_name::VolumeName;
use hfs_encodings::{GivenName, host_item_name, plain_item_name};
use hfs_fields::Name;

/// What the name of a new volume is read from.
#[derive(Clone, Copy)]
pub enum NameSource<'a> {
    /// The name, as it is typed.
    Typed(&'a str),
    /// The plain text of the name of a bag's disk.
    PlainText(&'a str),
    /// The last part of a folder's path.
    FolderName(&'a str),
    /// Nothing that has a name.
    Nameless,
}

/// The name that was given, if it is an item name.
fn item_name(given: GivenName) -> Option<Name>
    ensures { result ≡ item_letters given }
{
    match given {
        GivenName::Item(name) => Some(name),
        GivenName::Other(_) => None,
    }
}

/// The item name that is read from this source.
fn name_in(source: NameSource<'_>) -> Option<Name>
    ensures { result ≡ name_in source.entry }
{
    match source {
        NameSource::Typed(text) => Name::new(text.as_bytes()),
        NameSource::PlainText(text) => item_name(plain_item_name(text)),
        NameSource::FolderName(text) => item_name(host_item_name(text)),
        NameSource::Nameless => None,
    }
}

/// The name of a volume. Error: `BadName` exactly when there is none, or it isn't an item name of at most 27 characters; it is
/// never cut.
pub fn read_name(source: NameSource<'_>) -> Result<VolumeName, MakeFault>
    ensures { MatchResult result (IsNameOf source.entry) (IsBadName source.entry) }
{
    let Some(name) = name_in(source) else {
        return Err(MakeFault::BadName);
    };
    if name.bytes().len() > 27 {
        return Err(MakeFault::BadName);
    }
    Ok(VolumeName { name })
}
