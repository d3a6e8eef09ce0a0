//! The name that an item gets.
ghost use Rattle.std.specs.Prelude.{◌≡◌, chars};
ghost use Rattle.hfs_encodings.specs.Names.{given_name};
ghost use Rattle.hfs_encodings.specs.Spelled.{host_letters};
ghost use Rattle.hfs_put_plan.specs.Names.{put_name};

use hfs_encodings::{GivenName, host_item_name};
use hfs_fields::Name;

/// The name that an item gets from one that was given: that one, if it is an item name; if names may be changed, the one in its
/// place; otherwise none.
pub fn put_name(given: GivenName, rename: bool) -> Option<Name>
    ensures { result ≡ put_name given rename }
{
    match given {
        GivenName::Item(name) => Some(name),
        GivenName::Other(name) => { if rename { Some(name) } else { None } }
    }
}

/// The name that an item gets from its name in a host's folder.
pub fn read_put_name(text: &str, rename: bool) -> Option<Name>
    ensures { result ≡ put_name (given_name (host_letters (chars text.now))) rename }
{
    put_name(host_item_name(text), rename)
}
