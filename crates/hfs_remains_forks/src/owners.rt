//! How many owners each allocation block has, in a byte for each.
ghost use Rattle.std.specs.Prelude.{◌≡◌, ◌+◌, ◌<◌, [], ◌∷◌, length, min, IfOk, IfSome};
ghost use Rattle.std.specs.List.{list_any};
ghost use Rattle.hfs_remains_forks.specs.Owners as spec;

use std::alloc::{AllocError, Global};

/// No owners, for `blocks` blocks.
pub(crate) fn no_owners(alloc: Global, blocks: u16) -> Result<Vec<u8>, AllocError>
    ensures none { IfOk result (λ counts. spec.CountOwners [] counts.items) }
    ensures all { IfOk result (λ counts. length counts.items ≡ blocks) }
{
    vec![in alloc; 0u8; usize::from(blocks)]
}

/// One more, but at most two.
fn one_more(count: u8) -> u8
    ensures { result ≡ min 2 (count + 1) }
{
    if count < 2 { count + 1 } else { 2 }
}

/// One more owner of a block, if it exists.
fn add_owner(counts: &mut [u8], place: Option<u16>)
    requires { IfSome place (λ b. b < length counts.old) }
    ensures { spec.AddsOwners (place ∷ []) counts.old counts.new }
{
    if let Some(b) = place {
        let i = usize::from(b);
        counts[i] = one_more(counts[i]);
    }
}

/// One more owner of each of these blocks that exists.
pub(crate) fn add_owners(counts: &mut [u8], places: &[Option<u16>])
    requires { spec.AreWithin (length counts.old) places.now }
    ensures { spec.AddsOwners places.now counts.old counts.new }
{
    for place in places {
        add_owner(counts, *place);
    }
}

/// Whether a block exists and has two or more owners.
fn is_shared(counts: &[u8], place: Option<u16>) -> bool
    requires { IfSome place (λ b. b < length counts.now) }
    ensures { result ≡ spec.is_counted_shared counts.now place }
{
    match place {
        Some(b) => counts[usize::from(b)] >= 2,
        None => false,
    }
}

/// Whether one of these blocks exists and has two or more owners.
pub(crate) fn has_shared(counts: &[u8], places: &[Option<u16>]) -> bool
    requires { spec.AreWithin (length counts.now) places.now }
    ensures { result ≡ list_any (spec.is_counted_shared counts.now) places.now }
{
    for place in places {
        if is_shared(counts, *place) {
            return true;
        }
    }
    false
}
