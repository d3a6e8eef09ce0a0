//! Whether a file consists of raw CD sectors, in whose user data volumes may lie.
ghost use Rattle.std.specs.Prelude.{◌≡◌, IfOk, OnErr};
ghost use Rattle.hfs_source.specs.Raw.{layout_of};
ghost use Rattle.hfs_source.specs.Images.{FailsWhere, OfEach};

use crate::ranges::Layout;
use crate::{PlacedBytes, is_raw};
use std::io;

/// How the bytes of a file are laid out: as raw sectors if their number is a multiple of 2,352 and the first sector has user data.
/// If it is no such multiple, nothing is read. Error: the read failed.
#[tactic(auto, using(crate::proofs::RawLemmas::plain_layout, crate::proofs::RawLemmas::raw_layout))]
pub fn layout_in<S: PlacedBytes>(source: &mut S) -> io::Result<Layout>
    ensures layout { IfOk result (λ layout. OfEach (S.Holds source.new)
        (λ file. layout ≡ layout_of file)) }
    ensures held { OfEach (S.Holds source.new) (S.Holds source.old) }
    ensures fails { OnErr result (S.Fails source.old 0 24) }
    ensures later { FailsWhere (S.Fails source.new) (S.Fails source.old) }
{
    if is_raw(source)? {
        return Ok(Layout::Raw);
    }
    Ok(Layout::Plain)
}
