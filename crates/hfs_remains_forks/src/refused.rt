//! A refused image, and what is found of it.
ghost use Rattle.std.proofs.Props.{props};
ghost use Rattle.std.specs.Prelude.{◌≤◌, IfSome, Some};
ghost use Rattle.hfs_remains_forks.specs.Looks.{AreFindsOfEach, HasFault};
ghost use Rattle.hfs_source.specs.Images.{HasLength, OfEach};

use crate::finds::Finds;
use hfs_check::MountFault;
use hfs_source::{PlacedBlocks, SeenBlocks};

/// An image that is refused: what its blocks are read from, why it is refused, and what is found of it. All this holds for every
/// image consistent with the bytes read.
#[derive(Drop)]
pub struct RefusedImage<S: PlacedBlocks> {
    /// What its blocks are read from.
    pub source: SeenBlocks<S>,
    /// How many bytes it has.
    pub len: u64,
    /// Its first fault, in the order of docs/CHECKS.md.
    pub why: MountFault,
    /// What is found of it; None if it has no directory.
    pub found: Option<Finds>,
    ghost refused: { OfEach (S.Holds source.blocks) (HasFault why) } by { Prim.hlevel props },
    ghost long: { OfEach (S.Holds source.blocks) (HasLength len) } by { Prim.hlevel props },
    ghost found_is: { IfSome found (λ finds. AreFindsOfEach (S.Holds source.blocks) len (Some finds)) } by { Prim.hlevel props },
    ghost few: { IfSome found (λ _. len ≤ 2147483648) } by { Prim.hlevel props },
}
