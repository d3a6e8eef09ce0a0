//! A fork of an item, as it is taken.
ghost use Rattle.std.specs.Prelude.{◌≡◌, Err, IfOk, OnErr, OnOk};
ghost use Rattle.hfs_source.specs.Images.{OfEach};
ghost use Rattle.hfs_rescue_items.specs.Bytes.{taken_bytes};
ghost use Rattle.hfs_rescue_items.specs.Writing.{WritesFrontOf, WritesOf};
ghost use Rattle.hfs_rescue_items.specs.Forks.{whole_fork};

use crate::{Found, write_fork};
use hfs_source::{BlockSource, CopyFault};
use hfs_space::ForkKind;
use std::alloc::Global;
use std::io::Write;

/// Writes the bytes that are taken of a fork of item `i`, counted from 0, and returns whether it is whole. Zeros are in place of
/// missing blocks, and a fork that is left out has no bytes. None for a folder, which has no forks; then nothing is written.
/// Errors: as for [`write_fork`].
#[tactic(auto, using(crate::proofs::WrittenForkLemmas::none_whole, crate::proofs::WrittenForkLemmas::found_whole, crate::proofs::WrittenForkLemmas::none_written, crate::proofs::WrittenForkLemmas::fork_written, crate::proofs::WrittenForkLemmas::fork_front, crate::proofs::WrittenForkLemmas::nothing_front))]
pub fn write_item_fork<S: BlockSource, W: Write>(
    alloc: Global,
    source: &mut S,
    found: &Found<'_>,
    i: usize,
    kind: ForkKind,
    writer: &mut W,
) -> Result<Option<bool>, CopyFault>
    ensures whole { IfOk result (λ whole. whole ≡ whole_fork found.now kind i) }
    ensures written { OnOk result (WritesOf (S.Holds source.new) (W.contents writer.old) (W.contents writer.new)
        (λ image. taken_bytes image found.now kind i)) }
    ensures part { OnErr result (WritesFrontOf (S.Holds source.new) (W.contents writer.old) (W.contents writer.new)
        (λ image. taken_bytes image found.now kind i)) }
    ensures none { result ≡ Err CopyFault.ReadFailed → writer.new ≡ writer.old }
    ensures memory { result ≡ Err CopyFault.Memory → writer.new ≡ writer.old }
    ensures narrows { OfEach (S.Holds source.new) (S.Holds source.old) }
{
    let Ok(part) = found.fork(alloc, i, kind) else {
        return Err(CopyFault::Memory);
    };
    let Some(fork) = part else {
        return Ok(None);
    };
    write_fork(alloc, source, found.mdb, &fork, writer)?;
    Ok(Some(fork.verdict.is_whole()))
}
