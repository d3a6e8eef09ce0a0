//! What is found of an image whose blocks are known by what was read of them.
ghost use Rattle.std.specs.Prelude.{◌≡◌, ◌≤◌, IfErr, IfOk, IfSome};
ghost use Rattle.hfs_remains_forks.specs.Looks.{AreFindsOfEach};
ghost use Rattle.hfs_image.specs.Failing.{SomeFailsWithin};
ghost use Rattle.hfs_source.specs.Images.{FailsWhere, OfEach};
ghost use Rattle.hfs_source.specs.declared.fetching.SparseFault.TheVariants.{ReadFailed};

use crate::finds::Finds;
use crate::looking::{Unlooked, finds_of};
use hfs_image::{NotedBlocks, PickedFailures, noted_fault};
use hfs_source::{PlacedBlocks, SeenBlocks};
use std::alloc::Global;
use std::marker::Brand;

/// What was found of an image, and what its blocks are read from.
#[derive(Drop)]
pub(crate) struct SeenFinds<S: PlacedBlocks> {
    pub(crate) source: SeenBlocks<S>,
    /// What was found; None if the image has no directory.
    pub(crate) found: Option<Finds>,
}

/// What is found of an image of `len` bytes as by [`find_seen`], with the reads that may fail already picked.
fn find_picked<K: PickedFailures, S: PlacedBlocks + Drop>(
    alloc: Global,
    source: SeenBlocks<S>,
    len: u64,
) -> Result<SeenFinds<S>, Unlooked<S>>
    requires fails { FailsWhere (S.Fails source.blocks) K.fails }
    requires len { len ≡ K.len }
    ensures found { IfOk result (λ told. AreFindsOfEach (S.Holds told.source.blocks) len told.found) }
    ensures few { IfOk result (λ told. IfSome told.found (λ _. len ≤ 2147483648)) }
    ensures narrows { IfOk result (λ told. OfEach (S.Holds told.source.blocks)
        (S.Holds source.blocks)) }
    ensures later { IfOk result (λ told. FailsWhere (S.Fails told.source.blocks) K.fails) }
    ensures failed { IfErr result (λ back. back.fault ≡ ReadFailed
        → SomeFailsWithin len K.fails) }
    ensures back { IfErr result (λ back. OfEach (S.Holds back.source.blocks) (S.Holds source.blocks)) }
    ensures back_later { IfErr result (λ back. FailsWhere (S.Fails back.source.blocks) K.fails) }
{
    let mut noted = NotedBlocks::<S, K>::new(source, len);
    let looked = finds_of(alloc, &mut noted, len);
    let (source, failed) = noted.into_source();
    match looked {
        Ok(found) => Ok(SeenFinds { source, found }),
        Err(why) => {
            let fault = noted_fault(why, failed);
            Err(Unlooked { fault, source })
        }
    }
}

/// What is found of an image of `len` bytes, as by [`finds_of`]. Errors, with the source handed back: a read failed, memory was
/// refused.
pub(crate) fn find_seen<S: PlacedBlocks + Drop>(
    alloc: Global,
    source: SeenBlocks<S>,
    len: u64,
) -> Result<SeenFinds<S>, Unlooked<S>>
    ensures found { IfOk result (λ told. AreFindsOfEach (S.Holds told.source.blocks) len told.found) }
    ensures few { IfOk result (λ told. IfSome told.found (λ _. len ≤ 2147483648)) }
    ensures narrows { IfOk result (λ told. OfEach (S.Holds told.source.blocks)
        (S.Holds source.blocks)) }
    ensures later { IfOk result (λ told. FailsWhere (S.Fails told.source.blocks)
        (S.Fails source.blocks)) }
    ensures failed { IfErr result (λ back. back.fault ≡ ReadFailed
        → SomeFailsWithin len (S.Fails source.blocks)) }
    ensures back { IfErr result (λ back. OfEach (S.Holds back.source.blocks) (S.Holds source.blocks)) }
    ensures back_later { IfErr result (λ back. FailsWhere (S.Fails back.source.blocks)
        (S.Fails source.blocks)) }
{
    find_picked::<Brand, S>(alloc, source, len)
}
