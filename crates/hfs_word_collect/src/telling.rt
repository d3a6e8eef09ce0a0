//! What the rows of items say about what remains of a refused volume.
ghost use Rattle.std.specs.Prelude.{◌≡◌, ◌&&◌, Some, true, IfErr, IfOk};
ghost use Rattle.hfs_bag.specs.Failing.{SomeFail};
ghost use Rattle.hfs_remains_forks.specs.Verdicts.{shares_at};
ghost use Rattle.hfs_database.specs.declared.value.RowValue.TheVariants.{Text};
ghost use Rattle.hfs_remains_places.specs.Verdicts.{verdict_text};
ghost use Rattle.hfs_remains_forks.specs.ForkBytes.{fork_bytes};
ghost use Rattle.hfs_word_collect.specs.Values.{digest_value, where_taken};
ghost use Rattle.hfs_word_collect.specs.Remains.{said_digest, told_by, told_fork, told_values};
ghost use Rattle.hfs_word_collect.specs.Counts.{remains_files};
ghost use Rattle.hfs_word_collect.specs.Refused.{image_of};
ghost use Rattle.hfs_source.specs.Images.{FailsWhere, HasLength, OfEach};
ghost use Rattle.hfs_word_collect.specs.Faults.{IsFaultOf};

use crate::counts::FileCounts;
use crate::digests::digest_text;
use crate::fault::CollectFault;
use crate::remains::{ForkTold, remains_values};
use core::mem::replace_with;
use hfs_bag::DigestWriter;
use hfs_database::RowValue;
use hfs_fields::Mdb;
use hfs_image::{NotedBlocks, PickedFailures};
use hfs_model::{Info, OwnedBytes};
use hfs_remains_forks::FoundFork;
use hfs_remains_places::{Verdict, push_verdict};
use hfs_rescue_items::{Found, names_at, write_fork};
use hfs_source::{CopyFault, PlacedBlocks, SeenBlocks};
use hfs_space::ForkKind;
use std::alloc::{AllocError, Global};
use std::marker::Brand;

/// What is known of an item that remains.
#[derive(Drop)]
pub(crate) struct ToldItem {
    /// The values of its row.
    pub(crate) values: Vec<RowValue>,
    /// Whether it is a file, and whether it is whole.
    pub(crate) counts: FileCounts,
}

/// Whether both forks of an item are whole.
fn are_whole(data_fork: &ForkTold, resource_fork: &ForkTold) -> bool
    ensures { result ≡ (data_fork.now.is_whole && resource_fork.now.is_whole) }
{
    data_fork.is_whole && resource_fork.is_whole
}

/// What a fault of taking a digest means, given whether a read failed: if none did, memory was refused.
fn digest_fault(fault: CopyFault, failed: bool) -> CollectFault
    ensures { IsFaultOf (failed ≡ true) result }
{
    match fault {
        CopyFault::ReadFailed | CopyFault::BrokenOff => {
            if failed {
                CollectFault::ReadFailed
            } else {
                CollectFault::NoMemory
            }
        }
        CopyFault::Memory => CollectFault::NoMemory,
        CopyFault::WriteFailed => CollectFault::CannotWrite,
    }
}

/// The source, and the digest of the bytes of a fork, where the reads that may fail are picked.
fn digest_noted<K: PickedFailures, S: PlacedBlocks + Drop>(
    source: SeenBlocks<S>,
    alloc: Global,
    len: u64,
    mdb: &Mdb,
    fork: &FoundFork,
) -> (SeenBlocks<S>, Result<RowValue, CollectFault>)
    requires fails { FailsWhere (S.Fails source.blocks) K.fails }
    requires long { OfEach (S.Holds source.blocks) (HasLength len) }
    requires len { len ≡ K.len }
    ensures digest { IfOk result.1 (λ value. OfEach (S.Holds result.0.blocks) (λ image. value
        ≡ digest_value (fork_bytes image mdb.now fork.now.length fork.now.places.items))) }
    ensures narrows { OfEach (S.Holds result.0.blocks) (S.Holds source.blocks) }
    ensures failed { IfErr result.1 (IsFaultOf (SomeFail (S.Holds result.0.blocks) K.fails)) }
    ensures later { FailsWhere (S.Fails result.0.blocks) K.fails }
{
    let mut noted = NotedBlocks::<S, K>::new(source, len);
    let mut digest = DigestWriter::new();
    let told = write_fork(alloc, &mut noted, mdb, fork, &mut digest);
    let (source, failed) = noted.into_source();
    match told {
        Ok(()) => match digest_text(alloc, &digest.finish()) {
            Ok(value) => (source, Ok(value)),
            Err(_) => (source, Err(CollectFault::NoMemory)),
        },
        Err(fault) => (source, Err(digest_fault(fault, failed))),
    }
}

/// The source, and the digest of the bytes of a fork.
fn with_digest<S: PlacedBlocks + Drop>(
    source: SeenBlocks<S>,
    alloc: Global,
    mdb: &Mdb,
    fork: &FoundFork,
) -> (SeenBlocks<S>, Result<RowValue, CollectFault>)
    ensures digest { IfOk result.1 (λ value. OfEach (S.Holds result.0.blocks) (λ image. value
        ≡ digest_value (fork_bytes image mdb.now fork.now.length fork.now.places.items))) }
    ensures narrows { OfEach (S.Holds result.0.blocks) (S.Holds source.blocks) }
    ensures failed { IfErr result.1 (IsFaultOf (SomeFail (S.Holds result.0.blocks)
        (S.Fails source.blocks))) }
    ensures later { FailsWhere (S.Fails result.0.blocks) (S.Fails source.blocks) }
{
    let len = source.blocks.len();
    digest_noted::<Brand, S>(source, alloc, len, mdb, fork)
}

/// The digest of the bytes of a fork, where it is to be taken.
fn taken_digest<S: PlacedBlocks + Drop>(
    alloc: Global,
    source: &mut SeenBlocks<S>,
    mdb: &Mdb,
    fork: &FoundFork,
    taken: bool,
) -> Result<RowValue, CollectFault>
    ensures digest { IfOk result (λ value. OfEach (S.Holds source.new.blocks) (λ image. value
        ≡ where_taken taken (digest_value (fork_bytes image mdb.now
        fork.now.length fork.now.places.items)))) }
    ensures narrows { OfEach (S.Holds source.new.blocks) (S.Holds source.old.blocks) }
    ensures failed { IfErr result (IsFaultOf (SomeFail (S.Holds source.new.blocks)
        (S.Fails source.old.blocks))) }
    ensures later { FailsWhere (S.Fails source.new.blocks) (S.Fails source.old.blocks) }
{
    if !taken {
        return Ok(RowValue::Empty);
    }
    let mdb = *mdb;
    replace_with(
        source,
        fork,
        |source, fork|
            ensures digest { IfOk result.1 (λ value. OfEach (S.Holds result.0.blocks) (λ image. value
                ≡ digest_value (fork_bytes image mdb fork.now.length fork.now.places.items))) }
            ensures narrows { OfEach (S.Holds result.0.blocks) (S.Holds source.blocks) }
            ensures failed { IfErr result.1 (IsFaultOf (SomeFail (S.Holds result.0.blocks)
                (S.Fails source.blocks))) }
            ensures later { FailsWhere (S.Fails result.0.blocks) (S.Fails source.blocks) }
        { with_digest(source, alloc, &mdb, fork) },
    )
}

/// The digest of the bytes of a fork, where it is to be taken and the fork isn't left.
fn digest<S: PlacedBlocks + Drop>(
    alloc: Global,
    source: &mut SeenBlocks<S>,
    mdb: &Mdb,
    fork: &FoundFork,
    taken: bool,
) -> Result<RowValue, CollectFault>
    ensures digest { IfOk result (λ value. OfEach (S.Holds source.new.blocks) (λ image. value
        ≡ said_digest taken fork.now.verdict (fork_bytes image mdb.now
        fork.now.length fork.now.places.items))) }
    ensures narrows { OfEach (S.Holds source.new.blocks) (S.Holds source.old.blocks) }
    ensures failed { IfErr result (IsFaultOf (SomeFail (S.Holds source.new.blocks)
        (S.Fails source.old.blocks))) }
    ensures later { FailsWhere (S.Fails source.new.blocks) (S.Fails source.old.blocks) }
{
    match &fork.verdict {
        Verdict::Left => Ok(RowValue::Empty),
        Verdict::Taken(_) => taken_digest(alloc, source, mdb, fork, taken),
    }
}

/// What a row tells of a fork that was found.
#[tactic(auto, using(crate::proofs::FailingReads::read_handed_on, crate::proofs::FailingReads::fault_by_memory))]
fn told<S: PlacedBlocks + Drop>(
    alloc: Global,
    source: &mut SeenBlocks<S>,
    mdb: &Mdb,
    fork: &FoundFork,
    taken: bool,
) -> Result<ForkTold, CollectFault>
    ensures told { IfOk result (λ told. OfEach (S.Holds source.new.blocks) (λ image. told
        ≡ told_by taken fork.now.verdict (fork_bytes image mdb.now
        fork.now.length fork.now.places.items))) }
    ensures narrows { OfEach (S.Holds source.new.blocks) (S.Holds source.old.blocks) }
    ensures failed { IfErr result (IsFaultOf (SomeFail (S.Holds source.new.blocks)
        (S.Fails source.old.blocks))) }
    ensures later { FailsWhere (S.Fails source.new.blocks) (S.Fails source.old.blocks) }
{
    let digest = digest(alloc, source, mdb, fork, taken)?;
    let verdict = verdict_value(alloc, &fork.verdict)?;
    Ok(ForkTold {
        digest,
        verdict,
        is_whole: fork.verdict.is_whole(),
    })
}

/// What a row tells of a fork of an item: nothing of a folder.
#[tactic(auto, using(crate::proofs::FailingReads::read_handed_on, crate::proofs::FailingReads::fault_by_memory))]
fn told_fork<S: PlacedBlocks + Drop>(
    alloc: Global,
    source: &mut SeenBlocks<S>,
    found: &Found<'_>,
    i: usize,
    kind: ForkKind,
    taken: bool,
) -> Result<ForkTold, CollectFault>
    ensures told { IfOk result (λ told. OfEach (S.Holds source.new.blocks) (λ image. told
        ≡ told_fork taken (image_of found.now image) kind (shares_at found.now.salvage.now i))) }
    ensures narrows { OfEach (S.Holds source.new.blocks) (S.Holds source.old.blocks) }
    ensures failed { IfErr result (IsFaultOf (SomeFail (S.Holds source.new.blocks)
        (S.Fails source.old.blocks))) }
    ensures later { FailsWhere (S.Fails source.new.blocks) (S.Fails source.old.blocks) }
{
    match found.fork(alloc, i, kind)? {
        Some(fork) => {
            let told = told(alloc, source, found.mdb, &fork, taken)?;
            Ok(told)
        }
        None => Ok(ForkTold {
            digest: RowValue::Empty,
            verdict: RowValue::Empty,
            is_whole: true,
        }),
    }
}

/// What is told of an item, of which its record tells this.
#[tactic(auto, using(crate::proofs::RemainsGoing::values_told, crate::proofs::Counting::item_counted, crate::proofs::FailingReads::read_handed_on, crate::proofs::FailingReads::fault_by_memory))]
pub(crate) fn told_item<S: PlacedBlocks + Drop>(
    alloc: Global,
    source: &mut SeenBlocks<S>,
    found: &Found<'_>,
    i: usize,
    info: &Info,
    taken: bool,
) -> Result<ToldItem, CollectFault>
    ensures values { IfOk result (λ item. OfEach (S.Holds source.new.blocks) (λ image.
        item.values.items ≡ told_values taken (image_of found.now image) i info.now)) }
    ensures counts { IfOk result (λ item. OfEach (S.Holds source.new.blocks) (λ image.
        item.counts ≡ remains_files (image_of found.now image) i (Some info.now))) }
    ensures narrows { OfEach (S.Holds source.new.blocks) (S.Holds source.old.blocks) }
    ensures failed { IfErr result (IsFaultOf (SomeFail (S.Holds source.new.blocks)
        (S.Fails source.old.blocks))) }
    ensures later { FailsWhere (S.Fails source.new.blocks) (S.Fails source.old.blocks) }
{
    let path = found.path(alloc, i)?;
    let names = names_at(alloc, found.places, found.mdb, i, path.as_str())?;
    let data_fork = told_fork(alloc, source, found, i, ForkKind::Data, taken)?;
    let resource_fork = told_fork(alloc, source, found, i, ForkKind::Resource, taken)?;
    let counts = FileCounts::of(info.kind, are_whole(&data_fork, &resource_fork));
    let values = remains_values(
        alloc,
        i as u64,
        &names,
        path,
        info,
        data_fork,
        resource_fork,
    )?;
    Ok(ToldItem { values, counts })
}

/// The verdict on a fork, as a value.
fn verdict_value(alloc: Global, verdict: &Verdict) -> Result<RowValue, AllocError>
    ensures { IfOk result (λ value. value ≡ Text (verdict_text verdict.now)) }
{
    let mut text = String::new(alloc);
    push_verdict(alloc, &mut text, verdict)?;
    Ok(RowValue::Text(OwnedBytes::new(text.into_bytes())))
}
