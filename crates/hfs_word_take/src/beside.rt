//! The digest of an image, made at the same time as the payload if the image was opened a second time.
ghost use Rattle.std.specs.Prelude.{◌≡◌, ◌++◌, ⊤, ℕ, List, Option, IfErr, IfOk, OnErr, OnOk, length};
ghost use Rattle.hfs_bag.specs.Bags.{payload};
ghost use Rattle.hfs_bag.specs.Faults.{IsPayloadFault};
ghost use Rattle.hfs_bag.specs.Payloads.{IsPayloadOf};
ghost use Rattle.hfs_bag.specs.Sources.{KeepsItems};
ghost use Rattle.hfs_bag.specs.Entries.{IsBeginning};
ghost use Rattle.hfs_source.specs.Images.{HasLength, OfEach};
ghost use Rattle.hfs_source.specs.Seen.{EachKnown};
ghost use Rattle.hfs_word_take.specs.Bags.{IsDigestBeside, digest_told};
ghost use Rattle.hfs_word_take.specs.Digests.{HoldsBeside, IsDigestOf};
ghost use Rattle.hfs_word_take.specs.Planned.{IsPlanned};

use crate::blocks::ImageBlocks;
use crate::digest::image_digest;
use hfs_bag::{BagFault, BagSource, GivenPayload, Shelf, SourceFault, give_payload};
use hfs_image::SeenImage;
use hfs_source::{PlacedBlocks, SeenBlocks};
use std::alloc::Global;
use std::thread::{Threads, join_mut};

/// What the digest is to be made of at the same time as the payload, if it is asked for, and whether it is to be made first, from
/// the image itself.
#[tactic(auto, using(crate::proofs::DigestLemmas::told_as_asked))]
pub(crate) fn plan_digest<S: PlacedBlocks + Drop>(
    beside: Option<SeenBlocks<S>>,
    is_digested: bool,
) -> (Option<SeenBlocks<S>>, bool)
    ensures { (told : Option (List ℕ)) → (image : List ℕ) → told ≡ digest_told result.1 image
        → IsPlanned result.0 is_digested told image }
{
    if !is_digested {
        return (None, false);
    }
    match beside {
        Some(source) => (Some(source), false),
        None => (None, true),
    }
}

/// The digest of the `len` bytes of an image, if it is to be made first, from the image itself.
#[tactic(auto, using(crate::proofs::DigestLemmas::told_each))]
pub(crate) fn digest_at_once<S: PlacedBlocks>(
    alloc: Global,
    image: &mut SeenImage<S>,
    len: u64,
    is_made: bool,
) -> Result<Option<[u8; 32]>, SourceFault>
    requires { OfEach (S.Holds image.old) (HasLength len) }
    ensures told { IfOk result (λ told. OfEach (S.Holds image.new)
        (λ bytes. told ≡ digest_told is_made bytes)) }
    ensures narrows { OfEach (S.Holds image.new) (S.Holds image.old) }
{
    if !is_made {
        return Ok(None);
    }
    let digest = image_digest(alloc, image, len)?;
    Ok(Some(digest))
}

/// Gives the payload of a bag, and makes the digest of the `len` bytes of an image: in a thread of its own or, if none can be
/// started, after the payload. Faults: those of the payload, then those of the digest.
fn give_beside<R: Threads, D: ImageBlocks + Send, T: Shelf, B: BagSource>(
    threads: &R,
    alloc: Global,
    shelf: &mut T,
    items: &mut B,
    image: &mut D,
    len: u64,
) -> Result<(GivenPayload, [u8; 32]), BagFault>
    ensures whole { OnOk result (OfEach (B.Holds items.new)
        (λ bytes. T.given shelf.new ≡ T.given shelf.old ++ payload (B.state items.old bytes).all)) }
    ensures part { OnErr result (OfEach (B.Holds items.new)
        (λ bytes. IsBeginning (T.given shelf.new) (T.given shelf.old ++ payload (B.state items.old bytes).all))) }
    ensures told { IfOk result (λ made. OfEach (B.Holds items.new)
        (λ bytes. IsPayloadOf made.0 (B.state items.old bytes).all)) }
    ensures kept { OnOk result (OfEach (B.Holds items.new)
        (λ bytes. KeepsItems (B.state items.old bytes) (B.state items.new bytes))) }
    ensures digest { IfOk result (λ made. EachKnown (D.Holds image.new)
        (λ known. IsDigestOf known len made.1)) }
    ensures fault { IfErr result (IsPayloadFault (λ _. ⊤) (T.Fails (T.place shelf.old))
        (B.Holds items.new) (B.state items.old)) }
    ensures place { T.place shelf.new ≡ T.place shelf.old }
    ensures narrows { OfEach (B.Holds items.new) (B.Holds items.old) }
{
    let (digest, given) = join_mut(
        threads,
        &mut || image_digest(alloc, image, len),
        &mut || give_payload(alloc, shelf, items),
    );
    let given = given?;
    let digest = digest?;
    Ok((given, digest))
}

/// What is known of the digest of an image before the payload is given.
#[derive(Clone, Copy)]
pub(crate) struct DigestPlan {
    /// The digest, if it was made first.
    pub(crate) told: Option<[u8; 32]>,
    /// How many bytes the image has.
    pub(crate) len: u64,
    /// Whether the digest is asked for.
    pub(crate) is_digested: bool,
}

/// Gives the payload of a bag, and also returns the image's digest: the one that was made first, or the one that is made
/// meanwhile from the second opening. Faults: those of the payload, then those of the digest.
#[tactic(auto, using(crate::proofs::DigestLemmas::planned_made))]
pub(crate) fn give_first<R: Threads, S: PlacedBlocks + Send, T: Shelf, B: BagSource>(
    threads: &R,
    alloc: Global,
    shelf: &mut T,
    items: &mut B,
    beside: &mut Option<SeenBlocks<S>>,
    plan: &DigestPlan,
) -> Result<(GivenPayload, Option<[u8; 32]>), BagFault>
    requires { OfEach (B.Holds items.old)
        (IsPlanned beside.old plan.now.is_digested plan.now.told) }
    ensures whole { OnOk result (OfEach (B.Holds items.new)
        (λ bytes. T.given shelf.new ≡ T.given shelf.old ++ payload (B.state items.old bytes).all)) }
    ensures part { OnErr result (OfEach (B.Holds items.new)
        (λ bytes. IsBeginning (T.given shelf.new) (T.given shelf.old ++ payload (B.state items.old bytes).all))) }
    ensures told { IfOk result (λ made. OfEach (B.Holds items.new)
        (λ bytes. IsPayloadOf made.0 (B.state items.old bytes).all)) }
    ensures kept { OnOk result (OfEach (B.Holds items.new)
        (λ bytes. KeepsItems (B.state items.old bytes) (B.state items.new bytes))) }
    ensures digest { IfOk result (λ made. OfEach (B.Holds items.new)
        (λ bytes. length bytes ≡ plan.now.len
        → IsDigestBeside (HoldsBeside S.Holds beside.new) plan.now.is_digested bytes made.1)) }
    ensures fault { IfErr result (IsPayloadFault (λ _. ⊤) (T.Fails (T.place shelf.old))
        (B.Holds items.new) (B.state items.old)) }
    ensures place { T.place shelf.new ≡ T.place shelf.old }
    ensures narrows { OfEach (B.Holds items.new) (B.Holds items.old) }
{
    match beside {
        None => {
            let given = give_payload(alloc, shelf, items)?;
            Ok((given, plan.told))
        }
        Some(source) => {
            let len = plan.len;
            let made = give_beside(threads, alloc, shelf, items, source, len)?;
            Ok((made.0, Some(made.1)))
        }
    }
}
