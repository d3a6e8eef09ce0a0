//! Where volumes lie in the bytes of an image.
ghost use Rattle.std.specs.Prelude.{◌≡◌, ◌≤◌, ℕ, List, IfErr, IfOk, length};
ghost use Rattle.hfs_source.specs.Found.{found_by};
ghost use Rattle.hfs_source.specs.Images.{FailsWhere, OfEach};
ghost use Rattle.hfs_bag.specs.Failing.{SomeFail};
ghost use Rattle.hfs_bag.specs.Heads.{IsHeadOf};

use crate::head::{HeadBytes, head_of, second_header};
use hfs_source::{FoundRange, Layout, PlacedBytes, SparseFault, find_in_layout};
use std::alloc::Global;

/// The ranges in an image of `len` bytes that begins with these bytes. Fails only when out of memory: no read leads past the
/// bytes, since what says where volumes lie is within them.
fn find_by_head(
    alloc: Global,
    head: &[u8],
    len: u64,
    layout: Layout,
) -> Result<Vec<FoundRange>, SparseFault>
    requires { length head.now ≤ len }
    ensures found { IfOk result (λ found. (file : List ℕ) → length file ≡ len
        → IsHeadOf head.now file → found.items ≡ found_by layout file) }
    ensures fault { IfErr result (λ fault. fault ≡ SparseFault.Memory) }
{
    // A second header of MacBinary has fewer than 65,536 bytes, so what it leads to is within the head.
    let _second = second_header(head);
    let mut bytes = HeadBytes { bytes: head, len };
    match find_in_layout(alloc, &mut bytes, layout) {
        Ok(found) => Ok(found),
        Err(SparseFault::ReadFailed | SparseFault::Memory) => Err(SparseFault::Memory),
    }
}

/// The ranges in which volumes lie in an image, or in the user data of raw sectors, as [`hfs_source::find_in_layout`] finds
/// them: by its first 131,072 bytes, which are read once. Errors: the read failed, memory was refused.
pub fn find_contents<S: PlacedBytes>(
    alloc: Global,
    source: &mut S,
    layout: Layout,
) -> Result<Vec<FoundRange>, SparseFault>
    ensures found { IfOk result (λ found. OfEach (S.Holds source.new)
        (λ file. found.items ≡ found_by layout file)) }
    ensures held { OfEach (S.Holds source.new) (S.Holds source.old) }
    ensures failed { IfErr result (λ fault. fault ≡ SparseFault.ReadFailed
        → SomeFail (S.Holds source.new) (S.Fails source.old)) }
    ensures later { FailsWhere (S.Fails source.new) (S.Fails source.old) }
{
    let len = source.len();
    let head = head_of(alloc, source, len)?;
    let found = find_by_head(alloc, &head, len, layout)?;
    Ok(found)
}
