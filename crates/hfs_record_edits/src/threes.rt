//! Extents in threes, as the records of the extents tree have them.

ghost use Rattle.std.specs.Prelude.{◌≡◌, ◌+◌, ◌*◌, ◌^◌, ◌<◌, ◌≤◌, length, take, drop};
ghost use Rattle.hfs_space.specs.Extents.{block_total, record_extents};
ghost use Rattle.hfs_record_edits.specs.Threes.{AreThrees, AreLeft};

use hfs_fields::Extent;

/// The three extents from `at` on.
pub(crate) fn three_at(extents: &[Extent], at: usize) -> [Extent; 3]
    requires { at + 3 ≤ length extents.now }
    ensures { result ≡ take 3 (drop at extents.now) }
{
    [extents[at], extents[at + 1], extents[at + 2]]
}

/// How many blocks `count` of the extents have from `at` on.
pub(crate) fn blocks_at(extents: &[Extent], at: usize, count: usize) -> u32
    requires within { at + count ≤ length extents.now }
    requires few { block_total (take count (drop at extents.now)) < 2 ^ 32 }
    ensures { result ≡ block_total (take count (drop at extents.now)) }
{
    let mut total = 0;
    for i in 0..count {
        total += u32::from(extents[at + i].count);
    }
    total
}

/// The 12 bytes of a record of the extents tree with these three extents.
pub(crate) fn record_body(extents: &[Extent; 3]) -> [u8; 12]
    ensures long { length result ≡ 12 }
    ensures back { record_extents result ≡ extents.now }
{
    let mut bytes = [0; 12];
    Extent::write_record(extents, &mut bytes);
    bytes
}

/// How many of the threes after the first begin before the fork's block `count`.
pub(crate) fn threes_left(extents: &[Extent], count: u32) -> usize
    requires some { 3 ≤ length extents.now }
    requires threes { AreThrees (drop 3 extents.now) }
    requires few { block_total extents.now < 2 ^ 32 }
    ensures { AreLeft count extents.now result }
{
    let mut blocks = blocks_at(extents, 0, 3);
    let mut left = 0;
    while 3 * left + 3 < extents.len() && blocks < count {
        blocks += blocks_at(extents, 3 * left + 3, 3);
        left += 1;
    }
    left
}
