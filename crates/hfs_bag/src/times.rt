//! Times of files.
ghost use Rattle.std.specs.Prelude.{◌≡◌};
ghost use Rattle.hfs_bag.specs.Times.{since_1970, year_1970};

/// The beginning of 1970 on a Macintosh, in seconds since midnight, 1 January 1904.
const YEAR_1970: u32 = 2_082_844_800;

/// A moment on a Macintosh, in seconds since the beginning of 1970; None if it was before that.
#[tactic(auto, unfolding(crate::specs::Times::since_1970, crate::specs::Times::year_1970))]
pub fn since_1970(moment: u32) -> Option<u32>
    ensures { result ≡ since_1970 moment }
{
    if moment < YEAR_1970 {
        None
    } else {
        Some(moment - YEAR_1970)
    }
}
