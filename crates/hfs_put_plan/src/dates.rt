//! Times of a host's files as the nearest Macintosh dates.
ghost use Rattle.std.specs.Prelude.{◌≡◌};
ghost use Rattle.hfs_put_plan.specs.Dates.{date_before_1970, date_since_1970};

/// The beginning of 1970, in seconds since midnight, 1 January 1904.
const YEAR_1970: u64 = 2_082_844_800;

/// The last date of a Macintosh.
const LAST: u64 = 4_294_967_295;

/// The date `seconds` seconds after the beginning of 1970.
#[tactic(auto, unfolding(crate::specs::Dates::date_since_1970))]
pub fn date_since_1970(seconds: u64) -> u32
    ensures { result ≡ date_since_1970 seconds }
{
    if seconds <= LAST - YEAR_1970 {
        (seconds + YEAR_1970) as u32
    } else {
        LAST as u32
    }
}

/// The date `seconds` whole seconds before the beginning of 1970, and maybe a part of one more: the second in which that time
/// lies.
#[tactic(auto, unfolding(crate::specs::Dates::date_before_1970))]
pub fn date_before_1970(seconds: u64, has_part: bool) -> u32
    ensures { result ≡ date_before_1970 seconds has_part }
{
    if seconds >= YEAR_1970 {
        return 0;
    }
    let date = (YEAR_1970 - seconds) as u32;
    if has_part { date - 1 } else { date }
}
