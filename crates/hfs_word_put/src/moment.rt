//! The moment of the calls that put the items.
ghost use Rattle.std.specs.Prelude.{◌≡◌, ◌/◌};
ghost use Rattle.std.specs.Time.{system_time_nanos};
ghost use Rattle.hfs_put_plan.specs.Dates.{date_since_1970};

use hfs_put_plan::date_since_1970;
use std::time::{Duration, SystemTime, UNIX_EPOCH};

/// The Macintosh date of a time of the clock, or the nearest that there is.
pub fn date_of(time: SystemTime) -> u32
    ensures { result ≡ date_since_1970 (system_time_nanos time / 1000000000) }
{
    let since = match time.duration_since(UNIX_EPOCH) {
        Ok(since) => since,
        Err(_) => Duration::ZERO,
    };
    date_since_1970(since.as_secs())
}
