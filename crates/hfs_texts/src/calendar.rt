//! The Gregorian calendar.
ghost use Rattle.std.specs.Prelude.{◌≡◌, ◌+◌, ◌/◌, ◌^◌, ◌<◌, ◌≤◌};
ghost use Rattle.hfs_texts.specs.Calendar.{day_of_year, day_since_1904, is_leap_year, month_lengths, year_length};

/// A day of the Gregorian calendar.
#[derive(Clone, Copy)]
pub struct Day {
    pub year: u32,
    /// From 1 to 12.
    pub month: u32,
    /// From 1 on.
    pub day: u32,
}

/// The days of four years, the first of which is a leap year and no other.
const FOUR_YEARS: u32 = 1461;

#[tactic(auto, unfolding(crate::specs::Calendar::is_leap_year))]
fn is_leap_year(year: u32) -> bool
    ensures { result ≡ is_leap_year year }
{
    year % 4 == 0 && (year % 100 != 0 || year % 400 == 0)
}

#[tactic(auto, unfolding(crate::specs::Calendar::month_lengths))]
fn month_lengths(year: u32) -> [u32; 12]
    ensures { result ≡ month_lengths year }
{
    let february = if is_leap_year(year) { 29 } else { 28 };
    [31, february, 31, 30, 31, 30, 31, 31, 30, 31, 30, 31]
}

/// The day that comes `days` days after the first of a year.
fn day_of_year(year: u32, days: u32) -> Day
    requires { days < year_length year }
    ensures { result ≡ day_of_year year days }
{
    let lengths = month_lengths(year);
    let mut left = days;
    for (place, length) in lengths.iter().enumerate() {
        if left < *length {
            return Day {
                year,
                month: place as u32 + 1,
                day: left + 1,
            };
        }
        left -= *length;
    }
    unreachable!()
}

/// The day that comes `days` days after 1 January 1904. Every fourth year is a leap year there, since 2000 is one.
pub(crate) fn day_since_1904(days: u32) -> Day
    requires { days < 49711 }
    ensures { result ≡ day_since_1904 days }
{
    let leap_year = 1904 + days / FOUR_YEARS * 4;
    let left = days % FOUR_YEARS;
    if left < 366 {
        return day_of_year(leap_year, left);
    }
    let behind = left - 366;
    day_of_year(leap_year + 1 + behind / 365, behind % 365)
}
