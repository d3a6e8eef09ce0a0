//! Moments, read back from their text.
ghost use Rattle.std.specs.Prelude.{◌≡◌, ◌+◌, ◌-◌, ◌^◌, ◌<◌, ◌≤◌, IfSome, IsTrue, length, slice_index, sum, take};
ghost use Rattle.hfs_texts.specs.Calendar.{days_of_years, is_leap_year, month_lengths};
ghost use Rattle.hfs_put_sources.specs.Moments.{date_in, date_on, dated, day_number, days_before_months, has_marks, is_digit, is_time, leap_days, seconds_in, two_at, within};

const SECONDS_OF_DAY: u64 = 86_400;

fn is_digit(byte: u8) -> bool
    ensures digit { result ≡ is_digit byte }
    ensures least { IsTrue result → 48 ≤ byte }
    ensures most { IsTrue result → byte ≤ 57 }
{
    48 <= byte && byte <= 57
}

/// The number in two decimal digits; 100 if one is none.
#[tactic(auto, unfolding(crate::specs::Moments::two_at))]
fn two_at(place: usize, text: &[u8]) -> u32
    requires { place + 2 ≤ length text.now }
    ensures value { result ≡ two_at place text.now }
    ensures small { result ≤ 100 }
{
    let high = text[place];
    let low = text[place + 1];
    if is_digit(high) && is_digit(low) {
        u32::from(high - 48) * 10 + u32::from(low - 48)
    } else {
        100
    }
}

/// Whether everything between the digits is there.
#[tactic(auto, unfolding(crate::specs::Moments::has_marks))]
fn has_marks(text: &[u8]) -> bool
    requires { length text.now ≡ 19 }
    ensures { result ≡ has_marks text.now }
{
    text[4] == b'-' && text[7] == b'-' && text[10] == b'T' && text[13] == b':' && text[16] == b':'
}

#[tactic(auto, unfolding(hfs_texts::specs::Calendar::is_leap_year))]
fn is_leap_year(year: u32) -> bool
    ensures { result ≡ is_leap_year year }
{
    year % 4 == 0 && (year % 100 != 0 || year % 400 == 0)
}

#[tactic(auto, unfolding(hfs_texts::specs::Calendar::month_lengths))]
fn month_lengths(year: u32) -> [u32; 12]
    ensures { result ≡ month_lengths year }
{
    let february = if is_leap_year(year) { 29 } else { 28 };
    [31, february, 31, 30, 31, 30, 31, 31, 30, 31, 30, 31]
}

/// The days of a year before each of its months, with 28 for February.
#[tactic(auto, unfolding(crate::specs::Moments::days_before_months))]
fn days_before_months() -> [u32; 12]
    ensures { result ≡ days_before_months }
{
    [0, 31, 59, 90, 120, 151, 181, 212, 243, 273, 304, 334]
}

/// The leap days of a year before one of its months.
#[tactic(auto, unfolding(crate::specs::Moments::leap_days))]
fn leap_days(year: u32, month: u32) -> u64
    ensures days { result ≡ leap_days year month }
    ensures small { result ≤ 1 }
{
    if month > 2 && is_leap_year(year) {
        1
    } else {
        0
    }
}

/// The days from 1 January 1904 to that of the year `years` years later: every fourth is a leap year, since 2000 is one.
#[tactic(auto, using(crate::proofs::DaysCounted::years_counted))]
fn days_of_years(years: u32) -> u64
    requires { years ≤ 139 }
    ensures days { result ≡ days_of_years years }
    ensures small { result < 2 ^ 32 }
{
    365 * u64::from(years) + (u64::from(years) + 3) / 4
}

/// The days before one of the months.
#[tactic(auto, using(crate::proofs::DaysCounted::before_small))]
fn days_before_month(month: u32) -> u32
    requires first { 1 ≤ month }
    requires last { month ≤ 12 }
    ensures days { result ≡ slice_index days_before_months (month - 1) }
    ensures small { result ≤ 334 }
{
    days_before_months()[month as usize - 1]
}

/// The days of a year before one of its months.
#[tactic(auto, using(crate::proofs::DaysCounted::months_counted))]
fn days_of_months(year: u32, month: u32) -> u64
    requires first { 1 ≤ month }
    requires last { month ≤ 12 }
    ensures days { result ≡ sum (take (month - 1) (month_lengths year)) }
    ensures small { result < 2 ^ 33 }
{
    u64::from(days_before_month(month)) + leap_days(year, month)
}

/// The days from 1 January 1904 to this one, if it is in the calendar, from 1904 to 2043.
#[tactic(auto, unfolding(crate::specs::Moments::day_number))]
fn day_number(year: u32, month: u32, day: u32) -> Option<u64>
    ensures day { result ≡ day_number year month day }
    ensures small { IfSome result (λ days. days < 2 ^ 35) }
{
    if 1904 <= year
        && year <= 2043
        && 1 <= month
        && month <= 12
        && 1 <= day
        && day <= month_lengths(year)[month as usize - 1]
    {
        Some(days_of_years(year - 1904) + days_of_months(year, month) + u64::from(day - 1))
    } else {
        None
    }
}

/// Whether a day has this time.
#[tactic(auto, unfolding(crate::specs::Moments::is_time))]
fn is_time(text: &[u8]) -> bool
    requires { length text.now ≡ 19 }
    ensures { result ≡ is_time text.now }
{
    two_at(11, text) < 24 && two_at(14, text) < 60 && two_at(17, text) < 60
}

/// The seconds after midnight.
#[tactic(auto, unfolding(crate::specs::Moments::seconds_in))]
fn seconds_in(text: &[u8]) -> u32
    requires { length text.now ≡ 19 }
    ensures { result ≡ seconds_in text.now }
{
    two_at(11, text) * 3600 + two_at(14, text) * 60 + two_at(17, text)
}

/// A date of 32 bits.
#[tactic(auto, unfolding(crate::specs::Moments::within))]
fn within(date: u64) -> Option<u32>
    ensures { result ≡ within date }
{
    if date < 4_294_967_296 {
        Some(date as u32)
    } else {
        None
    }
}

/// The date of a day with the time in a text.
fn date_on(text: &[u8], day: Option<u64>) -> Option<u32>
    requires whole { length text.now ≡ 19 }
    requires small { IfSome day (λ days. days < 2 ^ 35) }
    ensures { result ≡ date_on text.now day }
{
    match day {
        Some(days) => within(days * SECONDS_OF_DAY + u64::from(seconds_in(text))),
        None => None,
    }
}

/// The date whose moment is a text of 19 bytes.
#[tactic(auto, unfolding(crate::specs::Moments::dated))]
fn dated(text: &[u8]) -> Option<u32>
    requires { length text.now ≡ 19 }
    ensures { result ≡ dated text.now }
{
    if has_marks(text) && two_at(2, text) < 100 && is_time(text) {
        let year = two_at(0, text) * 100 + two_at(2, text);
        date_on(text, day_number(year, two_at(5, text), two_at(8, text)))
    } else {
        None
    }
}

/// The date of a moment, in seconds since midnight, 1 January 1904: 0 for an empty text, otherwise that of YYYY-MM-DDThh:mm:ss;
/// None if it is no moment of 32 bits. See [`crate::moments_read_back`].
#[tactic(auto, unfolding(crate::specs::Moments::date_in))]
pub fn read_moment(text: &[u8]) -> Option<u32>
    ensures { result ≡ date_in text.now }
{
    if text.is_empty() {
        Some(0)
    } else if text.len() == 19 {
        dated(text)
    } else {
        None
    }
}
