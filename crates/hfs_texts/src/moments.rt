//! Moments.
ghost use Rattle.std.specs.Prelude.{◌≡◌, ◌<◌, OnOk};
ghost use Rattle.hfs_texts.specs.Gains.{Gains};
ghost use Rattle.hfs_texts.specs.Moments.{day_text, moment, time_text};

use crate::calendar::{Day, day_since_1904};
use crate::characters::ascii_text;
use crate::digits::{ones, tens};
use std::alloc::AllocError;

const SECONDS_OF_DAY: u32 = 86_400;

/// Appends a day as YYYY-MM-DD, all at once.
#[tactic(auto, unfolding(crate::specs::Moments::day_text, crate::specs::Digits::four_digits, crate::specs::Digits::two_digits), using(crate::proofs::AsciiLemmas::ascii_ten))]
fn push_day(text: &mut String, day: Day) -> Result<(), AllocError>
    requires year { day.year < 10000 }
    requires month { day.month < 100 }
    requires day { day.day < 100 }
    ensures { OnOk result (Gains text.old text.new (day_text day)) }
{
    let century = (day.year / 100) as u8;
    let year = (day.year % 100) as u8;
    let month = day.month as u8;
    let day = day.day as u8;
    text.push_str(ascii_text(&[
        tens(century),
        ones(century),
        tens(year),
        ones(year),
        b'-',
        tens(month),
        ones(month),
        b'-',
        tens(day),
        ones(day),
    ]))
}

/// Appends the time `seconds` seconds after midnight as hh:mm:ss, all at once.
#[tactic(auto, unfolding(crate::specs::Moments::time_text, crate::specs::Digits::two_digits), using(crate::proofs::AsciiLemmas::ascii_eight))]
fn push_time(text: &mut String, seconds: u32) -> Result<(), AllocError>
    requires { seconds < 86400 }
    ensures { OnOk result (Gains text.old text.new (time_text seconds)) }
{
    let hour = (seconds / 3600) as u8;
    let minute = (seconds / 60 % 60) as u8;
    let second = (seconds % 60) as u8;
    text.push_str(ascii_text(&[
        tens(hour),
        ones(hour),
        b':',
        tens(minute),
        ones(minute),
        b':',
        tens(second),
        ones(second),
    ]))
}

/// Appends the moment of a date, which is in seconds since midnight, 1 January 1904: nothing if it is 0, otherwise
/// YYYY-MM-DDThh:mm:ss in the Gregorian calendar, without a time zone, since the Macintosh kept none.
#[tactic(auto, unfolding(crate::specs::Moments::moment))]
pub fn push_moment(text: &mut String, date: u32) -> Result<(), AllocError>
    ensures { OnOk result (Gains text.old text.new (moment date)) }
{
    if date == 0 {
        return Ok(());
    }
    push_day(text, day_since_1904(date / SECONDS_OF_DAY))?;
    text.push('T')?;
    push_time(text, date % SECONDS_OF_DAY)
}
