ghost use Rattle.std.specs.Prelude.{◌≡◌, ◌≤◌, ◌<◌, pos};
ghost use Rattle.jiff.specs.Words.{epoch_day};
ghost use Rattle.slot_status.specs.Times.{day_of};

use jiff::ToSpan;
use jiff::civil::{Date, date};

/// A day from the year 0 to 9999, of the proleptic Gregorian calendar.
#[derive(Clone, Copy)]
pub struct Day {
    pub year: u16,
    pub month: u8,
    pub day: u8,
}

// The date so many days after 1970-01-01.
fn date_of(days: u32) -> Date
    requires { days ≤ 2932896 }
    ensures { epoch_day result ≡ pos days }
{
    match date(1970, 1, 1).checked_add((days as i64).days()) {
        Ok(date) => date,
        Err(_) => unreachable!(),
    }
}

/// The day so many days after 1970-01-01, up to 9999-12-31.
pub fn day_of(days: u32) -> Day
    requires { days ≤ 2932896 }
    ensures value { result ≡ day_of days }
    ensures year { result.year < 10000 }
    ensures month { result.month < 100 }
    ensures day { result.day < 100 }
{
    let date = date_of(days);
    Day {
        year: date.year().unsigned_abs(),
        month: date.month().unsigned_abs(),
        day: date.day().unsigned_abs(),
    }
}
