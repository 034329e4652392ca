ghost use Rattle.std.specs.Prelude.{◌≡◌, ◌≤◌, ◌<◌, ◌++◌, IfOk, OnOk, string_bytes};
ghost use Rattle.slot_status.specs.Times.{clock_text, day_text, time_text, two_digits};

use crate::day::{Day, day_of};
use std::alloc::{AllocError, Global};
use updater_text::{NoMemory, Text};

/// The last second of the year 9999, counted from the beginning of 1970.
pub const LAST_SECOND: u64 = 253_402_300_799;

const SECONDS_OF_A_DAY: u64 = 86_400;

fn push_two_digits(out: &mut String, number: u8) -> Result<(), AllocError>
    requires { number < 100 }
    ensures { OnOk result (string_bytes out.new ≡ string_bytes out.old ++ two_digits number) }
{
    out.push(char::from(b'0' + number / 10))?;
    out.push(char::from(b'0' + number % 10))?;
    Ok(())
}

fn push_day(out: &mut String, day: Day) -> Result<(), AllocError>
    requires year { day.year < 10000 }
    requires month { day.month < 100 }
    requires day { day.day < 100 }
    ensures { OnOk result (string_bytes out.new ≡ string_bytes out.old ++ day_text day) }
{
    push_two_digits(out, (day.year / 100) as u8)?;
    push_two_digits(out, (day.year % 100) as u8)?;
    out.push('-')?;
    push_two_digits(out, day.month)?;
    out.push('-')?;
    push_two_digits(out, day.day)?;
    Ok(())
}

fn push_clock(out: &mut String, second: u32) -> Result<(), AllocError>
    requires { second < 86400 }
    ensures { OnOk result (string_bytes out.new ≡ string_bytes out.old ++ clock_text second) }
{
    push_two_digits(out, (second / 3600) as u8)?;
    out.push(':')?;
    push_two_digits(out, (second % 3600 / 60) as u8)?;
    out.push(':')?;
    push_two_digits(out, (second % 60) as u8)?;
    Ok(())
}

/// The time so many seconds after 1970 began, as `YYYY-MM-DDThh:mm:ssZ`. The only error is out of
/// memory.
#[tactic(auto, unfolding(crate::specs::Times::time_text))]
pub fn time_text(alloc: Global, seconds: u64) -> Result<Text, NoMemory>
    requires { seconds ≤ 253402300799 }
    ensures { IfOk result (λ t. t ≡ time_text seconds) }
{
    let day = day_of((seconds / SECONDS_OF_A_DAY) as u32);
    let mut out = String::new(alloc);
    push_day(&mut out, day)?;
    out.push('T')?;
    push_clock(&mut out, (seconds % SECONDS_OF_A_DAY) as u32)?;
    out.push('Z')?;
    Ok(Text::from_string(out))
}
