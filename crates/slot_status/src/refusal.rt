ghost use Rattle.std.specs.Prelude.{◌≡◌};
ghost use Rattle.slot_status.specs.Refusals as spec;

use crate::time::LAST_SECOND;

/// Why the record of a slot is not changed.
#[derive(Clone, Copy, Debug, PartialEq, Eq)]
pub enum StatusRefusal {
    /// The seconds since 1970 are below 0 or above 253402300799, the last second of the year 9999.
    ClockRange { seconds: i64 },
    /// A count of the slot at this place is 4294967295, and cannot rise.
    CountEnd { slot: usize },
}

// Whether the seconds are below 0, or above the last second of the year 9999.
fn is_out_of_range(seconds: i64) -> bool
    ensures { result ≡ spec.is_out_of_range seconds }
{
    match u64::try_from(seconds) {
        Ok(seconds) => seconds > LAST_SECOND,
        Err(_) => true,
    }
}

/// Why the record of the slot at this place is not changed at this time, where a count that would rise
/// is at its end or none is. It takes no memory.
pub fn refusal_of(slot: usize, seconds: i64, ended: bool) -> Option<StatusRefusal>
    ensures { result ≡ spec.refusal_of slot seconds ended }
{
    if is_out_of_range(seconds) {
        return Some(StatusRefusal::ClockRange { seconds });
    }
    if ended {
        return Some(StatusRefusal::CountEnd { slot });
    }
    None
}
