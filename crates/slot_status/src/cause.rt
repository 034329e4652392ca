ghost use Rattle.std.specs.Prelude.{◌≡◌, IfOk};
ghost use Rattle.slot_status.specs.Causes.{status_cause};

use crate::StatusRefusal;
use std::alloc::Global;
use updater_text::{NoMemory, Text};

/// Why the record of a slot is not changed, in words: slots are named by their places among these
/// names. The only error is out of memory.
pub fn status_cause(
    alloc: Global,
    names: &[Text],
    refusal: &StatusRefusal,
) -> Result<Text, NoMemory>
    ensures { IfOk result (λ t. t ≡ status_cause names.now refusal.now) }
{
    let text = match *refusal {
        StatusRefusal::ClockRange { seconds } => {
            format!(in alloc; "clock out of range: {seconds}")?
        }
        StatusRefusal::CountEnd { slot } => {
            let name = names.get(slot).map_or("", |name| name.as_str());
            format!(in alloc; "count of {name} is at its end")?
        }
    };
    Ok(Text::from_string(text))
}
