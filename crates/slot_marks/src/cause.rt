ghost use Rattle.std.specs.Prelude.{◌≡◌, ◌++◌, IfOk, codes, decimal};
ghost use Rattle.slot_status.specs.Causes.{status_cause};
ghost use Rattle.status_file.specs.Status.{names_in};
ghost use Rattle.system_conf.specs.Slots.{name_at};
ghost use Rattle.slot_marks.specs.Causes as spec;

use crate::MarkRefusal;
use boot_backends::boot_cause;
use slot_status::{StatusRefusal, status_cause};
use std::alloc::Global;
use system_conf::{Slot, System, name_at};
use updater_text::{NoMemory, Text};

fn no_slot_cause(alloc: Global, text: &Text) -> Result<Text, NoMemory>
    ensures { IfOk result (λ t. t ≡ codes "no such slot: " ++ text.now) }
{
    let name = text.as_str();
    let cause = format!(in alloc; "no such slot: {name}")?;
    Ok(Text::from_string(cause))
}

fn many_cause(alloc: Global, count: u64) -> Result<Text, NoMemory>
    ensures { IfOk result (λ t. t ≡ decimal count ++ codes " other slots") }
{
    let cause = format!(in alloc; "{count} other slots")?;
    Ok(Text::from_string(cause))
}

fn no_bootname_cause(alloc: Global, slots: &[Slot], at: usize) -> Result<Text, NoMemory>
    ensures { IfOk result (λ t. t ≡ codes "slot " ++ (name_at slots.now at ++ codes " has no bootname")) }
{
    let name = name_at(slots, at);
    let cause = format!(in alloc; "slot {name} has no bootname")?;
    Ok(Text::from_string(cause))
}

fn status_cause_of(
    alloc: Global,
    system: &System,
    refusal: &StatusRefusal,
) -> Result<Text, NoMemory>
    ensures { IfOk result (λ t. t ≡ status_cause (names_in system.now.slots) refusal.now) }
{
    let names = system.slot_names(alloc)?;
    status_cause(alloc, &names, refusal)
}

/// Why a slot is not marked, in one line without its end: slots are named by their places in the
/// configuration. The only error is out of memory.
pub fn mark_cause(alloc: Global, system: &System, refusal: &MarkRefusal) -> Result<Text, NoMemory>
    ensures { IfOk result (λ t. t ≡ spec.mark_cause system.now.slots refusal.now) }
{
    match refusal {
        MarkRefusal::NoSuchSlot { text } => no_slot_cause(alloc, text),
        MarkRefusal::NoOther => Text::new(alloc, "no other slot"),
        MarkRefusal::ManyOther { count } => many_cause(alloc, *count),
        MarkRefusal::NoBootName { slot } => {
            no_bootname_cause(alloc, system.slots.as_slice(), *slot)
        }
        MarkRefusal::Status(refusal) => status_cause_of(alloc, system, refusal),
        MarkRefusal::Boot(refusal) => boot_cause(alloc, refusal),
    }
}
