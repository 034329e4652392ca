ghost use Rattle.std.specs.Prelude.{◌≡◌, ◌++◌, IfOk, codes};
ghost use Rattle.slot_writer.specs.Causes.{slot_cause};

use crate::SlotRefusal;
use raw_writer::put_cause;
use slot_graph::{archive_cause, matter_at};
use std::alloc::Global;
use system_conf::System;
use updater_text::{NoMemory, Text};

fn no_slot_cause(alloc: Global, name: &Text) -> Result<Text, NoMemory>
    ensures { IfOk result (λ t. t ≡ codes "no such slot: " ++ name.now) }
{
    let name = name.as_str();
    let cause = format!(in alloc; "no such slot: {name}")?;
    Ok(Text::from_string(cause))
}

/// Why an image is not written, in one line without its end: slots are named by their places in the
/// configuration, and `image` is the path as the user gave it. The only error is out of memory.
pub fn slot_cause(
    alloc: Global,
    system: &System,
    image: &str,
    refusal: &SlotRefusal,
) -> Result<Text, NoMemory>
    ensures { IfOk result (λ t. t ≡ slot_cause system.now.slots image.now refusal.now) }
{
    let slots = system.slots.as_slice();
    match refusal {
        SlotRefusal::NoSuchSlot { text } => no_slot_cause(alloc, text),
        SlotRefusal::BootedUnknown => Text::new(alloc, "booted slot is not known"),
        SlotRefusal::Busy { slot } => matter_at(alloc, slots, *slot, " is in use"),
        SlotRefusal::ReadOnly { slot } => matter_at(alloc, slots, *slot, " is readonly"),
        SlotRefusal::ArchiveImage { image } => archive_cause(alloc, image),
        SlotRefusal::WrongType { slot } => matter_at(alloc, slots, *slot, " cannot be written"),
        SlotRefusal::MountsUnread => Text::new(alloc, "mounts unreadable"),
        SlotRefusal::Mounted { slot } => matter_at(alloc, slots, *slot, " is mounted"),
        SlotRefusal::Image(refusal) => put_cause(alloc, image, refusal),
    }
}
