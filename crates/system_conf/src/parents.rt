ghost use Rattle.std.specs.Prelude.{◌≡◌, IfOk, option_and_then, slice_get};
ghost use Rattle.conf_forms.specs.SlotNames.{parts, parts_of};
ghost use Rattle.system_conf.specs.Slots.{chain_ends};
ghost use Rattle.system_conf.specs.Refusals as spec;

use crate::read_slots::slot_called;
use crate::roots::chain_ends;
use crate::{ConfRefusal, Reader, Slot};
use conf_forms::SlotGroup;
use std::alloc::Global;
use updater_text::{NoMemory, Text};

/// The first slot whose parent names no slot.
#[tactic(auto, unfolding(crate::specs::Refusals::no_parent))]
pub fn no_parent(reader: &Reader<'_>) -> Result<Option<ConfRefusal>, NoMemory>
    ensures { IfOk result (λ refusal. refusal ≡ spec.no_parent reader.now.file.now) }
{
    for slot in reader.slots {
        if let Some(why) = orphan(reader, slot)? {
            return Ok(Some(why));
        }
    }
    Ok(None)
}

fn orphan(reader: &Reader<'_>, slot: &SlotGroup<'_>) -> Result<Option<ConfRefusal>, NoMemory>
    requires { parts slot.now ≡ parts_of slot.now.group.now }
    ensures { IfOk result (λ refusal. refusal ≡ spec.orphan reader.now.file.now slot.now.group.now) }
{
    if has_parent(reader, slot.group) {
        return Ok(None);
    }
    Ok(Some(ConfRefusal::NoParent {
        slot: Text::new(reader.alloc, slot.name)?,
    }))
}

// Whether the parent of a group's slot, where it has one, is a slot.
fn has_parent(reader: &Reader<'_>, group: &str) -> bool
    ensures { result ≡ spec.has_parent reader.now.file.now group.now }
{
    match reader.file.get(group, "parent") {
        Some(name) => slot_called(reader.slots, name).is_some(),
        None => true,
    }
}

/// The first slot whose chain of parents does not end.
#[tactic(auto, unfolding(crate::specs::Refusals::parent_cycle))]
pub fn parent_cycle(alloc: Global, slots: &[Slot]) -> Result<Option<ConfRefusal>, NoMemory>
    ensures { IfOk result (λ refusal. refusal ≡ spec.parent_cycle slots.now) }
{
    for at in 0..slots.len() {
        if let Some(why) = endless(alloc, slots, at)? {
            return Ok(Some(why));
        }
    }
    Ok(None)
}

fn endless(alloc: Global, slots: &[Slot], at: usize) -> Result<Option<ConfRefusal>, NoMemory>
    ensures { IfOk result (λ refusal. refusal ≡ option_and_then (λ slot. spec.endless slots.now (at, slot)) (slice_get slots.now at)) }
{
    let Some(slot) = slots.get(at) else {
        return Ok(None);
    };
    if chain_ends(slots, at) {
        return Ok(None);
    }
    Ok(Some(ConfRefusal::ParentCycle {
        slot: slot.name.copy(alloc)?,
    }))
}

/// The first slot with both a parent and a bootname.
#[tactic(auto, unfolding(crate::specs::Refusals::child_boot_name))]
pub fn child_boot_name(alloc: Global, slots: &[Slot]) -> Result<Option<ConfRefusal>, NoMemory>
    ensures { IfOk result (λ refusal. refusal ≡ spec.child_boot_name slots.now) }
{
    for slot in slots {
        if let Some(why) = bootable_child(alloc, slot)? {
            return Ok(Some(why));
        }
    }
    Ok(None)
}

fn bootable_child(alloc: Global, slot: &Slot) -> Result<Option<ConfRefusal>, NoMemory>
    ensures { IfOk result (λ refusal. refusal ≡ spec.bootable_child slot.now) }
{
    match (&slot.parent, &slot.bootname) {
        (Some(_), Some(_)) => Ok(Some(ConfRefusal::ChildBootName {
            slot: slot.name.copy(alloc)?,
        })),
        _ => Ok(None),
    }
}
