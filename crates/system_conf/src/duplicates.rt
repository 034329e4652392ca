ghost use Rattle.std.specs.Prelude.{◌≡◌, IfOk, option_and_then, option_map, slice_get};
ghost use Rattle.conf_forms.specs.Lists.{first_of};
ghost use Rattle.system_conf.specs.Duplicates as spec;
ghost use Rattle.system_conf.specs.Refusals.{same_bootname, same_device};

use crate::{ConfRefusal, Slot};
use std::alloc::Global;
use updater_text::{NoMemory, Text};

// What no two slots may share.
#[derive(Clone, Copy)]
enum Shared {
    Device,
    Bootname,
}

/// The first two slots with one device: the later one as early as may be, then the earlier one.
#[tactic(auto, unfolding(crate::specs::Refusals::same_device))]
pub fn same_device(alloc: Global, slots: &[Slot]) -> Result<Option<ConfRefusal>, NoMemory>
    ensures { IfOk result (λ refusal. refusal ≡ same_device slots.now) }
{
    match first_pair(slots, Shared::Device) {
        Some((first, second)) => Ok(Some(ConfRefusal::SameDevice {
            first: first.copy(alloc)?,
            second: second.copy(alloc)?,
        })),
        None => Ok(None),
    }
}

/// The first two slots with one bootname, in the same order.
#[tactic(auto, unfolding(crate::specs::Refusals::same_bootname))]
pub fn same_bootname(alloc: Global, slots: &[Slot]) -> Result<Option<ConfRefusal>, NoMemory>
    ensures { IfOk result (λ refusal. refusal ≡ same_bootname slots.now) }
{
    match first_pair(slots, Shared::Bootname) {
        Some((first, second)) => Ok(Some(ConfRefusal::SameBootName {
            first: first.copy(alloc)?,
            second: second.copy(alloc)?,
        })),
        None => Ok(None),
    }
}

// The names of the first slot that shares this with an earlier one and of that one, which comes first.
fn first_pair(slots: &[Slot], shared: Shared) -> Option<(&Text, &Text)>
    ensures { option_map (λ p. (p.0.now, p.1.now)) result ≡ spec.first_pair (spec.test_for shared) slots.entry.now }
{
    for at in 0..slots.len() {
        if let Some(pair) = pair_at(slots, shared, at) {
            return Some(pair);
        }
    }
    None
}

// The slot at a place, with the first of the earlier ones that share this with it.
fn pair_at(slots: &[Slot], shared: Shared, at: usize) -> Option<(&Text, &Text)>
    ensures { option_map (λ p. (p.0.now, p.1.now)) result ≡ option_and_then (λ later. spec.pair_with (spec.test_for shared) slots.entry.now (at, later)) (slice_get slots.entry.now at) }
{
    match slots.get(at) {
        Some(later) => pair_among(&slots[..at], later, shared),
        None => None,
    }
}

// The first of the earlier slots that shares this with the later one, and that one.
fn pair_among<'a>(
    earlier: &'a [Slot],
    later: &'a Slot,
    shared: Shared,
) -> Option<(&'a Text, &'a Text)>
    ensures { option_map (λ p. (p.0.now, p.1.now)) result ≡ first_of (spec.pair_if (spec.test_for shared) later.entry.now) earlier.entry.now }
{
    for slot in earlier {
        if shared.is_alike(slot, later) {
            return Some((&slot.name, &later.name));
        }
    }
    None
}

impl Shared {
    fn is_alike(self, a: &Slot, b: &Slot) -> bool
        ensures { result ≡ spec.test_for self a.now b.now }
    {
        match self {
            Shared::Device => a.device.as_str() == b.device.as_str(),
            Shared::Bootname => has_same_bootname(a, b),
        }
    }
}

fn has_same_bootname(a: &Slot, b: &Slot) -> bool
    ensures { result ≡ spec.has_same_bootname a.now b.now }
{
    match (&a.bootname, &b.bootname) {
        (Some(one), Some(other)) => other.as_str() == one.as_str(),
        _ => false,
    }
}
