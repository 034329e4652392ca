ghost use Rattle.std.specs.Prelude.{◌≡◌, IfOk, length, map};
ghost use Rattle.std.specs.List.{list_any};
ghost use Rattle.std.specs.Str.{bytes_eq};
ghost use Rattle.slot_graph.specs.Targets as spec;

use crate::SlotState;
use std::alloc::Global;
use system_conf::{Slot, System};
use updater_text::NoMemory;

// Whether a slot is a root of this class.
fn is_root_of(slot: &Slot, class: &str) -> bool
    ensures { result ≡ spec.is_root_of class.now slot.now }
{
    slot.parent.is_none() && slot.class.as_str() == class
}

// Whether a free root of this class stands at a place.
fn is_free_root(slots: &[Slot], states: &[SlotState], class: &str, at: usize) -> bool
    ensures { result ≡ spec.is_free_root slots.now states.now class.now at }
{
    match (slots.get(at), states.get(at)) {
        (Some(slot), Some(SlotState::Inactive)) => is_root_of(slot, class),
        _ => false,
    }
}

// The index of the slot at a place.
fn index_at(slots: &[Slot], at: usize) -> u32
    ensures { result ≡ spec.index_at slots.now at }
{
    match slots.get(at) {
        Some(slot) => slot.index,
        None => 0,
    }
}

// Whether the slot at `other` is no free root of this class of a lower index than the one at `at`.
fn is_no_better(slots: &[Slot], states: &[SlotState], class: &str, at: usize, other: usize) -> bool
    ensures { result ≡ spec.is_no_better slots.now states.now class.now at other }
{
    !is_free_root(slots, states, class, other) || index_at(slots, at) <= index_at(slots, other)
}

// Whether no free root of this class has a lower index than the slot at a place.
fn is_least(slots: &[Slot], states: &[SlotState], class: &str, at: usize) -> bool
    ensures { result ≡ spec.is_least slots.now states.now class.now at }
{
    (0..slots.len()).all(|other| is_no_better(slots, states, class, at, other))
}

// Whether the target of this class stands at a place.
fn is_target(slots: &[Slot], states: &[SlotState], class: &str, at: usize) -> bool
    ensures { result ≡ spec.is_target slots.now states.now class.now at }
{
    is_free_root(slots, states, class, at) && is_least(slots, states, class, at)
}

// The place of a class's target, where it has one.
#[tactic(auto, unfolding(crate::specs::Targets::target_of))]
fn target_of(slots: &[Slot], states: &[SlotState], class: &str) -> Option<usize>
    ensures { result ≡ spec.target_of slots.now states.now class.now }
{
    (0..slots.len()).find(|at| is_target(slots, states, class, *at))
}

// Whether a class is one of these.
fn is_among(classes: &[&str], class: &str) -> bool
    ensures { result ≡ list_any (bytes_eq class.now) (map (λ c. c.now) classes.now) }
{
    classes.iter().any(|other| class == *other)
}

// The classes of the roots, each once, in the order of their first roots.
fn root_classes(alloc: Global, slots: &[Slot]) -> Result<Vec<&str>, NoMemory>
    ensures { IfOk result
        (λ classes. map (λ c. c.now) classes.items ≡ spec.root_classes slots.entry.now) }
{
    let mut classes = Vec::new(alloc);
    for slot in slots {
        let class = slot.class.as_str();
        if slot.parent.is_none() && !is_among(&classes, class) {
            classes.push(class)?;
        }
    }
    Ok(classes)
}

// The targets of these classes.
#[tactic(auto, unfolding(crate::specs::Targets::targets_of))]
fn targets_among(
    alloc: Global,
    slots: &[Slot],
    states: &[SlotState],
) -> Result<Vec<usize>, NoMemory>
    ensures { IfOk result (λ t. t.items ≡ spec.targets_of slots.now states.now) }
{
    let classes = root_classes(alloc, slots)?;
    let targets = classes
        .iter()
        .filter_map(|class| target_of(slots, states, class));
    Ok(targets.collect(alloc)?)
}

/// The places of the slots that an update goes to: for each class of roots the inactive root of
/// least index, in the order of each class's first root. A class of which no root is inactive has
/// none. The only error is out of memory.
pub fn targets(alloc: Global, system: &System, states: &[SlotState]) -> Result<Vec<usize>, NoMemory>
    requires { length states.now ≡ length system.now.slots }
    ensures each { IfOk result (λ t. spec.AreTargets system.now.slots states.now t.items) }
    ensures values { IfOk result (λ t. t.items ≡ spec.targets_of system.now.slots states.now) }
{
    targets_among(alloc, system.slots.as_slice(), states)
}
