ghost use Rattle.std.specs.Prelude.{◌≡◌, IfOk, decimal, option_map};
ghost use Rattle.system_conf.specs.Slots.{name_at};
ghost use Rattle.status_report.specs.Words as spec;

use crate::StatusView;
use slot_graph::{Booted, SlotState};
use std::alloc::Global;
use system_conf::{Slot, name_at};
use updater_text::{NoMemory, Text};

fn state_word(state: SlotState) -> &'static str
    ensures { result.now ≡ spec.state_word state }
{
    match state {
        SlotState::Booted => "booted",
        SlotState::Active => "active",
        SlotState::Inactive => "inactive",
    }
}

/// The state of the slot at a place.
pub fn state_at(view: &StatusView, at: usize) -> &'static str
    ensures { result.now ≡ spec.state_at view.now at }
{
    match view.states.as_slice().get(at) {
        Some(state) => state_word(*state),
        None => "inactive",
    }
}

fn good_word(good: bool) -> &'static str
    ensures { result.now ≡ spec.good_word good }
{
    if good { "good" } else { "bad" }
}

/// Whether the boot loader may boot the slot at a place, where that is told.
pub fn boot_status_at(view: &StatusView, at: usize) -> Option<&'static str>
    ensures { option_map (λ word. word.now) result ≡ spec.boot_status_at view.now at }
{
    match view.good.as_slice().get(at) {
        Some(Some(good)) => Some(good_word(*good)),
        Some(None) => None,
        None => None,
    }
}

/// The name of the slot that a slot belongs to.
pub fn parent_name(slots: &[Slot], parent: Option<usize>) -> Option<&str>
    ensures { option_map (λ name. name.now) result ≡ option_map (name_at slots.entry.now) parent }
{
    match parent {
        Some(at) => Some(name_at(slots, at)),
        None => None,
    }
}
