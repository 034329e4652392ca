ghost use Rattle.std.specs.Prelude.{◌≡◌, IfOk};
ghost use Rattle.slot_graph.specs.Booted.{AreStates, state_of, states_of};

use std::alloc::Global;
use system_conf::{Slot, System, root_of};
use updater_text::NoMemory;

/// What runs: the slots of a root, nothing of the device's slots, or what is not known.
#[derive(Clone, Copy, Debug, PartialEq, Eq)]
pub enum Booted {
    /// The root at this place among the slots, and the slots below it.
    Slot(usize),
    /// The device was booted from elsewhere.
    External,
    Unknown,
}

/// Whether a slot runs.
#[derive(Clone, Copy, Debug, PartialEq, Eq)]
pub enum SlotState {
    /// It is the root that is booted.
    Booted,
    /// It lies under the root that is booted.
    Active,
    Inactive,
}

// The state of the slot at a place.
fn state_of(slots: &[Slot], booted: Booted, at: usize) -> SlotState
    ensures { result ≡ state_of slots.now booted at }
{
    match booted {
        Booted::Slot(root) if at == root => SlotState::Booted,
        Booted::Slot(root) if root_of(slots, at) == root => SlotState::Active,
        _ => SlotState::Inactive,
    }
}

/// The state of each slot, in their order, by what is booted.
pub fn states(alloc: Global, system: &System, booted: Booted) -> Result<Vec<SlotState>, NoMemory>
    ensures each { IfOk result (λ states. AreStates system.now.slots booted states.items) }
    ensures values { IfOk result (λ states. states.items ≡ states_of system.now.slots booted) }
{
    let slots = system.slots.as_slice();
    let mut states = Vec::new(alloc);
    for at in 0..slots.len() {
        states.push(state_of(slots, booted, at))?;
    }
    Ok(states)
}
