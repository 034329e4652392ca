ghost use Rattle.std.specs.Prelude.{◌≡◌, ◌++◌, IfOk};
ghost use Rattle.conf_forms.specs.Causes.{place_cause};
ghost use Rattle.system_conf.specs.Causes.{conf_cause, pair_cause};

use crate::ConfRefusal;
use conf_forms::place_cause;
use std::alloc::Global;
use updater_text::{NoMemory, Text};

// A slot between two texts.
fn slot_cause(alloc: Global, before: &str, slot: &Text, after: &str) -> Result<Text, NoMemory>
    ensures { IfOk result (λ t. t ≡ before.now ++ (slot.now ++ after.now)) }
{
    let slot = slot.as_str();
    Ok(Text::from_string(format!(in alloc; "{before}{slot}{after}")?))
}

// Two slots, and what is the matter with them.
fn pair_cause(alloc: Global, first: &Text, second: &Text, matter: &str) -> Result<Text, NoMemory>
    ensures { IfOk result (λ t. t ≡ pair_cause first.now second.now matter.now) }
{
    let first = first.as_str();
    let second = second.as_str();
    Ok(Text::from_string(format!(in alloc; "{first} and {second}{matter}")?))
}

// What is the matter with a place in the file.
fn matter_at(alloc: Global, group: &Text, key: &Text, matter: &str) -> Result<Text, NoMemory>
    ensures { IfOk result (λ t. t ≡ place_cause group.now key.now matter.now) }
{
    place_cause(alloc, group.as_str(), key.as_str(), matter)
}

/// What is wrong with what a configuration says, in words, without the name of the file.
pub fn conf_cause(alloc: Global, refusal: &ConfRefusal) -> Result<Text, NoMemory>
    ensures { IfOk result (λ t. t ≡ conf_cause refusal.now) }
{
    match refusal {
        ConfRefusal::Missing { group, key } => matter_at(alloc, group, key, "missing"),
        ConfRefusal::UnknownKey { group, key } => matter_at(alloc, group, key, "unknown"),
        ConfRefusal::LeftOut { group, key } => matter_at(alloc, group, key, "left out"),
        ConfRefusal::BadValue { group, key } => matter_at(alloc, group, key, "bad value"),
        ConfRefusal::BadSlotName { group } => slot_cause(alloc, "bad slot name [", group, "]"),
        ConfRefusal::TooMany { slots } => {
            Ok(Text::from_string(format!(in alloc; "too many slots: {slots}")?))
        }
        ConfRefusal::SameDevice { first, second } => {
            pair_cause(alloc, first, second, " share a device")
        }
        ConfRefusal::SameBootName { first, second } => {
            pair_cause(alloc, first, second, " share a bootname")
        }
        ConfRefusal::NoParent { slot } => slot_cause(alloc, "", slot, " has no such parent"),
        ConfRefusal::ParentCycle { slot } => {
            slot_cause(alloc, "parents of ", slot, " do not end")
        }
        ConfRefusal::ChildBootName { slot } => {
            slot_cause(alloc, "", slot, " has parent and bootname")
        }
        ConfRefusal::DeviceIsFile { slot } => {
            slot_cause(alloc, "device of ", slot, " is in use by rauc")
        }
    }
}
