ghost use Rattle.std.specs.Prelude.{◌≡◌, ◌++◌, IfOk, codes};
ghost use Rattle.system_conf.specs.Slots.{name_at};
ghost use Rattle.slot_graph.specs.Causes.{assign_cause};

use crate::AssignRefusal;
use std::alloc::Global;
use system_conf::{Slot, System, name_at};
use updater_text::{NoMemory, Text};

// What is the matter with a class.
fn class_cause(alloc: Global, matter: &str, class: &Text) -> Result<Text, NoMemory>
    ensures { IfOk result (λ t. t ≡ matter.now ++ class.now) }
{
    let class = class.as_str();
    Ok(Text::from_string(format!(in alloc; "{matter}{class}")?))
}

/// What is the matter with the slot at a place, in one line without its end. The only error is out of
/// memory.
pub fn matter_at(alloc: Global, slots: &[Slot], at: usize, matter: &str) -> Result<Text, NoMemory>
    ensures { IfOk result (λ t. t ≡ codes "slot " ++ (name_at slots.now at ++ matter.now)) }
{
    let name = name_at(slots, at);
    Ok(Text::from_string(format!(in alloc; "slot {name}{matter}")?))
}

/// That the file of an image is an archive, in one line without its end. The only error is out of
/// memory.
pub fn archive_cause(alloc: Global, name: &Text) -> Result<Text, NoMemory>
    ensures { IfOk result (λ t. t ≡ codes "image " ++ (name.now ++ codes " is an archive")) }
{
    let name = name.as_str();
    Ok(Text::from_string(format!(in alloc; "image {name} is an archive")?))
}

/// Why an image goes to no slot, in one line without its end. The only error is out of memory.
pub fn assign_cause(
    alloc: Global,
    system: &System,
    refusal: &AssignRefusal,
) -> Result<Text, NoMemory>
    ensures { IfOk result (λ t. t ≡ assign_cause system.now.slots refusal.now) }
{
    let slots = system.slots.as_slice();
    match refusal {
        AssignRefusal::NoTarget { class } => class_cause(alloc, "no target for class ", class),
        AssignRefusal::ManyTargets { class } => class_cause(
            alloc,
            "many targets for class ",
            class,
        ),
        AssignRefusal::ReadOnly { slot } => matter_at(alloc, slots, *slot, " is readonly"),
        AssignRefusal::ArchiveImage { name, .. } => archive_cause(alloc, name),
        AssignRefusal::WrongType { slot, .. } => {
            matter_at(alloc, slots, *slot, " cannot be written")
        }
    }
}
