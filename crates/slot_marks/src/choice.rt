ghost use Rattle.std.specs.Prelude.{◌≡◌, IfOk, is_some};
ghost use Rattle.updater_text.specs.Answers.{Gives};
ghost use Rattle.slot_marks.specs.Choice as spec;

use crate::MarkRefusal;
use slot_graph::Booted;
use std::alloc::Global;
use system_conf::{Slot, System};
use updater_text::{Lack, NoMemory, Text};

// Whether a slot is a root of this class that has a bootname.
fn is_bootable_root(slot: &Slot, class: &str) -> bool
    ensures { result ≡ spec.is_bootable_root class.now slot.now }
{
    slot.parent.is_none() && slot.bootname.is_some() && slot.class.as_str() == class
}

// The class of the slot at a place.
fn class_at(slots: &[Slot], at: usize) -> &str
    ensures { result.now ≡ spec.class_at slots.now at }
{
    match slots.get(at) {
        Some(slot) => slot.class.as_str(),
        None => "",
    }
}

// Whether at this place stands another root of the class of the one at `root`, with a bootname.
fn is_other(slots: &[Slot], root: usize, at: usize) -> bool
    ensures { result ≡ spec.is_other slots.now root at }
{
    match slots.get(at) {
        Some(slot) => at != root && is_bootable_root(slot, class_at(slots, root)),
        None => false,
    }
}

// The places of all such roots.
fn others(alloc: Global, slots: &[Slot], root: usize) -> Result<Vec<usize>, NoMemory>
    ensures { IfOk result (λ others. others.items ≡ spec.others slots.now root) }
{
    let others = (0..slots.len()).filter(|at| is_other(slots, root, *at));
    Ok(others.collect(alloc)?)
}

// The one of these places, where there is one only.
fn only_one(others: &[usize]) -> Result<usize, Lack<MarkRefusal>>
    ensures { Gives result (spec.only_one others.now) }
{
    match others {
        [] => Err(Lack::Refused(MarkRefusal::NoOther)),
        [at] => Ok(*at),
        many => {
            let count = many.len() as u64;
            Err(Lack::Refused(MarkRefusal::ManyOther { count }))
        }
    }
}

// A refusal of a word that names no slot.
fn no_slot(alloc: Global, who: &str) -> Result<usize, Lack<MarkRefusal>>
    ensures { Gives result (spec.found None who.now) }
{
    let text = Text::new(alloc, who)?;
    Err(Lack::Refused(MarkRefusal::NoSuchSlot { text }))
}

// The booted root.
fn booted_root(alloc: Global, booted: Booted, who: &str) -> Result<usize, Lack<MarkRefusal>>
    ensures { Gives result (spec.root_of booted who.now) }
{
    match booted {
        Booted::Slot(root) => Ok(root),
        Booted::External | Booted::Unknown => no_slot(alloc, who),
    }
}

// The other root of its class.
fn other_root(
    alloc: Global,
    slots: &[Slot],
    booted: Booted,
    who: &str,
) -> Result<usize, Lack<MarkRefusal>>
    ensures { Gives result (spec.other_of slots.now booted who.now) }
{
    match booted {
        Booted::Slot(root) => {
            let others = others(alloc, slots, root)?;
            only_one(others.as_slice())
        }
        Booted::External | Booted::Unknown => no_slot(alloc, who),
    }
}

// The slot of this name.
fn slot_named(alloc: Global, system: &System, who: &str) -> Result<usize, Lack<MarkRefusal>>
    ensures { Gives result (spec.named system.now.slots who.now) }
{
    match system.slot_named(who) {
        Some(at) => Ok(at),
        None => no_slot(alloc, who),
    }
}

// The slot that a word names, with or without a bootname.
fn slot_meant(
    alloc: Global,
    system: &System,
    booted: Booted,
    who: &str,
) -> Result<usize, Lack<MarkRefusal>>
    ensures { Gives result (spec.meant system.now.slots booted who.now) }
{
    match who {
        "booted" => booted_root(alloc, booted, who),
        "other" => other_root(alloc, system.slots.as_slice(), booted, who),
        _ => slot_named(alloc, system, who),
    }
}

// Whether the slot at a place has a bootname.
fn has_bootname(slots: &[Slot], at: usize) -> bool
    ensures { result ≡ is_some (spec.bootname_at slots.now at) }
{
    match slots.get(at) {
        Some(slot) => slot.bootname.is_some(),
        None => false,
    }
}

/// The place of the slot that a word names: `booted` is the booted root, `other` the one other root
/// of its class that has a bootname, and each other word the slot of that name. In this order:
/// `NoSuchSlot` where no slot has the name, or `booted` or `other` is asked for and it is not known
/// which slot is booted, or none is; `NoOther` and `ManyOther` where there is no such other root, or
/// more than one; `NoBootName` where the slot has no bootname.
pub fn slot_chosen(
    alloc: Global,
    system: &System,
    booted: Booted,
    who: &str,
) -> Result<usize, Lack<MarkRefusal>>
    ensures { Gives result (spec.chosen system.now.slots booted who.now) }
{
    let at = slot_meant(alloc, system, booted, who)?;
    if !has_bootname(system.slots.as_slice(), at) {
        return Err(Lack::Refused(MarkRefusal::NoBootName { slot: at }));
    }
    Ok(at)
}
