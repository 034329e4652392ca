ghost use Rattle.std.specs.Prelude.{◌≡◌, ◌++◌, IfOk, OnOk};
ghost use Rattle.system_conf.specs.Slots.{parent_name, word_of};
ghost use Rattle.child_steps.specs.Hooks as spec;

use machine::EnvVar;
use std::alloc::Global;
use system_conf::{Slot, name_at};
use updater_text::{Items, NoMemory, Text};

/// Puts a variable at the end.
#[tactic(auto, unfolding(crate::specs::Hooks::var))]
pub fn push_var(
    env: &mut Items<EnvVar>,
    alloc: Global,
    name: &str,
    value: &Text,
) -> Result<(), NoMemory>
    ensures { OnOk result (env.new ≡ env.old ++ spec.var name.now value.now) }
{
    let name = Text::new(alloc, name)?;
    let value = value.copy(alloc)?;
    env.push(EnvVar { name, value })
}

/// Puts a variable at the end, where it has a value.
pub fn push_var_if_any(
    env: &mut Items<EnvVar>,
    alloc: Global,
    name: &str,
    value: &Option<Text>,
) -> Result<(), NoMemory>
    ensures { OnOk result (env.new ≡ env.old ++ spec.var_if_any name.now value.now) }
{
    match value {
        Some(value) => push_var(env, alloc, name, value),
        None => Ok(()),
    }
}

/// The name of a variable for the slot at a place; slots are numbered from 1.
pub fn numbered(alloc: Global, front: &str, at: usize) -> Result<Text, NoMemory>
    ensures { IfOk result (λ name. name ≡ spec.numbered front.now at) }
{
    // A number of 128 bits, since any place has a next one there.
    let number = at as u128 + 1;
    Ok(Text::from_string(format!(in alloc; "{front}{number}")?))
}

/// The configured word of a slot's type.
pub fn kind_word(alloc: Global, slot: &Slot) -> Result<Text, NoMemory>
    ensures { IfOk result (λ word. word ≡ word_of slot.now.kind) }
{
    Text::new(alloc, slot.kind.word())
}

/// The name of the slot that a slot belongs to, where it has one.
pub fn parent_name(alloc: Global, slots: &[Slot], slot: &Slot) -> Result<Option<Text>, NoMemory>
    ensures { IfOk result (λ name. name ≡ parent_name slots.now slot.now) }
{
    match slot.parent {
        Some(at) => Ok(Some(Text::new(alloc, name_at(slots, at))?)),
        None => Ok(None),
    }
}
