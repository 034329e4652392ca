ghost use Rattle.std.specs.Prelude.{◌≡◌, ◌++◌, [], ◌∷◌, IfOk, OnOk, filter, map};
ghost use Rattle.std.specs.List.{IsDistinct};
ghost use Rattle.std.specs.Str.{bytes_eq};
ghost use Rattle.conf_forms.specs.SlotNames as spec;

use crate::class::is_class;
use keyfile::KeyFile;
use std::alloc::Global;
use updater_text::{NoMemory, read_number};

/// The group of a slot, with the parts of its name.
#[derive(Clone, Copy)]
pub struct SlotGroup<'a> {
    /// `slot.<class>.<index>`
    pub group: &'a str,
    /// `<class>.<index>`
    pub name: &'a str,
    /// 1 to 255 letters, digits, `-` and `_`.
    pub class: &'a str,
    /// Which of the slots of its class it is.
    pub index: u32,
}

// The class and the index in a slot's name.
fn split_name(name: &str) -> Option<(&str, u32)>
    ensures { spec.IsSplitName name.entry.now result }
{
    let (class, index) = name.split_once('.')?;
    if !is_class(class) {
        return None;
    }
    let index = index_in(index)?;
    Some((class, index))
}

/// Whether a text has the form of a slot's name, `<class>.<index>`: a class (`is_class`), and a decimal
/// number below 2^32 without leading zeros. It takes no memory.
pub fn is_slot_name(name: &str) -> bool
    ensures { result ≡ spec.is_slot_name name.now }
{
    split_name(name).is_some()
}

/// The parts of a slot's group; None where the group has another name.
pub fn slot_group(group: &str) -> Option<SlotGroup<'_>>
    ensures { spec.IsSlotGroup group.entry.now result }
{
    let name = group.strip_prefix("slot.")?;
    let (class, index) = split_name(name)?;
    Some(SlotGroup {
        group,
        name,
        class,
        index,
    })
}

/// The groups of the slots, in file order. The names of a file's groups differ.
pub fn slot_groups(alloc: Global, file: &KeyFile) -> Result<Vec<SlotGroup<'_>>, NoMemory>
    ensures differ { IsDistinct bytes_eq (map (λ g. g.0) file.entry.now) }
    ensures read { IfOk result (λ found. map spec.parts found.items ≡ spec.slot_parts file.entry.now) }
{
    let mut found = Vec::new(alloc);
    for at in 0..file.groups() {
        if let Some(group) = file.group(at) {
            push_slot(&mut found, group)?;
        }
    }
    Ok(found)
}

// Puts a group at the end where it is a slot's.
fn push_slot<'a>(found: &mut Vec<SlotGroup<'a>>, group: &'a str) -> Result<(), NoMemory>
    ensures { OnOk result (map spec.parts found.new.items ≡ map spec.parts found.old.items ++ map spec.parts_of (filter spec.is_slot_group (group.entry.now ∷ []))) }
{
    if let Some(slot) = slot_group(group) {
        found.push(slot)?;
    }
    Ok(())
}

// The number that decimal digits without leading zeros spell.
fn index_in(text: &str) -> Option<u32>
    ensures { result ≡ spec.index_in text.now }
{
    let digits = text.as_bytes();
    if digits.len() != 1 && digits.first() == Some(&b'0') {
        return None;
    }
    let number = read_number(digits)?;
    u32::try_from(number).ok()
}
