ghost use Rattle.std.specs.Prelude.{◌≡◌, ◌<◌, ◌^◌, ◌++◌, [], IfOk, OnOk, codes, length, string_bytes, option_map, unwrap_or};
ghost use Rattle.std.specs.Option.{option_map_or};
ghost use Rattle.std.specs.List.{enumerate_from, flat_map};
ghost use Rattle.report_lines.specs.Lines.{setting};
ghost use Rattle.system_conf.specs.Reads.{system_configuration};
ghost use Rattle.system_conf.specs.Slots.{name_at};
ghost use Rattle.status_report.specs.Texts as spec;
ghost use Rattle.status_report.specs.Words as word;

use crate::StatusView;
use crate::words::{boot_status_at, state_at};
use report_lines::{decimal, text_or_none, write_numbered, write_setting};
use slot_graph::Booted;
use std::alloc::{AllocError, Global};
use system_conf::{Slot, System, name_at};
use updater_text::{NoMemory, Text};

/// Writes what there is to tell of the slots, for a shell.
#[tactic(auto, unfolding(crate::specs::Texts::shell))]
pub fn write_shell(
    alloc: Global,
    out: &mut Vec<u8>,
    system: &System,
    view: &StatusView,
) -> Result<(), NoMemory>
    ensures { OnOk result (out.new.items ≡ out.old.items ++ spec.shell (system_configuration system.now) view.now) }
{
    write_system(alloc, out, system, view)?;
    write_numbers(alloc, out, system)?;
    write_slots(alloc, out, system, view)?;
    Ok(())
}

// Writes what there is to tell beside the slots.
#[tactic(auto, unfolding(crate::specs::Texts::system_settings))]
fn write_system(
    alloc: Global,
    out: &mut Vec<u8>,
    system: &System,
    view: &StatusView,
) -> Result<(), NoMemory>
    ensures { OnOk result (out.new.items ≡ out.old.items ++ spec.system_settings (system_configuration system.now) view.now) }
{
    let slots = system.slots.as_slice();
    let booted = booted_name(slots, view.booted);
    let primary = primary_name(slots, view.primary);
    write_setting(
        alloc,
        out,
        "RAUC_SYSTEM_COMPATIBLE",
        system.compatible.as_str(),
    )?;
    write_setting(alloc, out, "RAUC_SYSTEM_BOOTED_SLOT", booted)?;
    write_setting(alloc, out, "RAUC_BOOT_PRIMARY", primary)?;
    Ok(())
}

fn booted_name(slots: &[Slot], booted: Booted) -> &str
    ensures { result.now ≡ word.booted_word (name_at slots.entry.now) booted }
{
    match booted {
        Booted::Slot(at) => name_at(slots, at),
        Booted::External => "external",
        Booted::Unknown => "unknown",
    }
}

fn primary_name(slots: &[Slot], primary: Option<usize>) -> &str
    ensures { result.now ≡ option_map_or (name_at slots.entry.now) primary [] }
{
    match primary {
        Some(at) => name_at(slots, at),
        None => "",
    }
}

// Writes the numbers of the slots, from 1.
fn write_numbers(alloc: Global, out: &mut Vec<u8>, system: &System) -> Result<(), NoMemory>
    ensures { OnOk result
        (out.new.items ≡ out.old.items ++ setting (codes "RAUC_SYSTEM_SLOTS") (word.numbers (length system.now.slots))) }
{
    let numbers = numbers(alloc, system.slots.as_slice())?;
    write_setting(alloc, out, "RAUC_SYSTEM_SLOTS", numbers.as_str())
}

// The numbers of the slots from 1, with a blank between each two.
fn numbers(alloc: Global, slots: &[Slot]) -> Result<Text, NoMemory>
    ensures { IfOk result (λ text. text ≡ word.numbers (length slots.now)) }
{
    let mut text = String::new(alloc);
    let mut number = 1;
    for _slot in slots {
        let next = next_number(alloc, number)?;
        text.push_str(next.as_str())?;
        number = number + 1;
    }
    Ok(Text::from_string(text))
}

// A number, with a blank before it where it is not the first.
fn next_number(alloc: Global, number: u64) -> Result<String, AllocError>
    ensures { IfOk result (λ text. string_bytes text ≡ word.next_number number) }
{
    if number == 1 {
        format!(in alloc; "{number}")
    } else {
        format!(in alloc; " {number}")
    }
}

fn write_slots(
    alloc: Global,
    out: &mut Vec<u8>,
    system: &System,
    view: &StatusView,
) -> Result<(), NoMemory>
    ensures { OnOk result
        (out.new.items ≡ out.old.items ++ flat_map (spec.slot_settings (system_configuration system.now) view.now) (enumerate_from 0 system.now.slots)) }
{
    let slots = system.slots.as_slice();
    let mut at = 0;
    for slot in slots {
        write_slot(alloc, out, system, view, at, slot)?;
        at = at + 1;
    }
    Ok(())
}

#[tactic(auto, unfolding(crate::specs::Texts::slot_settings))]
fn write_slot(
    alloc: Global,
    out: &mut Vec<u8>,
    system: &System,
    view: &StatusView,
    at: usize,
    slot: &Slot,
) -> Result<(), NoMemory>
    requires { at < 2 ^ 63 }
    ensures { OnOk result (out.new.items ≡ out.old.items ++ spec.slot_settings (system_configuration system.now) view.now (at, slot.now)) }
{
    let number = at as u64 + 1;
    write_device(alloc, out, view, number, at, slot)?;
    write_boot(alloc, out, system, view, number, at, slot)?;
    Ok(())
}

// Writes the name of a slot, its state and its device.
#[tactic(auto, unfolding(crate::specs::Texts::device_settings))]
fn write_device(
    alloc: Global,
    out: &mut Vec<u8>,
    view: &StatusView,
    number: u64,
    at: usize,
    slot: &Slot,
) -> Result<(), NoMemory>
    ensures { OnOk result (out.new.items ≡ out.old.items ++ spec.device_settings view.now number (at, slot.now)) }
{
    write_numbered(alloc, out, "RAUC_SLOT_NAME_", number, slot.name.as_str())?;
    write_numbered(alloc, out, "RAUC_SLOT_STATE_", number, state_at(view, at))?;
    write_numbered(
        alloc,
        out,
        "RAUC_SLOT_DEVICE_",
        number,
        slot.device.as_str(),
    )?;
    Ok(())
}

// Writes its bootname, the slot that it belongs to, and whether it may be booted.
#[tactic(auto, unfolding(crate::specs::Texts::boot_settings))]
fn write_boot(
    alloc: Global,
    out: &mut Vec<u8>,
    system: &System,
    view: &StatusView,
    number: u64,
    at: usize,
    slot: &Slot,
) -> Result<(), NoMemory>
    ensures { OnOk result (out.new.items ≡ out.old.items ++ spec.boot_settings (system_configuration system.now) view.now number (at, slot.now)) }
{
    let bootname = text_or_none(&slot.bootname);
    let parent = parent_or_none(system.slots.as_slice(), slot.parent);
    let boot_status = boot_status_or_none(view, at);
    write_numbered(alloc, out, "RAUC_SLOT_BOOTNAME_", number, bootname)?;
    write_numbered(alloc, out, "RAUC_SLOT_PARENT_", number, parent)?;
    write_numbered(alloc, out, "RAUC_SLOT_BOOT_STATUS_", number, boot_status)?;
    Ok(())
}

fn parent_or_none(slots: &[Slot], parent: Option<usize>) -> &str
    ensures { result.now ≡ unwrap_or (option_map (name_at slots.entry.now) parent) [] }
{
    match parent {
        Some(at) => name_at(slots, at),
        None => "",
    }
}

fn boot_status_or_none(view: &StatusView, at: usize) -> &str
    ensures { result.now ≡ unwrap_or (word.boot_status_at view.entry.now at) [] }
{
    match boot_status_at(view, at) {
        Some(word) => word,
        None => "",
    }
}
