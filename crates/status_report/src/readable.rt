ghost use Rattle.std.specs.Prelude.{◌≡◌, ◌++◌, [], IfOk, OnOk, codes, decimal, option_map};
ghost use Rattle.std.specs.List.{enumerate_from, flat_map};
ghost use Rattle.std.specs.Option.{option_map_or};
ghost use Rattle.hex.specs.Hex.{encode_lower};
ghost use Rattle.report_lines.specs.Lines.{line, line_if_any, text_if};
ghost use Rattle.slot_status.specs.Books.{record_content};
ghost use Rattle.slot_status.specs.Records.{record_at};
ghost use Rattle.system_conf.specs.Reads.{system_configuration};
ghost use Rattle.status_report.specs.Texts as spec;
ghost use Rattle.status_report.specs.Words.{booted_word, shown_at, shown_slot, time_word};

use crate::StatusView;
use crate::words::{boot_status_at, parent_name, state_at};
use report_lines::{decimal, write_line, write_line_if_any, write_word_if_any};
use slot_graph::Booted;
use slot_status::{SlotRecord, StatusBook};
use std::alloc::{AllocError, Global};
use system_conf::{Slot, System};
use updater_text::{Digest, NoMemory, Text};

/// Writes what there is to tell of the slots, for a reader.
#[tactic(auto, unfolding(crate::specs::Texts::readable))]
pub fn write_readable(
    alloc: Global,
    out: &mut Vec<u8>,
    system: &System,
    view: &StatusView,
    detailed: bool,
) -> Result<(), NoMemory>
    ensures { OnOk result (out.new.items ≡ out.old.items ++ spec.readable (system_configuration system.now) view.now detailed) }
{
    write_system(alloc, out, system, view)?;
    write_slots(alloc, out, system, view, detailed)?;
    Ok(())
}

// Writes what there is to tell beside the slots.
#[tactic(auto, unfolding(crate::specs::Texts::system_lines))]
fn write_system(
    alloc: Global,
    out: &mut Vec<u8>,
    system: &System,
    view: &StatusView,
) -> Result<(), NoMemory>
    ensures { OnOk result (out.new.items ≡ out.old.items ++ spec.system_lines (system_configuration system.now) view.now) }
{
    let slots = system.slots.as_slice();
    write_line(out, "compatible: ", system.compatible.as_str())?;
    write_booted(alloc, out, slots, view.booted)?;
    write_primary(alloc, out, slots, view.primary)?;
    Ok(())
}

// A slot with its bootname in brackets.
fn shown_slot(alloc: Global, slot: &Slot) -> Result<Text, NoMemory>
    ensures { IfOk result (λ text. text ≡ shown_slot slot.now) }
{
    let name = slot.name.as_str();
    match &slot.bootname {
        Some(bootname) => {
            let bootname = bootname.as_str();
            Ok(Text::from_string(format!(in alloc; "{name} ({bootname})")?))
        }
        None => Text::new(alloc, name),
    }
}

// The same of the slot at a place.
fn shown_at(alloc: Global, slots: &[Slot], at: usize) -> Result<Text, NoMemory>
    ensures { IfOk result (λ text. text ≡ shown_at slots.now at) }
{
    match slots.get(at) {
        Some(slot) => shown_slot(alloc, slot),
        None => Ok(Text::empty(alloc)),
    }
}

fn write_booted(
    alloc: Global,
    out: &mut Vec<u8>,
    slots: &[Slot],
    booted: Booted,
) -> Result<(), NoMemory>
    ensures { OnOk result (out.new.items ≡ out.old.items ++ line (codes "booted: ") (booted_word (shown_at slots.now) booted)) }
{
    match booted {
        Booted::Slot(at) => {
            let shown = shown_at(alloc, slots, at)?;
            write_line(out, "booted: ", shown.as_str())?;
        }
        Booted::External => write_line(out, "booted: ", "external")?,
        Booted::Unknown => write_line(out, "booted: ", "unknown")?,
    }
    Ok(())
}

fn write_primary(
    alloc: Global,
    out: &mut Vec<u8>,
    slots: &[Slot],
    primary: Option<usize>,
) -> Result<(), NoMemory>
    ensures { OnOk result
        (out.new.items ≡ out.old.items ++ line (codes "primary: ") (option_map_or (shown_at slots.now) primary (codes "none"))) }
{
    match primary {
        Some(at) => {
            let shown = shown_at(alloc, slots, at)?;
            write_line(out, "primary: ", shown.as_str())?;
        }
        None => write_line(out, "primary: ", "none")?,
    }
    Ok(())
}

fn write_slots(
    alloc: Global,
    out: &mut Vec<u8>,
    system: &System,
    view: &StatusView,
    detailed: bool,
) -> Result<(), NoMemory>
    ensures { OnOk result
        (out.new.items ≡ out.old.items ++ flat_map (spec.slot_lines (system_configuration system.now) view.now detailed) (enumerate_from 0 system.now.slots)) }
{
    let slots = system.slots.as_slice();
    let mut at = 0;
    for slot in slots {
        write_slot(alloc, out, system, view, detailed, at, slot)?;
        at = at + 1;
    }
    Ok(())
}

#[tactic(auto, unfolding(crate::specs::Texts::slot_lines))]
fn write_slot(
    alloc: Global,
    out: &mut Vec<u8>,
    system: &System,
    view: &StatusView,
    detailed: bool,
    at: usize,
    slot: &Slot,
) -> Result<(), NoMemory>
    ensures { OnOk result (out.new.items ≡ out.old.items ++ spec.slot_lines (system_configuration system.now) view.now detailed (at, slot.now)) }
{
    write_device(out, slot)?;
    write_states(out, system, view, at, slot)?;
    write_record_if(alloc, out, detailed, &view.book, at)?;
    Ok(())
}

// Writes whether a slot runs and may be booted, and the slot that it belongs to.
#[tactic(auto, unfolding(crate::specs::Texts::state_lines))]
fn write_states(
    out: &mut Vec<u8>,
    system: &System,
    view: &StatusView,
    at: usize,
    slot: &Slot,
) -> Result<(), AllocError>
    ensures { OnOk result (out.new.items ≡ out.old.items ++ spec.state_lines (system_configuration system.now) view.now (at, slot.now)) }
{
    let parent = parent_name(system.slots.as_slice(), slot.parent);
    write_line(out, "  state: ", state_at(view, at))?;
    write_line_if_any(out, "  bootname: ", &slot.bootname)?;
    write_word_if_any(out, "  boot status: ", boot_status_at(view, at))?;
    write_word_if_any(out, "  parent: ", parent)?;
    Ok(())
}

// Writes what the configuration has of a slot.
#[tactic(auto, unfolding(crate::specs::Texts::device_lines))]
fn write_device(out: &mut Vec<u8>, slot: &Slot) -> Result<(), AllocError>
    ensures { OnOk result (out.new.items ≡ out.old.items ++ spec.device_lines slot.now) }
{
    write_line(out, "slot ", slot.name.as_str())?;
    write_line(out, "  device: ", slot.device.as_str())?;
    write_line(out, "  type: ", slot.kind.word())?;
    Ok(())
}

// Writes what the status file has of the slot at a place, where so.
#[tactic(auto, unfolding(crate::specs::Texts::record_lines))]
fn write_record_if(
    alloc: Global,
    out: &mut Vec<u8>,
    detailed: bool,
    book: &StatusBook,
    at: usize,
) -> Result<(), NoMemory>
    ensures { OnOk result (out.new.items ≡ out.old.items ++ text_if detailed (spec.record_lines (record_at book.now at))) }
{
    if detailed && at < book.len() {
        write_record(alloc, out, book.slot_record(at))?;
    }
    Ok(())
}

fn write_record(alloc: Global, out: &mut Vec<u8>, record: &SlotRecord) -> Result<(), NoMemory>
    ensures { OnOk result (out.new.items ≡ out.old.items ++ spec.record_lines (record_content «record».now)) }
{
    write_image(alloc, out, record)?;
    write_times(alloc, out, record)?;
    Ok(())
}

// Writes of which image a slot was installed.
#[tactic(auto, unfolding(crate::specs::Texts::image_lines))]
fn write_image(alloc: Global, out: &mut Vec<u8>, record: &SlotRecord) -> Result<(), NoMemory>
    ensures { OnOk result (out.new.items ≡ out.old.items ++ spec.image_lines (record_content «record».now)) }
{
    let digest = digest_text(alloc, record.digest)?;
    let size = size_text(alloc, record.size)?;
    write_line_if_any(out, "  status: ", &record.status)?;
    write_line_if_any(out, "  sha256: ", &digest)?;
    write_line_if_any(out, "  size: ", &size)?;
    Ok(())
}

// Writes when and how often it was installed and activated.
#[tactic(auto, unfolding(crate::specs::Texts::time_lines))]
fn write_times(alloc: Global, out: &mut Vec<u8>, record: &SlotRecord) -> Result<(), NoMemory>
    ensures { OnOk result (out.new.items ≡ out.old.items ++ spec.time_lines (record_content «record».now)) }
{
    let installed = time_text(alloc, &record.installed_time, record.installed_count)?;
    let activated = time_text(alloc, &record.activated_time, record.activated_count)?;
    write_line_if_any(out, "  installed: ", &installed)?;
    write_line_if_any(out, "  activated: ", &activated)?;
    Ok(())
}

fn digest_text(alloc: Global, digest: Option<Digest>) -> Result<Option<Text>, NoMemory>
    ensures { IfOk result (λ text. text ≡ option_map (λ d. encode_lower d.0) digest) }
{
    match digest {
        Some(digest) => Ok(Some(digest.hex(alloc)?)),
        None => Ok(None),
    }
}

fn size_text(alloc: Global, size: Option<u64>) -> Result<Option<Text>, NoMemory>
    ensures { IfOk result (λ text. text ≡ option_map decimal size) }
{
    match size {
        Some(size) => Ok(Some(decimal(alloc, size)?)),
        None => Ok(None),
    }
}

// A time with a count behind it, where there is a time.
fn time_text(alloc: Global, time: &Option<Text>, count: u32) -> Result<Option<Text>, NoMemory>
    ensures { IfOk result (λ text. text ≡ option_map (time_word count) time.now) }
{
    match time {
        Some(time) => {
            let time = time.as_str();
            let text = format!(in alloc; "{time} ({count})")?;
            Ok(Some(Text::from_string(text)))
        }
        None => Ok(None),
    }
}
