ghost use Rattle.std.specs.Prelude.{◌≡◌, IfOk, position};
ghost use Rattle.std.specs.Str.{bytes_eq};
ghost use Rattle.conf_forms.specs.SlotNames.{parts, parts_of};
ghost use Rattle.system_conf.specs.Slots as spec;

use crate::values::flag_in;
use crate::{Reader, Slot, SlotKind};
use conf_forms::{Form, SlotGroup, value_with_form};
use keyfile::KeyFile;
use std::alloc::Global;
use updater_text::{Items, NoMemory, Text, text_if_any};

/// The slots of a configuration.
pub fn read_slots(reader: &Reader<'_>) -> Result<Items<Slot>, NoMemory>
    ensures { IfOk result (λ slots. slots ≡ spec.slots_of reader.now.file.now) }
{
    let mut slots = Items::new(reader.alloc);
    for group in reader.slots {
        slots.push(read_slot(reader, group)?)?;
    }
    Ok(slots)
}

fn read_slot(reader: &Reader<'_>, slot: &SlotGroup<'_>) -> Result<Slot, NoMemory>
    requires { parts slot.now ≡ parts_of slot.now.group.now }
    ensures { IfOk result (λ read. read ≡ spec.slot_of reader.now.file.now slot.now.group.now) }
{
    let alloc = reader.alloc;
    let file = reader.file;
    let group = slot.group;
    let name = Text::new(alloc, slot.name)?;
    let class = Text::new(alloc, slot.class)?;
    let device = device_of(alloc, file, group)?;
    let bootname = text_if_any(
        alloc,
        value_with_form(file, Form::BootName, group, "bootname"),
    )?;
    let kind = slot_kind(alloc, file, group)?;
    Ok(Slot {
        name,
        class,
        index: slot.index,
        device,
        kind,
        bootname,
        parent: parent_of(reader, group),
        allow_mounted: flag_in(file, group, "allow-mounted", false),
        readonly: flag_in(file, group, "readonly", false),
        install_same: flag_in(file, group, "install-same", true),
    })
}

fn device_of(alloc: Global, file: &KeyFile, group: &str) -> Result<Text, NoMemory>
    ensures { IfOk result (λ device. device ≡ spec.device_of file.now group.now) }
{
    Text::new(
        alloc,
        value_with_form(file, Form::Path, group, "device").unwrap_or(""),
    )
}

fn slot_kind(alloc: Global, file: &KeyFile, group: &str) -> Result<SlotKind, NoMemory>
    ensures { IfOk result (λ kind. kind ≡ spec.type_of file.now group.now) }
{
    match value_with_form(file, Form::SlotType, group, "type").unwrap_or("raw") {
        "raw" => Ok(SlotKind::Raw),
        "ext4" => Ok(SlotKind::Ext4),
        "vfat" => Ok(SlotKind::Vfat),
        word => Ok(SlotKind::Unwritten(Text::new(alloc, word)?)),
    }
}

fn parent_of(reader: &Reader<'_>, group: &str) -> Option<usize>
    ensures { result ≡ spec.parent_of reader.now.file.now group.now }
{
    match reader.file.get(group, "parent") {
        Some(name) => slot_called(reader.slots, name),
        None => None,
    }
}

/// The place of the slot of this name.
pub fn slot_called(groups: &[SlotGroup<'_>], name: &str) -> Option<usize>
    ensures { result ≡ position (λ g. bytes_eq g.name.now name.now) groups.now }
{
    groups.iter().position(|group| group.name == name)
}
