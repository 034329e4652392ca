ghost use Rattle.std.specs.Prelude.{◌≡◌, option_map, position};
ghost use Rattle.std.specs.Str.{bytes_eq};
ghost use Rattle.system_conf.specs.Values.{is_at};
ghost use Rattle.slot_graph.specs.Booted.{IsBooted, booted_of, root_booted, slot_in_line, slot_meant, slot_on};

use crate::Booted;
use crate::kernel::{has_word, value_behind};
use system_conf::{Slot, System, root_of};

// Whether a slot has this bootname.
fn has_bootname(slot: &Slot, name: &[u8]) -> bool
    ensures { result ≡ is_at slot.now.bootname name.now }
{
    match &slot.bootname {
        Some(bootname) => name == bootname.as_bytes(),
        None => false,
    }
}

// The place of the slot with this bootname.
fn slot_booted_as(slots: &[Slot], name: &[u8]) -> Option<usize>
    ensures { result ≡ position (λ s. is_at s.bootname name.now) slots.now }
{
    slots.iter().position(|slot| has_bootname(slot, name))
}

// The place of the slot of this name.
fn slot_called(slots: &[Slot], name: &[u8]) -> Option<usize>
    ensures { result ≡ position (λ s. bytes_eq s.name name.now) slots.now }
{
    slots.iter().position(|slot| slot.name.as_bytes() == name)
}

// The place of the slot with this bootname, or else of the slot of this name.
fn slot_meant(slots: &[Slot], name: &[u8]) -> Option<usize>
    ensures { result ≡ slot_meant slots.now name.now }
{
    match slot_booted_as(slots, name) {
        Some(at) => Some(at),
        None => slot_called(slots, name),
    }
}

// The place of the slot on this device.
fn slot_on(slots: &[Slot], device: &[u8]) -> Option<usize>
    ensures { result ≡ slot_on slots.now device.now }
{
    slots
        .iter()
        .position(|slot| slot.device.as_bytes() == device)
}

// The root of the slot that is meant, where one is.
fn root_booted(slots: &[Slot], slot: Option<usize>) -> Booted
    ensures { result ≡ root_booted slots.now slot }
{
    match slot {
        Some(at) => Booted::Slot(root_of(slots, at)),
        None => Booted::Unknown,
    }
}

// The place of the slot that a command line means by a word for the slot, or else by one for the
// device.
fn slot_in_line(slots: &[Slot], cmdline: &[u8]) -> Option<usize>
    ensures { result ≡ slot_in_line slots.now cmdline.now }
{
    match value_behind(cmdline, b"rauc.slot=") {
        Some(name) => slot_meant(slots, name),
        None => slot_on(slots, value_behind(cmdline, b"root=")?),
    }
}

// What is booted, by the given name or else by the command line.
fn booted_among(slots: &[Slot], cmdline: &[u8], given: Option<&str>) -> Booted
    ensures { result ≡ booted_of slots.now cmdline.now (option_map (λ name. name.now) given.entry) }
{
    if let Some(name) = given {
        return root_booted(slots, slot_meant(slots, name.as_bytes()));
    }
    if has_word(cmdline, b"rauc.external") {
        return Booted::External;
    }
    root_booted(slots, slot_in_line(slots, cmdline))
}

/// Which slot is booted, by the given name or else by the kernel's command line (RAUC's chapter
/// Integration). A name is a bootname, or else the name of a slot; of a slot with a parent its root
/// counts. On the command line, whose words stand between blanks and line feeds, `rauc.external`
/// says that no slot is booted; else the first `rauc.slot=NAME` counts, and else the first
/// `root=DEVICE`, which is compared with the devices as text. `Unknown` where nothing matches. It
/// takes no memory.
pub fn booted(system: &System, cmdline: &[u8], given: Option<&str>) -> Booted
    ensures root { IsBooted system.now.slots cmdline.now (option_map (λ name. name.now) given.entry) result }
    ensures value { result ≡ booted_of system.now.slots cmdline.now (option_map (λ name. name.now) given.entry) }
{
    booted_among(system.slots.as_slice(), cmdline, given)
}
