ghost use Rattle.std.specs.Prelude.{◌≡◌, IfOk, true};
ghost use Rattle.machine.specs.Stops.{StopCounted};
ghost use Rattle.system_conf.specs.Reads.{system_configuration};
ghost use Rattle.boot_backends.specs.Marked.{is_boot_name};
ghost use Rattle.slot_marks.specs.Marking.{MarksName, boot_stop, bootname_text, line_of, mark_of};

use crate::MarkRefusal;
use boot_backends::{BootRefusal, make_primary, mark_bad, mark_good};
use machine::{Machine, Stop};
use std::alloc::Global;
use system_conf::{Slot, System};
use updater_text::{NoMemory, Text};

/// What a slot is marked as.
#[derive(Clone, Copy, Debug)]
pub enum Action {
    /// It works.
    Good,
    /// It is not to be booted.
    Bad,
    /// It is the one to be booted next.
    Active,
}

/// A slot that was marked: its place among the slots, in one line what was done, and whether there
/// is a status file that had to be read and could not be.
#[derive(Debug, Drop)]
pub struct Marked {
    pub slot: usize,
    pub line: Text,
    pub book_unread: bool,
}

/// What was done to the slot of this name.
pub fn line_of(alloc: Global, action: Action, name: &str) -> Result<Text, NoMemory>
    ensures { IfOk result (λ line. line ≡ line_of action name.now) }
{
    let line = match action {
        Action::Good => format!(in alloc; "marked slot {name} as good")?,
        Action::Bad => format!(in alloc; "marked slot {name} as bad")?,
        Action::Active => format!(in alloc; "activated slot {name}")?,
    };
    Ok(Text::from_string(line))
}

/// The bootname of the slot at a place; empty where it has none.
pub fn bootname_text(slots: &[Slot], at: usize) -> &str
    ensures { result.now ≡ bootname_text slots.now at }
{
    match slots.get(at) {
        Some(slot) => match &slot.bootname {
            Some(name) => name.as_str(),
            None => "",
        },
        None => "",
    }
}

/// Marks a bootname, by one call.
pub fn mark_name<M: Machine>(
    alloc: Global,
    m: &mut M,
    system: &System,
    action: Action,
    name: &str,
) -> Result<(), Stop<BootRefusal>>
    requires { is_boot_name system.now.slots name.now ≡ true }
    ensures marks { MarksName M.tells (system_configuration system.now) (mark_of action) name.now (M.past m.old) (M.past m.new) result }
    ensures counts { StopCounted (M.faults m.old) (M.faults m.new) (M.wants m.old) (M.wants m.new) result }
{
    match action {
        Action::Good => mark_good(alloc, m, system, name),
        Action::Bad => mark_bad(alloc, m, system, name),
        Action::Active => make_primary(alloc, m, system, name),
    }
}

/// A stop of the boot loader's programs.
pub fn boot_stop(stop: Stop<BootRefusal>) -> Stop<MarkRefusal>
    ensures { result ≡ boot_stop stop }
{
    match stop {
        Stop::Refused(refusal) => Stop::Refused(MarkRefusal::Boot(refusal)),
        Stop::Outside(kind) => Stop::Outside(kind),
        Stop::NoMemory => Stop::NoMemory,
    }
}
