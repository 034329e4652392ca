ghost use Rattle.std.specs.Prelude.{◌≡◌, None, Ok, Some, is_some, option_map, true};
ghost use Rattle.machine.specs.Past.{world_now};
ghost use Rattle.machine.specs.Stops.{StopCounted};
ghost use Rattle.system_conf.specs.Reads.{system_configuration};
ghost use Rattle.slot_marks.specs.Answers.{MarkedFor, MarkedThere, Marks};
ghost use Rattle.slot_marks.specs.Choice.{bootname_at};
ghost use Rattle.slot_marks.specs.Marking.{choice};
ghost use Rattle.slot_marks.specs.Noting.{noted_by};

use crate::choosing::choose;
use crate::naming::{boot_stop, bootname_text, line_of, mark_name};
use crate::noting::{mark_and_put, prepare};
use crate::{Action, MarkRefusal, Marked};
use machine::{Machine, Stop};
use std::alloc::Global;
use system_conf::{System, name_at};

// Marks the slot at a place, with no status file to be written.
fn mark_slot<M: Machine>(
    alloc: Global,
    m: &mut M,
    system: &System,
    action: Action,
    at: usize,
) -> Result<Marked, Stop<MarkRefusal>>
    requires { is_some (bootname_at system.now.slots at) ≡ true }
    ensures marks { Marks M.tells (system_configuration system.now) action None (Ok at) (M.past m.old) (M.past m.new) result }
    ensures named { MarkedThere system.now.slots action at result }
    ensures counts { StopCounted (M.faults m.old) (M.faults m.new) (M.wants m.old) (M.wants m.new) result }
{
    let slots = system.slots.as_slice();
    let line = match line_of(alloc, action, name_at(slots, at)) {
        Ok(line) => line,
        Err(_) => return Err(Stop::NoMemory),
    };
    match mark_name(alloc, m, system, action, bootname_text(slots, at)) {
        Ok(()) => Ok(Marked {
            slot: at,
            line,
            book_unread: false,
        }),
        Err(stop) => Err(boot_stop(stop)),
    }
}

// Makes the slot at a place the one to be booted next, and notes that in the status file.
fn activate<M: Machine>(
    alloc: Global,
    m: &mut M,
    system: &System,
    path: &str,
    at: usize,
) -> Result<Marked, Stop<MarkRefusal>>
    requires { is_some (bootname_at system.now.slots at) ≡ true }
    ensures marks { Marks M.tells (system_configuration system.now) Action.Active (Some path.now) (Ok at) (M.past m.old) (M.past m.new) result }
    ensures named { MarkedThere system.now.slots Action.Active at result }
    ensures counts { StopCounted (M.faults m.old) (M.faults m.new) (M.wants m.old) (M.wants m.new) result }
{
    let slots = system.slots.as_slice();
    let line = match line_of(alloc, Action::Active, name_at(slots, at)) {
        Ok(line) => line,
        Err(_) => return Err(Stop::NoMemory),
    };
    let noted = match prepare(alloc, m, system, path, at) {
        Ok(noted) => noted,
        Err(stop) => return Err(stop),
    };
    let name = bootname_text(slots, at);
    match mark_and_put(alloc, m, system, name, path, noted.text.as_slice()) {
        Ok(()) => Ok(Marked {
            slot: at,
            line,
            book_unread: noted.unread,
        }),
        Err(stop) => Err(stop),
    }
}

// Marks the slot at a place.
fn mark_at<M: Machine>(
    alloc: Global,
    m: &mut M,
    system: &System,
    action: Action,
    at: usize,
) -> Result<Marked, Stop<MarkRefusal>>
    requires { is_some (bootname_at system.now.slots at) ≡ true }
    ensures marks { Marks M.tells (system_configuration system.now) action (noted_by (system_configuration system.now) action) (Ok at) (M.past m.old) (M.past m.new) result }
    ensures named { MarkedThere system.now.slots action at result }
    ensures counts { StopCounted (M.faults m.old) (M.faults m.new) (M.wants m.old) (M.wants m.new) result }
{
    match action {
        Action::Good | Action::Bad => mark_slot(alloc, m, system, action, at),
        Action::Active => match &system.status_file {
            Some(path) => activate(alloc, m, system, path.as_str(), at),
            None => mark_slot(alloc, m, system, action, at),
        },
    }
}

/// Marks the slot that a word names, as `slot_chosen` has it, by the programs of the boot loader.
/// What is booted is told by `given`, or else by the kernel's command line, which is read only where
/// the word is `booted` or `other`. A slot that is activated is noted in the status file, where the
/// system has one: that is read before, then the clock, and after the boot loader's programs the new
/// text is put in its place. After the refusals of the choice come those of the slot's record
/// (`Status`), before any program is run, and those of the programs (`Boot`).
pub fn mark<M: Machine>(
    alloc: Global,
    m: &mut M,
    system: &System,
    given: Option<&str>,
    action: Action,
    who: &str,
) -> Result<Marked, Stop<MarkRefusal>>
    ensures marks { let name = option_map (λ name. name.now) given.entry in
        let slot = choice system.now.slots name who.now (world_now (M.past m.old)) in
        let noted = noted_by (system_configuration system.now) action in
        Marks M.tells (system_configuration system.now) action noted slot (M.past m.old) (M.past m.new) result }
    ensures named { MarkedFor system.now.slots action who.now result }
    ensures counts { StopCounted (M.faults m.old) (M.faults m.new) (M.wants m.old) (M.wants m.new) result }
{
    match choose(alloc, m, system, given, who) {
        Ok(at) => mark_at(alloc, m, system, action, at),
        Err(stop) => Err(stop),
    }
}
