ghost use Rattle.std.specs.Prelude.{◌≡◌, IsTrue, None, option_map};
ghost use Rattle.machine.specs.Calls.{Counted, call_fault};
ghost use Rattle.machine.specs.Frames.{Unchanged};
ghost use Rattle.machine.specs.Past.{Fails, world_now};
ghost use Rattle.machine.specs.Stops.{StopCounted};
ghost use Rattle.running_system.specs.Running.{Answers};
ghost use Rattle.status_file.specs.Clock.{clock_since};
ghost use Rattle.slot_marks.specs.Marking.{ChosenFor, Chooses, booted_for, choice};

use crate::{MarkRefusal, slot_chosen};
use machine::{CallStop, Fault, Machine, Stop};
use running_system::what_runs;
use slot_graph::Booted;
use std::alloc::Global;
use system_conf::System;
use updater_text::Lack;

// What is booted, where the word asks for it.
fn booted_for<M: Machine>(
    alloc: Global,
    m: &mut M,
    system: &System,
    given: Option<&str>,
    who: &str,
) -> Result<Booted, CallStop>
    ensures unchanged { Unchanged M.tells (M.past m.old) (M.past m.new) }
    ensures silent { IsTrue M.tells → clock_since (M.past m.old) (M.past m.new) ≡ None }
    ensures answers { let name = option_map (λ name. name.now) given.entry in
        Answers M.tells (booted_for system.now.slots name who.now (world_now (M.past m.old))) result }
    ensures fails { Fails M.tells (M.past m.old) (M.past m.new) (call_fault Fault.Read result) }
    ensures counts { Counted (M.faults m.old) (M.faults m.new) (M.wants m.old) (M.wants m.new) result }
{
    if who == "booted" || who == "other" {
        what_runs(alloc, m, system, given)
    } else {
        Ok(Booted::Unknown)
    }
}

/// The place of the slot to be marked, by what runs.
pub fn choose<M: Machine>(
    alloc: Global,
    m: &mut M,
    system: &System,
    given: Option<&str>,
    who: &str,
) -> Result<usize, Stop<MarkRefusal>>
    ensures chooses { let name = option_map (λ name. name.now) given.entry in
        let slot = choice system.now.slots name who.now (world_now (M.past m.old)) in
        Chooses M.tells slot (M.past m.old) (M.past m.new) result }
    ensures named { ChosenFor system.now.slots who.now result }
    ensures counts { StopCounted (M.faults m.old) (M.faults m.new) (M.wants m.old) (M.wants m.new) result }
{
    let booted = match booted_for(alloc, m, system, given, who) {
        Ok(booted) => booted,
        Err(CallStop::Failed) => return Err(Stop::Outside(Fault::Read)),
        Err(CallStop::NoMemory) => return Err(Stop::NoMemory),
    };
    match slot_chosen(alloc, system, booted, who) {
        Ok(at) => Ok(at),
        Err(Lack::Refused(refusal)) => Err(Stop::Refused(refusal)),
        Err(Lack::NoMemory) => Err(Stop::NoMemory),
    }
}
