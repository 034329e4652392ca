ghost use Rattle.std.specs.Prelude.{◌≡◌, ◌<◌, ◌↔◌, IfOk, IsTrue, codes, length, option_map};
ghost use Rattle.machine.specs.Calls.{Counted, call_fault};
ghost use Rattle.machine.specs.Frames.{Unchanged};
ghost use Rattle.machine.specs.Past.{Fails, world_now};
ghost use Rattle.machine.specs.Runs.{ReadsOnce};
ghost use Rattle.slot_graph.specs.Booted.{state_of};
ghost use Rattle.running_system.specs.Running.{Answers, LiesInBooted, booted_by_text, file_within, is_in_use, what_runs};

use crate::file_within;
use machine::{CallStop, Fault, Machine};
use slot_graph::{Booted, SlotState, booted, states};
use std::alloc::Global;
use system_conf::System;
use updater_text::NoMemory;

/// The kernel's command line (proc_cmdline(5)), and how many bytes of it are read.
const CMDLINE: &str = "/proc/cmdline";

const CMDLINE_LIMIT: u64 = 65_536;

// What is booted by the kernel's command line.
fn what_kernel_tells<M: Machine>(
    alloc: Global,
    m: &mut M,
    system: &System,
) -> Result<Booted, CallStop>
    ensures unchanged { Unchanged M.tells (M.past m.old) (M.past m.new) }
    ensures once { IsTrue M.tells → ReadsOnce (codes "/proc/cmdline") (M.past m.old) (M.past m.new) }
    ensures answers { let line = file_within (world_now (M.past m.old)) (codes "/proc/cmdline") 65536 in
        Answers M.tells (booted_by_text system.now.slots line) result }
    ensures fails { Fails M.tells (M.past m.old) (M.past m.new) (call_fault Fault.Read result) }
    ensures counts { Counted (M.faults m.old) (M.faults m.new) (M.wants m.old) (M.wants m.new) result }
{
    match file_within(alloc, m, CMDLINE, CMDLINE_LIMIT) {
        Ok(Some(line)) => Ok(booted(system, line.as_slice(), None)),
        Ok(None) => Ok(Booted::Unknown),
        Err(stop) => Err(stop),
    }
}

/// What is booted: by the given name, or else by `/proc/cmdline`; `Unknown` where that is missing or
/// longer than 65,536 bytes. A given name needs no read; else there is one at most. It gives `Failed` where the read fails, and
/// `NoMemory` where memory is out.
pub fn what_runs<M: Machine>(
    alloc: Global,
    m: &mut M,
    system: &System,
    given: Option<&str>,
) -> Result<Booted, CallStop>
    ensures unchanged { Unchanged M.tells (M.past m.old) (M.past m.new) }
    ensures once { IsTrue M.tells → ReadsOnce (codes "/proc/cmdline") (M.past m.old) (M.past m.new) }
    ensures answers { let name = option_map (λ name. name.now) given.entry in
        Answers M.tells (what_runs system.now.slots name (world_now (M.past m.old))) result }
    ensures fails { Fails M.tells (M.past m.old) (M.past m.new) (call_fault Fault.Read result) }
    ensures counts { Counted (M.faults m.old) (M.faults m.new) (M.wants m.old) (M.wants m.new) result }
{
    match given {
        Some(_) => Ok(booted(system, &[], given)),
        None => what_kernel_tells(alloc, m, system),
    }
}

/// Whether a slot of this state is in use.
pub fn is_in_use(state: SlotState) -> bool
    ensures { result ≡ is_in_use state }
{
    match state {
        SlotState::Booted | SlotState::Active => true,
        SlotState::Inactive => false,
    }
}

/// Whether the slot at a place is in use, by what is booted. Where that is `Unknown` no slot counts
/// as in use: look at it first.
pub fn in_use(alloc: Global, system: &System, booted: Booted, at: usize) -> Result<bool, NoMemory>
    requires { at < length system.now.slots }
    ensures lies { IfOk result (λ used. IsTrue used ↔ LiesInBooted system.now.slots booted at) }
    ensures value { IfOk result (λ used. used ≡ is_in_use (state_of system.now.slots booted at)) }
{
    let states = states(alloc, system, booted)?;
    match states.as_slice().get(at) {
        Some(state) => Ok(is_in_use(*state)),
        None => Ok(true),
    }
}
