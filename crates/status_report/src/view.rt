ghost use Rattle.std.specs.Prelude.{◌≡◌, IfOk, IsTrue, option_map};
ghost use Rattle.boot_backends.specs.Marked.{names_of};
ghost use Rattle.boot_backends.specs.Systems.{ReadsOnly};
ghost use Rattle.machine.specs.Past.{Fails, world_now};
ghost use Rattle.machine.specs.Stops.{StopCounted, stop_fault};
ghost use Rattle.slot_graph.specs.Booted.{states_of};
ghost use Rattle.system_conf.specs.Reads.{system_configuration};
ghost use Rattle.status_report.specs.Views.{TellsBoot, TellsVars, TellsWorld, ViewEnds, are_good, is_good, read_stop};

use boot_backends::{BootRefusal, read_vars, slot_in};
use boot_model::Vars;
use boot_state::good_of;
use machine::{CallStop, Fault, Machine, Stop};
use running_system::what_runs;
use slot_graph::{Booted, SlotState, states};
use slot_status::StatusBook;
use status_file::{StatusRead, stored_status};
use std::alloc::Global;
use system_conf::{Slot, System};
use updater_text::{Items, NoMemory, Text};

/// What there is to tell of the slots of a system, in the order of the configuration.
#[derive(Drop)]
pub struct StatusView {
    pub booted: Booted,
    /// The place of the slot that the boot loader boots next.
    pub primary: Option<usize>,
    pub states: Items<SlotState>,
    /// Whether the boot loader may boot each slot; None of a slot without a bootname.
    pub good: Items<Option<bool>>,
    pub book: StatusBook,
    /// The status file is there and cannot be read.
    pub book_unread: bool,
}

// Whether the boot loader may boot the slot, where it has a bootname.
fn is_good(system: &System, names: &[Text], vars: &Vars, slot: &Slot) -> Option<bool>
    requires { names.now ≡ names_of system.now.slots }
    ensures { result ≡ is_good system.now.boot vars.now system.now.slots slot.now }
{
    match &slot.bootname {
        Some(name) => Some(good_of(&system.boot, vars, names, name.as_str())),
        None => None,
    }
}

// The same of each slot.
fn are_good(
    alloc: Global,
    system: &System,
    names: &[Text],
    vars: &Vars,
) -> Result<Items<Option<bool>>, NoMemory>
    requires { names.now ≡ names_of system.now.slots }
    ensures { IfOk result (λ good. good ≡ are_good system.now.boot vars.now system.now.slots) }
{
    let mut good = Items::new(alloc);
    for slot in system.slots.as_slice() {
        good.push(is_good(system, names, vars, slot))?;
    }
    Ok(good)
}

// The states of the slots, as they are told.
fn states_told(alloc: Global, system: &System, booted: Booted) -> Result<Items<SlotState>, NoMemory>
    ensures { IfOk result (λ told. told ≡ states_of system.now.slots booted) }
{
    let states = states(alloc, system, booted)?;
    Ok(Items::from_vec(states))
}

// What there is to tell, by what is booted, what was read of the boot loader, and the stored book.
fn view_of(
    alloc: Global,
    system: &System,
    booted: Booted,
    vars: &Vars,
    stored: StatusRead,
) -> Result<StatusView, NoMemory>
    ensures booted { IfOk result (λ view. view.booted ≡ booted) }
    ensures states { IfOk result (λ view. view.states ≡ states_of system.now.slots booted) }
    ensures book { IfOk result (λ view. view.book ≡ stored.book) }
    ensures unread { IfOk result (λ view. view.book_unread ≡ stored.unread) }
    ensures vars { IfOk result (TellsVars (system_configuration system.now) vars.now) }
{
    let names = system.boot_names(alloc)?;
    let states = states_told(alloc, system, booted)?;
    let good = are_good(alloc, system, &names, vars)?;
    let primary = slot_in(system, &names, vars);
    Ok(StatusView {
        booted,
        primary,
        states,
        good,
        book: stored.book,
        book_unread: stored.unread,
    })
}

// A stop of a read.
fn read_stop(stop: CallStop) -> Stop<BootRefusal>
    ensures { result ≡ read_stop stop }
{
    match stop {
        CallStop::Failed => Stop::Outside(Fault::Read),
        CallStop::NoMemory => Stop::NoMemory,
    }
}

/// What there is to tell of the slots: what is booted, by the given name or else by the kernel's command
/// line; what the boot loader's programs print of its variables; and then the book of the status file. It
/// changes nothing but that these programs were run.
pub fn status<M: Machine>(
    alloc: Global,
    m: &mut M,
    system: &System,
    given: Option<&str>,
) -> Result<StatusView, Stop<BootRefusal>>
    ensures kept { IsTrue M.tells → ReadsOnly (system_configuration system.now) (M.past m.old) (M.past m.new) }
    ensures world { let name = option_map (λ name. name.now) given.entry in
        IsTrue M.tells → IfOk result (TellsWorld (system_configuration system.now) name (world_now (M.past m.old))) }
    ensures boot { IsTrue M.tells → IfOk result (TellsBoot (system_configuration system.now) (M.past m.old) (M.past m.new)) }
    ensures causes { IsTrue M.tells → ViewEnds (system_configuration system.now) (M.past m.old) (M.past m.new) result }
    ensures fails { Fails M.tells (M.past m.old) (M.past m.new) (stop_fault result) }
    ensures counts { StopCounted (M.faults m.old) (M.faults m.new) (M.wants m.old) (M.wants m.new) result }
{
    let booted = match what_runs(alloc, m, system, given) {
        Ok(booted) => booted,
        Err(stop) => return Err(read_stop(stop)),
    };
    let vars = match read_vars(alloc, m, system) {
        Ok(vars) => vars,
        Err(stop) => return Err(stop),
    };
    let stored = match stored_status(alloc, m, system) {
        Ok(stored) => stored,
        Err(stop) => return Err(read_stop(stop)),
    };
    match view_of(alloc, system, booted, &vars, stored) {
        Ok(view) => Ok(view),
        Err(NoMemory) => Err(Stop::NoMemory),
    }
}
