ghost use Rattle.std.specs.Prelude.{◌≡◌, IsTrue, IfOk, position};
ghost use Rattle.machine.specs.Past.{Fails};
ghost use Rattle.machine.specs.Stops.{StopCounted, stop_fault};
ghost use Rattle.system_conf.specs.Reads.{system_configuration};
ghost use Rattle.boot_backends.specs.Marked.{has_boot_name, names_of, primary_slot};
ghost use Rattle.boot_backends.specs.Systems.{PrimaryEnds, ReadEnds, ReadsOnly, Tells, TellsPrimary};

use crate::BootRefusal;
use crate::runs::run_commands;
use boot_commands::readings_of;
use boot_model::Vars;
use boot_state::primary_of;
use machine::{Machine, Stop};
use std::alloc::Global;
use system_conf::{Slot, System};
use updater_text::Text;

/// The variables of the system's boot loader, as its programs print them: all of GRUB's and EFI's, and
/// of the others those of the bootnames. They change nothing. `Program` and `Output` come as with
/// `mark_bad`.
pub fn read_vars<M: Machine>(
    alloc: Global,
    m: &mut M,
    system: &System,
) -> Result<Vars, Stop<BootRefusal>>
    ensures tells { IsTrue M.tells → IfOk result (Tells (system_configuration system.now) (M.past m.old) (M.past m.new)) }
    ensures kept { IsTrue M.tells → ReadsOnly (system_configuration system.now) (M.past m.old) (M.past m.new) }
    ensures causes { IsTrue M.tells → ReadEnds (system_configuration system.now) (M.past m.old) (M.past m.new) result }
    ensures fails { Fails M.tells (M.past m.old) (M.past m.new) (stop_fault result) }
    ensures counts { StopCounted (M.faults m.old) (M.faults m.new) (M.wants m.old) (M.wants m.new) result }
{
    let names = system.boot_names(alloc)?;
    let commands = readings_of(alloc, &system.boot, &names)?;
    run_commands(alloc, m, commands.as_slice())
}

fn has_boot_name(slot: &Slot, name: &str) -> bool
    ensures { result ≡ has_boot_name name.now slot.now }
{
    match &slot.bootname {
        Some(other) => other.as_str() == name,
        None => false,
    }
}

fn slot_with(slots: &[Slot], name: &str) -> Option<usize>
    ensures { result ≡ position (has_boot_name name.now) slots.now }
{
    slots.iter().position(|slot| has_boot_name(slot, name))
}

/// The place of the slot that the boot loader boots next, by these variables; None where it boots none
/// of the slots. `names` are the system's bootnames.
pub fn slot_in(system: &System, names: &[Text], vars: &Vars) -> Option<usize>
    requires { names.now ≡ names_of system.now.slots }
    ensures { result ≡ primary_slot system.now.boot vars.now system.now.slots }
{
    let at = primary_of(&system.boot, vars, names)?;
    let name = names.get(at)?;
    slot_with(system.slots.as_slice(), name.as_str())
}

/// The place of the slot that the boot loader boots next, by the variables that `read_vars` reads; None
/// where it boots none of the slots, or tells none.
pub fn primary<M: Machine>(
    alloc: Global,
    m: &mut M,
    system: &System,
) -> Result<Option<usize>, Stop<BootRefusal>>
    ensures tells { IsTrue M.tells → IfOk result (TellsPrimary (system_configuration system.now) (M.past m.old) (M.past m.new)) }
    ensures kept { IsTrue M.tells → ReadsOnly (system_configuration system.now) (M.past m.old) (M.past m.new) }
    ensures causes { IsTrue M.tells → PrimaryEnds (system_configuration system.now) (M.past m.old) (M.past m.new) result }
    ensures fails { Fails M.tells (M.past m.old) (M.past m.new) (stop_fault result) }
    ensures counts { StopCounted (M.faults m.old) (M.faults m.new) (M.wants m.old) (M.wants m.new) result }
{
    let names = system.boot_names(alloc)?;
    let read = read_vars(alloc, m, system)?;
    Ok(slot_in(system, &names, &read))
}
