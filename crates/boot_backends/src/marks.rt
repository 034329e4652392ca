ghost use Rattle.std.specs.Prelude.{◌≡◌, true, IsTrue, OnOk};
ghost use Rattle.boot_commands.specs.declared.command.Mark.TheVariants.{Bad, Good, Primary};
ghost use Rattle.boot_commands.specs.Plans.{HasDigits};
ghost use Rattle.machine.specs.Past.{Fails};
ghost use Rattle.machine.specs.Stops.{StopCounted, stop_fault};
ghost use Rattle.system_conf.specs.Reads.{system_configuration};
ghost use Rattle.boot_backends.specs.Ends.{Marks, Writes};
ghost use Rattle.boot_backends.specs.Marked.{is_boot_name, names_of};
ghost use Rattle.boot_backends.specs.Systems.{Keeps, Leads, Leaves, LeavesDown, MarkEnds};

use crate::BootRefusal;
use crate::runs::run_commands;
use boot_commands::{Command, Mark, looks_of, plan_of};
use boot_model::BootKind;
use machine::{Machine, Stop};
use std::alloc::Global;
use system_conf::System;
use updater_text::{Items, Text};

// Writes what is planned, or refuses a name that the boot loader does not have.
fn write_plan<M: Machine>(
    alloc: Global,
    m: &mut M,
    plan: Option<Items<Command>>,
    name: &str,
) -> Result<(), Stop<BootRefusal>>
    ensures ends { IsTrue M.tells → Writes plan name.now (M.past m.old) (M.past m.new) result }
    ensures fails { Fails M.tells (M.past m.old) (M.past m.new) (stop_fault result) }
    ensures counts { StopCounted (M.faults m.old) (M.faults m.new) (M.wants m.old) (M.wants m.new) result }
{
    match plan {
        Some(commands) => {
            let _ = run_commands(alloc, m, commands.as_slice())?;
            Ok(())
        }
        None => {
            let name = Text::new(alloc, name)?;
            Err(Stop::Refused(BootRefusal::Unlisted { name }))
        }
    }
}

// Marks one of the names: reads what is there, and then writes what is planned by that.
fn mark_name<M: Machine>(
    alloc: Global,
    m: &mut M,
    boot: &BootKind,
    names: &[Text],
    mark: Mark,
    name: &str,
) -> Result<(), Stop<BootRefusal>>
    requires { HasDigits boot.now }
    ensures ends { IsTrue M.tells → Marks boot.now names.now mark name.now (M.past m.old) (M.past m.new) result }
    ensures fails { Fails M.tells (M.past m.old) (M.past m.new) (stop_fault result) }
    ensures counts { StopCounted (M.faults m.old) (M.faults m.new) (M.wants m.old) (M.wants m.new) result }
{
    let looks = looks_of(alloc, boot, names, mark)?;
    let read = run_commands(alloc, m, looks.as_slice())?;
    let plan = plan_of(alloc, boot, names, mark, name, &read)?;
    write_plan(alloc, m, plan, name)
}

// Marks a bootname of the system.
fn mark<M: Machine>(
    alloc: Global,
    m: &mut M,
    system: &System,
    mark: Mark,
    name: &str,
) -> Result<(), Stop<BootRefusal>>
    ensures ends { IsTrue M.tells → Marks system.now.boot (names_of system.now.slots) mark name.now (M.past m.old) (M.past m.new) result }
    ensures fails { Fails M.tells (M.past m.old) (M.past m.new) (stop_fault result) }
    ensures counts { StopCounted (M.faults m.old) (M.faults m.new) (M.wants m.old) (M.wants m.new) result }
{
    let names = system.boot_names(alloc)?;
    mark_name(alloc, m, &system.boot, &names, mark, name)
}

/// Marks a bootname of the system bad, so that it is not booted, by the programs of its boot loader.
/// What `system.boot` says decides which these are; their words stand in `docs/boot`, a page for each
/// boot loader. `Program` comes where one ended otherwise than it may, `Output` where one printed what
/// is not in its form, `Unlisted` where EFI has no entry with the name as its label.
pub fn mark_bad<M: Machine>(
    alloc: Global,
    m: &mut M,
    system: &System,
    name: &str,
) -> Result<(), Stop<BootRefusal>>
    requires { is_boot_name system.now.slots name.now ≡ true }
    ensures leaves { IsTrue M.tells → OnOk result (Leaves (system_configuration system.now) Bad name.now (M.past m.old) (M.past m.new)) }
    ensures down { IsTrue M.tells → OnOk result (LeavesDown (system_configuration system.now) name.now (M.past m.old) (M.past m.new)) }
    ensures others { IsTrue M.tells → Keeps (system_configuration system.now) name.now (M.past m.old) (M.past m.new) }
    ensures leads { IsTrue M.tells → Leads (system_configuration system.now) Bad name.now (M.past m.old) (M.past m.new) }
    ensures causes { IsTrue M.tells → MarkEnds (system_configuration system.now) Bad name.now (M.past m.old) (M.past m.new) result }
    ensures fails { Fails M.tells (M.past m.old) (M.past m.new) (stop_fault result) }
    ensures counts { StopCounted (M.faults m.old) (M.faults m.new) (M.wants m.old) (M.wants m.new) result }
{
    mark(alloc, m, system, Mark::Bad, name)
}

/// Marks a bootname of the system good: it works. The rest is as with `mark_bad`.
pub fn mark_good<M: Machine>(
    alloc: Global,
    m: &mut M,
    system: &System,
    name: &str,
) -> Result<(), Stop<BootRefusal>>
    requires { is_boot_name system.now.slots name.now ≡ true }
    ensures leaves { IsTrue M.tells → OnOk result (Leaves (system_configuration system.now) Good name.now (M.past m.old) (M.past m.new)) }
    ensures others { IsTrue M.tells → Keeps (system_configuration system.now) name.now (M.past m.old) (M.past m.new) }
    ensures leads { IsTrue M.tells → Leads (system_configuration system.now) Good name.now (M.past m.old) (M.past m.new) }
    ensures causes { IsTrue M.tells → MarkEnds (system_configuration system.now) Good name.now (M.past m.old) (M.past m.new) result }
    ensures fails { Fails M.tells (M.past m.old) (M.past m.new) (stop_fault result) }
    ensures counts { StopCounted (M.faults m.old) (M.faults m.new) (M.wants m.old) (M.wants m.new) result }
{
    mark(alloc, m, system, Mark::Good, name)
}

/// Makes a bootname of the system the one that is booted next. The rest is as with `mark_bad`.
pub fn make_primary<M: Machine>(
    alloc: Global,
    m: &mut M,
    system: &System,
    name: &str,
) -> Result<(), Stop<BootRefusal>>
    requires { is_boot_name system.now.slots name.now ≡ true }
    ensures leaves { IsTrue M.tells → OnOk result (Leaves (system_configuration system.now) Primary name.now (M.past m.old) (M.past m.new)) }
    ensures others { IsTrue M.tells → Keeps (system_configuration system.now) name.now (M.past m.old) (M.past m.new) }
    ensures leads { IsTrue M.tells → Leads (system_configuration system.now) Primary name.now (M.past m.old) (M.past m.new) }
    ensures causes { IsTrue M.tells → MarkEnds (system_configuration system.now) Primary name.now (M.past m.old) (M.past m.new) result }
    ensures fails { Fails M.tells (M.past m.old) (M.past m.new) (stop_fault result) }
    ensures counts { StopCounted (M.faults m.old) (M.faults m.new) (M.wants m.old) (M.wants m.new) result }
{
    mark(alloc, m, system, Mark::Primary, name)
}
