ghost use Rattle.std.specs.Prelude.{◌≡◌, IsTrue, OnOk, true};
ghost use Rattle.boot_commands.specs.declared.command.Mark.TheVariants as mark;
ghost use Rattle.boot_backends.specs.Marked.{is_boot_name};
ghost use Rattle.boot_backends.specs.Systems.{LeavesDown};
ghost use Rattle.machine.specs.Stops.{StopCounted};
ghost use Rattle.system_conf.specs.Reads.{system_configuration};
ghost use Rattle.install_steps.specs.Causes.{BootMarks, boot_stop};
ghost use Rattle.install_steps.specs.Steps.{bootname_of};

use boot_backends::{BootRefusal, make_primary, mark_bad};
use install_facts::InstallRefusal;
use machine::{Machine, Stop};
use std::alloc::Global;
use system_conf::System;

// A stop of the boot loader's programs.
fn boot_stop(stop: Stop<BootRefusal>) -> Stop<InstallRefusal>
    ensures { result ≡ boot_stop stop }
{
    match stop {
        Stop::Refused(why) => Stop::Refused(InstallRefusal::Boot(why)),
        Stop::Outside(kind) => Stop::Outside(kind),
        Stop::NoMemory => Stop::NoMemory,
    }
}

// The bootname of the root at a place.
fn bootname(system: &System, root: usize) -> &str
    ensures { result.now ≡ bootname_of (system_configuration system.entry.now) root }
{
    match system.slots.as_slice().get(root) {
        Some(slot) => match &slot.bootname {
            Some(name) => name.as_str(),
            None => "",
        },
        None => "",
    }
}

/// Marks the bootname of a root bad. `Boot` comes where the boot loader's programs did not do that.
pub fn mark_root_bad<M: Machine>(
    alloc: Global,
    m: &mut M,
    system: &System,
    root: usize,
) -> Result<(), Stop<InstallRefusal>>
    requires { is_boot_name system.now.slots (bootname_of (system_configuration system.now) root) ≡ true }
    ensures marks { let conf = system_configuration system.now in
        BootMarks M.tells conf mark.Bad (bootname_of conf root) (M.past m.old) (M.past m.new) result }
    ensures down { let conf = system_configuration system.now in
        let name = bootname_of conf root in
        IsTrue M.tells → OnOk result (LeavesDown conf name (M.past m.old) (M.past m.new)) }
    ensures counts { StopCounted (M.faults m.old) (M.faults m.new) (M.wants m.old) (M.wants m.new) result }
{
    match mark_bad(alloc, m, system, bootname(system, root)) {
        Ok(()) => Ok(()),
        Err(stop) => Err(boot_stop(stop)),
    }
}

/// Makes the bootname of a root primary. `Boot` comes where the boot loader's programs did not do that.
pub fn make_root_primary<M: Machine>(
    alloc: Global,
    m: &mut M,
    system: &System,
    root: usize,
) -> Result<(), Stop<InstallRefusal>>
    requires { is_boot_name system.now.slots (bootname_of (system_configuration system.now) root) ≡ true }
    ensures marks { let conf = system_configuration system.now in
        BootMarks M.tells conf mark.Primary (bootname_of conf root) (M.past m.old) (M.past m.new) result }
    ensures counts { StopCounted (M.faults m.old) (M.faults m.new) (M.wants m.old) (M.wants m.new) result }
{
    match make_primary(alloc, m, system, bootname(system, root)) {
        Ok(()) => Ok(()),
        Err(stop) => Err(boot_stop(stop)),
    }
}
