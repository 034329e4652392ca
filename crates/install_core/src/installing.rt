ghost use Rattle.std.specs.Prelude.{◌≡◌};
ghost use Rattle.machine.specs.Stops.{StopCounted};
ghost use Rattle.system_conf.specs.Reads.{system_configuration};
ghost use Rattle.child_steps.specs.Children.{umount_child};
ghost use Rattle.install_facts.specs.Gathering.{Noted};
ghost use Rattle.install_core.specs.Course as spec;
ghost use Rattle.install_core.specs.Done.{DoneAtSuccess};
ghost use Rattle.install_core.specs.Faults.{FaultTold, UnmountCounted};
ghost use Rattle.install_core.specs.CrashSafe.{IsCrashSafe};
ghost use Rattle.install_core.specs.Untouched.{LeavesUntouched};

use crate::ending::{InstallEnd, Worked, end_of, mount_stop};
use crate::working::work;
use child_steps::{Closing, Mounted, close_bundle, mount_bundle};
use install_facts::{Report, Request};
use machine::Machine;
use std::alloc::Global;
use system_conf::System;

// Works with a bundle that is mounted, and unmounts it, whatever came of that.
fn install_mounted<M: Machine, P: Report>(
    alloc: Global,
    m: &mut M,
    system: &System,
    request: &Request,
    mounted: Mounted,
    report: &mut P,
) -> (Worked, Closing)
    requires { mounted.umount ≡ umount_child (system_configuration system.now) }
    ensures worked { let c = system_configuration system.now in
        let worked = spec.WorkedOn M.tells c request.now (M.past m.old) (M.past m.new) in
        Noted (P.stands report.old) (P.stands report.new) (worked result.0.result result.1 result.0.book_unread) }
    ensures counts { StopCounted (M.faults m.old) (M.faults m.new) (M.wants m.old) (M.wants m.new) result.0.result }
    ensures unmount { UnmountCounted (M.faults m.old) (M.faults m.new) (M.wants m.old) (M.wants m.new) result.1 }
{
    report.note(20, "bundle mounted");
    let worked = work(alloc, m, system, request, report);
    let closing = close_bundle(alloc, m, mounted);
    (worked, closing)
}

/// Installs a bundle: has it checked and mounted, gathers what the install goes by, does the steps of
/// the list that follows from that, and unmounts the bundle on every way on which it was mounted.
/// Clause `course`: what was done, in order, and the answer by it. Clause `done`: success is answered
/// after all steps of the list alone. Clause `untouched`: after a refusal that comes before the first
/// step, and after any answer without all facts, the devices of all slots, the boot variables and the
/// status file are as they were, and were so at each moment. Clause `crash_safe`: wherever the power
/// stops, inside a write or a child too, each slot that is booted or active has kept its bytes; where
/// the programs of the boot loader are honest, a target is booted next, once a write was begun, only
/// while each slot that RAUC alone writes begins with its image, and a booted root that was good is
/// good; and what the status file says of the slots is true. Clause `fails`: the first call that failed
/// is told, but for the unmount's. Clause `unmount`: the count that rose where that failed or had no
/// memory.
pub fn install<M: Machine, P: Report>(
    alloc: Global,
    m: &mut M,
    system: &System,
    request: &Request,
    report: &mut P,
) -> InstallEnd
    ensures course { let c = system_configuration system.now in
        spec.Installs M.tells c request.now (M.past m.old) (M.past m.new) (P.stands report.old) (P.stands report.new) result }
    ensures done { let c = system_configuration system.now in
        DoneAtSuccess M.tells c request.now (M.past m.old) result }
    ensures untouched { let c = system_configuration system.now in
        LeavesUntouched M.tells c request.now (M.past m.old) (M.past m.new) result }
    ensures crash_safe { IsCrashSafe M.tells (system_configuration system.now) request.now (M.past m.old) (M.past m.new) }
    ensures fails { FaultTold M.tells (M.past m.old) (M.past m.new) result }
    ensures counts { StopCounted (M.faults m.old) (M.faults m.new) (M.wants m.old) (M.wants m.new) result.result }
    ensures unmount { UnmountCounted (M.faults m.old) (M.faults m.new) (M.wants m.old) (M.wants m.new) result.closing }
{
    report.note(0, "installing");
    match mount_bundle(alloc, m, system, request.bundle.as_str()) {
        Ok(mounted) => {
            let (worked, closing) = install_mounted(alloc, m, system, request, mounted, report);
            end_of(alloc, system, worked, closing)
        }
        Err(stop) => {
            let worked = Worked {
                result: Err(mount_stop(stop)),
                book_unread: false,
            };
            end_of(alloc, system, worked, Closing::NotMounted)
        }
    }
}
