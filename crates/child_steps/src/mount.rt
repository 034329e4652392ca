ghost use Rattle.std.specs.Prelude.{◌≡◌, [], ◌∷◌, IfOk, IsTrue, false};
ghost use Rattle.machine.specs.Calls.{RunCounted};
ghost use Rattle.machine.specs.Past.{Fails};
ghost use Rattle.machine.specs.Runs.{OnlyRuns, SparesThese};
ghost use Rattle.machine.specs.Spares.{is_boot};
ghost use Rattle.machine.specs.Stops.{StopCounted, stop_fault};
ghost use Rattle.system_conf.specs.Reads.{system_configuration};
ghost use Rattle.child_steps.specs.Children.{helper_spares, mounting, umount_child};
ghost use Rattle.child_steps.specs.Mounting.{ChildEnds, ChildFails, MountEnds, StepEnds, child_stop, children_of};
ghost use Rattle.child_steps.specs.declared.refusal.MountRefusal.TheVariants as refusal;

use crate::helper::{check_child, mount_child, umount_child};
use crate::{MountRefusal, Mounted};
use machine::{Child, Ended, Fault, Machine, RunStop, Stop};
use std::alloc::Global;
use system_conf::System;
use updater_text::NoMemory;

// Runs a child to its end.
fn run_child<M: Machine>(
    alloc: Global,
    m: &mut M,
    system: &System,
    child: &Child,
) -> Result<Ended, RunStop>
    requires { SparesThese (helper_spares (system_configuration system.now) []) child.now }
    ensures kept { OnlyRuns M.tells (helper_spares (system_configuration system.now) []) (child.now ∷ []) (M.past m.old) (M.past m.new) }
    ensures ends { IsTrue M.tells → ChildEnds child.now (M.past m.old) (M.past m.new) result }
    ensures fails { ChildFails M.tells (M.past m.old) (M.past m.new) result }
    ensures counts { RunCounted (M.faults m.old) (M.faults m.new) (M.wants m.old) (M.wants m.new) result }
{
    match m.run(alloc, child) {
        Ok(exit) => Ok(exit.ended),
        Err(stop) => Err(stop),
    }
}

// A stop of a child that gave no end.
fn child_stop(stop: RunStop) -> Stop<MountRefusal>
    ensures { result ≡ child_stop stop }
{
    match stop {
        RunStop::Failed => Stop::Outside(Fault::Run),
        RunStop::NoMemory => Stop::NoMemory,
    }
}

// Runs the child that mounts a bundle, which was checked.
fn run_mount<M: Machine>(
    alloc: Global,
    m: &mut M,
    system: &System,
    mount: &Child,
) -> Result<(), Stop<MountRefusal>>
    requires { SparesThese (helper_spares (system_configuration system.now) []) mount.now }
    ensures kept { OnlyRuns M.tells (helper_spares (system_configuration system.now) []) (mount.now ∷ []) (M.past m.old) (M.past m.new) }
    ensures ends { IsTrue M.tells → StepEnds mount.now refusal.MountFailed (M.past m.old) (M.past m.new) result }
    ensures fails { Fails M.tells (M.past m.old) (M.past m.new) (stop_fault result) }
    ensures counts { StopCounted (M.faults m.old) (M.faults m.new) (M.wants m.old) (M.wants m.new) result }
{
    match run_child(alloc, m, system, mount) {
        Ok(Ended::Code(0)) => Ok(()),
        Ok(ended) => Err(Stop::Refused(MountRefusal::MountFailed { ended })),
        Err(stop) => Err(child_stop(stop)),
    }
}

// Runs the child that checks a bundle.
fn run_check<M: Machine>(
    alloc: Global,
    m: &mut M,
    system: &System,
    check: &Child,
) -> Result<(), Stop<MountRefusal>>
    requires { SparesThese (helper_spares (system_configuration system.now) []) check.now }
    ensures kept { OnlyRuns M.tells (helper_spares (system_configuration system.now) []) (check.now ∷ []) (M.past m.old) (M.past m.new) }
    ensures ends { IsTrue M.tells → StepEnds check.now refusal.Untrusted (M.past m.old) (M.past m.new) result }
    ensures fails { Fails M.tells (M.past m.old) (M.past m.new) (stop_fault result) }
    ensures counts { StopCounted (M.faults m.old) (M.faults m.new) (M.wants m.old) (M.wants m.new) result }
{
    match run_child(alloc, m, system, check) {
        Ok(Ended::Code(0)) => Ok(()),
        Ok(ended) => Err(Stop::Refused(MountRefusal::Untrusted { ended })),
        Err(stop) => Err(child_stop(stop)),
    }
}

// The children that mount and unmount a bundle.
#[derive(Drop)]
struct ChildSet {
    check: Child,
    mount: Child,
    umount: Child,
}

fn make_children(alloc: Global, system: &System, bundle: &str) -> Result<ChildSet, NoMemory>
    ensures { IfOk result (λ made. made ≡ children_of (system_configuration system.now) bundle.now) }
{
    let check = check_child(alloc, system, bundle)?;
    let mount = mount_child(alloc, system, bundle)?;
    let umount = umount_child(alloc, system)?;
    Ok(ChildSet {
        check,
        mount,
        umount,
    })
}

/// Has a bundle checked and then mounted. `Untrusted` and `MountFailed` come exactly where that child
/// ended otherwise than with `Code(0)`; the mount is not run where the check did. What a helper must
/// leave alone is left alone.
pub fn mount_bundle<M: Machine>(
    alloc: Global,
    m: &mut M,
    system: &System,
    bundle: &str,
) -> Result<Mounted, Stop<MountRefusal>>
    ensures kept { OnlyRuns M.tells (helper_spares (system_configuration system.now) []) (mounting (system_configuration system.now) bundle.now) (M.past m.old) (M.past m.new) }
    ensures ends { IsTrue M.tells → MountEnds (system_configuration system.now) bundle.now (M.past m.old) (M.past m.new) result }
    ensures mounted { IfOk result (λ mounted. mounted.umount ≡ umount_child (system_configuration system.now)) }
    ensures fails { Fails M.tells (M.past m.old) (M.past m.new) (stop_fault result) }
    ensures counts { StopCounted (M.faults m.old) (M.faults m.new) (M.wants m.old) (M.wants m.new) result }
{
    let Ok(children) = make_children(alloc, system, bundle) else {
        return Err(Stop::NoMemory);
    };
    match run_check(alloc, m, system, &children.check) {
        Ok(()) => mount_checked(alloc, m, system, children),
        Err(stop) => Err(stop),
    }
}

// Mounts a bundle that was checked.
fn mount_checked<M: Machine>(
    alloc: Global,
    m: &mut M,
    system: &System,
    children: ChildSet,
) -> Result<Mounted, Stop<MountRefusal>>
    requires spares { SparesThese (helper_spares (system_configuration system.now) []) children.mount }
    requires helper { is_boot children.umount.class ≡ false }
    ensures kept { OnlyRuns M.tells (helper_spares (system_configuration system.now) []) (children.mount ∷ []) (M.past m.old) (M.past m.new) }
    ensures ends { IsTrue M.tells → StepEnds children.mount refusal.MountFailed (M.past m.old) (M.past m.new) result }
    ensures mounted { IfOk result (λ mounted. mounted.umount ≡ children.umount) }
    ensures fails { Fails M.tells (M.past m.old) (M.past m.new) (stop_fault result) }
    ensures counts { StopCounted (M.faults m.old) (M.faults m.new) (M.wants m.old) (M.wants m.new) result }
{
    let ChildSet { mount, umount, .. } = children;
    match run_mount(alloc, m, system, &mount) {
        Ok(()) => Ok(Mounted { umount }),
        Err(stop) => Err(stop),
    }
}
