ghost use Rattle.std.specs.Prelude.{◌≡◌, IfErr, IfOk, IsTrue, None, codes, length};
ghost use Rattle.machine.specs.Past.{world_now};
ghost use Rattle.machine.specs.Stops.{StopCounted, stop_fault};
ghost use Rattle.status_file.specs.Clock.{clock_since};
ghost use Rattle.system_conf.specs.Reads.{system_configuration};
ghost use Rattle.install_facts.specs.Answers.{Looked, Tells};
ghost use Rattle.child_steps.specs.Bundle.{bundle_at, manifest_path};
ghost use Rattle.machine.specs.Runs.{ReadsOnce};
ghost use Rattle.running_system.specs.Running.{what_runs};
ghost use Rattle.install_facts.specs.Facts.{booted_known, known_content, known_with};
ghost use Rattle.install_facts.specs.Failing.{FailsIn, is_first_call};
ghost use Rattle.install_facts.specs.Gathering.{FirstTold};
ghost use Rattle.install_facts.specs.Stops as spec;

use crate::{InstallRefusal, Request};
use child_steps::{BundleRefusal, read_bundle};
use machine::{CallStop, Fault, Machine, Stop};
use manifest::Manifest;
use running_system::what_runs;
use slot_graph::Booted;
use status_file::{StatusRead, stored_status};
use std::alloc::Global;
use system_conf::System;

/// What is booted, what the status file says, and the manifest of the bundle that is mounted.
#[derive(Drop)]
pub struct Known {
    pub booted: Booted,
    pub read: StatusRead,
    pub manifest: Manifest,
}

/// A stop of a call of this kind.
pub fn call_stop(kind: Fault, stop: CallStop) -> Stop<InstallRefusal>
    ensures is { result ≡ spec.call_stop kind stop }
    ensures early { spec.IsEarly result }
    ensures late { spec.IsLate result }
{
    match stop {
        CallStop::Failed => Stop::Outside(kind),
        CallStop::NoMemory => Stop::NoMemory,
    }
}

// A stop of the reading of the manifest.
fn bundle_stop(stop: Stop<BundleRefusal>) -> Stop<InstallRefusal>
    ensures is { result ≡ spec.bundle_stop stop }
    ensures early { spec.IsEarly result }
{
    match stop {
        Stop::Refused(why) => Stop::Refused(InstallRefusal::Bundle(why)),
        Stop::Outside(kind) => Stop::Outside(kind),
        Stop::NoMemory => Stop::NoMemory,
    }
}

/// What is booted. `BootedUnknown` where nothing tells that.
pub fn know_booted<M: Machine>(
    alloc: Global,
    m: &mut M,
    system: &System,
    request: &Request,
) -> Result<Booted, Stop<InstallRefusal>>
    ensures looks { let booted = what_runs system.now.slots request.now.given_boot (world_now (M.past m.old)) in
        Looked M.tells (Tells (λ x. x) (booted_known booted)) (M.past m.old) (M.past m.new) result }
    ensures once { IsTrue M.tells → ReadsOnce (codes "/proc/cmdline") (M.past m.old) (M.past m.new) }
    ensures early { IfErr result spec.IsEarly }
    ensures counts { StopCounted (M.faults m.old) (M.faults m.new) (M.wants m.old) (M.wants m.new) result }
{
    match what_runs(alloc, m, system, request.given()) {
        Ok(Booted::Unknown) => Err(Stop::Refused(InstallRefusal::BootedUnknown)),
        Ok(booted) => Ok(booted),
        Err(stop) => Err(call_stop(Fault::Read, stop)),
    }
}

/// What is booted, and what the status file says. `BootedUnknown` where nothing tells what is booted.
pub fn know_first<M: Machine>(
    alloc: Global,
    m: &mut M,
    system: &System,
    request: &Request,
) -> Result<(Booted, StatusRead), Stop<InstallRefusal>>
    ensures looks { let told = FirstTold (system_configuration system.now) request.now.given_boot (world_now (M.past m.old)) in
        Looked M.tells told (M.past m.old) (M.past m.new) result }
    ensures all { IfOk result (λ p. length p.1.book ≡ length system.now.slots) }
    ensures silent { IsTrue M.tells → clock_since (M.past m.old) (M.past m.new) ≡ None }
    ensures early { IfErr result spec.IsEarly }
    ensures failing { let asked = is_first_call (system_configuration system.now) in
        FailsIn M.tells asked (M.past m.old) (M.past m.new) (stop_fault result) }
    ensures counts { StopCounted (M.faults m.old) (M.faults m.new) (M.wants m.old) (M.wants m.new) result }
{
    let booted = know_booted(alloc, m, system, request)?;
    match stored_status(alloc, m, system) {
        Ok(read) => Ok((booted, read)),
        Err(stop) => Err(call_stop(Fault::Read, stop)),
    }
}

/// What is known with the manifest, which is read here.
pub fn know_bundle<M: Machine>(
    alloc: Global,
    m: &mut M,
    system: &System,
    booted: Booted,
    read: StatusRead,
) -> Result<Known, Stop<InstallRefusal>>
    ensures looks { let bundle = bundle_at (system_configuration system.now) (world_now (M.past m.old)) in
        let known = known_with booted read.book read.unread bundle in
        Looked M.tells (Tells known_content known) (M.past m.old) (M.past m.new) result }
    ensures kept { IfOk result (λ known. known.read ≡ read) }
    ensures early { IfErr result spec.IsEarly }
    ensures once { IsTrue M.tells → ReadsOnce (manifest_path (system_configuration system.now)) (M.past m.old) (M.past m.new) }
    ensures counts { StopCounted (M.faults m.old) (M.faults m.new) (M.wants m.old) (M.wants m.new) result }
{
    match read_bundle(alloc, m, system) {
        Ok(manifest) => Ok(Known {
            booted,
            read,
            manifest,
        }),
        Err(stop) => Err(bundle_stop(stop)),
    }
}
