ghost use Rattle.std.specs.Prelude.{◌≡◌, [], IfErr, IsTrue, None};
ghost use Rattle.child_steps.specs.Children.{helper_spares};
ghost use Rattle.machine.specs.Past.{Fails, world_now};
ghost use Rattle.machine.specs.Runs.{OnlyRuns, runs_since};
ghost use Rattle.machine.specs.Stops.{StopCounted, stop_fault};
ghost use Rattle.manifest.specs.Reads.{manifest_content};
ghost use Rattle.status_file.specs.Clock.{clock_since};
ghost use Rattle.system_conf.specs.Reads.{system_configuration};
ghost use Rattle.install_facts.specs.Answers.{TellsIf};
ghost use Rattle.install_facts.specs.Facts.{acceptance, compatible_with};
ghost use Rattle.install_facts.specs.Failing.{FailsIn, is_bundle_call};
ghost use Rattle.install_facts.specs.Gathering.{checks_with};
ghost use Rattle.install_facts.specs.Stops as spec;
ghost use Rattle.updater_text.specs.Answers.{Gives};

use crate::{InstallRefusal, Request};
use child_steps::{CheckRefusal, install_check};
use machine::{Machine, Stop};
use manifest::Manifest;
use std::alloc::Global;
use system_conf::System;
use updater_text::{Lack, Text};

// A stop of the hook that decides.
fn check_stop(stop: Stop<CheckRefusal>) -> Stop<InstallRefusal>
    ensures is { result ≡ spec.check_stop stop }
    ensures early { spec.IsEarly result }
{
    match stop {
        Stop::Refused(why) => Stop::Refused(InstallRefusal::Check(why)),
        Stop::Outside(kind) => Stop::Outside(kind),
        Stop::NoMemory => Stop::NoMemory,
    }
}

// Refuses a bundle that is for another system, unless that is to be ignored.
fn match_systems(
    alloc: Global,
    system: &Text,
    bundle: &Text,
    ignored: bool,
) -> Result<(), Lack<InstallRefusal>>
    ensures answers { Gives result (compatible_with system.now bundle.now ignored) }
    ensures early { IfErr result spec.IsEarlyLack }
{
    if ignored || system.as_bytes() == bundle.as_bytes() {
        return Ok(());
    }
    let system = system.copy(alloc)?;
    let bundle = bundle.copy(alloc)?;
    Err(Lack::Refused(InstallRefusal::Compatible { system, bundle }))
}

/// Whether the bundle may be installed on this system: the hook that its manifest names decides, and
/// else what both say they are. `Rejected` and `CheckFailed` by the end of the hook; `Compatible`
/// where the two differ and that is not to be ignored.
pub fn accept<M: Machine>(
    alloc: Global,
    m: &mut M,
    system: &System,
    request: &Request,
    manifest: &Manifest,
) -> Result<(), Stop<InstallRefusal>>
    ensures kept { let conf = system_configuration system.now in
        let checks = checks_with conf (manifest_content manifest.now) in
        OnlyRuns M.tells (helper_spares conf []) checks (M.past m.old) (M.past m.new) }
    ensures answers { let runs = runs_since (world_now (M.past m.old)) (world_now (M.past m.new)) in
        let accepted = acceptance (system_configuration system.now) request.now (manifest_content manifest.now) runs in
        IsTrue M.tells → TellsIf (λ x. x) accepted result }
    ensures silent { IsTrue M.tells → clock_since (M.past m.old) (M.past m.new) ≡ None }
    ensures early { IfErr result spec.IsEarly }
    ensures fails { Fails M.tells (M.past m.old) (M.past m.new) (stop_fault result) }
    ensures failing { let asked = is_bundle_call (system_configuration system.now) in
        FailsIn M.tells asked (M.past m.old) (M.past m.new) (stop_fault result) }
    ensures counts { StopCounted (M.faults m.old) (M.faults m.new) (M.wants m.old) (M.wants m.new) result }
{
    if manifest.install_check {
        return match install_check(alloc, m, system, manifest) {
            Ok(()) => Ok(()),
            Err(stop) => Err(check_stop(stop)),
        };
    }
    let bundle = &manifest.bundle.compatible;
    match match_systems(alloc, &system.compatible, bundle, request.ignore_compatible) {
        Ok(()) => Ok(()),
        Err(Lack::Refused(why)) => Err(Stop::Refused(why)),
        Err(Lack::NoMemory) => Err(Stop::NoMemory),
    }
}
