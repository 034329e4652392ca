ghost use Rattle.std.specs.Prelude.{◌≡◌, [], ◌∷◌, IsTrue};
ghost use Rattle.child_steps.specs.Children.{helper_spares, umount_child};
ghost use Rattle.child_steps.specs.Closing.{closing_in};
ghost use Rattle.machine.specs.Past.{moments_since};
ghost use Rattle.machine.specs.Runs.{OnlyRuns, first_failed_but, is_run_of};
ghost use Rattle.machine.specs.Stops.{stop_fault};
ghost use Rattle.system_conf.specs.Reads.{system_configuration};
ghost use Rattle.mark_report.specs.Opening.{InfoCounted, ReadEnds, TellsInfo, bundle_result, info_children, info_in, mount_stop};

use child_steps::{
    BundleRefusal, Closing, MountRefusal, Mounted, close_bundle, mount_bundle, read_bundle,
};
use machine::{Machine, Stop};
use manifest::Manifest;
use std::alloc::Global;
use system_conf::System;

/// Why there is nothing to tell of a bundle.
#[derive(Debug, Drop)]
pub enum InfoRefusal {
    /// It is not mounted.
    Mount(MountRefusal),
    /// Its manifest is not read.
    Bundle(BundleRefusal),
}

/// The manifest of a bundle, or why there is none, and what came of the unmount: `NotMounted` where the
/// bundle was not mounted.
#[derive(Drop)]
pub struct InfoEnd {
    pub result: Result<Manifest, Stop<InfoRefusal>>,
    pub closing: Closing,
}

// A stop of the mount.
fn mount_stop(stop: Stop<MountRefusal>) -> Stop<InfoRefusal>
    ensures { result ≡ mount_stop stop }
{
    match stop {
        Stop::Refused(refusal) => Stop::Refused(InfoRefusal::Mount(refusal)),
        Stop::Outside(kind) => Stop::Outside(kind),
        Stop::NoMemory => Stop::NoMemory,
    }
}

// What came of reading the manifest.
fn bundle_result(read: Result<Manifest, Stop<BundleRefusal>>) -> Result<Manifest, Stop<InfoRefusal>>
    ensures { result ≡ bundle_result read }
{
    match read {
        Ok(manifest) => Ok(manifest),
        Err(Stop::Refused(refusal)) => Err(Stop::Refused(InfoRefusal::Bundle(refusal))),
        Err(Stop::Outside(kind)) => Err(Stop::Outside(kind)),
        Err(Stop::NoMemory) => Err(Stop::NoMemory),
    }
}

// Reads the manifest of a bundle that is mounted, and unmounts it, whatever came of that.
fn read_mounted<M: Machine>(alloc: Global, m: &mut M, system: &System, mounted: Mounted) -> InfoEnd
    requires { mounted.umount ≡ umount_child (system_configuration system.now) }
    ensures kept { OnlyRuns M.tells (helper_spares (system_configuration system.now) []) (umount_child (system_configuration system.now) ∷ []) (M.past m.old) (M.past m.new) }
    ensures ends { IsTrue M.tells → ReadEnds (system_configuration system.now) (M.past m.old) (M.past m.new) result }
    ensures counts { InfoCounted (M.faults m.old) (M.faults m.new) (M.wants m.old) (M.wants m.new) result }
{
    let read = read_bundle(alloc, m, system);
    let closing = close_bundle(alloc, m, mounted);
    InfoEnd {
        result: bundle_result(read),
        closing,
    }
}

/// Has a bundle checked and mounted, reads its manifest, and unmounts it on every way on which it was
/// mounted. What a helper must leave alone is left alone. Clause `answers`: what it answers, by the ends
/// of these children and by the manifest. Clause `fails`: a call that failed is told, but for the
/// unmount's. Clause `closes`: what came of that.
pub fn info<M: Machine>(alloc: Global, m: &mut M, system: &System, bundle: &str) -> InfoEnd
    ensures kept { OnlyRuns M.tells (helper_spares (system_configuration system.now) []) (info_children (system_configuration system.now) bundle.now) (M.past m.old) (M.past m.new) }
    ensures answers { IsTrue M.tells → TellsInfo (info_in (system_configuration system.now) (M.past m.old) (M.past m.new)) result.result }
    ensures fails { IsTrue M.tells → first_failed_but (is_run_of (umount_child (system_configuration system.now))) (moments_since (M.past m.old) (M.past m.new)) ≡ stop_fault result.result }
    ensures closes { IsTrue M.tells → result.closing ≡ closing_in (umount_child (system_configuration system.now)) (M.past m.old) (M.past m.new) }
    ensures counts { InfoCounted (M.faults m.old) (M.faults m.new) (M.wants m.old) (M.wants m.new) result }
{
    match mount_bundle(alloc, m, system, bundle) {
        Ok(mounted) => read_mounted(alloc, m, system, mounted),
        Err(stop) => InfoEnd {
            result: Err(mount_stop(stop)),
            closing: Closing::NotMounted,
        },
    }
}
