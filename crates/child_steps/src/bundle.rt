ghost use Rattle.std.specs.Prelude.{◌≡◌, ◌++◌, IfOk, IsTrue, None, codes};
ghost use Rattle.machine.specs.Frames.{Unchanged};
ghost use Rattle.machine.specs.Past.{Fails, world_now};
ghost use Rattle.machine.specs.Runs.{ReadsOnce};
ghost use Rattle.machine.specs.World.{file};
ghost use Rattle.machine.specs.Stops.{StopCounted, stop_fault};
ghost use Rattle.system_conf.specs.Reads.{system_configuration};
ghost use Rattle.child_steps.specs.Bundle.{LoadsManifest, ReadsManifest, bundle_at, manifest_in, manifest_path, of_bytes};

use crate::helper::mount_point;
use keyfile::KeyFault;
use machine::{Fault, Machine, ReadStop, Stop};
use manifest::{Manifest, ManifestRefusal, read_manifest};
use std::alloc::Global;
use system_conf::System;
use updater_text::{Lack, NoMemory, Text};

/// The longest manifest, in bytes.
const MANIFEST_LIMIT: u64 = 1_048_576;

/// Why a bundle that is mounted is not read.
#[derive(Debug, Drop)]
pub enum BundleRefusal {
    /// It has no manifest.
    NoManifest,
    /// Its manifest is no key file.
    BadKeys(KeyFault),
    /// What its manifest says is refused.
    BadManifest(ManifestRefusal),
}

// The manifest of a bundle that is mounted: `manifest.raucm` in the mount point.
fn manifest_path(alloc: Global, system: &System) -> Result<Text, NoMemory>
    ensures { IfOk result (λ path. path ≡ manifest_path (system_configuration system.now)) }
{
    let point = mount_point(alloc, system)?;
    path_under(alloc, point.as_str())
}

fn path_under(alloc: Global, point: &str) -> Result<Text, NoMemory>
    ensures { IfOk result (λ path. path ≡ point.now ++ codes "/manifest.raucm") }
{
    Ok(Text::from_string(format!(in alloc; "{point}/manifest.raucm")?))
}

// Reads a manifest from the bytes of its file.
fn manifest_of(alloc: Global, bytes: &[u8]) -> Result<Manifest, Lack<BundleRefusal>>
    ensures { ReadsManifest (of_bytes bytes.now) result }
{
    match keyfile::read(alloc, bytes) {
        Ok(file) => match read_manifest(alloc, &file) {
            Ok(manifest) => Ok(manifest),
            Err(Lack::Refused(refusal)) => Err(Lack::Refused(BundleRefusal::BadManifest(refusal))),
            Err(Lack::NoMemory) => Err(Lack::NoMemory),
        },
        Err(Lack::Refused(fault)) => Err(Lack::Refused(BundleRefusal::BadKeys(fault))),
        Err(Lack::NoMemory) => Err(Lack::NoMemory),
    }
}

// The same, as the answer of a call over a machine.
fn manifest_in(alloc: Global, bytes: &[u8]) -> Result<Manifest, Stop<BundleRefusal>>
    ensures { LoadsManifest (of_bytes bytes.now) result × (stop_fault result ≡ None) }
{
    match manifest_of(alloc, bytes) {
        Ok(manifest) => Ok(manifest),
        Err(Lack::Refused(refusal)) => Err(Stop::Refused(refusal)),
        Err(Lack::NoMemory) => Err(Stop::NoMemory),
    }
}

// Reads the manifest at a path.
fn load_manifest<M: Machine>(
    alloc: Global,
    m: &mut M,
    path: &str,
) -> Result<Manifest, Stop<BundleRefusal>>
    ensures unchanged { Unchanged M.tells (M.past m.old) (M.past m.new) }
    ensures once { IsTrue M.tells → ReadsOnce path.now (M.past m.old) (M.past m.new) }
    ensures answers { IsTrue M.tells → LoadsManifest (manifest_in (file (world_now (M.past m.old)) path.now)) result }
    ensures fails { Fails M.tells (M.past m.old) (M.past m.new) (stop_fault result) }
    ensures counts { StopCounted (M.faults m.old) (M.faults m.new) (M.wants m.old) (M.wants m.new) result }
{
    match m.file_read(alloc, path, MANIFEST_LIMIT) {
        Ok(Some(bytes)) => manifest_in(alloc, bytes.as_slice()),
        Ok(None) => Err(Stop::Refused(BundleRefusal::NoManifest)),
        Err(ReadStop::TooLong { length }) => {
            let fault = KeyFault::TooLong { length };
            Err(Stop::Refused(BundleRefusal::BadKeys(fault)))
        }
        Err(ReadStop::Failed) => Err(Stop::Outside(Fault::Read)),
        Err(ReadStop::NoMemory) => Err(Stop::NoMemory),
    }
}

/// Reads the manifest of the bundle that is mounted, by one call: `NoManifest` where it has none, `BadKeys` where
/// that has more than 1,048,576 bytes or is no key file, `BadManifest` where what it says is refused.
pub fn read_bundle<M: Machine>(
    alloc: Global,
    m: &mut M,
    system: &System,
) -> Result<Manifest, Stop<BundleRefusal>>
    ensures unchanged { Unchanged M.tells (M.past m.old) (M.past m.new) }
    ensures once { IsTrue M.tells → ReadsOnce (manifest_path (system_configuration system.now)) (M.past m.old) (M.past m.new) }
    ensures answers { IsTrue M.tells → LoadsManifest (bundle_at (system_configuration system.now) (world_now (M.past m.old))) result }
    ensures fails { Fails M.tells (M.past m.old) (M.past m.new) (stop_fault result) }
    ensures counts { StopCounted (M.faults m.old) (M.faults m.new) (M.wants m.old) (M.wants m.new) result }
{
    match manifest_path(alloc, system) {
        Ok(path) => load_manifest(alloc, m, path.as_str()),
        Err(_) => Err(Stop::NoMemory),
    }
}
