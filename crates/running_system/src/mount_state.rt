ghost use Rattle.std.specs.Prelude.{◌≡◌, IfOk, IsTrue, None, codes};
ghost use Rattle.machine.specs.Calls.{call_fault};
ghost use Rattle.machine.specs.Frames.{Unchanged};
ghost use Rattle.machine.specs.Past.{Fails, world_now};
ghost use Rattle.machine.specs.Runs.{ReadsOnce};
ghost use Rattle.slot_graph.specs.Mounts.{mounts_of};
ghost use Rattle.running_system.specs.Running.{Answers, FaultsCounted, is_mounted, what_is_mounted};

use crate::file_within;
use machine::{CallStop, Fault, Machine};
use slot_graph::{Mount, mounts};
use std::alloc::Global;
use updater_text::Items;

/// The mounted file systems (proc_mounts(5)), and how many bytes of their list are read.
const MOUNTS: &str = "/proc/mounts";

const MOUNTS_LIMIT: u64 = 1_048_576;

// The mounts of a text.
fn mounts_in(alloc: Global, text: &[u8]) -> Result<Option<Items<Mount>>, CallStop>
    ensures answers { IfOk result (λ found. found ≡ Some (mounts_of text.now)) }
    ensures fails { call_fault Fault.Read result ≡ None }
{
    match mounts(alloc, text) {
        Ok(mounts) => Ok(Some(Items::from_vec(mounts))),
        Err(_) => Err(CallStop::NoMemory),
    }
}

/// What is mounted, by one read of `/proc/mounts`; None where that is missing or longer than 1,048,576 bytes. It
/// gives `Failed` where the read fails, and `NoMemory` where memory is out.
pub fn what_is_mounted<M: Machine>(
    alloc: Global,
    m: &mut M,
) -> Result<Option<Items<Mount>>, CallStop>
    ensures unchanged { Unchanged M.tells (M.past m.old) (M.past m.new) }
    ensures once { IsTrue M.tells → ReadsOnce (codes "/proc/mounts") (M.past m.old) (M.past m.new) }
    ensures answers { Answers M.tells (what_is_mounted (world_now (M.past m.old))) result }
    ensures fails { Fails M.tells (M.past m.old) (M.past m.new) (call_fault Fault.Read result) }
    ensures counts { FaultsCounted (M.faults m.old) (M.faults m.new) (M.wants m.old) (M.wants m.new) result }
{
    match file_within(alloc, m, MOUNTS, MOUNTS_LIMIT) {
        Ok(Some(text)) => mounts_in(alloc, text.as_slice()),
        Ok(None) => Ok(None),
        Err(stop) => Err(stop),
    }
}

/// Whether a device is mounted: some mount is of this device, as text.
pub fn is_mounted(mounts: &[Mount], device: &str) -> bool
    ensures { result ≡ is_mounted mounts.now device.now }
{
    mounts
        .iter()
        .any(|mount| mount.device.as_slice() == device.as_bytes())
}
