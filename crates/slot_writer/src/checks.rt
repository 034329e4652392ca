ghost use Rattle.std.specs.Prelude.{◌≡◌, ◌<◌, ℕ, List, None, Some, length, option_map};
ghost use Rattle.machine.specs.Past.{world_now};
ghost use Rattle.machine.specs.Stops.{Settles, StopCounted, stop_fault};
ghost use Rattle.running_system.specs.Running.{what_is_mounted, what_runs};
ghost use Rattle.slot_writer.specs.Checks.{IfRefused, IsAbout, SlotCheck, kind_refusal, mount_refusal, pass_unless, refusal_at, use_refusal};

use crate::SlotRefusal;
use machine::{CallStop, Fault, Machine, Stop};
use running_system::{in_use, is_mounted, what_is_mounted, what_runs};
use slot_graph::{Booted, Mount, is_archive};
use std::alloc::Global;
use system_conf::{Slot, SlotKind, System};
use updater_text::Text;

// Refuses the slot at this place where it is in use, or where it is not known what is booted.
fn check_booted(
    alloc: Global,
    system: &System,
    booted: Booted,
    at: usize,
) -> Result<(), Stop<SlotRefusal>>
    requires { at < length system.now.slots }
    ensures checks { Settles result (pass_unless (use_refusal system.now.slots booted at)) × (stop_fault result ≡ None) }
    ensures about { (image : List ℕ) → IfRefused result (IsAbout at image) }
{
    if matches!(booted, Booted::Unknown) {
        return Err(Stop::Refused(SlotRefusal::BootedUnknown));
    }
    match in_use(alloc, system, booted, at) {
        Ok(true) => Err(Stop::Refused(SlotRefusal::Busy { slot: at })),
        Ok(false) => Ok(()),
        Err(_) => Err(Stop::NoMemory),
    }
}

// The same by the machine.
fn check_use<M: Machine>(
    alloc: Global,
    m: &mut M,
    system: &System,
    given: Option<&str>,
    at: usize,
) -> Result<(), Stop<SlotRefusal>>
    requires { at < length system.now.slots }
    ensures checks { SlotCheck M.tells (use_refusal system.now.slots (what_runs system.now.slots (option_map (λ name. name.now) given.entry) (world_now (M.past m.old))) at) (M.past m.old) (M.past m.new) result }
    ensures about { (image : List ℕ) → IfRefused result (IsAbout at image) }
    ensures counts { StopCounted (M.faults m.old) (M.faults m.new) (M.wants m.old) (M.wants m.new) result }
{
    match what_runs(alloc, m, system, given) {
        Ok(booted) => check_booted(alloc, system, booted, at),
        Err(CallStop::Failed) => Err(Stop::Outside(Fault::Read)),
        Err(CallStop::NoMemory) => Err(Stop::NoMemory),
    }
}

// Refuses a slot, or an image for it, whatever stands on the machine.
fn check_kind(alloc: Global, at: usize, slot: &Slot, image: &str) -> Result<(), Stop<SlotRefusal>>
    ensures checks { Settles result (pass_unless (kind_refusal at slot.now image.now)) × (stop_fault result ≡ None) }
    ensures about { IfRefused result (IsAbout at image.now) }
{
    if slot.readonly {
        return Err(Stop::Refused(SlotRefusal::ReadOnly { slot: at }));
    }
    if is_archive(image) {
        let image = Text::new(alloc, image)?;
        return Err(Stop::Refused(SlotRefusal::ArchiveImage { image }));
    }
    match slot.kind {
        SlotKind::Unwritten(_) => Err(Stop::Refused(SlotRefusal::WrongType { slot: at })),
        _ => Ok(()),
    }
}

// Refuses the slot where its device is mounted.
fn check_mounted(mounts: &[Mount], at: usize, slot: &Slot) -> Result<(), Stop<SlotRefusal>>
    ensures checks { Settles result (pass_unless (mount_refusal at slot.now (Some mounts.now))) × (stop_fault result ≡ None) }
    ensures about { (image : List ℕ) → IfRefused result (IsAbout at image) }
{
    if is_mounted(mounts, slot.device.as_str()) {
        return Err(Stop::Refused(SlotRefusal::Mounted { slot: at }));
    }
    Ok(())
}

// The same by the machine; where the mounts cannot be read it is refused too.
fn check_mounts<M: Machine>(
    alloc: Global,
    m: &mut M,
    at: usize,
    slot: &Slot,
) -> Result<(), Stop<SlotRefusal>>
    ensures checks { SlotCheck M.tells (mount_refusal at slot.now (what_is_mounted (world_now (M.past m.old)))) (M.past m.old) (M.past m.new) result }
    ensures about { (image : List ℕ) → IfRefused result (IsAbout at image) }
    ensures counts { StopCounted (M.faults m.old) (M.faults m.new) (M.wants m.old) (M.wants m.new) result }
{
    match what_is_mounted(alloc, m) {
        Ok(Some(mounts)) => check_mounted(mounts.as_slice(), at, slot),
        Ok(None) => Err(Stop::Refused(SlotRefusal::MountsUnread)),
        Err(CallStop::Failed) => Err(Stop::Outside(Fault::Read)),
        Err(CallStop::NoMemory) => Err(Stop::NoMemory),
    }
}

/// Refuses the image for the slot at this place, by the first refusal that holds.
pub fn check_slot<M: Machine>(
    alloc: Global,
    m: &mut M,
    system: &System,
    given: Option<&str>,
    at: usize,
    image: &str,
) -> Result<(), Stop<SlotRefusal>>
    requires { at < length system.now.slots }
    ensures checks { SlotCheck M.tells (refusal_at system.now.slots (option_map (λ name. name.now) given.entry) at image.now (world_now (M.past m.old))) (M.past m.old) (M.past m.new) result }
    ensures about { IfRefused result (IsAbout at image.now) }
    ensures counts { StopCounted (M.faults m.old) (M.faults m.new) (M.wants m.old) (M.wants m.new) result }
{
    let slot = &system.slots.as_slice()[at];
    match check_use(alloc, m, system, given, at) {
        Ok(()) => match check_kind(alloc, at, slot, image) {
            Ok(()) => check_mounts(alloc, m, at, slot),
            Err(stop) => Err(stop),
        },
        Err(stop) => Err(stop),
    }
}
