ghost use Rattle.std.specs.Prelude.{◌≡◌, ◌<◌, IfErr, IfOk, IsTrue, None, Some, codes, is_some, length, map};
ghost use Rattle.conf_forms.specs.Lists.{first_of};
ghost use Rattle.machine.specs.Frames.{Unchanged};
ghost use Rattle.machine.specs.Past.{Fails, world_now};
ghost use Rattle.machine.specs.Runs.{ReadsOnce};
ghost use Rattle.machine.specs.Stops.{StopCounted, stop_fault};
ghost use Rattle.manifest.specs.Reads.{image_content, image_contents, manifest_content};
ghost use Rattle.running_system.specs.Running.{what_is_mounted};
ghost use Rattle.slot_graph.specs.Booted.{states_of};
ghost use Rattle.slot_graph.specs.Jobs.{ArePlaced, assigned};
ghost use Rattle.slot_status.specs.Books.{record_content};
ghost use Rattle.status_file.specs.Clock.{clock_since};
ghost use Rattle.system_conf.specs.Reads.{system_configuration};
ghost use Rattle.install_facts.specs.Answers.{Looked, Tells, TellsIf};
ghost use Rattle.install_facts.specs.Facts as spec;
ghost use Rattle.install_facts.specs.Failing.{FailsIn, is_target_call};
ghost use Rattle.install_facts.specs.Stops.{IsLate};

use crate::InstallRefusal;
use crate::images::check_images;
use crate::know::{Known, call_stop};
use crate::ready::time_of;
use machine::{Fault, Machine, Stop};
use manifest::{Image, ImageFile, Manifest};
use running_system::{is_mounted, what_is_mounted};
use slot_graph::{Booted, Job, Mount, SlotState, assign, states};
use slot_status::{SlotRecord, StatusBook};
use std::alloc::Global;
use system_conf::{Slot, System};
use updater_text::{Items, Lack, NoMemory};

/// Which image goes to which slot, which of them is there already, and the time that is noted.
#[derive(Drop)]
pub struct Chosen {
    pub states: Items<SlotState>,
    pub jobs: Items<Job>,
    pub skipped: Items<bool>,
    pub now: Option<i64>,
}

// ---- the jobs

// Whether the slot of an image is mounted, and is not one that may be while a hook installs the image.
fn in_the_way(mounts: &[Mount], image: &Image, slot: &Slot) -> bool
    ensures { result ≡ spec.in_the_way mounts.now (image_content image.now) slot.now }
{
    is_mounted(mounts, slot.device.as_str()) && !(slot.allow_mounted && image.install)
}

// The same of a job.
fn is_blocked(system: &System, manifest: &Manifest, mounts: &[Mount], job: Job) -> bool
    ensures { result ≡ spec.is_blocked (system_configuration system.now) (manifest_content manifest.now) mounts.now job }
{
    let Some(image) = manifest.images.as_slice().get(job.image) else {
        return false;
    };
    match system.slots.as_slice().get(job.slot) {
        Some(slot) => in_the_way(mounts, image, slot),
        None => false,
    }
}

// The slot of a job that is so.
fn blocked(system: &System, manifest: &Manifest, mounts: &[Mount], job: Job) -> Option<usize>
    ensures { result ≡ spec.blocked (system_configuration system.now) (manifest_content manifest.now) mounts.now job }
{
    if is_blocked(system, manifest, mounts, job) {
        Some(job.slot)
    } else {
        None
    }
}

// The first of these.
fn first_blocked(
    system: &System,
    manifest: &Manifest,
    mounts: &[Mount],
    jobs: &[Job],
) -> Option<usize>
    ensures { result ≡ first_of (spec.blocked (system_configuration system.now) (manifest_content manifest.now) mounts.now) jobs.now }
{
    for job in jobs {
        if let Some(slot) = blocked(system, manifest, mounts, *job) {
            return Some(slot);
        }
    }
    None
}

// Refuses the first job of which the slot is mounted.
fn check_free(
    system: &System,
    manifest: &Manifest,
    mounts: &[Mount],
    jobs: &[Job],
) -> Result<(), Stop<InstallRefusal>>
    ensures answers { let free = spec.free_jobs (system_configuration system.now) (manifest_content manifest.now) jobs.now (Some mounts.now) in
        Tells (λ x. jobs.now) free result }
    ensures late { IfErr result IsLate }
    ensures fails { stop_fault result ≡ None }
{
    match first_blocked(system, manifest, mounts, jobs) {
        Some(slot) => Err(Stop::Refused(InstallRefusal::Mounted { slot })),
        None => Ok(()),
    }
}

// The same by the machine; where it cannot be read what is mounted, all are refused.
fn check_mounts<M: Machine>(
    alloc: Global,
    m: &mut M,
    system: &System,
    manifest: &Manifest,
    jobs: &[Job],
) -> Result<(), Stop<InstallRefusal>>
    ensures looks { let mounts = what_is_mounted (world_now (M.past m.old)) in
        let free = spec.free_jobs (system_configuration system.now) (manifest_content manifest.now) jobs.now mounts in
        Looked M.tells (Tells (λ x. jobs.now) free) (M.past m.old) (M.past m.new) result }
    ensures once { IsTrue M.tells → ReadsOnce (codes "/proc/mounts") (M.past m.old) (M.past m.new) }
    ensures late { IfErr result IsLate }
    ensures counts { StopCounted (M.faults m.old) (M.faults m.new) (M.wants m.old) (M.wants m.new) result }
{
    match what_is_mounted(alloc, m) {
        Ok(Some(mounts)) => check_free(system, manifest, mounts.as_slice(), jobs),
        Ok(None) => Err(Stop::Refused(InstallRefusal::MountsUnread)),
        Err(stop) => Err(call_stop(Fault::Read, stop)),
    }
}

// The jobs of the images, where each goes to a slot.
fn jobs_of(
    alloc: Global,
    system: &System,
    states: &[SlotState],
    images: &[Image],
) -> Result<Items<Job>, Stop<InstallRefusal>>
    requires { length states.now ≡ length system.now.slots }
    ensures answers { let jobs = assigned system.now.slots states.now (image_contents images.now) in
        Tells (λ x. x) (spec.jobs_assigned jobs) result }
    ensures placed { IfOk result (ArePlaced system.now.slots states.now (image_contents images.now)) }
    ensures late { IfErr result IsLate }
    ensures fails { stop_fault result ≡ None }
{
    match assign(alloc, system, states, images) {
        Ok(jobs) => Ok(Items::from_vec(jobs)),
        Err(Lack::Refused(why)) => Err(Stop::Refused(InstallRefusal::Assign(why))),
        Err(Lack::NoMemory) => Err(Stop::NoMemory),
    }
}

// ---- which images are there already

// Whether the slot holds just this image, by its record.
fn holds_image(stored: &SlotRecord, file: &ImageFile) -> bool
    ensures { result ≡ spec.holds_image (record_content stored.now) file.now }
{
    let Some(status) = &stored.status else {
        return false;
    };
    let Some(digest) = &stored.digest else {
        return false;
    };
    let Some(size) = stored.size else {
        return false;
    };
    status.as_str() == "ok" && *digest == file.digest && size == file.size
}

fn is_skipped_in(stored: &SlotRecord, image: &Image, slot: &Slot) -> bool
    ensures { result ≡ spec.is_skipped_in (record_content stored.now) (image_content image.now) slot.now }
{
    match &image.file {
        Some(file) => !slot.install_same && holds_image(stored, file),
        None => false,
    }
}

// Whether the image of a job is in its slot and is to be left there.
fn is_skipped(system: &System, manifest: &Manifest, book: &StatusBook, job: Job) -> bool
    requires { job.slot < length book.now }
    ensures { result ≡ spec.is_skipped (system_configuration system.now) (manifest_content manifest.now) book.now job }
{
    let Some(image) = manifest.images.as_slice().get(job.image) else {
        return false;
    };
    match system.slots.as_slice().get(job.slot) {
        Some(slot) => is_skipped_in(book.slot_record(job.slot), image, slot),
        None => false,
    }
}

fn skipped_of(
    alloc: Global,
    system: &System,
    manifest: &Manifest,
    book: &StatusBook,
    jobs: &[Job],
) -> Result<Items<bool>, NoMemory>
    requires { spec.HasPlaces (length book.now) jobs.now }
    ensures { IfOk result (λ s. s ≡ map (spec.is_skipped (system_configuration system.now) (manifest_content manifest.now) book.now) jobs.now) }
{
    let mut skipped = Items::new(alloc);
    for job in jobs {
        skipped.push(is_skipped(system, manifest, book, *job))?;
    }
    Ok(skipped)
}

// ---- all of it

// The jobs, where no slot is in the way and each image fits.
fn jobs_for<M: Machine>(
    alloc: Global,
    m: &mut M,
    system: &System,
    known: &Known,
    states: &[SlotState],
) -> Result<Items<Job>, Stop<InstallRefusal>>
    requires { states.now ≡ states_of system.now.slots known.now.booted }
    ensures looks { let jobs = spec.fitting_jobs (system_configuration system.now) (spec.known_content known.now) (world_now (M.past m.old)) in
        Looked M.tells (Tells (λ x. x) jobs) (M.past m.old) (M.past m.new) result }
    ensures placed { let images = image_contents known.now.manifest.images in
        IfOk result (ArePlaced system.now.slots states.now images) }
    ensures silent { IsTrue M.tells → clock_since (M.past m.old) (M.past m.new) ≡ None }
    ensures late { IfErr result IsLate }
    ensures failing { FailsIn M.tells is_target_call (M.past m.old) (M.past m.new) (stop_fault result) }
    ensures counts { StopCounted (M.faults m.old) (M.faults m.new) (M.wants m.old) (M.wants m.new) result }
{
    let manifest = &known.manifest;
    let jobs = match jobs_of(alloc, system, states, manifest.images.as_slice()) {
        Ok(jobs) => jobs,
        Err(stop) => return Err(stop),
    };
    match check_mounts(alloc, m, system, manifest, jobs.as_slice()) {
        Ok(()) => {}
        Err(stop) => return Err(stop),
    }
    match check_images(alloc, m, system, manifest, jobs.as_slice()) {
        Ok(()) => Ok(jobs),
        Err(stop) => Err(stop),
    }
}

// What was chosen, with the time that is noted.
fn chosen_from(
    alloc: Global,
    system: &System,
    known: &Known,
    states: Items<SlotState>,
    jobs: Items<Job>,
    now: Option<i64>,
) -> Result<Chosen, NoMemory>
    requires { spec.HasPlaces (length known.now.read.book) jobs }
    ensures chosen { IfOk result (λ x. spec.chosen_content x ≡ spec.chosen_with (system_configuration system.now) (spec.known_content known.now) jobs now) }
    ensures states { IfOk result (λ x. x.states ≡ states) }
    ensures skipped { IfOk result (λ x. length x.skipped ≡ length x.jobs) }
{
    let skipped = skipped_of(
        alloc,
        system,
        &known.manifest,
        &known.read.book,
        jobs.as_slice(),
    )?;
    Ok(Chosen {
        states,
        jobs,
        skipped,
        now,
    })
}

// The time that is noted, and then the rest, which needs no call.
fn choose_time<M: Machine>(
    alloc: Global,
    m: &mut M,
    system: &System,
    known: &Known,
    states: Items<SlotState>,
    jobs: Items<Job>,
) -> Result<Chosen, Stop<InstallRefusal>>
    requires { spec.HasPlaces (length known.now.read.book) jobs }
    ensures jobs { IfOk result (λ x. x.jobs ≡ jobs) }
    ensures unchanged { Unchanged M.tells (M.past m.old) (M.past m.new) }
    ensures answers { let conf = system_configuration system.now in
        let clock = clock_since (M.past m.old) (M.past m.new) in
        IsTrue M.tells → TellsIf spec.chosen_content (spec.timed_jobs conf (spec.known_content known.now) jobs clock) result }
    ensures states { IfOk result (λ x. x.states ≡ states) }
    ensures skipped { IfOk result (λ x. length x.skipped ≡ length x.jobs) }
    ensures timed { IfOk result (λ x. is_some x.now ≡ is_some system.now.status_file) }
    ensures ready { IfOk result (λ x. spec.IsReady x.jobs known.now.read.book x.now) }
    ensures late { IfErr result IsLate }
    ensures fails { Fails M.tells (M.past m.old) (M.past m.new) (stop_fault result) }
    ensures failing { FailsIn M.tells is_target_call (M.past m.old) (M.past m.new) (stop_fault result) }
    ensures counts { StopCounted (M.faults m.old) (M.faults m.new) (M.wants m.old) (M.wants m.new) result }
{
    match time_of(m, &system.status_file, &known.read.book, jobs.as_slice()) {
        Ok(now) => match chosen_from(alloc, system, known, states, jobs, now) {
            Ok(chosen) => Ok(chosen),
            Err(_) => Err(Stop::NoMemory),
        },
        Err(stop) => Err(stop),
    }
}

// The states of the slots.
fn states_in(alloc: Global, system: &System, booted: Booted) -> Result<Items<SlotState>, NoMemory>
    ensures { IfOk result (λ s. s ≡ states_of system.now.slots booted) }
{
    let states = states(alloc, system, booted)?;
    Ok(Items::from_vec(states))
}

/// Which image goes to which slot, which of them is there already, and the time that is noted. In this
/// order: `Assign`, `MountsUnread`, `Mounted`, `Image`, `Status`, each for the first image or slot of
/// which it holds.
pub fn choose<M: Machine>(
    alloc: Global,
    m: &mut M,
    system: &System,
    known: &Known,
) -> Result<Chosen, Stop<InstallRefusal>>
    requires { length known.now.read.book ≡ length system.now.slots }
    ensures unchanged { Unchanged M.tells (M.past m.old) (M.past m.new) }
    ensures answers { let conf = system_configuration system.now in
        let clock = clock_since (M.past m.old) (M.past m.new) in
        let chosen = spec.chosen_of conf (spec.known_content known.now) (world_now (M.past m.old)) clock in
        IsTrue M.tells → TellsIf spec.chosen_content chosen result }
    ensures states { IfOk result (λ x. x.states ≡ states_of system.now.slots known.now.booted) }
    ensures placed { let images = image_contents known.now.manifest.images in
        IfOk result (λ x. ArePlaced system.now.slots x.states images x.jobs) }
    ensures skipped { IfOk result (λ x. length x.skipped ≡ length x.jobs) }
    ensures timed { IfOk result (λ x. is_some x.now ≡ is_some system.now.status_file) }
    ensures ready { IfOk result (λ x. spec.IsReady x.jobs known.now.read.book x.now) }
    ensures late { IfErr result IsLate }
    ensures fails { Fails M.tells (M.past m.old) (M.past m.new) (stop_fault result) }
    ensures failing { FailsIn M.tells is_target_call (M.past m.old) (M.past m.new) (stop_fault result) }
    ensures counts { StopCounted (M.faults m.old) (M.faults m.new) (M.wants m.old) (M.wants m.new) result }
{
    let states = match states_in(alloc, system, known.booted) {
        Ok(states) => states,
        Err(_) => return Err(Stop::NoMemory),
    };
    match jobs_for(alloc, m, system, known, states.as_slice()) {
        Ok(jobs) => choose_time(alloc, m, system, known, states, jobs),
        Err(stop) => Err(stop),
    }
}
