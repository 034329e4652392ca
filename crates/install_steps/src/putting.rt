ghost use Rattle.std.specs.Prelude.{◌≡◌, ◌<◌, IfOk, length};
ghost use Rattle.machine.specs.Calls.{WriteFits};
ghost use Rattle.machine.specs.Stops.{StopCounted};
ghost use Rattle.raw_writer.specs.Putting.{HasLength, written_whole};
ghost use Rattle.system_conf.specs.Reads.{system_configuration};
ghost use Rattle.install_facts.specs.Facts.{facts_content};
ghost use Rattle.install_steps.specs.Noting.{NotRefused};
ghost use Rattle.install_steps.specs.Putting.{IsImageStop, PutsJob, SettlesSlot, image_place, name_of};
ghost use Rattle.install_steps.specs.Steps.{device_of, piece};

use install_facts::{Facts, InstallRefusal};
use machine::{CallStop, Fault, Machine, Stop};
use raw_writer::{PutJob, PutRefusal, Written, put_image};
use std::alloc::Global;
use system_conf::System;
use updater_text::Text;

// The name of the file of a job's image.
fn file_name(facts: &Facts, job: usize) -> &str
    ensures { result.now ≡ name_of (facts_content facts.entry.now) job }
{
    let Some(job) = facts.jobs.as_slice().get(job) else {
        return "";
    };
    match facts.manifest.images.as_slice().get(job.image) {
        Some(image) => match &image.file {
            Some(file) => file.name.as_str(),
            None => "",
        },
        None => "",
    }
}

// The place of the image of a job in the manifest.
fn image_place(facts: &Facts, job: usize) -> usize
    ensures { result ≡ image_place (facts_content facts.entry.now) job }
{
    match facts.jobs.as_slice().get(job) {
        Some(job) => job.image,
        None => 0,
    }
}

// A refusal of the image of a job.
fn image_refusal(
    alloc: Global,
    facts: &Facts,
    job: usize,
    cause: PutRefusal,
) -> Stop<InstallRefusal>
    ensures { IsImageStop (facts_content facts.entry.now) job cause result }
{
    match Text::new(alloc, file_name(facts, job)) {
        Ok(name) => Stop::Refused(InstallRefusal::Image {
            image: image_place(facts, job),
            name,
            cause,
        }),
        Err(_) => Stop::NoMemory,
    }
}

/// Puts the image of a job on the device of its slot. `Image` comes exactly where the image's SHA-256
/// is another one than the manifest's.
pub fn put_job<M: Machine>(
    alloc: Global,
    m: &mut M,
    facts: &Facts,
    job: usize,
    put: &PutJob,
    buffer: &mut [u8],
) -> Result<Written, Stop<InstallRefusal>>
    requires buffer { length buffer.old ≡ piece }
    requires room { WriteFits M.tells (M.past m.old) put.now.device put.now.size }
    requires image { HasLength M.tells (M.past m.old) put.now.image put.now.size }
    ensures puts { let f = facts_content facts.entry.now in
        PutsJob M.tells f job put.now (M.past m.old) (M.past m.new) result }
    ensures written { IfOk result (λ written. written ≡ written_whole put.now.digest) }
    ensures counts { StopCounted (M.faults m.old) (M.faults m.new) (M.wants m.old) (M.wants m.new) result }
{
    match put_image(m, put, buffer) {
        Ok(written) => Ok(written),
        Err(Stop::Refused(cause)) => Err(image_refusal(alloc, facts, job, cause)),
        Err(Stop::Outside(kind)) => Err(Stop::Outside(kind)),
        Err(Stop::NoMemory) => Err(Stop::NoMemory),
    }
}

/// Makes what is pending on the device of a slot last, by one call. Nothing is refused.
pub fn settle_slot<M: Machine>(
    m: &mut M,
    system: &System,
    slot: usize,
) -> Result<(), Stop<InstallRefusal>>
    requires { slot < length system.now.slots }
    ensures settles { let device = device_of (system_configuration system.now) slot in
        SettlesSlot M.tells device (M.past m.old) (M.past m.new) result }
    ensures refuses { NotRefused result }
    ensures counts { StopCounted (M.faults m.old) (M.faults m.new) (M.wants m.old) (M.wants m.new) result }
{
    let device = system.slots.as_slice()[slot].device.as_str();
    match m.sync(device) {
        Ok(()) => Ok(()),
        Err(CallStop::Failed) => Err(Stop::Outside(Fault::Sync)),
        Err(CallStop::NoMemory) => Err(Stop::NoMemory),
    }
}
