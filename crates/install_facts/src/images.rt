ghost use Rattle.std.specs.Prelude.{◌≡◌, ◌++◌, IfErr, IfOk, codes};
ghost use Rattle.machine.specs.Past.{world_now};
ghost use Rattle.machine.specs.Stops.{StopCounted};
ghost use Rattle.manifest.specs.Reads.{image_content, manifest_content};
ghost use Rattle.raw_writer.specs.Checking.{AsksLengths};
ghost use Rattle.system_conf.specs.Reads.{system_configuration};
ghost use Rattle.install_facts.specs.Answers.{Looked, Tells};
ghost use Rattle.install_facts.specs.Facts.{all_fit, file_refusal, fit_refusal, image_path, image_refusal, unless};
ghost use Rattle.install_facts.specs.Stops.{ImageStopped, IsLate};

use crate::InstallRefusal;
use child_steps::mount_point;
use machine::{Machine, Stop};
use manifest::{Image, ImageFile, Manifest};
use raw_writer::{PutRefusal, check_image};
use slot_graph::Job;
use std::alloc::Global;
use system_conf::{Slot, System};
use updater_text::{NoMemory, Text};

fn path_in(alloc: Global, point: &str, name: &str) -> Result<Text, NoMemory>
    ensures { IfOk result (λ path. path ≡ point.now ++ (codes "/" ++ name.now)) }
{
    Ok(Text::from_string(format!(in alloc; "{point}/{name}")?))
}

/// The path of an image's file, while its bundle is mounted.
pub fn image_path(alloc: Global, system: &System, file: &ImageFile) -> Result<Text, NoMemory>
    ensures { IfOk result (λ path. path ≡ image_path (system_configuration system.now) file.now) }
{
    let point = mount_point(alloc, system)?;
    path_in(alloc, point.as_str(), file.name.as_str())
}

// A stop of the check of the image at a place.
fn image_stop(
    alloc: Global,
    at: usize,
    file: &ImageFile,
    stop: Stop<PutRefusal>,
) -> Stop<InstallRefusal>
    ensures is { ImageStopped at file.now.name stop result }
    ensures late { IsLate result }
{
    match stop {
        Stop::Refused(cause) => match file.name.copy(alloc) {
            Ok(name) => Stop::Refused(InstallRefusal::Image {
                image: at,
                name,
                cause,
            }),
            Err(_) => Stop::NoMemory,
        },
        Stop::Outside(kind) => Stop::Outside(kind),
        Stop::NoMemory => Stop::NoMemory,
    }
}

// Refuses an image that does not fit the device of its slot, or that is not as the manifest says.
fn check_file<M: Machine>(
    alloc: Global,
    m: &mut M,
    system: &System,
    at: usize,
    image: &Image,
    slot: &Slot,
    file: &ImageFile,
) -> Result<(), Stop<InstallRefusal>>
    ensures looks { let image = image_content image.now in
        let refusal = file_refusal (system_configuration system.now) (world_now (M.past m.old)) at image slot.now file.now in
        Looked M.tells (Tells (λ x. x) (unless refusal tt)) (M.past m.old) (M.past m.new) result }
    ensures asks { AsksLengths M.tells (M.past m.old) (M.past m.new) }
    ensures late { IfErr result IsLate }
    ensures counts { StopCounted (M.faults m.old) (M.faults m.new) (M.wants m.old) (M.wants m.new) result }
{
    let path = match image_path(alloc, system, file) {
        Ok(path) => path,
        Err(_) => return Err(Stop::NoMemory),
    };
    let device = if image.install {
        None
    } else {
        Some(slot.device.as_str())
    };
    match check_image(alloc, m, path.as_str(), Some(file.size), device) {
        Ok(_) => Ok(()),
        Err(stop) => Err(image_stop(alloc, at, file, stop)),
    }
}

// The same of an image, where it has a file.
fn check_fit<M: Machine>(
    alloc: Global,
    m: &mut M,
    system: &System,
    at: usize,
    image: &Image,
    slot: &Slot,
) -> Result<(), Stop<InstallRefusal>>
    ensures looks { let image = image_content image.now in
        let refusal = fit_refusal (system_configuration system.now) (world_now (M.past m.old)) at image slot.now in
        Looked M.tells (Tells (λ x. x) (unless refusal tt)) (M.past m.old) (M.past m.new) result }
    ensures asks { AsksLengths M.tells (M.past m.old) (M.past m.new) }
    ensures late { IfErr result IsLate }
    ensures counts { StopCounted (M.faults m.old) (M.faults m.new) (M.wants m.old) (M.wants m.new) result }
{
    match &image.file {
        Some(file) => check_file(alloc, m, system, at, image, slot, file),
        None => Ok(()),
    }
}

// The same of a job.
fn check_job<M: Machine>(
    alloc: Global,
    m: &mut M,
    system: &System,
    manifest: &Manifest,
    job: Job,
) -> Result<(), Stop<InstallRefusal>>
    ensures looks { let refusal = image_refusal (system_configuration system.now) (manifest_content manifest.now) (world_now (M.past m.old)) job in
        Looked M.tells (Tells (λ x. x) (unless refusal tt)) (M.past m.old) (M.past m.new) result }
    ensures asks { AsksLengths M.tells (M.past m.old) (M.past m.new) }
    ensures late { IfErr result IsLate }
    ensures counts { StopCounted (M.faults m.old) (M.faults m.new) (M.wants m.old) (M.wants m.new) result }
{
    let Some(image) = manifest.images.as_slice().get(job.image) else {
        return Ok(());
    };
    let Some(slot) = system.slots.as_slice().get(job.slot) else {
        return Ok(());
    };
    check_fit(alloc, m, system, job.image, image, slot)
}

/// Checks the image of each job that has a file, in their order: it is there with its stated size, and
/// the device of its slot has room for it, unless a hook installs it. `Image` tells the first that is
/// refused.
pub fn check_images<M: Machine>(
    alloc: Global,
    m: &mut M,
    system: &System,
    manifest: &Manifest,
    jobs: &[Job],
) -> Result<(), Stop<InstallRefusal>>
    ensures looks { let fit = all_fit (system_configuration system.now) (manifest_content manifest.now) (world_now (M.past m.old)) jobs.now in
        Looked M.tells (Tells (λ x. x) fit) (M.past m.old) (M.past m.new) result }
    ensures asks { AsksLengths M.tells (M.past m.old) (M.past m.new) }
    ensures late { IfErr result IsLate }
    ensures counts { StopCounted (M.faults m.old) (M.faults m.new) (M.wants m.old) (M.wants m.new) result }
{
    for job in jobs {
        match check_job(alloc, m, system, manifest, *job) {
            Ok(()) => {}
            Err(stop) => return Err(stop),
        }
    }
    Ok(())
}
