ghost use Rattle.std.specs.Prelude.{◌≡◌, false, option_map, slice_get};
ghost use Rattle.std.specs.List.{slice_index_or};
ghost use Rattle.manifest.specs.Reads.{image_content};
ghost use Rattle.system_conf.specs.Reads.{system_configuration};
ghost use Rattle.install_facts.specs.Facts.{facts_content};
ghost use Rattle.install_plan.specs.Acts as spec;
ghost use Rattle.install_plan.specs.Works.{work_content};

use install_facts::Facts;
use manifest::Image;
use slot_graph::Job;
use system_conf::{Slot, System};

/// A job at a place, with its image and its slot, and whether it is skipped.
#[derive(Clone, Copy)]
pub struct Work<'a> {
    pub at: usize,
    pub job: Job,
    pub image: &'a Image,
    pub slot: &'a Slot,
    pub skipped: bool,
}

// The job at a place, alone.
fn job_at(facts: &Facts, at: usize) -> Option<Job>
    ensures { result ≡ slice_get (facts_content facts.entry.now).jobs at }
{
    match facts.jobs.as_slice().get(at) {
        Some(job) => Some(*job),
        None => None,
    }
}

// Its image.
fn image_of<'a>(facts: &'a Facts, job: Job) -> Option<&'a Image>
    ensures { let images = (facts_content facts.entry.now).content.images in
        option_map (λ image. image_content image.now) result ≡ slice_get images job.image }
{
    facts.manifest.images.as_slice().get(job.image)
}

/// The slot at a place.
pub fn slot_at(system: &System, at: usize) -> Option<&Slot>
    ensures { option_map (λ slot. slot.now) result ≡ slice_get system.entry.now.slots at }
{
    system.slots.as_slice().get(at)
}

// Whether it is skipped.
fn is_skipped(facts: &Facts, at: usize) -> bool
    ensures { result ≡ slice_index_or (facts_content facts.entry.now).skipped at false }
{
    match facts.skipped.as_slice().get(at) {
        Some(skipped) => *skipped,
        None => false,
    }
}

/// The job at a place, where there is one.
pub fn work_at<'a>(system: &'a System, facts: &'a Facts, at: usize) -> Option<Work<'a>>
    ensures { let c = system_configuration system.entry.now in
        let f = facts_content facts.entry.now in
        option_map work_content result ≡ spec.work_at c f at }
{
    let job = job_at(facts, at)?;
    let image = image_of(facts, job)?;
    let slot = slot_at(system, job.slot)?;
    let skipped = is_skipped(facts, at);
    Some(Work {
        at,
        job,
        image,
        slot,
        skipped,
    })
}

impl<'a> Work<'a> {
    /// Whether RAUC alone writes its slot: it is not skipped, and no hook installs the image or comes
    /// after it.
    pub fn is_alone(&self) -> bool
        ensures { result ≡ spec.is_alone (work_content self.now) }
    {
        !self.skipped && !(self.image.install || self.image.post)
    }
}
