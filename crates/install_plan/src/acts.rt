ghost use Rattle.std.specs.Prelude.{◌≡◌, ◌++◌, ◌+◌, ◌≤◌, ◌<◌, [], ◌∷◌, IfOk, OnOk, codes, length, if◌then◌else◌};
ghost use Rattle.system_conf.specs.Reads.{system_configuration};
ghost use Rattle.install_facts.specs.Facts.{AreSound, facts_content};
ghost use Rattle.install_facts.specs.Notes.{note};
ghost use Rattle.install_plan.specs.declared.step.Act.TheVariants.{Do, Tell};
ghost use Rattle.install_plan.specs.Acts as spec;
ghost use Rattle.install_plan.specs.Works.{HasHookFile, work_content};

use crate::children::{push_handler, push_hook};
use crate::roots::target_roots;
use crate::works::{Work, work_at};
use crate::{Act, Step};
use child_steps::{HandlerKind, HookKind};
use install_facts::{Facts, Note, image_path};
use manifest::ImageFile;
use raw_writer::PutJob;
use std::alloc::Global;
use system_conf::System;
use updater_text::{Items, NoMemory, Text};

fn push_step(acts: &mut Items<Act>, step: Step) -> Result<(), NoMemory>
    ensures { OnOk result (acts.new ≡ acts.old ++ Do step ∷ []) }
{
    acts.push(Act::Do(step))
}

// ---- one job

// What is put where.
fn put_of(alloc: Global, system: &System, work: &Work, file: &ImageFile) -> Result<PutJob, NoMemory>
    ensures { let c = system_configuration system.now in
        IfOk result (λ put. put ≡ spec.put_of c (work_content work.now) file.now) }
{
    let image = image_path(alloc, system, file)?;
    let device = work.slot.device.copy(alloc)?;
    Ok(PutJob {
        image,
        device,
        size: file.size,
        digest: file.digest,
        index: None,
        active_device: None,
        active_index: None,
    })
}

// The put of an image, unless a hook installs it.
fn push_put(
    acts: &mut Items<Act>,
    alloc: Global,
    system: &System,
    work: &Work,
) -> Result<(), NoMemory>
    ensures { let c = system_configuration system.now in
        OnOk result (acts.new ≡ acts.old ++ spec.put_acts c (work_content work.now)) }
{
    match &work.image.file {
        Some(file) if !work.image.install => {
            let put = put_of(alloc, system, work, file)?;
            let job = work.at;
            push_step(acts, Step::Put { job, put })
        }
        _ => Ok(()),
    }
}

// Makes what hooks wrote last.
fn push_settle(acts: &mut Items<Act>, work: &Work) -> Result<(), NoMemory>
    ensures { OnOk result (acts.new ≡ acts.old ++ spec.settle_acts (work_content work.now)) }
{
    if work.image.install || work.image.post {
        let slot = work.job.slot;
        push_step(acts, Step::Settle { slot })?;
    }
    Ok(())
}

// Keeps the block index of an image that is put, where there is a place for it.
fn push_index(acts: &mut Items<Act>, system: &System, work: &Work) -> Result<(), NoMemory>
    ensures { let c = system_configuration system.now in
        OnOk result (acts.new ≡ acts.old ++ spec.index_acts c (work_content work.now)) }
{
    if !work.image.install && work.image.adaptive && system.data_directory.is_some() {
        let job = work.at;
        push_step(acts, Step::Index { job })?;
    }
    Ok(())
}

// The steps of a job that is not skipped.
fn push_work(
    acts: &mut Items<Act>,
    alloc: Global,
    system: &System,
    facts: &Facts,
    work: &Work,
) -> Result<(), NoMemory>
    requires { HasHookFile facts.now work.now }
    ensures { let c = system_configuration system.now in
        let f = facts_content facts.entry.now in
        OnOk result (acts.new ≡ acts.old ++ spec.work_acts c f (work_content work.now)) }
{
    let slot = work.job.slot;
    let job = work.at;
    let image = work.image;
    push_step(acts, Step::Begin { slot })?;
    push_hook(acts, alloc, system, facts, work, HookKind::Pre, image.pre)?;
    push_hook(
        acts,
        alloc,
        system,
        facts,
        work,
        HookKind::Install,
        image.install,
    )?;
    push_put(acts, alloc, system, work)?;
    push_hook(acts, alloc, system, facts, work, HookKind::Post, image.post)?;
    push_settle(acts, work)?;
    push_index(acts, system, work)?;
    push_step(acts, Step::Done { job })
}

// The same, where it is not.
fn push_unless_skipped(
    acts: &mut Items<Act>,
    alloc: Global,
    system: &System,
    facts: &Facts,
    work: &Work,
) -> Result<(), NoMemory>
    requires { HasHookFile facts.now work.now }
    ensures { let c = system_configuration system.now in
        let f = facts_content facts.entry.now in
        let steps = spec.work_acts c f (work_content work.now) in
        OnOk result (acts.new ≡ acts.old ++ (if work.now.skipped then [] else steps)) }
{
    if work.skipped {
        Ok(())
    } else {
        push_work(acts, alloc, system, facts, work)
    }
}

// ---- notes

fn push_note(acts: &mut Items<Act>, alloc: Global, percent: u8, text: &str) -> Result<(), NoMemory>
    ensures { OnOk result (acts.new ≡ acts.old ++ Tell (note percent text.now) ∷ []) }
{
    let text = Text::new(alloc, text)?;
    acts.push(Act::Tell(Note { percent, text }))
}

fn slot_word(skipped: bool) -> &'static str
    ensures { result.now ≡ (if skipped then codes "kept" else codes "written") }
{
    if skipped { "kept" } else { "written" }
}

fn slot_note(alloc: Global, name: &str, skipped: bool) -> Result<Text, NoMemory>
    ensures { IfOk result (λ t. t ≡ spec.slot_text name.now skipped) }
{
    let word = slot_word(skipped);
    Ok(Text::from_string(format!(in alloc; "slot {name} {word}")?))
}

// How far the install is once so many of the jobs are done, in percent. It counts with 128 bits, since
// there any number of jobs has its fiftyfold.
fn percent_of(done: usize, all: usize) -> u8
    requires some { 0 < all }
    requires within { done ≤ all }
    ensures { result ≡ spec.percent_of done all }
{
    40 + (50 * done as u128 / all as u128) as u8
}

// The note of a job.
fn push_work_note(
    acts: &mut Items<Act>,
    alloc: Global,
    facts: &Facts,
    work: &Work,
) -> Result<(), NoMemory>
    requires { work.now.at < length facts.now.jobs }
    ensures { let percent = spec.percent_of (work.now.at + 1) (length facts.entry.now.jobs) in
        let text = spec.slot_text work.now.slot.now.name work.now.skipped in
        OnOk result (acts.new ≡ acts.old ++ Tell (note percent text) ∷ []) }
{
    let text = slot_note(alloc, work.slot.name.as_str(), work.skipped)?;
    let all = facts.jobs.as_slice().len();
    let percent = percent_of(work.at + 1, all);
    push_note(acts, alloc, percent, text.as_str())
}

// The steps of any job, and the note of it.
fn push_job(
    acts: &mut Items<Act>,
    alloc: Global,
    system: &System,
    facts: &Facts,
    at: usize,
) -> Result<(), NoMemory>
    ensures { let c = system_configuration system.now in
        let f = facts_content facts.entry.now in
        OnOk result (acts.new ≡ acts.old ++ spec.job_acts c f at) }
{
    match work_at(system, facts, at) {
        Some(work) => {
            push_unless_skipped(acts, alloc, system, facts, &work)?;
            push_work_note(acts, alloc, facts, &work)
        }
        None => Ok(()),
    }
}

// ---- phases

fn push_jobs(
    acts: &mut Items<Act>,
    alloc: Global,
    system: &System,
    facts: &Facts,
) -> Result<(), NoMemory>
    ensures { let c = system_configuration system.now in
        let f = facts_content facts.entry.now in
        OnOk result (acts.new ≡ acts.old ++ spec.jobs_acts c f) }
{
    for at in 0..facts.jobs.as_slice().len() {
        push_job(acts, alloc, system, facts, at)?;
    }
    Ok(())
}

// Marks the roots bad.
fn push_bad(acts: &mut Items<Act>, roots: &[usize]) -> Result<(), NoMemory>
    ensures { OnOk result (acts.new ≡ acts.old ++ spec.bad_acts roots.now) }
{
    for root in roots {
        let root = *root;
        push_step(acts, Step::Bad { root })?;
    }
    Ok(())
}

// Makes a root primary, and notes that.
fn push_primary(acts: &mut Items<Act>, root: usize) -> Result<(), NoMemory>
    ensures { OnOk result (acts.new ≡ acts.old ++ spec.primary_acts root) }
{
    push_step(acts, Step::Primary { root })?;
    push_step(acts, Step::Activated { root })
}

// The same of each root, from the last to the first, so that the first is primary in the end.
fn push_roots(acts: &mut Items<Act>, roots: &[usize]) -> Result<(), NoMemory>
    ensures { OnOk result (acts.new ≡ acts.old ++ spec.root_acts roots.now) }
{
    for root in roots.iter().rev() {
        push_primary(acts, *root)?;
    }
    Ok(())
}

// Puts all of an install with these roots.
fn push_all(
    acts: &mut Items<Act>,
    alloc: Global,
    system: &System,
    facts: &Facts,
    roots: &[usize],
) -> Result<(), NoMemory>
    requires { let c = system_configuration system.now in
        roots.now ≡ spec.target_roots c (facts_content facts.now) }
    ensures { let c = system_configuration system.now in
        OnOk result (acts.new ≡ acts.old ++ spec.acts_of c (facts_content facts.entry.now)) }
{
    let all = facts.jobs.as_slice().len();
    push_handler(acts, alloc, system, facts, HandlerKind::Pre, 0)?;
    push_bad(acts, roots)?;
    push_jobs(acts, alloc, system, facts)?;
    push_roots(acts, roots)?;
    push_note(acts, alloc, 95, "target activated")?;
    push_handler(acts, alloc, system, facts, HandlerKind::Post, all)?;
    push_note(acts, alloc, 100, "done")?;
    Ok(())
}

/// What an install does from its first change on, in order, with its notes. The only error is out of
/// memory.
pub fn acts_of(alloc: Global, system: &System, facts: &Facts) -> Result<Items<Act>, NoMemory>
    requires { AreSound (system_configuration system.now) (facts_content facts.now) }
    ensures { let c = system_configuration system.now in
        IfOk result (λ acts. acts ≡ spec.acts_of c (facts_content facts.entry.now)) }
{
    let roots = target_roots(alloc, system, facts)?;
    let mut acts = Items::new(alloc);
    push_all(&mut acts, alloc, system, facts, roots.as_slice())?;
    Ok(acts)
}

// Puts a step at the end, where this is one.
fn push_if_step(steps: &mut Items<Step>, act: Act) -> Result<(), NoMemory>
    ensures { OnOk result (steps.new ≡ steps.old ++ spec.steps_in (act ∷ [])) }
{
    match act {
        Act::Do(step) => steps.push(step),
        Act::Tell(_) => Ok(()),
    }
}

/// The steps among these acts, in order. The only error is out of memory.
pub fn steps_of(alloc: Global, system: &System, facts: &Facts) -> Result<Items<Step>, NoMemory>
    requires { AreSound (system_configuration system.now) (facts_content facts.now) }
    ensures { let c = system_configuration system.now in
        let acts = spec.acts_of c (facts_content facts.entry.now) in
        IfOk result (λ steps. steps ≡ spec.steps_in acts) }
{
    let acts = acts_of(alloc, system, facts)?;
    let mut steps = Items::new(alloc);
    for act in acts.into_vec() {
        push_if_step(&mut steps, act)?;
    }
    Ok(steps)
}
