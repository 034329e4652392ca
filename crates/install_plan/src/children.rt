ghost use Rattle.std.specs.Prelude.{◌≡◌, ◌++◌, [], ◌∷◌, IfOk, IsSome, IsTrue, OnOk, is_some, false};
ghost use Rattle.std.specs.List.{slice_index_or};
ghost use Rattle.child_steps.specs.Hooks as child;
ghost use Rattle.running_system.specs.Running as running;
ghost use Rattle.slot_graph.specs.declared.state.SlotState.TheVariants as state;
ghost use Rattle.system_conf.specs.Reads.{system_configuration};
ghost use Rattle.install_facts.specs.Facts.{facts_content};
ghost use Rattle.install_plan.specs.Acts as spec;
ghost use Rattle.install_plan.specs.Works.{work_content};

use crate::works::{Work, slot_at, work_at};
use crate::{Act, Caller, Step};
use child_steps::{
    HandlerContext, HandlerKind, HookContext, HookKind, handler, install_spares, slot_hook,
};
use install_facts::Facts;
use machine::{Child, Spares};
use running_system::is_in_use;
use slot_graph::Job;
use std::alloc::Global;
use system_conf::{Slot, System};
use updater_text::{Items, NoMemory, Text};

// ---- what hooks and handlers have to leave alone

// Whether the slot at a place runs.
fn runs(facts: &Facts, at: usize) -> bool
    ensures { let states = (facts_content facts.entry.now).states in
        result ≡ running.is_in_use (slice_index_or states at state.Inactive) }
{
    match facts.states.as_slice().get(at) {
        Some(state) => is_in_use(*state),
        None => false,
    }
}

fn push_device(devices: &mut Items<Text>, alloc: Global, slot: &Slot) -> Result<(), NoMemory>
    ensures { OnOk result (devices.new ≡ devices.old ++ slot.now.device ∷ []) }
{
    let device = slot.device.copy(alloc)?;
    devices.push(device)?;
    Ok(())
}

// Puts the device of the slot at a place at the end, where that runs.
fn push_if_running(
    devices: &mut Items<Text>,
    alloc: Global,
    system: &System,
    facts: &Facts,
    at: usize,
) -> Result<(), NoMemory>
    ensures { let c = system_configuration system.now in
        let f = facts_content facts.entry.now in
        OnOk result (devices.new ≡ devices.old ++ spec.running_device c f at) }
{
    match slot_at(system, at) {
        Some(slot) if runs(facts, at) => push_device(devices, alloc, slot),
        _ => Ok(()),
    }
}

// The devices of the slots that run.
fn running_devices(alloc: Global, system: &System, facts: &Facts) -> Result<Items<Text>, NoMemory>
    ensures { let c = system_configuration system.now in
        let f = facts_content facts.entry.now in
        IfOk result (λ devices. devices ≡ spec.running_devices c f) }
{
    let mut devices = Items::new(alloc);
    for at in 0..system.slots.as_slice().len() {
        push_if_running(&mut devices, alloc, system, facts, at)?;
    }
    Ok(devices)
}

// Puts the device of the job at a place at the end, where RAUC alone writes it.
fn push_if_alone(
    devices: &mut Items<Text>,
    alloc: Global,
    system: &System,
    facts: &Facts,
    at: usize,
) -> Result<(), NoMemory>
    ensures { let c = system_configuration system.now in
        let f = facts_content facts.entry.now in
        OnOk result (devices.new ≡ devices.old ++ spec.alone_device c f at) }
{
    match work_at(system, facts, at) {
        Some(work) if work.is_alone() => push_device(devices, alloc, work.slot),
        _ => Ok(()),
    }
}

// The same where it is skipped.
fn push_if_skipped(
    devices: &mut Items<Text>,
    alloc: Global,
    system: &System,
    facts: &Facts,
    at: usize,
) -> Result<(), NoMemory>
    ensures { let c = system_configuration system.now in
        let f = facts_content facts.entry.now in
        OnOk result (devices.new ≡ devices.old ++ spec.skipped_device c f at) }
{
    match work_at(system, facts, at) {
        Some(work) if work.skipped => push_device(devices, alloc, work.slot),
        _ => Ok(()),
    }
}

// Puts those of the jobs before a place that are put and that RAUC alone writes.
fn push_put(
    devices: &mut Items<Text>,
    alloc: Global,
    system: &System,
    facts: &Facts,
    before: usize,
) -> Result<(), NoMemory>
    ensures { let c = system_configuration system.now in
        let f = facts_content facts.entry.now in
        OnOk result (devices.new ≡ devices.old ++ spec.put_devices c f before) }
{
    for at in 0..before {
        push_if_alone(devices, alloc, system, facts, at)?;
    }
    Ok(())
}

// Puts those of the jobs that are skipped.
fn push_skipped(
    devices: &mut Items<Text>,
    alloc: Global,
    system: &System,
    facts: &Facts,
) -> Result<(), NoMemory>
    ensures { let c = system_configuration system.now in
        let f = facts_content facts.entry.now in
        OnOk result (devices.new ≡ devices.old ++ spec.skipped_devices c f) }
{
    for at in 0..facts.jobs.as_slice().len() {
        push_if_skipped(devices, alloc, system, facts, at)?;
    }
    Ok(())
}

// What a hook or a handler has to leave alone, once the jobs before a place are put.
fn spares_at(
    alloc: Global,
    system: &System,
    facts: &Facts,
    before: usize,
) -> Result<Spares, NoMemory>
    ensures { let c = system_configuration system.now in
        let f = facts_content facts.entry.now in
        IfOk result (λ spares. spares ≡ spec.spares_at c f before) }
{
    let mut devices = running_devices(alloc, system, facts)?;
    push_put(&mut devices, alloc, system, facts, before)?;
    push_skipped(&mut devices, alloc, system, facts)?;
    install_spares(alloc, system, devices)
}

// ---- handlers and hooks

fn is_configured(system: &System, which: HandlerKind) -> bool
    ensures { result ≡ is_some (child.handler_program (system_configuration system.now) which) }
{
    match which {
        HandlerKind::Pre => system.pre_install.is_some(),
        HandlerKind::Post => system.post_install.is_some(),
    }
}

fn copy_jobs(alloc: Global, jobs: &[Job]) -> Result<Items<Job>, NoMemory>
    ensures { IfOk result (λ copy. copy ≡ jobs.now) }
{
    let mut copy = Items::new(alloc);
    for job in jobs {
        copy.push(*job)?;
    }
    Ok(copy)
}

// A handler that is configured, once the jobs before a place are put.
fn handler_at(
    alloc: Global,
    system: &System,
    facts: &Facts,
    which: HandlerKind,
    before: usize,
) -> Result<Child, NoMemory>
    requires { IsSome (child.handler_program (system_configuration system.now) which) }
    ensures { let c = system_configuration system.now in
        let f = facts_content facts.entry.now in
        let spares = spec.spares_at c f before in
        IfOk result (λ ran. ran ≡ child.handler_child c f.booted f.jobs which spares) }
{
    let spares = spares_at(alloc, system, facts, before)?;
    let jobs = copy_jobs(alloc, facts.jobs.as_slice())?;
    let context = HandlerContext {
        booted: facts.booted,
        jobs,
        spares,
    };
    handler(alloc, system, &context, which)
}

/// Puts the run of a handler at the end, where it is configured, once the jobs before a place are put.
pub fn push_handler(
    acts: &mut Items<Act>,
    alloc: Global,
    system: &System,
    facts: &Facts,
    which: HandlerKind,
    before: usize,
) -> Result<(), NoMemory>
    ensures { let c = system_configuration system.now in
        let f = facts_content facts.entry.now in
        OnOk result (acts.new ≡ acts.old ++ spec.handler_acts c f which before) }
{
    if is_configured(system, which) {
        let child = handler_at(alloc, system, facts, which, before)?;
        let caller = Caller::Handler(which);
        acts.push(Act::Do(Step::Run { child, caller }))?;
    }
    Ok(())
}

// What the hooks of a job are run for.
fn context_at(
    alloc: Global,
    system: &System,
    facts: &Facts,
    work: &Work,
) -> Result<HookContext, NoMemory>
    ensures manifest { IfOk result (λ context. context.manifest ≡ facts.entry.now.manifest) }
    ensures job { IfOk result (λ context. context.job ≡ work.now.job) }
    ensures spares { let c = system_configuration system.now in
        let f = facts_content facts.entry.now in
        IfOk result (λ context. context.spares ≡ spec.spares_at c f work.now.at) }
{
    let spares = spares_at(alloc, system, facts, work.at)?;
    let manifest = facts.manifest.copy(alloc)?;
    Ok(HookContext {
        manifest,
        job: work.job,
        spares,
    })
}

// A hook of a job.
fn hook_at(
    alloc: Global,
    system: &System,
    facts: &Facts,
    work: &Work,
    which: HookKind,
) -> Result<Child, NoMemory>
    requires { IsSome facts.now.manifest.hook_file }
    ensures { let c = system_configuration system.now in
        let f = facts_content facts.entry.now in
        let spares = spec.spares_at c f work.now.at in
        IfOk result (λ ran. ran ≡ child.slot_hook c f.content work.now.job which spares) }
{
    let context = context_at(alloc, system, facts, work)?;
    slot_hook(alloc, system, &context, which)
}

/// Puts the run of a hook at the end, where the image of a job names it. The file of the hooks is there
/// then.
pub fn push_hook(
    acts: &mut Items<Act>,
    alloc: Global,
    system: &System,
    facts: &Facts,
    work: &Work,
    which: HookKind,
    named: bool,
) -> Result<(), NoMemory>
    requires { IsTrue named → IsSome facts.now.manifest.hook_file }
    ensures { let c = system_configuration system.now in
        let f = facts_content facts.entry.now in
        OnOk result (acts.new ≡ acts.old ++ spec.hook_acts c f (work_content work.now) which named) }
{
    if named {
        let child = hook_at(alloc, system, facts, work, which)?;
        let slot = work.job.slot;
        let caller = Caller::Hook { which, slot };
        acts.push(Act::Do(Step::Run { child, caller }))?;
    }
    Ok(())
}
