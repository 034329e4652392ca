ghost use Rattle.std.specs.Prelude.{◌≡◌, [], ◌∷◌, ◌++◌, IfOk, IsSome, OnOk, codes, length, map, unwrap_or};
ghost use Rattle.std.specs.List.{enumerate_from, flat_map, join_by, range_with_len};
ghost use Rattle.system_conf.specs.Reads.{system_configuration};
ghost use Rattle.child_steps.specs.Hooks as spec;

use crate::env::{kind_word, numbered, parent_name, push_var, push_var_if_any};
use crate::helper::mount_point;
use machine::{Child, ChildClass, EnvVar, Spares, TryClone};
use slot_graph::{Booted, Job};
use std::alloc::Global;
use system_conf::{Slot, System};
use updater_text::{Items, NoMemory, Text};

/// When a handler runs.
#[derive(Clone, Copy, Debug, PartialEq, Eq)]
pub enum HandlerKind {
    /// Before anything is changed.
    Pre,
    /// After everything is done.
    Post,
}

impl HandlerKind {
    /// What it is called. It takes no memory.
    pub fn word(self) -> &'static str
        ensures { result.now ≡ spec.handler_word self }
    {
        match self {
            HandlerKind::Pre => "pre-install",
            HandlerKind::Post => "post-install",
        }
    }
}

/// What the handlers are run for.
#[derive(Drop)]
pub struct HandlerContext {
    pub booted: Booted,
    /// Which image goes to which slot.
    pub jobs: Items<Job>,
    /// What they must leave alone.
    pub spares: Spares,
}

// The words, with a blank between each two.
fn joined(alloc: Global, words: &[Text]) -> Result<Text, NoMemory>
    ensures { IfOk result (λ text. text ≡ join_by (λ word. word) (codes " ") words.now) }
{
    Ok(Text::from_string(words.join(alloc, " ")?))
}

// The numbers of the slots at the first places, so many of them.
fn slot_numbers(alloc: Global, count: usize) -> Result<Text, NoMemory>
    ensures { IfOk result (λ text. text ≡ spec.numbers (range_with_len 0 count)) }
{
    let mut words = Vec::new(alloc);
    for at in 0..count {
        let number = numbered(alloc, "", at)?;
        words.push(number)?;
    }
    joined(alloc, words.as_slice())
}

// The numbers of the slots that get an image.
fn target_numbers(alloc: Global, jobs: &[Job]) -> Result<Text, NoMemory>
    ensures { IfOk result (λ text. text ≡ spec.numbers (map (λ j. j.slot) jobs.now)) }
{
    let mut words = Vec::new(alloc);
    for job in jobs {
        let number = numbered(alloc, "", job.slot)?;
        words.push(number)?;
    }
    joined(alloc, words.as_slice())
}

// Puts the bootname of the slot that is booted, where it has one.
fn push_booted(
    env: &mut Items<EnvVar>,
    alloc: Global,
    slots: &[Slot],
    booted: Booted,
) -> Result<(), NoMemory>
    ensures { let bootname = spec.booted_bootname slots.now booted in
        OnOk result (env.new ≡ env.old ++ spec.var_if_any (codes "RAUC_CURRENT_BOOTNAME") bootname) }
{
    let Booted::Slot(at) = booted else {
        return Ok(());
    };
    match slots.get(at) {
        Some(slot) => push_var_if_any(env, alloc, "RAUC_CURRENT_BOOTNAME", &slot.bootname),
        None => Ok(()),
    }
}

// Puts what a handler is told of the bundle, of what is booted, and of the slots that there are and
// that get an image.
#[tactic(auto, unfolding(crate::specs::Hooks::install_vars))]
fn push_install_vars(
    env: &mut Items<EnvVar>,
    alloc: Global,
    system: &System,
    booted: Booted,
    jobs: &[Job],
) -> Result<(), NoMemory>
    ensures { let c = system_configuration system.now in
        OnOk result (env.new ≡ env.old ++ spec.install_vars c booted jobs.now) }
{
    let slots = system.slots.as_slice();
    let point = mount_point(alloc, system)?;
    let numbers = slot_numbers(alloc, slots.len())?;
    let targets = target_numbers(alloc, jobs)?;
    push_var(env, alloc, "RAUC_UPDATE_SOURCE", &point)?;
    push_var(env, alloc, "RAUC_MOUNT_PREFIX", &system.mount_prefix)?;
    push_var(env, alloc, "RAUC_BUNDLE_MOUNT_POINT", &point)?;
    push_booted(env, alloc, slots, booted)?;
    push_var(env, alloc, "RAUC_SLOTS", &numbers)?;
    push_var(env, alloc, "RAUC_TARGET_SLOTS", &targets)?;
    Ok(())
}

// Puts a variable for the slot at a place.
fn push_numbered(
    env: &mut Items<EnvVar>,
    alloc: Global,
    front: &str,
    at: usize,
    value: &Text,
) -> Result<(), NoMemory>
    ensures { OnOk result (env.new ≡ env.old ++ spec.var (spec.numbered front.now at) value.now) }
{
    let name = numbered(alloc, front, at)?;
    push_var(env, alloc, name.as_str(), value)
}

// The same, where it has a value.
fn push_numbered_if_any(
    env: &mut Items<EnvVar>,
    alloc: Global,
    front: &str,
    at: usize,
    value: &Option<Text>,
) -> Result<(), NoMemory>
    ensures { OnOk result (env.new ≡ env.old ++ spec.var_if_any (spec.numbered front.now at) value.now) }
{
    let name = numbered(alloc, front, at)?;
    push_var_if_any(env, alloc, name.as_str(), value)
}

// Puts what a handler is told of the slot at a place.
#[tactic(auto, unfolding(crate::specs::Hooks::numbered_vars))]
fn push_slot(
    env: &mut Items<EnvVar>,
    alloc: Global,
    slots: &[Slot],
    at: usize,
    slot: &Slot,
) -> Result<(), NoMemory>
    ensures { OnOk result (env.new ≡ env.old ++ spec.numbered_vars slots.now (at, slot.now)) }
{
    let kind = kind_word(alloc, slot)?;
    let parent = parent_name(alloc, slots, slot)?;
    push_numbered(env, alloc, "RAUC_SLOT_NAME_", at, &slot.name)?;
    push_numbered(env, alloc, "RAUC_SLOT_CLASS_", at, &slot.class)?;
    push_numbered(env, alloc, "RAUC_SLOT_DEVICE_", at, &slot.device)?;
    push_numbered(env, alloc, "RAUC_SLOT_TYPE_", at, &kind)?;
    push_numbered_if_any(env, alloc, "RAUC_SLOT_BOOTNAME_", at, &slot.bootname)?;
    push_numbered_if_any(env, alloc, "RAUC_SLOT_PARENT_", at, &parent)?;
    Ok(())
}

// Puts what it is told of each slot.
fn push_slots(env: &mut Items<EnvVar>, alloc: Global, slots: &[Slot]) -> Result<(), NoMemory>
    ensures { OnOk result
        (env.new ≡ env.old ++ flat_map (spec.numbered_vars slots.now) (enumerate_from 0 slots.now)) }
{
    for (at, slot) in slots.iter().enumerate() {
        push_slot(env, alloc, slots, at, slot)?;
    }
    Ok(())
}

// What a handler is told.
fn handler_vars(
    alloc: Global,
    system: &System,
    booted: Booted,
    jobs: &[Job],
) -> Result<Items<EnvVar>, NoMemory>
    ensures { let c = system_configuration system.now in
        IfOk result (λ env. env ≡ spec.handler_vars c booted jobs.now) }
{
    let mut env = Items::new(alloc);
    push_install_vars(&mut env, alloc, system, booted, jobs)?;
    push_slots(&mut env, alloc, system.slots.as_slice())?;
    Ok(env)
}

// The program of a handler.
fn handler_program(alloc: Global, system: &System, which: HandlerKind) -> Result<Text, NoMemory>
    requires { IsSome (spec.handler_program (system_configuration system.now) which) }
    ensures { let configured = spec.handler_program (system_configuration system.now) which in
        IfOk result (λ path. path ≡ unwrap_or configured []) }
{
    let configured = match which {
        HandlerKind::Pre => &system.pre_install,
        HandlerKind::Post => &system.post_install,
    };
    match configured {
        Some(path) => path.copy(alloc),
        None => unreachable!(),
    }
}

/// A handler that is configured: a program of the system, without arguments, that is run before an
/// install or after it. Its variables tell it of all slots, and which of them get an image.
pub fn handler(
    alloc: Global,
    system: &System,
    context: &HandlerContext,
    which: HandlerKind,
) -> Result<Child, NoMemory>
    requires { IsSome (spec.handler_program (system_configuration system.now) which) }
    ensures { let c = system_configuration system.now in
        let jobs = context.now.jobs in
        IfOk result
        (λ child. child ≡ spec.handler_child c context.now.booted jobs which context.now.spares) }
{
    let program = handler_program(alloc, system, which)?;
    let spares = context.spares.try_clone(alloc)?;
    let env = handler_vars(alloc, system, context.booted, context.jobs.as_slice())?;
    Ok(Child {
        class: ChildClass::Handler,
        program,
        args: Items::new(alloc),
        env,
        spares,
    })
}
