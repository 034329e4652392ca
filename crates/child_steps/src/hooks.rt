ghost use Rattle.std.specs.Prelude.{◌≡◌, [], ◌∷◌, ◌++◌, IfOk, IsSome, OnOk, codes, decimal, slice_get};
ghost use Rattle.std.specs.Option.{option_map_or};
ghost use Rattle.manifest.specs.Reads.{image_content, image_contents, manifest_content};
ghost use Rattle.system_conf.specs.Reads.{system_configuration};
ghost use Rattle.child_steps.specs.Hooks as spec;

use crate::env::{kind_word, parent_name, push_var, push_var_if_any};
use crate::helper::{mount_point, one};
use crate::spared::helper_spares;
use machine::{Child, ChildClass, EnvVar, Spares, TryClone};
use manifest::{Image, ImageFile, Manifest};
use slot_graph::Job;
use std::alloc::Global;
use system_conf::{Slot, System};
use updater_text::{Items, NoMemory, Text};

/// When a hook of a slot runs.
#[derive(Clone, Copy, Debug, PartialEq, Eq)]
pub enum HookKind {
    /// Before the image is written.
    Pre,
    /// In place of the write.
    Install,
    /// After the image was written.
    Post,
}

impl HookKind {
    /// The argument that tells the hook so. It takes no memory.
    pub fn word(self) -> &'static str
        ensures { result.now ≡ spec.hook_word self }
    {
        match self {
            HookKind::Pre => "slot-pre-install",
            HookKind::Install => "slot-install",
            HookKind::Post => "slot-post-install",
        }
    }
}

/// What the hooks of a slot are run for.
#[derive(Drop)]
pub struct HookContext {
    pub manifest: Manifest,
    pub job: Job,
    /// What they must leave alone.
    pub spares: Spares,
}

// The path of a file of the bundle that is mounted.
fn bundled(alloc: Global, system: &System, name: &str) -> Result<Text, NoMemory>
    ensures { IfOk result (λ path. path ≡ spec.bundled (system_configuration system.now) name.now) }
{
    let point = mount_point(alloc, system)?;
    path_in(alloc, point.as_str(), name)
}

fn path_in(alloc: Global, point: &str, name: &str) -> Result<Text, NoMemory>
    ensures { IfOk result (λ path. path ≡ point.now ++ (codes "/" ++ name.now)) }
{
    Ok(Text::from_string(format!(in alloc; "{point}/{name}")?))
}

// The program of the hooks.
fn hook_program(alloc: Global, system: &System, manifest: &Manifest) -> Result<Text, NoMemory>
    requires { IsSome manifest.now.hook_file }
    ensures { IfOk result
        (λ path. path ≡ spec.hook_program (system_configuration system.now) (manifest_content manifest.now)) }
{
    match &manifest.hook_file {
        Some(file) => bundled(alloc, system, file.as_str()),
        None => unreachable!(),
    }
}

// Puts what each hook is told.
#[tactic(auto, unfolding(crate::specs::Hooks::hook_vars))]
fn push_hook_vars(
    env: &mut Items<EnvVar>,
    alloc: Global,
    system: &System,
    manifest: &Manifest,
) -> Result<(), NoMemory>
    ensures { let c = system_configuration system.now in
        OnOk result (env.new ≡ env.old ++ spec.hook_vars c (manifest_content manifest.now)) }
{
    let bundle = &manifest.bundle;
    let point = mount_point(alloc, system)?;
    push_var(env, alloc, "RAUC_SYSTEM_COMPATIBLE", &system.compatible)?;
    push_var(env, alloc, "RAUC_MF_COMPATIBLE", &bundle.compatible)?;
    push_var_if_any(env, alloc, "RAUC_MF_VERSION", &bundle.version)?;
    push_var(env, alloc, "RAUC_MOUNT_PREFIX", &system.mount_prefix)?;
    push_var(env, alloc, "RAUC_BUNDLE_MOUNT_POINT", &point)?;
    Ok(())
}

// Puts what the hook of a slot is told of the slot.
#[tactic(auto, unfolding(crate::specs::Hooks::slot_vars))]
fn push_slot_vars(
    env: &mut Items<EnvVar>,
    alloc: Global,
    slots: &[Slot],
    slot: &Slot,
) -> Result<(), NoMemory>
    ensures { OnOk result (env.new ≡ env.old ++ spec.slot_vars slots.now slot.now) }
{
    let kind = kind_word(alloc, slot)?;
    let parent = parent_name(alloc, slots, slot)?;
    push_var(env, alloc, "RAUC_SLOT_NAME", &slot.name)?;
    push_var(env, alloc, "RAUC_SLOT_CLASS", &slot.class)?;
    push_var(env, alloc, "RAUC_SLOT_TYPE", &kind)?;
    push_var(env, alloc, "RAUC_SLOT_DEVICE", &slot.device)?;
    push_var_if_any(env, alloc, "RAUC_SLOT_BOOTNAME", &slot.bootname)?;
    push_var_if_any(env, alloc, "RAUC_SLOT_PARENT", &parent)?;
    Ok(())
}

// Puts what it is told of the image's file.
#[tactic(auto, unfolding(crate::specs::Hooks::file_vars))]
fn push_file_vars(
    env: &mut Items<EnvVar>,
    alloc: Global,
    system: &System,
    file: &ImageFile,
) -> Result<(), NoMemory>
    ensures { let c = system_configuration system.now in
        OnOk result (env.new ≡ env.old ++ spec.file_vars c file.now) }
{
    let path = bundled(alloc, system, file.name.as_str())?;
    let size = size_text(alloc, file.size)?;
    let digest = file.digest.hex(alloc)?;
    push_var(env, alloc, "RAUC_IMAGE_NAME", &path)?;
    push_var(env, alloc, "RAUC_IMAGE_SIZE", &size)?;
    push_var(env, alloc, "RAUC_IMAGE_DIGEST", &digest)?;
    Ok(())
}

fn size_text(alloc: Global, size: u64) -> Result<Text, NoMemory>
    ensures { IfOk result (λ text. text ≡ decimal size) }
{
    Ok(Text::from_string(format!(in alloc; "{size}")?))
}

// The same, where the image has a file.
fn push_file_if_any(
    env: &mut Items<EnvVar>,
    alloc: Global,
    system: &System,
    file: &Option<ImageFile>,
) -> Result<(), NoMemory>
    ensures { let c = system_configuration system.now in
        OnOk result (env.new ≡ env.old ++ option_map_or (spec.file_vars c) file.now []) }
{
    match file {
        Some(file) => push_file_vars(env, alloc, system, file),
        None => Ok(()),
    }
}

// Puts what it is told of the image.
fn push_image_vars(
    env: &mut Items<EnvVar>,
    alloc: Global,
    system: &System,
    image: &Image,
) -> Result<(), NoMemory>
    ensures { let c = system_configuration system.now in
        OnOk result (env.new ≡ env.old ++ spec.image_vars c (image_content image.now)) }
{
    push_file_if_any(env, alloc, system, &image.file)?;
    push_var(env, alloc, "RAUC_IMAGE_CLASS", &image.class)?;
    Ok(())
}

// Puts what it is told of the slot at a place.
fn push_slot_at(
    env: &mut Items<EnvVar>,
    alloc: Global,
    slots: &[Slot],
    at: usize,
) -> Result<(), NoMemory>
    ensures { OnOk result
        (env.new ≡ env.old ++ option_map_or (spec.slot_vars slots.now) (slice_get slots.now at) []) }
{
    match slots.get(at) {
        Some(slot) => push_slot_vars(env, alloc, slots, slot),
        None => Ok(()),
    }
}

// Puts what it is told of the image at a place.
fn push_image_at(
    env: &mut Items<EnvVar>,
    alloc: Global,
    system: &System,
    images: &[Image],
    at: usize,
) -> Result<(), NoMemory>
    ensures { let c = system_configuration system.now in
        let image = slice_get (image_contents images.now) at in
        OnOk result (env.new ≡ env.old ++ option_map_or (spec.image_vars c) image []) }
{
    match images.get(at) {
        Some(image) => push_image_vars(env, alloc, system, image),
        None => Ok(()),
    }
}

// What each hook is told.
fn hook_vars(alloc: Global, system: &System, manifest: &Manifest) -> Result<Items<EnvVar>, NoMemory>
    ensures { let c = system_configuration system.now in
        IfOk result (λ env. env ≡ spec.hook_vars c (manifest_content manifest.now)) }
{
    let mut env = Items::new(alloc);
    push_hook_vars(&mut env, alloc, system, manifest)?;
    Ok(env)
}

// What the hook of a slot is told.
fn job_vars(
    alloc: Global,
    system: &System,
    manifest: &Manifest,
    job: Job,
) -> Result<Items<EnvVar>, NoMemory>
    ensures { let c = system_configuration system.now in
        let content = manifest_content manifest.now in
        IfOk result (λ env. env ≡ spec.hook_vars c content ++ spec.job_vars c content job) }
{
    let mut env = hook_vars(alloc, system, manifest)?;
    push_slot_at(&mut env, alloc, system.slots.as_slice(), job.slot)?;
    push_image_at(
        &mut env,
        alloc,
        system,
        manifest.images.as_slice(),
        job.image,
    )?;
    Ok(env)
}

// A hook with this argument.
fn hook_child(
    alloc: Global,
    system: &System,
    manifest: &Manifest,
    word: &str,
    env: Items<EnvVar>,
    spares: Spares,
) -> Result<Child, NoMemory>
    requires { IsSome manifest.now.hook_file }
    ensures { let c = system_configuration system.now in
        let content = manifest_content manifest.now in
        IfOk result (λ child. child ≡ spec.hook_child c content word.now env spares) }
{
    let program = hook_program(alloc, system, manifest)?;
    let word = Text::new(alloc, word)?;
    let args = one(alloc, word)?;
    Ok(Child {
        class: ChildClass::Hook,
        program,
        args,
        env,
        spares,
    })
}

/// The hook of a bundle that decides whether it is installed: the hooks' file in the bundle that is
/// mounted, with the argument `install-check`. It must leave all slots, the status file, the boot
/// variables and what is mounted alone.
pub fn check_hook(alloc: Global, system: &System, manifest: &Manifest) -> Result<Child, NoMemory>
    requires { IsSome manifest.now.hook_file }
    ensures { let c = system_configuration system.now in
        IfOk result (λ child. child ≡ spec.check_hook c (manifest_content manifest.now)) }
{
    let point = Some(mount_point(alloc, system)?);
    let spares = helper_spares(alloc, system, &point)?;
    let env = hook_vars(alloc, system, manifest)?;
    hook_child(alloc, system, manifest, "install-check", env, spares)
}

/// A hook of a bundle for the slot and the image of a job: the hooks' file in the bundle that is
/// mounted, with an argument that tells when it runs. Its variables tell it of the slot and of the
/// image.
pub fn slot_hook(
    alloc: Global,
    system: &System,
    context: &HookContext,
    which: HookKind,
) -> Result<Child, NoMemory>
    requires { IsSome context.now.manifest.hook_file }
    ensures { let c = system_configuration system.now in
        let content = manifest_content context.now.manifest in
        IfOk result (λ child. child ≡ spec.slot_hook c content context.now.job which context.now.spares) }
{
    let manifest = &context.manifest;
    let spares = context.spares.try_clone(alloc)?;
    let env = job_vars(alloc, system, manifest, context.job)?;
    hook_child(alloc, system, manifest, which.word(), env, spares)
}
