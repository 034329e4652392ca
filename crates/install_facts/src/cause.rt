ghost use Rattle.std.specs.Prelude.{◌≡◌, ◌++◌, IfOk, codes};
ghost use Rattle.machine.specs.Endings.{ended_text};
ghost use Rattle.status_file.specs.Status.{names_in};
ghost use Rattle.slot_status.specs.Causes.{status_cause};
ghost use Rattle.system_conf.specs.Slots.{name_at};
ghost use Rattle.install_facts.specs.Causes as spec;

use crate::InstallRefusal;
use boot_backends::boot_cause;
use child_steps::{bundle_cause, check_cause, mount_cause};
use machine::{Ended, ended_text};
use raw_writer::put_cause;
use slot_graph::{assign_cause, matter_at};
use slot_status::{StatusRefusal, status_cause};
use std::alloc::Global;
use system_conf::{System, name_at};
use updater_text::{NoMemory, Text};

fn compatible_cause(alloc: Global, system: &Text, bundle: &Text) -> Result<Text, NoMemory>
    ensures { IfOk result (λ t. t ≡ codes "compatible is " ++ (system.now ++ (codes ", bundle has " ++ bundle.now))) }
{
    let system = system.as_str();
    let bundle = bundle.as_str();
    let cause = format!(in alloc; "compatible is {system}, bundle has {bundle}")?;
    Ok(Text::from_string(cause))
}

fn status_cause_of(
    alloc: Global,
    system: &System,
    refusal: &StatusRefusal,
) -> Result<Text, NoMemory>
    ensures { IfOk result (λ t. t ≡ status_cause (names_in system.now.slots) refusal.now) }
{
    let names = system.slot_names(alloc)?;
    status_cause(alloc, &names, refusal)
}

fn handler_line(alloc: Global, word: &str, ended: &str) -> Result<Text, NoMemory>
    ensures { IfOk result (λ t. t ≡ codes "handler " ++ (word.now ++ (codes " failed: " ++ ended.now))) }
{
    let cause = format!(in alloc; "handler {word} failed: {ended}")?;
    Ok(Text::from_string(cause))
}

fn handler_cause(alloc: Global, word: &str, ended: Ended) -> Result<Text, NoMemory>
    ensures { IfOk result (λ t. t ≡ codes "handler " ++ (word.now ++ (codes " failed: " ++ ended_text ended))) }
{
    let ended = ended_text(alloc, ended)?;
    handler_line(alloc, word, ended.as_str())
}

fn hook_line(alloc: Global, word: &str, slot: &str, ended: &str) -> Result<Text, NoMemory>
    ensures { IfOk result (λ t. t ≡ codes "hook " ++ (word.now ++ (codes " of " ++ (slot.now ++ (codes " failed: " ++ ended.now))))) }
{
    let cause = format!(in alloc; "hook {word} of {slot} failed: {ended}")?;
    Ok(Text::from_string(cause))
}

fn hook_cause(alloc: Global, word: &str, slot: &str, ended: Ended) -> Result<Text, NoMemory>
    ensures { IfOk result (λ t. t ≡ codes "hook " ++ (word.now ++ (codes " of " ++ (slot.now ++ (codes " failed: " ++ ended_text ended))))) }
{
    let ended = ended_text(alloc, ended)?;
    hook_line(alloc, word, slot, ended.as_str())
}

/// Why a bundle is not installed, in one line without its end: slots are named by their places in the
/// configuration, images by the names of their files. The only error is out of memory.
pub fn install_cause(
    alloc: Global,
    system: &System,
    refusal: &InstallRefusal,
) -> Result<Text, NoMemory>
    ensures { IfOk result (λ t. t ≡ spec.install_cause system.now.slots refusal.now) }
{
    let slots = system.slots.as_slice();
    match refusal {
        InstallRefusal::Mount(why) => mount_cause(alloc, why),
        InstallRefusal::BootedUnknown => Text::new(alloc, "booted slot is not known"),
        InstallRefusal::Bundle(why) => bundle_cause(alloc, why),
        InstallRefusal::Compatible { system, bundle } => compatible_cause(alloc, system, bundle),
        InstallRefusal::Check(why) => check_cause(alloc, why),
        InstallRefusal::Assign(why) => assign_cause(alloc, system, why),
        InstallRefusal::MountsUnread => Text::new(alloc, "mounts unreadable"),
        InstallRefusal::Mounted { slot } => matter_at(alloc, slots, *slot, " is mounted"),
        InstallRefusal::Image { name, cause, .. } => put_cause(alloc, name.as_str(), cause),
        InstallRefusal::Status(why) => status_cause_of(alloc, system, why),
        InstallRefusal::HandlerFailed { which, ended } => {
            handler_cause(alloc, which.word(), *ended)
        }
        InstallRefusal::HookFailed { which, slot, ended } => {
            hook_cause(alloc, which.word(), name_at(slots, *slot), *ended)
        }
        InstallRefusal::Boot(why) => boot_cause(alloc, why),
    }
}
