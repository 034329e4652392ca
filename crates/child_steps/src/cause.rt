ghost use Rattle.std.specs.Prelude.{◌≡◌, ◌++◌, IfOk, codes};
ghost use Rattle.machine.specs.Endings.{ended_text};
ghost use Rattle.child_steps.specs.Causes as spec;

use crate::{BundleRefusal, CheckRefusal, Closing, MountRefusal};
use keyfile::key_cause;
use machine::{Ended, ended_text};
use manifest::manifest_cause;
use std::alloc::Global;
use updater_text::{NoMemory, Text};

/// Why a bundle is not mounted.
pub fn mount_cause(alloc: Global, refusal: &MountRefusal) -> Result<Text, NoMemory>
    ensures { IfOk result (λ t. t ≡ spec.mount_cause refusal.now) }
{
    match refusal {
        MountRefusal::Untrusted { ended } => untrusted_cause(alloc, *ended),
        MountRefusal::MountFailed { ended } => failed_cause(alloc, *ended),
    }
}

fn untrusted_cause(alloc: Global, ended: Ended) -> Result<Text, NoMemory>
    ensures { IfOk result (λ t. t ≡ codes "bundle is not trusted: " ++ ended_text ended) }
{
    let ended = ended_text(alloc, ended)?;
    let ended = ended.as_str();
    let cause = format!(in alloc; "bundle is not trusted: {ended}")?;
    Ok(Text::from_string(cause))
}

fn failed_cause(alloc: Global, ended: Ended) -> Result<Text, NoMemory>
    ensures { IfOk result (λ t. t ≡ codes "bundle mount failed: " ++ ended_text ended) }
{
    let ended = ended_text(alloc, ended)?;
    let ended = ended.as_str();
    let cause = format!(in alloc; "bundle mount failed: {ended}")?;
    Ok(Text::from_string(cause))
}

/// Why the manifest of a bundle that is mounted is not read.
pub fn bundle_cause(alloc: Global, refusal: &BundleRefusal) -> Result<Text, NoMemory>
    ensures { IfOk result (λ t. t ≡ spec.bundle_cause refusal.now) }
{
    match refusal {
        BundleRefusal::NoManifest => Text::new(alloc, "no manifest"),
        BundleRefusal::BadKeys(fault) => {
            let cause = key_cause(alloc, fault)?;
            of_manifest(alloc, cause.as_str())
        }
        BundleRefusal::BadManifest(refusal) => {
            let cause = manifest_cause(alloc, refusal)?;
            of_manifest(alloc, cause.as_str())
        }
    }
}

fn of_manifest(alloc: Global, cause: &str) -> Result<Text, NoMemory>
    ensures { IfOk result (λ t. t ≡ codes "manifest: " ++ cause.now) }
{
    Ok(Text::from_string(format!(in alloc; "manifest: {cause}")?))
}

/// Why a bundle is not installed, by its own hook.
pub fn check_cause(alloc: Global, refusal: &CheckRefusal) -> Result<Text, NoMemory>
    ensures { IfOk result (λ t. t ≡ spec.check_cause refusal.now) }
{
    match refusal {
        CheckRefusal::Rejected { line } => rejected_cause(alloc, line.as_str()),
        CheckRefusal::CheckFailed { ended } => check_failed_cause(alloc, *ended),
    }
}

fn rejected_cause(alloc: Global, line: &str) -> Result<Text, NoMemory>
    ensures { IfOk result (λ t. t ≡ codes "bundle rejected: " ++ line.now) }
{
    Ok(Text::from_string(format!(in alloc; "bundle rejected: {line}")?))
}

fn check_failed_cause(alloc: Global, ended: Ended) -> Result<Text, NoMemory>
    ensures { IfOk result (λ t. t ≡ codes "install-check failed: " ++ ended_text ended) }
{
    let ended = ended_text(alloc, ended)?;
    let ended = ended.as_str();
    let cause = format!(in alloc; "install-check failed: {ended}")?;
    Ok(Text::from_string(cause))
}

/// Why a bundle is still mounted, where it may be: how the unmount ended, `run` where it gave no end,
/// or `out of memory`.
pub fn closing_cause(alloc: Global, closing: Closing) -> Result<Option<Text>, NoMemory>
    ensures { IfOk result (λ cause. cause ≡ spec.closing_cause closing) }
{
    match closing {
        Closing::NotMounted | Closing::Unmounted => Ok(None),
        Closing::Ended(ended) => Ok(Some(ended_text(alloc, ended)?)),
        Closing::Failed => Ok(Some(Text::new(alloc, "run")?)),
        Closing::NoMemory => Ok(Some(Text::new(alloc, "out of memory")?)),
    }
}
