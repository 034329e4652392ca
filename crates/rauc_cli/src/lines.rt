ghost use Rattle.std.specs.Prelude.{◌≡◌, ◌++◌, IfOk, codes, string_bytes};
ghost use Rattle.rauc_cli.specs.Lines.{bad_conf_cause, error_report, help_report, no_system_report, outside, slot_refusal_report, system_cause, system_outcome, unread_warning, usage_report, written_head, written_line, written_report};

use crate::outcome::Report;
use crate::{BadConf, NoSystem, Outcome};
use keyfile::key_cause;
use machine::{Fault, copy_bytes, fault_cause};
use slot_writer::{SlotRefusal, SlotWritten, slot_cause};
use std::alloc::{AllocError, Global};
use system_conf::{System, conf_cause};
use updater_text::{Digest, Items, NoMemory, Text};

/// What `--help` prints.
const HELP: &str =
    "usage: rauc [-c FILE] [--override-boot-slot=NAME] COMMAND\ncommands: install BUNDLE, info BUNDLE, status [ACTION [SLOT]], write-slot SLOT IMAGE, service\n";

/// The report of help.
pub fn help_report(alloc: Global) -> Result<Report, NoMemory>
    ensures { IfOk result (λ r. r ≡ help_report) }
{
    let out = copy_bytes(alloc, HELP.as_bytes())?;
    Ok(Report {
        outcome: Outcome::Help,
        out,
        err: Text::empty(alloc),
    })
}

// The line of a slot that was written, up to the digest.
fn written_head(alloc: Global, slot: &str, size: u64) -> Result<String, AllocError>
    ensures { IfOk result (λ t. string_bytes t ≡ written_head slot.now size) }
{
    format!(in alloc; "slot {slot} written: {size} bytes, sha256 ")
}

// The line of a slot that was written.
fn written_line(
    alloc: Global,
    slot: &str,
    size: u64,
    digest: &Digest,
) -> Result<Items<u8>, NoMemory>
    ensures { IfOk result (λ t. t ≡ written_line slot.now size digest.now.0) }
{
    let hex = digest.hex(alloc)?;
    let mut line = written_head(alloc, slot, size)?;
    line.push_str(hex.as_str())?;
    line.push_str("\n")?;
    Ok(Items::from_vec(line.into_bytes()))
}

/// The warning of a status file that cannot be read.
pub fn unread_warning(alloc: Global, unread: bool) -> Result<Text, NoMemory>
    ensures { IfOk result (λ t. t ≡ unread_warning unread) }
{
    if unread {
        Text::new(alloc, "warning: status file unreadable\n")
    } else {
        Ok(Text::empty(alloc))
    }
}

/// The report of a slot that was written.
pub fn written_report(alloc: Global, slot: &str, written: &SlotWritten) -> Result<Report, NoMemory>
    ensures { IfOk result (λ r. r ≡ written_report slot.now written.now) }
{
    let out = written_line(alloc, slot, written.size, &written.digest)?;
    let err = unread_warning(alloc, written.book_unread)?;
    Ok(Report {
        outcome: Outcome::Done,
        out,
        err,
    })
}

// Why a configuration is refused.
fn bad_conf_cause(alloc: Global, refusal: &BadConf) -> Result<Text, NoMemory>
    ensures { IfOk result (λ t. t ≡ bad_conf_cause refusal.now) }
{
    match refusal {
        BadConf::Key(fault) => key_cause(alloc, fault),
        BadConf::Conf(refusal) => conf_cause(alloc, refusal),
    }
}

fn missing_cause(alloc: Global, path: &str) -> Result<Text, NoMemory>
    ensures { IfOk result (λ t. t ≡ codes "no configuration " ++ path.now) }
{
    let cause = format!(in alloc; "no configuration {path}")?;
    Ok(Text::from_string(cause))
}

fn configuration_cause(alloc: Global, refusal: &BadConf) -> Result<Text, NoMemory>
    ensures { IfOk result (λ t. t ≡ codes "configuration: " ++ bad_conf_cause refusal.now) }
{
    let cause = bad_conf_cause(alloc, refusal)?;
    let cause = cause.as_str();
    let whole = format!(in alloc; "configuration: {cause}")?;
    Ok(Text::from_string(whole))
}

// Why there is no system, from the path of its configuration.
fn system_cause(alloc: Global, path: &str, refusal: &NoSystem) -> Result<Text, NoMemory>
    ensures { IfOk result (λ t. t ≡ system_cause path.now refusal.now) }
{
    match refusal {
        NoSystem::Missing => missing_cause(alloc, path),
        NoSystem::Bad(refusal) => configuration_cause(alloc, refusal),
    }
}

/// A report of one line on standard error, and nothing else.
pub fn error_report(alloc: Global, outcome: Outcome, cause: &str) -> Result<Report, NoMemory>
    ensures { IfOk result (λ r. r ≡ error_report outcome cause.now) }
{
    let line = format!(in alloc; "rauc: {cause}\n")?;
    Ok(Report {
        outcome,
        out: Items::new(alloc),
        err: Text::from_string(line),
    })
}

/// The report of words that are no command.
pub fn usage_report(alloc: Global) -> Result<Report, NoMemory>
    ensures { IfOk result (λ r. r ≡ usage_report) }
{
    error_report(alloc, Outcome::Usage, "bad usage, see rauc --help")
}

/// The report of a machine call of this kind that failed.
pub fn outside(alloc: Global, kind: Fault) -> Result<Report, NoMemory>
    ensures { IfOk result (λ r. r ≡ outside kind) }
{
    let cause = fault_cause(alloc, kind)?;
    error_report(alloc, Outcome::Outside(kind), cause.as_str())
}

// The outcome where there is no system.
fn system_outcome(refusal: NoSystem) -> Outcome
    ensures { result ≡ system_outcome refusal }
{
    match refusal {
        NoSystem::Missing => Outcome::NoConfig,
        NoSystem::Bad(refusal) => Outcome::BadConfig(refusal),
    }
}

/// The report where there is no system to work on, from the path of its configuration.
pub fn no_system_report(alloc: Global, path: &str, refusal: NoSystem) -> Result<Report, NoMemory>
    ensures { IfOk result (λ r. r ≡ no_system_report path.now refusal) }
{
    let cause = system_cause(alloc, path, &refusal)?;
    error_report(alloc, system_outcome(refusal), cause.as_str())
}

/// The report of a slot that is not written, from the image's path as the words name it.
pub fn slot_refusal_report(
    alloc: Global,
    system: &System,
    image: &str,
    refusal: SlotRefusal,
) -> Result<Report, NoMemory>
    ensures { IfOk result (λ r. r ≡ slot_refusal_report system.now.slots image.now refusal) }
{
    let cause = slot_cause(alloc, system, image, &refusal)?;
    error_report(alloc, Outcome::Slot(refusal), cause.as_str())
}
