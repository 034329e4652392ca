ghost use Rattle.std.specs.Prelude.{◌≡◌, ◌++◌, [], IfOk};
ghost use Rattle.manifest.specs.Reads.{manifest_content};
ghost use Rattle.mark_report.specs.Opening.{ClosesAs};
ghost use Rattle.rauc_cli.specs.Ends.{InfoTexts, SaysInfo};
ghost use Rattle.rauc_cli.specs.Lines.{closing_warnings, error_line, fault_report, info_refusal_report, told_report, warning_line};

use crate::Outcome;
use crate::outcome::Report;
use child_steps::{Closing, closing_cause};
use machine::{Fault, Stop, fault_cause};
use manifest::Manifest;
use mark_report::{Form, InfoEnd, InfoRefusal, info_cause, info_text};
use std::alloc::Global;
use updater_text::{Items, NoMemory, Text};

fn warning_line(alloc: Global, why: &str) -> Result<Text, NoMemory>
    ensures { IfOk result (λ t. t ≡ warning_line why.now) }
{
    let line = format!(in alloc; "warning: bundle not unmounted: {why}\n")?;
    Ok(Text::from_string(line))
}

/// The warning of a bundle that was not unmounted; none where it was, or was never mounted.
pub fn closing_warnings(alloc: Global, closing: Closing) -> Result<Text, NoMemory>
    ensures { IfOk result (λ t. t ≡ closing_warnings closing) }
{
    match closing_cause(alloc, closing)? {
        Some(why) => warning_line(alloc, why.as_str()),
        None => Ok(Text::empty(alloc)),
    }
}

/// Warnings, and the line of an error.
pub fn warned_line(alloc: Global, warnings: &str, cause: &str) -> Result<Text, NoMemory>
    ensures { IfOk result (λ t. t ≡ warnings.now ++ error_line cause.now) }
{
    let lines = format!(in alloc; "{warnings}rauc: {cause}\n")?;
    Ok(Text::from_string(lines))
}

// The report of a bundle whose manifest was read.
fn told_report(
    alloc: Global,
    form: Form,
    manifest: &Manifest,
    closing: Closing,
) -> Result<Report, NoMemory>
    ensures { IfOk result (λ r. r ≡ told_report form closing (manifest_content manifest.now)) }
{
    let text = info_text(alloc, manifest, form)?;
    let err = closing_warnings(alloc, closing)?;
    Ok(Report {
        outcome: Outcome::Done,
        out: Items::from_vec(text),
        err,
    })
}

// The report of a bundle that is refused.
fn info_refusal_report(
    alloc: Global,
    refusal: InfoRefusal,
    closing: Closing,
) -> Result<Report, NoMemory>
    ensures { IfOk result (λ r. r ≡ info_refusal_report closing refusal) }
{
    let warnings = closing_warnings(alloc, closing)?;
    let cause = info_cause(alloc, &refusal)?;
    let err = warned_line(alloc, warnings.as_str(), cause.as_str())?;
    Ok(Report {
        outcome: Outcome::Info(refusal),
        out: Items::new(alloc),
        err,
    })
}

// The report of a call that failed before the unmount.
fn info_fault_report(alloc: Global, kind: Fault, closing: Closing) -> Result<Report, NoMemory>
    ensures { IfOk result (λ r. r ≡ fault_report [] (closing_warnings closing) kind) }
{
    let warnings = closing_warnings(alloc, closing)?;
    let cause = fault_cause(alloc, kind)?;
    let err = warned_line(alloc, warnings.as_str(), cause.as_str())?;
    Ok(Report {
        outcome: Outcome::Outside(kind),
        out: Items::new(alloc),
        err,
    })
}

/// The report of info.
pub fn info_report(alloc: Global, form: Form, end: InfoEnd) -> Result<Report, NoMemory>
    requires { ClosesAs end.result end.closing }
    ensures says { SaysInfo form end.result end.closing result }
    ensures texts { IfOk result (λ r. InfoTexts form r.outcome r) }
{
    let InfoEnd { result, closing } = end;
    match result {
        Ok(manifest) => told_report(alloc, form, &manifest, closing),
        Err(Stop::Refused(refusal)) => info_refusal_report(alloc, refusal, closing),
        Err(Stop::Outside(kind)) => info_fault_report(alloc, kind, closing),
        Err(Stop::NoMemory) => Err(NoMemory),
    }
}
