ghost use Rattle.std.specs.Prelude.{◌≡◌, ◌++◌, [], IfOk, codes, unwrap_or};
ghost use Rattle.rauc_cli.specs.Lines as spec;

use crate::Outcome;
use crate::info_lines::{closing_warnings, warned_line};
use crate::lines::unread_warning;
use crate::outcome::Report;
use child_steps::Closing;
use install_core::{InstallEnd, InstallRefusal};
use machine::Stop;
use std::alloc::Global;
use updater_text::{Items, NoMemory, Text};

/// The last line of an install that is done. It is made before the install begins, so that memory for
/// it cannot be wanting at the end.
pub fn installed_line(alloc: Global, bundle: &str) -> Result<Items<u8>, NoMemory>
    ensures { IfOk result (λ t. t ≡ spec.installed_line bundle.now) }
{
    let line = format!(in alloc; "Installing {bundle} succeeded\n")?;
    Ok(Items::from_vec(line.into_bytes()))
}

// Two texts, one behind the other; where the first is empty, no memory is taken.
fn joined(alloc: Global, first: Text, second: Text) -> Result<Text, NoMemory>
    ensures { IfOk result (λ t. t ≡ first ++ second) }
{
    if first.as_str().is_empty() {
        return Ok(second);
    }
    let (first, second) = (first.as_str(), second.as_str());
    let both = format!(in alloc; "{first}{second}")?;
    Ok(Text::from_string(both))
}

// The warnings of an install.
fn install_warnings(alloc: Global, unread: bool, closing: Closing) -> Result<Text, NoMemory>
    ensures { IfOk result (λ t. t ≡ spec.install_warnings unread closing) }
{
    let unread = unread_warning(alloc, unread)?;
    let closing = closing_warnings(alloc, closing)?;
    joined(alloc, unread, closing)
}

// The outcome of an install that stopped.
fn stop_outcome(stop: Stop<InstallRefusal>) -> Outcome
    ensures { result ≡ spec.stop_outcome stop }
{
    match stop {
        Stop::Refused(why) => Outcome::Install(why),
        Stop::Outside(kind) => Outcome::Outside(kind),
        Stop::NoMemory => Outcome::NoMemory,
    }
}

// Why an install stopped: where it has no line, memory was out.
fn cause_in(line: &Option<Text>) -> &str
    ensures { result.now ≡ unwrap_or line.now (codes "out of memory") }
{
    match line {
        Some(line) => line.as_str(),
        None => "out of memory",
    }
}

// The report of an install that stopped.
fn stopped_report(
    alloc: Global,
    warnings: &str,
    stop: Stop<InstallRefusal>,
    line: &Option<Text>,
) -> Result<Report, NoMemory>
    ensures { IfOk result (λ r. r ≡ spec.stopped_report [] warnings.now stop line.now) }
{
    let err = warned_line(alloc, warnings, cause_in(line))?;
    Ok(Report {
        outcome: stop_outcome(stop),
        out: Items::new(alloc),
        err,
    })
}

/// The report of an install, but for its notes, which were put as they came.
pub fn install_report(alloc: Global, last: Items<u8>, end: InstallEnd) -> Result<Report, NoMemory>
    ensures { IfOk result (λ r. r ≡ spec.install_report last [] end) }
{
    let InstallEnd {
        result,
        closing,
        book_unread,
        line,
    } = end;
    let warnings = install_warnings(alloc, book_unread, closing)?;
    match result {
        Ok(_installed) => Ok(Report {
            outcome: Outcome::Done,
            out: last,
            err: warnings,
        }),
        Err(stop) => stopped_report(alloc, warnings.as_str(), stop, &line),
    }
}
