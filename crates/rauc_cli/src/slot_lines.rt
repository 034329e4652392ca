ghost use Rattle.std.specs.Prelude.{◌≡◌, ◌++◌, IfOk, codes};
ghost use Rattle.system_conf.specs.Reads.{system_configuration};
ghost use Rattle.slot_marks.specs.Answers.{MarkedFor};
ghost use Rattle.slot_writer.specs.Checks.{IfRefused, NamesSlot};
ghost use Rattle.rauc_cli.specs.Ends.{MarkTexts, Says, SlotTexts, StatusTexts};
ghost use Rattle.rauc_cli.specs.Lines as spec;

use crate::Outcome;
use crate::lines::{error_report, outside, slot_refusal_report, unread_warning, written_report};
use crate::outcome::Report;
use boot_backends::{BootRefusal, boot_cause};
use machine::Stop;
use mark_report::Form;
use slot_marks::{Action, MarkRefusal, Marked, mark_cause};
use slot_writer::{SlotRefusal, SlotWritten};
use status_report::{StatusView, status_text};
use std::alloc::Global;
use system_conf::System;
use updater_text::{Items, NoMemory};

// ---- status

fn view_report(
    alloc: Global,
    system: &System,
    view: &StatusView,
    form: Form,
    detailed: bool,
) -> Result<Report, NoMemory>
    ensures { IfOk result (λ r. r ≡ spec.view_report form detailed (system_configuration system.now) view.now) }
{
    let out = status_text(alloc, system, view, form, detailed)?;
    let err = unread_warning(alloc, view.book_unread)?;
    Ok(Report {
        outcome: Outcome::Done,
        out: Items::from_vec(out),
        err,
    })
}

fn boot_refusal_report(alloc: Global, why: BootRefusal) -> Result<Report, NoMemory>
    ensures { IfOk result (λ r. r ≡ spec.boot_refusal_report why) }
{
    let cause = boot_cause(alloc, &why)?;
    error_report(alloc, Outcome::Boot(why), cause.as_str())
}

/// The report of status.
pub fn status_report(
    alloc: Global,
    system: &System,
    form: Form,
    detailed: bool,
    view: Result<StatusView, Stop<BootRefusal>>,
) -> Result<Report, NoMemory>
    ensures says { Says (spec.status_report form detailed (system_configuration system.now)) view result }
    ensures texts { IfOk result (λ r. StatusTexts form detailed r.outcome r) }
{
    match view {
        Ok(view) => view_report(alloc, system, &view, form, detailed),
        Err(Stop::Refused(why)) => boot_refusal_report(alloc, why),
        Err(Stop::Outside(kind)) => outside(alloc, kind),
        Err(Stop::NoMemory) => Err(NoMemory),
    }
}

// ---- marks

fn marked_report(alloc: Global, marked: &Marked) -> Result<Report, NoMemory>
    ensures { IfOk result (λ r. r ≡ spec.marked_report marked.now) }
{
    let line = marked.line.as_str();
    let out = format!(in alloc; "{line}\n")?;
    let err = unread_warning(alloc, marked.book_unread)?;
    Ok(Report {
        outcome: Outcome::Done,
        out: Items::from_vec(out.into_bytes()),
        err,
    })
}

fn mark_refusal_report(alloc: Global, system: &System, why: MarkRefusal) -> Result<Report, NoMemory>
    ensures { IfOk result (λ r. r ≡ spec.mark_refusal_report system.now.slots why) }
{
    let cause = mark_cause(alloc, system, &why)?;
    error_report(alloc, Outcome::Mark(why), cause.as_str())
}

/// The report of a mark of the slot that the word means.
pub fn mark_report(
    alloc: Global,
    system: &System,
    action: Action,
    who: &str,
    marked: Result<Marked, Stop<MarkRefusal>>,
) -> Result<Report, NoMemory>
    requires { MarkedFor system.now.slots action who.now marked }
    ensures says { Says (spec.mark_report system.now.slots) marked result }
    ensures texts { IfOk result (λ r. MarkTexts action who.now r.outcome r) }
{
    match marked {
        Ok(marked) => marked_report(alloc, &marked),
        Err(Stop::Refused(why)) => mark_refusal_report(alloc, system, why),
        Err(Stop::Outside(kind)) => outside(alloc, kind),
        Err(Stop::NoMemory) => Err(NoMemory),
    }
}

// ---- write-slot

/// The report of write-slot.
pub fn slot_report(
    alloc: Global,
    system: &System,
    slot: &str,
    image: &str,
    written: Result<SlotWritten, Stop<SlotRefusal>>,
) -> Result<Report, NoMemory>
    requires { IfRefused written (NamesSlot system.now.slots slot.now image.now) }
    ensures says { Says (spec.slot_report system.now.slots slot.now image.now) written result }
    ensures texts { IfOk result (λ r. SlotTexts slot.now image.now r.outcome r) }
{
    match written {
        Ok(written) => written_report(alloc, slot, &written),
        Err(Stop::Refused(refusal)) => slot_refusal_report(alloc, system, image, refusal),
        Err(Stop::Outside(kind)) => outside(alloc, kind),
        Err(Stop::NoMemory) => Err(NoMemory),
    }
}
