ghost use Rattle.std.specs.Prelude.{◌≡◌, ℕ, List, IfOk, Some, option_map, true};
ghost use Rattle.machine.specs.Past.{world_now};
ghost use Rattle.system_conf.specs.Reads.{system_configuration};
ghost use Rattle.rauc_words.specs.Table.{command_of};
ghost use Rattle.child_steps.specs.Children.{umount_child};
ghost use Rattle.child_steps.specs.Closing.{closing_in};
ghost use Rattle.mark_report.specs.Opening.{info_in};
ghost use Rattle.rauc_words.specs.declared.asked.Asked.TheVariants as asked;
ghost use Rattle.slot_marks.specs.Marking.{choice};
ghost use Rattle.status_file.specs.Clock.{clock_since};
ghost use Rattle.slot_writer.specs.Slots.{slot_answer};
ghost use Rattle.rauc_cli.specs.Plans.{asked_plan, command_plan, info_plan, mark_plan, plan_of, slot_plan, status_plan};
ghost use Rattle.rauc_cli.specs.Ends.{AskedStands, CarriesOut, CommandLines, CommandStands, CommandTexts, Ended, HasCause, HasLines, HasTexts, InfoTexts, MarkTexts, OutcomeCounted, Reports, RunsBy, SlotTexts, StandsAStop, StatusTexts, TellsRest, outcome_in};

use crate::info_lines::info_report;
use crate::installing::run_install;
use crate::lines::{help_report, no_system_report, outside, usage_report};
use crate::outcome::{Ran, Report};
use crate::slot_lines::{mark_report, slot_report, status_report};
use crate::{Asked, Command, Finish, Outcome, Place, Run, load_system, read_words};
use machine::{Machine, Stop};
use mark_report::{Form, info};
use rauc_words::slot_word;
use slot_marks::{Action, mark};
use slot_writer::write_slot;
use status_report::status;
use std::alloc::Global;
use system_conf::System;
use updater_text::{NoMemory, Sink, Text, say};

fn run_write_slot<M: Machine>(
    alloc: Global,
    m: &mut M,
    system: &System,
    given: Option<&str>,
    slot: &str,
    image: &str,
) -> Result<Report, NoMemory>
    ensures ended { let conf = system_configuration system.now in
        let name = option_map (λ name. name.now) given.entry in
        let answer = slot_answer conf name slot.now image.now (world_now (M.past m.old)) in
        Ended M.tells (slot_plan conf slot.now image.now answer) (M.past m.old) (M.past m.new) result }
    ensures texts { IfOk result (λ r. SlotTexts slot.now image.now r.outcome r) }
    ensures counts { OutcomeCounted (M.faults m.old) (M.faults m.new) (M.wants m.old) (M.wants m.new) (outcome_in result) }
{
    let written = write_slot(alloc, m, system, given, slot, image);
    slot_report(alloc, system, slot, image, written)
}

fn run_info<M: Machine>(
    alloc: Global,
    m: &mut M,
    system: &System,
    bundle: &str,
    form: Form,
) -> Result<Report, NoMemory>
    ensures ended { Ended M.tells (info_plan form (system_configuration system.now) bundle.now (closing_in (umount_child (system_configuration system.now)) (M.past m.old) (M.past m.new)) (info_in (system_configuration system.now) (M.past m.old) (M.past m.new))) (M.past m.old) (M.past m.new) result }
    ensures texts { IfOk result (λ r. InfoTexts form r.outcome r) }
    ensures counts { OutcomeCounted (M.faults m.old) (M.faults m.new) (M.wants m.old) (M.wants m.new) (outcome_in result) }
{
    let end = info(alloc, m, system, bundle);
    info_report(alloc, form, end)
}

fn run_status<M: Machine>(
    alloc: Global,
    m: &mut M,
    system: &System,
    given: Option<&str>,
    form: Form,
    detailed: bool,
) -> Result<Report, NoMemory>
    ensures ended { Ended M.tells (status_plan form detailed (system_configuration system.now) (option_map (λ name. name.now) given.entry) (world_now (M.past m.old)) (world_now (M.past m.new))) (M.past m.old) (M.past m.new) result }
    ensures texts { IfOk result (λ r. StatusTexts form detailed r.outcome r) }
    ensures counts { OutcomeCounted (M.faults m.old) (M.faults m.new) (M.wants m.old) (M.wants m.new) (outcome_in result) }
{
    let view = status(alloc, m, system, given);
    status_report(alloc, system, form, detailed, view)
}

fn run_mark<M: Machine>(
    alloc: Global,
    m: &mut M,
    system: &System,
    given: Option<&str>,
    action: Action,
    who: &str,
) -> Result<Report, NoMemory>
    ensures ended { Ended M.tells (mark_plan (M.past m.old).boot (system_configuration system.now) action (choice system.now.slots (option_map (λ name. name.now) given.entry) who.now (world_now (M.past m.old))) (clock_since (M.past m.old) (M.past m.new)) (world_now (M.past m.old)) (world_now (M.past m.new))) (M.past m.old) (M.past m.new) result }
    ensures texts { IfOk result (λ r. MarkTexts action who.now r.outcome r) }
    ensures counts { OutcomeCounted (M.faults m.old) (M.faults m.new) (M.wants m.old) (M.wants m.new) (outcome_in result) }
{
    let marked = mark(alloc, m, system, given, action, who);
    mark_report(alloc, system, action, who, marked)
}

// A report before which nothing was put.
fn quiet(report: Result<Report, NoMemory>) -> Ran
    ensures { result ≡ record { report = report; whole = true } }
{
    Ran {
        report,
        whole: true,
    }
}

// Carries out a command, with its configuration and the name that counts as booted.
fn run_command<M: Machine, O: Sink>(
    alloc: Global,
    m: &mut M,
    system: &System,
    given: Option<&str>,
    command: &Command,
    out: &mut O,
) -> Ran
    ensures runs { let c = system_configuration system.now in
        let plan = command_plan (M.past m.old) (M.past m.new) c (option_map (λ name. name.now) given.entry) command.now in
        RunsBy M.tells plan (CommandTexts command.now) (CommandLines command.now) (M.past m.old) (M.past m.new) (O.shown out.old) (O.shown out.new) result }
    ensures stands { let c = system_configuration system.now in
        CommandStands M.tells c (option_map (λ name. name.now) given.entry) command.now (M.past m.old) (M.past m.new) }
    ensures counts { OutcomeCounted (M.faults m.old) (M.faults m.new) (M.wants m.old) (M.wants m.new) (outcome_in result.report) }
{
    match command {
        Command::Install {
            bundle,
            ignore_compatible,
        } => {
            run_install(
                alloc,
                m,
                system,
                given,
                bundle.as_str(),
                *ignore_compatible,
                out,
            )
        }
        Command::WriteSlot { slot, image } => {
            quiet(run_write_slot(alloc, m, system, given, slot.as_str(), image.as_str()))
        }
        Command::Info { bundle, form } => quiet(run_info(alloc, m, system, bundle.as_str(), *form)),
        Command::Status { form, detailed } => {
            quiet(run_status(alloc, m, system, given, *form, *detailed))
        }
        Command::Mark { action, who } => {
            quiet(run_mark(alloc, m, system, given, *action, slot_word(who)))
        }
    }
}

// The name of the slot that counts as booted, where the words give one.
fn given_in(place: &Place) -> Option<&str>
    ensures { option_map (λ name. name.now) result ≡ place.now.given }
{
    match &place.given {
        Some(name) => Some(name.as_str()),
        None => None,
    }
}

// Reads the configuration of a command, and carries the command out.
fn run_asked<M: Machine, O: Sink>(alloc: Global, m: &mut M, run: &Run, out: &mut O) -> Ran
    ensures runs { let asks = Some (asked.Run run.now) in
        let plan = asked_plan (M.past m.old) (M.past m.new) asks in
        RunsBy M.tells plan (HasTexts asks) (HasLines asks) (M.past m.old) (M.past m.new) (O.shown out.old) (O.shown out.new) result }
    ensures stands { AskedStands M.tells (Some (asked.Run run.now)) (M.past m.old) (M.past m.new) }
    ensures counts { OutcomeCounted (M.faults m.old) (M.faults m.new) (M.wants m.old) (M.wants m.new) (outcome_in result.report) }
{
    let path = run.place.conf_path();
    match load_system(alloc, m, path) {
        Ok(system) => run_command(alloc, m, &system, given_in(&run.place), &run.command, out),
        Err(Stop::Refused(refusal)) => quiet(no_system_report(alloc, path, refusal)),
        Err(Stop::Outside(kind)) => quiet(outside(alloc, kind)),
        Err(Stop::NoMemory) => quiet(Err(NoMemory)),
    }
}

// Reads the words, and carries their command out.
fn run<M: Machine, O: Sink>(alloc: Global, m: &mut M, words: &[Text], out: &mut O) -> Ran
    ensures runs { let asks = command_of words.now in
        let plan = plan_of words.now (M.past m.old) (M.past m.new) in
        RunsBy M.tells plan (HasTexts asks) (HasLines asks) (M.past m.old) (M.past m.new) (O.shown out.old) (O.shown out.new) result }
    ensures stands { AskedStands M.tells (command_of words.now) (M.past m.old) (M.past m.new) }
    ensures counts { OutcomeCounted (M.faults m.old) (M.faults m.new) (M.wants m.old) (M.wants m.new) (outcome_in result.report) }
{
    match read_words(alloc, words) {
        Ok(Some(Asked::Run(run))) => run_asked(alloc, m, &run, out),
        Ok(Some(Asked::Help)) => quiet(help_report(alloc)),
        Ok(None) => quiet(usage_report(alloc)),
        Err(stop) => quiet(Err(stop)),
    }
}

// Puts what is left of a report, and answers whether all is whole.
fn tell_rest<O: Sink, E: Sink>(
    out: &mut O,
    err: &mut E,
    whole: bool,
    text_out: &[u8],
    text_err: &[u8],
) -> bool
    ensures { TellsRest (O.shown out.old, O.shown out.new) (E.shown err.old, E.shown err.new) whole text_out.now text_err.now result }
{
    let out_whole = say(out, whole, text_out);
    let err_whole = say(err, true, text_err);
    out_whole && err_whole
}

/// Runs the program on its words: does what they ask for on the machine, and puts what there is to
/// say on the two sinks, by one put each at most; the notes of an install are put as they come.
pub fn rauc<M: Machine, O: Sink, E: Sink>(
    alloc: Global,
    words: &[Text],
    machine: &mut M,
    out: &mut O,
    err: &mut E,
) -> Finish
    ensures reports { Reports M.tells words.now (M.past machine.old, M.past machine.new) (O.shown out.old, O.shown out.new) (E.shown err.old, E.shown err.new) result }
    ensures carries_out { CarriesOut M.tells words.now (M.past machine.old, M.past machine.new) result.outcome }
    ensures stands_a_stop { StandsAStop M.tells words.now (M.past machine.old, M.past machine.new) }
    ensures has_cause { HasCause M.tells words.now (M.past machine.old, M.past machine.new) (M.faults machine.old, M.faults machine.new) (M.wants machine.old, M.wants machine.new) result.outcome }
{
    let Ran { report, whole } = run(alloc, machine, words, out);
    match report {
        Ok(report) => {
            let told = tell_rest(
                out,
                err,
                whole,
                report.out.as_slice(),
                report.err.as_bytes(),
            );
            Finish {
                outcome: report.outcome,
                told,
            }
        }
        Err(_) => {
            let told = tell_rest(out, err, whole, &[], "rauc: out of memory\n".as_bytes());
            Finish {
                outcome: Outcome::NoMemory,
                told,
            }
        }
    }
}
