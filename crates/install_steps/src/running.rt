ghost use Rattle.std.specs.Prelude.{◌≡◌, List, length};
ghost use Rattle.machine.specs.Past.{Past};
ghost use Rattle.machine.specs.Stops.{StopCounted};
ghost use Rattle.system_conf.specs.Reads.{system_configuration};
ghost use Rattle.install_facts.specs.Facts.{FactsContent, facts_content};
ghost use Rattle.install_steps.specs.Progress.{CanAct, CanDoAll, DoesAct, FitsAll, RunsActs, with_written};
ghost use Rattle.install_plan.specs.Acts.{notes_in, steps_in};
ghost use Rattle.install_steps.specs.Steady.{AreShort, StaySteady};
ghost use Rattle.install_steps.specs.Steps.{piece};
ghost use Rattle.install_steps.specs.declared.running.JobEnd.{JobEnd};

use crate::doing::do_step;
use install_facts::{Facts, InstallRefusal, Report};
use install_plan::{Act, Step};
use machine::{Machine, Stop};
use raw_writer::Written;
use std::alloc::Global;
use system_conf::System;
use updater_text::Items;

/// What an install did.
#[derive(Debug, Drop)]
pub struct Installed {
    /// The end of each job, in the order of the manifest.
    pub jobs: Items<JobEnd>,
}

/// What was done with the image of a job.
#[derive(Clone, Copy, Debug, PartialEq, Eq)]
pub struct JobEnd {
    /// The place of its slot.
    pub slot: usize,
    /// It was in its slot already.
    pub skipped: bool,
    /// How it was put, where no hook installed it.
    pub written: Option<Written>,
}

// Notes how the image of a job was put, where a step put one.
fn note_written(ends: &mut [JobEnd], step: &Step, written: Option<Written>)
    ensures { ends.new ≡ with_written step.now written ends.old }
{
    if let Step::Put { job, .. } = step {
        if *job < ends.len() {
            ends[*job].written = written;
        }
    }
}

// Does one act of an install.
fn do_act<M: Machine, P: Report>(
    alloc: Global,
    m: &mut M,
    system: &System,
    facts: &mut Facts,
    act: &Act,
    ends: &mut [JobEnd],
    buffer: &mut [u8],
    report: &mut P,
) -> Result<(), Stop<InstallRefusal>>
    requires buffer { length buffer.old ≡ piece }
    requires can { let conf = system_configuration system.now in
        CanAct M.tells conf (facts_content facts.old) (M.past m.old) act.now }
    ensures acts { let conf = system_configuration system.now in
        let f : FactsContent × FactsContent = (facts_content facts.old, facts_content facts.new) in
        let past : Past × Past = (M.past m.old, M.past m.new) in
        let ends : List JobEnd × List JobEnd = (ends.old, ends.new) in
        DoesAct M.tells conf f act.now past ends (P.stands report.old) (P.stands report.new) result }
    ensures counts { StopCounted (M.faults m.old) (M.faults m.new) (M.wants m.old) (M.wants m.new) result }
{
    match act {
        Act::Do(step) => match do_step(alloc, m, system, facts, step, buffer) {
            Ok(written) => {
                note_written(ends, step, written);
                Ok(())
            }
            Err(stop) => Err(stop),
        },
        Act::Tell(note) => {
            report.note(note.percent, note.text.as_str());
            Ok(())
        }
    }
}

/// Does the acts of an install in order, up to the first step that stops, and gives the notes of those
/// that were done to the report. Its stop is that of the step: `HandlerFailed` and `HookFailed` of a
/// program, `Boot` of a mark, `Image` of a put, and `Outside` of a call that failed.
pub fn run_acts<M: Machine, P: Report>(
    alloc: Global,
    m: &mut M,
    system: &System,
    facts: &mut Facts,
    acts: &[Act],
    ends: &mut [JobEnd],
    buffer: &mut [u8],
    report: &mut P,
) -> Result<(), Stop<InstallRefusal>>
    requires buffer { length buffer.old ≡ piece }
    requires can { CanDoAll (system_configuration system.now) (facts_content facts.old) (steps_in acts.now) }
    requires fits { FitsAll M.tells (M.past m.old) (steps_in acts.now) }
    requires steady { StaySteady (system_configuration system.now) (steps_in acts.now) }
    requires short { AreShort (notes_in acts.now) }
    ensures runs { let conf = system_configuration system.now in
        let f = facts_content facts.old in
        let past : Past × Past = (M.past m.old, M.past m.new) in
        let ends : List JobEnd × List JobEnd = (ends.old, ends.new) in
        RunsActs M.tells conf f acts.now past ends (P.stands report.old) (P.stands report.new) result }
    ensures counts { StopCounted (M.faults m.old) (M.faults m.new) (M.wants m.old) (M.wants m.new) result }
{
    for act in acts {
        match do_act(alloc, m, system, facts, act, ends, buffer, report) {
            Ok(()) => {}
            Err(stop) => return Err(stop),
        }
    }
    Ok(())
}
