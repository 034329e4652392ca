ghost use Rattle.std.specs.Prelude.{◌≡◌, ◌<◌, IfErr, IfOk, IsTrue, is_some, length};
ghost use Rattle.conf_forms.specs.Lists.{first_of};
ghost use Rattle.machine.specs.Frames.{Unchanged};
ghost use Rattle.machine.specs.Past.{Fails};
ghost use Rattle.machine.specs.Stops.{StopCounted, stop_fault};
ghost use Rattle.slot_status.specs.Refusals.{ready_refusal};
ghost use Rattle.status_file.specs.Clock.{clock_since};
ghost use Rattle.install_facts.specs.Answers.{TellsIf};
ghost use Rattle.install_facts.specs.Facts.{HasPlaces, IsReady, first_not_ready, time_told};
ghost use Rattle.install_facts.specs.Failing.{FailsIn, is_target_call};
ghost use Rattle.install_facts.specs.Stops.{IsLate};

use crate::InstallRefusal;
use crate::know::call_stop;
use machine::{Fault, Machine, Stop};
use slot_graph::Job;
use slot_status::{StatusBook, StatusRefusal};
use updater_text::Text;

// Why the record of a slot may not change at this time.
fn not_ready(book: &StatusBook, slot: usize, now: i64) -> Option<StatusRefusal>
    requires { slot < length book.now }
    ensures { result ≡ ready_refusal book.now slot now }
{
    match book.ready(slot, now) {
        Ok(()) => None,
        Err(why) => Some(why),
    }
}

// The same of the slots of the jobs: the first that may not.
fn slot_not_ready(book: &StatusBook, jobs: &[Job], now: i64) -> Option<StatusRefusal>
    requires { HasPlaces (length book.now) jobs.now }
    ensures { result ≡ first_of (λ job. ready_refusal book.now job.slot now) jobs.now }
{
    for job in jobs {
        if let Some(why) = not_ready(book, job.slot, now) {
            return Some(why);
        }
    }
    None
}

// The same of the roots over them.
fn root_not_ready(book: &StatusBook, jobs: &[Job], now: i64) -> Option<StatusRefusal>
    requires { HasPlaces (length book.now) jobs.now }
    ensures { result ≡ first_of (λ job. ready_refusal book.now job.root now) jobs.now }
{
    for job in jobs {
        if let Some(why) = not_ready(book, job.root, now) {
            return Some(why);
        }
    }
    None
}

// The same of all of them.
fn first_not_ready(book: &StatusBook, jobs: &[Job], now: i64) -> Option<StatusRefusal>
    requires { HasPlaces (length book.now) jobs.now }
    ensures { result ≡ first_not_ready jobs.now book.now now }
{
    match slot_not_ready(book, jobs, now) {
        Some(why) => Some(why),
        None => root_not_ready(book, jobs, now),
    }
}

/// The time that the status file is to note, where there is one: the clock is asked once. `Status`
/// where that time, or a count of a slot or of the root over it, cannot be noted.
pub fn time_of<M: Machine>(
    m: &mut M,
    status_file: &Option<Text>,
    book: &StatusBook,
    jobs: &[Job],
) -> Result<Option<i64>, Stop<InstallRefusal>>
    requires { HasPlaces (length book.now) jobs.now }
    ensures unchanged { Unchanged M.tells (M.past m.old) (M.past m.new) }
    ensures answers { let clock = clock_since (M.past m.old) (M.past m.new) in
        IsTrue M.tells → TellsIf (λ x. x) (time_told jobs.now book.now status_file.now clock) result }
    ensures timed { IfOk result (λ now. is_some now ≡ is_some status_file.now) }
    ensures ready { IfOk result (IsReady jobs.now book.now) }
    ensures late { IfErr result IsLate }
    ensures fails { Fails M.tells (M.past m.old) (M.past m.new) (stop_fault result) }
    ensures failing { FailsIn M.tells is_target_call (M.past m.old) (M.past m.new) (stop_fault result) }
    ensures counts { StopCounted (M.faults m.old) (M.faults m.new) (M.wants m.old) (M.wants m.new) result }
{
    if status_file.is_none() {
        return Ok(None);
    }
    let now = match m.now() {
        Ok(now) => now,
        Err(stop) => return Err(call_stop(Fault::Clock, stop)),
    };
    match first_not_ready(book, jobs, now) {
        None => Ok(Some(now)),
        Some(why) => Err(Stop::Refused(InstallRefusal::Status(why))),
    }
}
