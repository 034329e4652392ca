ghost use Rattle.std.specs.Prelude.{◌≡◌, [], IfErr, IfOk, IsTrue, None, length};
ghost use Rattle.child_steps.specs.Children.{helper_spares};
ghost use Rattle.machine.specs.Past.{Fails, world_now};
ghost use Rattle.machine.specs.Runs.{OnlyRuns};
ghost use Rattle.machine.specs.Stops.{StopCounted, stop_fault};
ghost use Rattle.status_file.specs.Clock.{clock_since};
ghost use Rattle.status_file.specs.Status.{IsStored};
ghost use Rattle.system_conf.specs.Reads.{system_configuration};
ghost use Rattle.install_facts.specs.Answers.{TellsIf};
ghost use Rattle.install_facts.specs.Facts as spec;
ghost use Rattle.install_facts.specs.Failing.{FailsIn, is_bundle_call, is_later_call};
ghost use Rattle.install_facts.specs.Gathering.{GatherNotes, Noted, UnreadTold, accepted_since, checks_in, facts_if, facts_made, facts_since, facts_since_for, known_if, notes_if};
ghost use Rattle.install_facts.specs.Notes.{AddsNotes};
ghost use Rattle.install_facts.specs.Stops.{IsEarly};

use crate::accept::accept;
use crate::choose::{Chosen, choose};
use crate::know::{Known, know_bundle, know_first};
use crate::{Facts, InstallRefusal, Report, Request};
use machine::{Machine, Stop};
use slot_graph::Booted;
use status_file::StatusRead;
use std::alloc::Global;
use system_conf::System;

/// What was gathered, or why that stopped; and whether there is a status file that had to be read and
/// could not be.
#[derive(Drop)]
pub struct Gathered {
    pub facts: Result<Facts, Stop<InstallRefusal>>,
    pub book_unread: bool,
}

// What is known, where the bundle was accepted.
fn if_accepted(
    known: Known,
    accepted: Result<(), Stop<InstallRefusal>>,
) -> Result<Known, Stop<InstallRefusal>>
    ensures { result ≡ known_if known accepted }
{
    match accepted {
        Ok(()) => Ok(known),
        Err(stop) => Err(stop),
    }
}

// What is known, where the bundle may be installed on this system.
fn know_accepted<M: Machine>(
    alloc: Global,
    m: &mut M,
    system: &System,
    request: &Request,
    booted: Booted,
    read: StatusRead,
) -> Result<Known, Stop<InstallRefusal>>
    requires { IsTrue M.tells → IsStored (system_configuration system.now) (world_now (M.past m.old)) read }
    ensures kept { let conf = system_configuration system.now in
        let checks = checks_in conf (world_now (M.past m.old)) in
        OnlyRuns M.tells (helper_spares conf []) checks (M.past m.old) (M.past m.new) }
    ensures answers { let conf = system_configuration system.now in
        let accepted = accepted_since conf request.now booted (M.past m.old) (M.past m.new) in
        IsTrue M.tells → TellsIf spec.known_content accepted result }
    ensures silent { IsTrue M.tells → clock_since (M.past m.old) (M.past m.new) ≡ None }
    ensures read { IfOk result (λ known. known.read ≡ read) }
    ensures early { IfErr result IsEarly }
    ensures fails { Fails M.tells (M.past m.old) (M.past m.new) (stop_fault result) }
    ensures failing { let asked = is_bundle_call (system_configuration system.now) in
        FailsIn M.tells asked (M.past m.old) (M.past m.new) (stop_fault result) }
    ensures counts { StopCounted (M.faults m.old) (M.faults m.new) (M.wants m.old) (M.wants m.new) result }
{
    let known = match know_bundle(alloc, m, system, booted, read) {
        Ok(known) => known,
        Err(stop) => return Err(stop),
    };
    let accepted = accept(alloc, m, system, request, &known.manifest);
    if_accepted(known, accepted)
}

// The facts, by what is known and what was chosen.
fn facts_from(known: Known, chosen: Chosen) -> Facts
    ensures { result ≡ facts_made known chosen }
{
    let Known {
        booted,
        read,
        manifest,
    } = known;
    let StatusRead { book, unread } = read;
    let Chosen {
        states,
        jobs,
        skipped,
        now,
    } = chosen;
    Facts {
        booted,
        states,
        manifest,
        jobs,
        skipped,
        book,
        book_unread: unread,
        now,
    }
}

// The facts, where the jobs were chosen, which is noted then.
fn facts_if<P: Report>(
    known: Known,
    chosen: Result<Chosen, Stop<InstallRefusal>>,
    report: &mut P,
) -> Result<Facts, Stop<InstallRefusal>>
    ensures is { result ≡ facts_if known chosen }
    ensures notes { AddsNotes (P.stands report.old) (P.stands report.new) (notes_if chosen) }
{
    match chosen {
        Ok(chosen) => {
            report.note(40, "targets chosen");
            Ok(facts_from(known, chosen))
        }
        Err(stop) => Err(stop),
    }
}

// The facts, where it is known what is booted and what the status file says.
fn gather_known<M: Machine, P: Report>(
    alloc: Global,
    m: &mut M,
    system: &System,
    request: &Request,
    booted: Booted,
    read: StatusRead,
    report: &mut P,
) -> Result<Facts, Stop<InstallRefusal>>
    requires stored { IsTrue M.tells → IsStored (system_configuration system.now) (world_now (M.past m.old)) read }
    requires all { length read.book ≡ length system.now.slots }
    ensures kept { let conf = system_configuration system.now in
        let checks = checks_in conf (world_now (M.past m.old)) in
        OnlyRuns M.tells (helper_spares conf []) checks (M.past m.old) (M.past m.new) }
    ensures answers { let conf = system_configuration system.now in
        let facts = facts_since_for conf request.now booted (M.past m.old) (M.past m.new) in
        IsTrue M.tells → TellsIf spec.facts_content facts result }
    ensures sound { IfOk result (λ facts. spec.AreSound (system_configuration system.now) (spec.facts_content facts)) }
    ensures notes { let told = GatherNotes M.tells (system_configuration system.now) (M.past m.old) (M.past m.new) in
        Noted (P.stands report.old) (P.stands report.new) (told result) }
    ensures fails { Fails M.tells (M.past m.old) (M.past m.new) (stop_fault result) }
    ensures failing { let asked = is_later_call (system_configuration system.now) in
        FailsIn M.tells asked (M.past m.old) (M.past m.new) (stop_fault result) }
    ensures counts { StopCounted (M.faults m.old) (M.faults m.new) (M.wants m.old) (M.wants m.new) result }
{
    let known = match know_accepted(alloc, m, system, request, booted, read) {
        Ok(known) => known,
        Err(stop) => return Err(stop),
    };
    report.note(30, "manifest accepted");
    let chosen = choose(alloc, m, system, &known);
    facts_if(known, chosen, report)
}

/// Gathers what an install goes by, of a bundle that is mounted, before it changes anything. In this
/// order: `BootedUnknown` where nothing tells what is booted; `Bundle` where the manifest is not read;
/// `Check` or `Compatible` where the bundle is not accepted; `Assign` where an image goes to no slot;
/// `MountsUnread` and `Mounted` where a slot is in the way; `Image` where an image does not fit;
/// `Status` where the status file cannot note it. What a helper must leave alone is left alone, and
/// `report` gets a note once the bundle is accepted, and one at the end.
pub fn gather<M: Machine, P: Report>(
    alloc: Global,
    m: &mut M,
    system: &System,
    request: &Request,
    report: &mut P,
) -> Gathered
    ensures kept { let conf = system_configuration system.now in
        let checks = checks_in conf (world_now (M.past m.old)) in
        OnlyRuns M.tells (helper_spares conf []) checks (M.past m.old) (M.past m.new) }
    ensures answers { let conf = system_configuration system.now in
        IsTrue M.tells → TellsIf spec.facts_content (facts_since conf request.now (M.past m.old) (M.past m.new)) result.facts }
    ensures sound { IfOk result.facts (λ facts. spec.AreSound (system_configuration system.now) (spec.facts_content facts)) }
    ensures unread { let told = UnreadTold (system_configuration system.now) request.now.given_boot (M.past m.old) (M.past m.new) in
        IsTrue M.tells → told result.facts result.book_unread }
    ensures notes { let told = GatherNotes M.tells (system_configuration system.now) (M.past m.old) (M.past m.new) in
        Noted (P.stands report.old) (P.stands report.new) (told result.facts) }
    ensures fails { Fails M.tells (M.past m.old) (M.past m.new) (stop_fault result.facts) }
    ensures counts { StopCounted (M.faults m.old) (M.faults m.new) (M.wants m.old) (M.wants m.new) result.facts }
{
    match know_first(alloc, m, system, request) {
        Ok((booted, read)) => {
            let book_unread = read.unread;
            let facts = gather_known(alloc, m, system, request, booted, read, report);
            Gathered { facts, book_unread }
        }
        Err(stop) => Gathered {
            facts: Err(stop),
            book_unread: false,
        },
    }
}
