ghost use Rattle.std.specs.Prelude.{◌≡◌, IfOk, IsTrue, List, None};
ghost use Rattle.install_plan.specs.Acts.{acts_of};
ghost use Rattle.install_steps.specs.Progress.{RunsActs};
ghost use Rattle.install_steps.specs.declared.running.JobEnd.{JobEnd};
ghost use Rattle.install_core.specs.Preparing.{IsPrepared, ends_of};
ghost use Rattle.conf_forms.specs.Lists.{first_of};
ghost use Rattle.machine.specs.Past.{Past, world_now};
ghost use Rattle.machine.specs.Stops.{StopCounted};
ghost use Rattle.manifest.specs.Reads.{manifest_content};
ghost use Rattle.system_conf.specs.Reads.{system_configuration};
ghost use Rattle.install_facts.specs.Facts.{AreSound, facts_content, image_refusal};
ghost use Rattle.install_facts.specs.Gathering.{Noted};
ghost use Rattle.install_core.specs.Course as spec;

use crate::ending::Worked;
use crate::preparing::{Prepared, prepare};
use install_facts::{Facts, Gathered, InstallRefusal, Report, Request, gather};
use install_steps::{Installed, run_acts};
use machine::{Machine, Stop};
use std::alloc::Global;
use system_conf::System;

// Does what was prepared.
fn do_prepared<M: Machine, P: Report>(
    alloc: Global,
    m: &mut M,
    system: &System,
    facts: &mut Facts,
    prepared: &mut Prepared,
    report: &mut P,
) -> Result<(), Stop<InstallRefusal>>
    requires sound { AreSound (system_configuration system.now) (facts_content facts.old) }
    requires fits { let c = system_configuration system.now in
        let refusal = image_refusal c (manifest_content facts.old.manifest) (world_now (M.past m.old)) in
        IsTrue M.tells → first_of refusal facts.old.jobs ≡ None }
    requires prepared { IsPrepared (system_configuration system.now) (facts_content facts.old) prepared.old }
    ensures runs { let c = system_configuration system.now in
        let f = facts_content facts.old in
        let past : Past × Past = (M.past m.old, M.past m.new) in
        let ends : List JobEnd × List JobEnd = (ends_of f, prepared.new.ends) in
        RunsActs M.tells c f (acts_of c f) past ends (P.stands report.old) (P.stands report.new) result }
    ensures counts { StopCounted (M.faults m.old) (M.faults m.new) (M.wants m.old) (M.wants m.new) result }
{
    run_acts(
        alloc,
        m,
        system,
        facts,
        prepared.acts.as_slice(),
        prepared.ends.as_mut_slice(),
        prepared.buffer.as_mut_slice(),
        report,
    )
}

// What was done, where all of it was.
fn installed(
    prepared: Prepared,
    done: Result<(), Stop<InstallRefusal>>,
) -> Result<Installed, Stop<InstallRefusal>>
    ensures { result ≡ spec.installed_if prepared.ends done }
{
    match done {
        Ok(()) => Ok(Installed {
            jobs: prepared.ends,
        }),
        Err(stop) => Err(stop),
    }
}

// Makes what the steps take, and does them.
fn change<M: Machine, P: Report>(
    alloc: Global,
    m: &mut M,
    system: &System,
    facts: &mut Facts,
    report: &mut P,
) -> Result<Installed, Stop<InstallRefusal>>
    requires sound { AreSound (system_configuration system.now) (facts_content facts.old) }
    requires fits { let c = system_configuration system.now in
        let refusal = image_refusal c (manifest_content facts.old.manifest) (world_now (M.past m.old)) in
        IsTrue M.tells → first_of refusal facts.old.jobs ≡ None }
    ensures changes { let c = system_configuration system.now in
        let changes = spec.ChangesIf M.tells c (facts_content facts.old) (M.past m.old) (M.past m.new) result in
        Noted (P.stands report.old) (P.stands report.new) changes }
    ensures counts { StopCounted (M.faults m.old) (M.faults m.new) (M.wants m.old) (M.wants m.new) result }
{
    match prepare(alloc, system, facts) {
        Ok(mut prepared) => {
            let done = do_prepared(alloc, m, system, facts, &mut prepared, report);
            installed(prepared, done)
        }
        Err(_) => Err(Stop::NoMemory),
    }
}

// The same, where the facts were gathered.
fn change_if<M: Machine, P: Report>(
    alloc: Global,
    m: &mut M,
    system: &System,
    gathered: Result<Facts, Stop<InstallRefusal>>,
    report: &mut P,
) -> Result<Installed, Stop<InstallRefusal>>
    requires sound { IfOk gathered (λ f. AreSound (system_configuration system.now) (facts_content f)) }
    requires fits { let c = system_configuration system.now in
        IsTrue M.tells → IfOk gathered (spec.ImagesFit c (world_now (M.past m.old))) }
    ensures follows { let follows = spec.Follows M.tells (system_configuration system.now) (M.past m.old) (M.past m.new) gathered result in
        Noted (P.stands report.old) (P.stands report.new) follows }
    ensures counts { spec.CountedIf gathered (M.faults m.old) (M.faults m.new) (M.wants m.old) (M.wants m.new) result }
{
    match gathered {
        Ok(facts) => {
            let mut facts = facts;
            change(alloc, m, system, &mut facts, report)
        }
        Err(stop) => Err(stop),
    }
}

/// Works with a bundle that is mounted: gathers what the install goes by, and does its steps.
pub fn work<M: Machine, P: Report>(
    alloc: Global,
    m: &mut M,
    system: &System,
    request: &Request,
    report: &mut P,
) -> Worked
    ensures works { let works = spec.Works M.tells (system_configuration system.now) request.now (M.past m.old) (M.past m.new) in
        Noted (P.stands report.old) (P.stands report.new) (works result.result result.book_unread) }
    ensures counts { StopCounted (M.faults m.old) (M.faults m.new) (M.wants m.old) (M.wants m.new) result.result }
{
    let Gathered { facts, book_unread } = gather(alloc, m, system, request, report);
    let result = change_if(alloc, m, system, facts, report);
    Worked {
        result,
        book_unread,
    }
}
