ghost use Rattle.std.specs.Prelude.{◌≡◌, ◌<◌, None, OnOk, Some, length};
ghost use Rattle.machine.specs.Stops.{StopCounted, stop_fault};
ghost use Rattle.system_conf.specs.Reads.{system_configuration};
ghost use Rattle.slot_status.specs.Changes.{activated, begun};
ghost use Rattle.slot_status.specs.Refusals.{activate_refusal};
ghost use Rattle.install_facts.specs.Facts.{facts_content};
ghost use Rattle.install_steps.specs.Noting.{CanFinish, CanNote, ChangesBook, NotRefused, NotesBook, status_stop};
ghost use Rattle.install_steps.specs.Steps.{changed, done_book, slot_at};

use install_facts::{Facts, InstallRefusal};
use install_plan::Step;
use machine::{CallStop, Fault, Machine, Stop};
use slot_status::{StatusBook, StatusRefusal};
use status_file::status_text;
use std::alloc::Global;
use system_conf::System;
use updater_text::Lack;

// Puts the text of a book in the place of the status file, where there is one.
fn put_book<M: Machine>(
    alloc: Global,
    m: &mut M,
    system: &System,
    book: &StatusBook,
) -> Result<(), Stop<InstallRefusal>>
    requires { length book.now ≡ length system.now.slots }
    ensures notes { let conf = system_configuration system.now in
        NotesBook M.tells conf book.now (M.past m.old) (M.past m.new) result }
    ensures refuses { NotRefused result }
    ensures counts { StopCounted (M.faults m.old) (M.faults m.new) (M.wants m.old) (M.wants m.new) result }
{
    let Some(path) = &system.status_file else {
        return Ok(());
    };
    let text = match status_text(alloc, system, book) {
        Ok(text) => text,
        Err(_) => return Err(Stop::NoMemory),
    };
    match m.file_replace(path.as_str(), text.as_slice()) {
        Ok(()) => Ok(()),
        Err(CallStop::Failed) => Err(Stop::Outside(Fault::Replace)),
        Err(CallStop::NoMemory) => Err(Stop::NoMemory),
    }
}

// A refusal of the status file; an install has looked before its first step that none comes.
fn status_stop(lack: Lack<StatusRefusal>) -> Stop<InstallRefusal>
    ensures { result ≡ status_stop lack }
{
    match lack {
        Lack::Refused(why) => Stop::Refused(InstallRefusal::Status(why)),
        Lack::NoMemory => Stop::NoMemory,
    }
}

// Notes in the book that an update of a slot has begun.
fn begin(book: &mut StatusBook, slot: usize) -> Result<(), Stop<InstallRefusal>>
    requires { slot < length book.old }
    ensures changes { OnOk result (book.new ≡ begun slot book.old) }
    ensures all { length book.new ≡ length book.old }
    ensures refuses { NotRefused result × (stop_fault result ≡ None) }
{
    match book.begin(slot) {
        Ok(()) => Ok(()),
        Err(_) => Err(Stop::NoMemory),
    }
}

// Notes in the book that the slot of a job was installed.
fn finish(facts: &mut Facts, job: usize, now: i64) -> Result<(), Stop<InstallRefusal>>
    requires can { CanFinish facts.old.book (slot_at (facts_content facts.old) job) now }
    ensures changes { let f = facts_content facts.old in
        OnOk result (facts_content facts.new ≡ record f { book = done_book f job now f.book }) }
    ensures all { length facts.new.book ≡ length facts.old.book }
    ensures refuses { NotRefused result × (stop_fault result ≡ None) }
{
    let job = facts.jobs.as_slice()[job];
    let manifest = &facts.manifest;
    let file = match manifest.images.as_slice().get(job.image) {
        Some(image) => image.file.as_ref(),
        None => None,
    };
    match facts.book.finish(job.slot, &manifest.bundle, file, now) {
        Ok(()) => Ok(()),
        Err(lack) => Err(status_stop(lack)),
    }
}

// Notes in the book that a root was activated.
fn activate(book: &mut StatusBook, root: usize, now: i64) -> Result<(), Stop<InstallRefusal>>
    requires slot { root < length book.old }
    requires can { activate_refusal book.old root now ≡ None }
    ensures changes { OnOk result (book.new ≡ activated root now book.old) }
    ensures all { length book.new ≡ length book.old }
    ensures refuses { NotRefused result × (stop_fault result ≡ None) }
{
    match book.activate(root, now) {
        Ok(()) => Ok(()),
        Err(lack) => Err(status_stop(lack)),
    }
}

// Notes a step in the book, at the time that was asked before the first.
fn change_at(facts: &mut Facts, step: &Step, now: i64) -> Result<(), Stop<InstallRefusal>>
    requires can { CanNote (facts_content facts.old) step.now }
    requires now { facts.old.now ≡ Some now }
    ensures changes { OnOk result (ChangesBook step.now facts.old facts.new) }
    ensures all { length facts.new.book ≡ length facts.old.book }
    ensures refuses { NotRefused result × (stop_fault result ≡ None) }
{
    match step {
        Step::Begin { slot } => begin(&mut facts.book, *slot),
        Step::Done { job } => finish(facts, *job, now),
        Step::Activated { root } => activate(&mut facts.book, *root, now),
        _ => Ok(()),
    }
}

// Notes a step in the book. Without a time there is nothing to note.
fn change(facts: &mut Facts, step: &Step) -> Result<(), Stop<InstallRefusal>>
    requires can { CanNote (facts_content facts.old) step.now }
    ensures changes { OnOk result (ChangesBook step.now facts.old facts.new) }
    ensures all { length facts.new.book ≡ length facts.old.book }
    ensures refuses { NotRefused result × (stop_fault result ≡ None) }
{
    match facts.now {
        Some(now) => change_at(facts, step, now),
        None => Ok(()),
    }
}

/// Notes a step in the book, and puts the book's text in the place of the status file, by one call.
/// No call is made where there is no status file. Nothing is refused.
pub fn note_step<M: Machine>(
    alloc: Global,
    m: &mut M,
    system: &System,
    facts: &mut Facts,
    step: &Step,
) -> Result<(), Stop<InstallRefusal>>
    requires all { length facts.old.book ≡ length system.now.slots }
    requires can { CanNote (facts_content facts.old) step.now }
    ensures changes { OnOk result (ChangesBook step.now facts.old facts.new) }
    ensures notes { let conf = system_configuration system.now in
        let f = facts_content facts.old in
        NotesBook M.tells conf (changed f step.now f.book) (M.past m.old) (M.past m.new) result }
    ensures refuses { NotRefused result }
    ensures counts { StopCounted (M.faults m.old) (M.faults m.new) (M.wants m.old) (M.wants m.new) result }
{
    match change(facts, step) {
        Ok(()) => put_book(alloc, m, system, &facts.book),
        Err(stop) => Err(stop),
    }
}
