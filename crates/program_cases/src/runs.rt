use crate::changes::{tell_changes, tell_runs, tell_writes};
use crate::forms::{range_of, replaced};
use crate::page::Page;
use crate::setups::{bench_of, numbers_of, run_value};
use keyfile::{KeyFile, items};
use machine::World;
use machine_bench::Bench;
use rauc_cli::rauc;
use std::alloc::Global;
use updater_text::{MemorySink, NoMemory, Text, read_number};

/// The room for each of the two streams of the command, in bytes.
const ROOM: usize = 4_096;

/// The picks of what a stop leaves, where a case says none.
const PICKS: (u64, u64) = (0, 3);

// The words of the command. `\0` stands for a byte that no key file has.
fn words_of(alloc: Global, case: &KeyFile) -> Result<Vec<Text>, NoMemory> {
    let words = replaced(alloc, run_value(case, "words"), "\\0", "\0")?;
    items(alloc, words.as_str())
}

// A sink of which the puts fail whose numbers this key says.
fn sink_of(alloc: Global, case: &KeyFile, key: &str) -> Result<MemorySink, NoMemory> {
    let fails = numbers_of(alloc, case, key)?;
    MemorySink::new(alloc, ROOM, fails)
}

fn status_of(
    alloc: Global,
    words: &[Text],
    bench: &mut Bench,
    out: &mut MemorySink,
    err: &mut MemorySink,
) -> u8 {
    rauc(alloc, words, bench, out, err).status()
}

// Runs the command, tells what it put on its two streams, and answers its exit status.
fn run_on(page: &mut Page, case: &KeyFile, bench: &mut Bench) -> Result<u8, NoMemory> {
    let alloc = page.alloc();
    let words = words_of(alloc, case)?;
    let mut out = sink_of(alloc, case, "out-fails")?;
    let mut err = sink_of(alloc, case, "err-fails")?;
    let status = status_of(alloc, words.as_slice(), bench, &mut out, &mut err);
    page.stream("out: ", out.bytes())?;
    page.stream("err: ", err.bytes())?;
    Ok(status)
}

fn tell_counts(page: &mut Page, world: &World) -> Result<(), NoMemory> {
    page.count("pending ", world.pending.len() as u64)?;
    page.count(", children ", world.runs.len() as u64)
}

fn tell_world(page: &mut Page, before: &World, after: &World) -> Result<(), NoMemory> {
    page.count(", read ", u64::try_from(after.fetched).unwrap_or(u64::MAX))?;
    page.say(", ")?;
    tell_counts(page, after)?;
    page.say("\n")?;
    tell_runs(page, after.runs.as_slice())?;
    tell_writes(page, after.writes.as_slice())?;
    page.say("left:")?;
    tell_changes(page, before, after)?;
    page.say("\n")
}

// Tells what came of a run since the world before.
fn tell_after(page: &mut Page, status: u8, before: &World, bench: &Bench) -> Result<(), NoMemory> {
    page.count("status ", u64::from(status))?;
    page.count(", calls ", bench.calls())?;
    page.count(", faults ", bench.faults())?;
    let after = bench.world()?;
    tell_world(page, before, &after)
}

fn tell_run(page: &mut Page, case: &KeyFile, bench: &mut Bench) -> Result<u64, NoMemory> {
    let before = bench.world()?;
    let status = run_on(page, case, bench)?;
    tell_after(page, status, &before, bench)?;
    Ok(bench.calls())
}

// Tells the run in which the power stops at this call, if any, and answers how many calls it makes.
fn tell_run_to(page: &mut Page, case: &KeyFile, stop: Option<u64>) -> Result<u64, NoMemory> {
    let mut bench = bench_of(page.alloc(), case, stop)?;
    tell_run(page, case, &mut bench)
}

// Runs the command without a word, and answers the world before.
fn run_silently(alloc: Global, case: &KeyFile, bench: &mut Bench) -> Result<World, NoMemory> {
    let mut silent = Page::new(alloc);
    let before = bench.world()?;
    run_on(&mut silent, case, bench)?;
    Ok(before)
}

fn world_after(bench: Bench, pick: u64) -> Result<World, NoMemory> {
    let left = bench.after_stop(pick)?;
    left.world()
}

// Tells what a stop of the power leaves by this pick.
fn tell_left(page: &mut Page, before: &World, bench: Bench, pick: u64) -> Result<(), NoMemory> {
    let after = world_after(bench, pick)?;
    tell_counts(page, &after)?;
    tell_changes(page, before, &after)
}

// What a stop at this call leaves by this pick.
fn left_by(alloc: Global, case: &KeyFile, call: u64, pick: u64) -> Result<Page, NoMemory> {
    let mut page = Page::new(alloc);
    let mut bench = bench_of(alloc, case, Some(call))?;
    let before = run_silently(alloc, case, &mut bench)?;
    tell_left(&mut page, &before, bench, pick)?;
    Ok(page)
}

// Tells what a stop at this call leaves by each pick for which it is not the same as by the one before.
fn tell_stop(page: &mut Page, case: &KeyFile, call: u64) -> Result<(), NoMemory> {
    let (first, last) = range_of(run_value(case, "picks")).unwrap_or(PICKS);
    let mut left = Page::new(page.alloc());
    for pick in first..last.saturating_add(1) {
        let by_pick = left_by(page.alloc(), case, call, pick)?;
        if by_pick.as_str() != left.as_str() {
            page.count("stop at call ", call)?;
            page.count(", from pick ", pick)?;
            page.say(": ")?;
            page.line(by_pick.as_str())?;
        }
        left = by_pick;
    }
    Ok(())
}

// Tells a stop at each call, and one behind the last, where the power does not stop.
fn tell_stops(page: &mut Page, case: &KeyFile, calls: u64) -> Result<(), NoMemory> {
    for call in 1..calls.saturating_add(2) {
        tell_stop(page, case, call)?;
    }
    Ok(())
}

/// Tells what a case shows, and what came of it.
pub fn tell_case(page: &mut Page, case: &KeyFile) -> Result<(), NoMemory> {
    page.line(run_value(case, "shows"))?;
    let stop = run_value(case, "stop");
    let call = read_number(stop.as_bytes());
    let calls = tell_run_to(page, case, call)?;
    match call {
        Some(call) => tell_stop(page, case, call),
        None if stop == "each" => tell_stops(page, case, calls),
        None => Ok(()),
    }
}
