ghost use Rattle.std.specs.Prelude.{◌≡◌, IfOk, option_map};
ghost use Rattle.machine.specs.Stops.{StopCounted};
ghost use Rattle.system_conf.specs.Reads.{system_configuration};
ghost use Rattle.install_core.specs.CrashSafe.{IsCrashSafe};
ghost use Rattle.rauc_cli.specs.Ends.{InstallTexts, NoteLines, OutcomeCounted, RunsBy, outcome_in};
ghost use Rattle.rauc_cli.specs.Lines as spec;
ghost use Rattle.rauc_cli.specs.Plans.{install_plan, request_of};

use crate::install_lines::{install_report, installed_line};
use crate::outcome::Ran;
use install_core::Request;
use install_notes::install_noting;
use machine::Machine;
use std::alloc::Global;
use system_conf::System;
use updater_text::{Items, NoMemory, Sink, Text, text_if_any};

// What an install is asked for, and the last line of one that is done.
#[derive(Drop)]
struct Asks {
    request: Request,
    last: Items<u8>,
}

// What the words ask an install for.
fn request_of(
    alloc: Global,
    given: Option<&str>,
    bundle: &str,
    ignore_compatible: bool,
) -> Result<Request, NoMemory>
    ensures { IfOk result (λ r. r ≡ request_of (option_map (λ name. name.now) given.entry) bundle.now ignore_compatible) }
{
    let given_boot = text_if_any(alloc, given)?;
    let bundle = Text::new(alloc, bundle)?;
    Ok(Request {
        bundle,
        given_boot,
        ignore_compatible,
    })
}

// All that an install takes memory for before it begins.
fn asks_of(
    alloc: Global,
    given: Option<&str>,
    bundle: &str,
    ignore_compatible: bool,
) -> Result<Asks, NoMemory>
    ensures request { IfOk result (λ a. a.request ≡ request_of (option_map (λ name. name.now) given.entry) bundle.now ignore_compatible) }
    ensures last { IfOk result (λ a. a.last ≡ spec.installed_line bundle.now) }
{
    let last = installed_line(alloc, bundle)?;
    let request = request_of(alloc, given, bundle, ignore_compatible)?;
    Ok(Asks { request, last })
}

/// Installs a bundle, and puts its notes on standard output as they come.
pub fn run_install<M: Machine, O: Sink>(
    alloc: Global,
    m: &mut M,
    system: &System,
    given: Option<&str>,
    bundle: &str,
    ignore_compatible: bool,
    out: &mut O,
) -> Ran
    ensures runs { let c = system_configuration system.now in
        let r = request_of (option_map (λ name. name.now) given.entry) bundle.now ignore_compatible in
        let plan = install_plan c r (M.past m.old) (M.past m.new) in
        RunsBy M.tells plan (InstallTexts bundle.now) NoteLines (M.past m.old) (M.past m.new) (O.shown out.old) (O.shown out.new) result }
    ensures stands { let r = request_of (option_map (λ name. name.now) given.entry) bundle.now ignore_compatible in
        IsCrashSafe M.tells (system_configuration system.now) r (M.past m.old) (M.past m.new) }
    ensures counts { OutcomeCounted (M.faults m.old) (M.faults m.new) (M.wants m.old) (M.wants m.new) (outcome_in result.report) }
{
    match asks_of(alloc, given, bundle, ignore_compatible) {
        Ok(asks) => {
            let told = install_noting(alloc, m, system, &asks.request, out);
            Ran {
                report: install_report(alloc, asks.last, told.end),
                whole: told.whole,
            }
        }
        Err(memory) => Ran {
            report: Err(memory),
            whole: true,
        },
    }
}
