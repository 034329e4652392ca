ghost use Rattle.std.specs.Prelude.{◌≡◌, [], ◌∷◌, IsTrue, position};
ghost use Rattle.machine.specs.Past.{Fails};
ghost use Rattle.machine.specs.Runs.{OnlyRuns, SparesThese};
ghost use Rattle.machine.specs.Stops.{StopCounted, stop_fault};
ghost use Rattle.manifest.specs.Reads.{manifest_content};
ghost use Rattle.system_conf.specs.Reads.{system_configuration};
ghost use Rattle.child_steps.specs.Checks.{CheckEnds, check_answer, first_line, is_line_feed, text_of};
ghost use Rattle.child_steps.specs.Children.{helper_spares, mount_point};
ghost use Rattle.child_steps.specs.Hooks as spec;

use crate::CheckRefusal;
use crate::hooks::check_hook;
use machine::{Child, Ended, Exit, Fault, Machine, RunStop, Stop};
use manifest::Manifest;
use std::alloc::Global;
use system_conf::System;
use updater_text::Text;

// Where the first line ends, where a line feed ends it.
fn line_end(output: &[u8]) -> Option<usize>
    ensures { result ≡ position is_line_feed output.now }
{
    output.iter().position(|byte| *byte == b'\n')
}

// The first line of what was put out. It takes no memory.
fn first_line(mut output: Vec<u8>) -> Vec<u8>
    ensures { result.items ≡ first_line output.items }
{
    match line_end(output.as_slice()) {
        Some(end) => {
            output.truncate(end);
            output
        }
        None => output,
    }
}

// The text of bytes, which is empty where they are none. It takes no memory.
fn text_of(alloc: Global, bytes: Vec<u8>) -> Text
    ensures { result ≡ text_of bytes.items }
{
    match String::from_utf8(bytes) {
        Ok(text) => Text::from_string(text),
        Err(_) => Text::empty(alloc),
    }
}

// What the end of the hook comes to. It takes no memory.
fn check_answer(alloc: Global, exit: Exit) -> Result<(), CheckRefusal>
    ensures { result ≡ check_answer exit }
{
    let Exit { ended, err, .. } = exit;
    match ended {
        Ended::Code(0) => Ok(()),
        Ended::Code(10) => {
            let line = first_line(err.into_vec());
            let line = text_of(alloc, line);
            Err(CheckRefusal::Rejected { line })
        }
        _ => Err(CheckRefusal::CheckFailed { ended }),
    }
}

// Runs the hook.
fn run_hook<M: Machine>(
    alloc: Global,
    m: &mut M,
    system: &System,
    hook: &Child,
) -> Result<(), Stop<CheckRefusal>>
    requires { let c = system_configuration system.now in
        SparesThese (helper_spares c (mount_point c ∷ [])) hook.now }
    ensures kept { let c = system_configuration system.now in
        OnlyRuns M.tells (helper_spares c (mount_point c ∷ [])) (hook.now ∷ []) (M.past m.old) (M.past m.new) }
    ensures ends { IsTrue M.tells → CheckEnds hook.now (M.past m.old) (M.past m.new) result }
    ensures fails { Fails M.tells (M.past m.old) (M.past m.new) (stop_fault result) }
    ensures counts { StopCounted (M.faults m.old) (M.faults m.new) (M.wants m.old) (M.wants m.new) result }
{
    match m.run(alloc, hook) {
        Ok(exit) => match check_answer(alloc, exit) {
            Ok(()) => Ok(()),
            Err(refusal) => Err(Stop::Refused(refusal)),
        },
        Err(RunStop::Failed) => Err(Stop::Outside(Fault::Run)),
        Err(RunStop::NoMemory) => Err(Stop::NoMemory),
    }
}

/// Has the hook of a bundle decide whether that is installed, by one run. `Rejected` comes exactly
/// where the hook ended with `Code(10)`, `CheckFailed` for every other end but `Code(0)`. What a
/// helper must leave alone is left alone, and what is mounted too.
pub fn install_check<M: Machine>(
    alloc: Global,
    m: &mut M,
    system: &System,
    manifest: &Manifest,
) -> Result<(), Stop<CheckRefusal>>
    requires { IsTrue manifest.now.install_check }
    ensures kept { let c = system_configuration system.now in
        let hook = spec.check_hook c (manifest_content manifest.now) in
        OnlyRuns M.tells (helper_spares c []) (hook ∷ []) (M.past m.old) (M.past m.new) }
    ensures bundle { let c = system_configuration system.now in
        let hook = spec.check_hook c (manifest_content manifest.now) in
        OnlyRuns M.tells (helper_spares c (mount_point c ∷ [])) (hook ∷ []) (M.past m.old) (M.past m.new) }
    ensures ends { let hook = spec.check_hook (system_configuration system.now) (manifest_content manifest.now) in
        IsTrue M.tells → CheckEnds hook (M.past m.old) (M.past m.new) result }
    ensures fails { Fails M.tells (M.past m.old) (M.past m.new) (stop_fault result) }
    ensures counts { StopCounted (M.faults m.old) (M.faults m.new) (M.wants m.old) (M.wants m.new) result }
{
    match check_hook(alloc, system, manifest) {
        Ok(hook) => run_hook(alloc, m, system, &hook),
        Err(_) => Err(Stop::NoMemory),
    }
}
