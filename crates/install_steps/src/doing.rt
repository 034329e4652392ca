ghost use Rattle.std.specs.Prelude.{◌≡◌, IfOk, OnOk, length};
ghost use Rattle.machine.specs.Stops.{StopCounted};
ghost use Rattle.system_conf.specs.Reads.{system_configuration};
ghost use Rattle.install_facts.specs.Facts.{facts_content};
ghost use Rattle.install_steps.specs.Doing.{CanDo, DoesStep, StepFits, without_image, written_by};
ghost use Rattle.install_steps.specs.Noting.{ChangesBook};
ghost use Rattle.install_steps.specs.Steps.{piece};

use crate::marking::{make_root_primary, mark_root_bad};
use crate::noting::note_step;
use crate::programs::run_program;
use crate::putting::{put_job, settle_slot};
use install_facts::{Facts, InstallRefusal};
use install_plan::Step;
use machine::{Machine, Stop};
use raw_writer::Written;
use std::alloc::Global;
use system_conf::System;

// A step that puts no image.
fn without_image(
    done: Result<(), Stop<InstallRefusal>>,
) -> Result<Option<Written>, Stop<InstallRefusal>>
    ensures { result ≡ without_image done }
{
    match done {
        Ok(()) => Ok(None),
        Err(stop) => Err(stop),
    }
}

/// Does one step, and answers how an image was put, where it puts one. `HandlerFailed` and `HookFailed`
/// come where a program did not end with status 0, `Boot` where the boot loader's programs did not mark
/// a name, and `Image` where an image that was put has another SHA-256 than the manifest's.
pub fn do_step<M: Machine>(
    alloc: Global,
    m: &mut M,
    system: &System,
    facts: &mut Facts,
    step: &Step,
    buffer: &mut [u8],
) -> Result<Option<Written>, Stop<InstallRefusal>>
    requires buffer { length buffer.old ≡ piece }
    requires can { CanDo (system_configuration system.now) (facts_content facts.old) step.now }
    requires fits { StepFits M.tells (M.past m.old) step.now }
    ensures does { let conf = system_configuration system.now in
        DoesStep M.tells conf (facts_content facts.old) step.now (M.past m.old) (M.past m.new) result }
    ensures changes { OnOk result (ChangesBook step.now facts.old facts.new) }
    ensures written { IfOk result (λ written. written ≡ written_by step.now) }
    ensures counts { StopCounted (M.faults m.old) (M.faults m.new) (M.wants m.old) (M.wants m.new) result }
{
    match step {
        Step::Run { child, caller } => without_image(run_program(alloc, m, child, *caller)),
        Step::Bad { root } => without_image(mark_root_bad(alloc, m, system, *root)),
        Step::Primary { root } => without_image(make_root_primary(alloc, m, system, *root)),
        Step::Put { job, put } => match put_job(alloc, m, facts, *job, put, buffer) {
            Ok(written) => Ok(Some(written)),
            Err(stop) => Err(stop),
        },
        Step::Settle { slot } => without_image(settle_slot(m, system, *slot)),
        Step::Begin { .. } | Step::Done { .. } | Step::Activated { .. } => {
            without_image(note_step(alloc, m, system, facts, step))
        }
        Step::Index { .. } => Ok(None),
    }
}
