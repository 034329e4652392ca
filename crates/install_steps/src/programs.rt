ghost use Rattle.std.specs.Prelude.{◌≡◌, [], ◌∷◌, IsTrue, false};
ghost use Rattle.machine.specs.Past.{Fails, world_now};
ghost use Rattle.machine.specs.Runs.{OnlyRuns};
ghost use Rattle.machine.specs.Spares.{is_boot};
ghost use Rattle.machine.specs.Stops.{StopCounted, stop_fault};
ghost use Rattle.install_steps.specs.Causes.{ProgramEnds, failed_refusal};

use install_facts::InstallRefusal;
use install_plan::Caller;
use machine::{Child, Ended, Fault, Machine, RunStop, Stop};
use std::alloc::Global;

// The refusal of a program that ended so.
fn failed(caller: Caller, ended: Ended) -> InstallRefusal
    ensures { result ≡ failed_refusal caller ended }
{
    match caller {
        Caller::Handler(which) => InstallRefusal::HandlerFailed { which, ended },
        Caller::Hook { which, slot } => InstallRefusal::HookFailed { which, slot, ended },
    }
}

/// Runs a hook or a handler, which has to end with status 0. `HandlerFailed` and `HookFailed` come
/// exactly where it ended otherwise.
pub fn run_program<M: Machine>(
    alloc: Global,
    m: &mut M,
    child: &Child,
    caller: Caller,
) -> Result<(), Stop<InstallRefusal>>
    requires { is_boot child.now.class ≡ false }
    ensures kept { OnlyRuns M.tells child.now.spares (child.now ∷ []) (M.past m.old) (M.past m.new) }
    ensures ends { let old = world_now (M.past m.old) in
        IsTrue M.tells → ProgramEnds child.now caller old (world_now (M.past m.new)) result }
    ensures fails { Fails M.tells (M.past m.old) (M.past m.new) (stop_fault result) }
    ensures counts { StopCounted (M.faults m.old) (M.faults m.new) (M.wants m.old) (M.wants m.new) result }
{
    match m.run(alloc, child) {
        Ok(exit) => match exit.ended {
            Ended::Code(0) => Ok(()),
            ended => Err(Stop::Refused(failed(caller, ended))),
        },
        Err(RunStop::Failed) => Err(Stop::Outside(Fault::Run)),
        Err(RunStop::NoMemory) => Err(Stop::NoMemory),
    }
}
