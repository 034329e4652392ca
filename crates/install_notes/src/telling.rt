ghost use Rattle.std.specs.Prelude.{◌≡◌};
ghost use Rattle.machine.specs.Stops.{StopCounted};
ghost use Rattle.system_conf.specs.Reads.{system_configuration};
ghost use Rattle.install_core.specs.Done.{DoneAtSuccess};
ghost use Rattle.install_core.specs.Faults.{FaultTold, UnmountCounted};
ghost use Rattle.install_core.specs.CrashSafe.{IsCrashSafe};
ghost use Rattle.install_core.specs.Untouched.{LeavesUntouched};
ghost use Rattle.install_notes.specs.Lines.{Tells};

use crate::printing::{Home, Lent, NoteLines};
use child_steps::Closing;
use install_core::{InstallEnd, install};
use install_facts::Request;
use machine::{Machine, Stop};
use std::alloc::Global;
use std::marker::Brand;
use system_conf::System;
use updater_text::Sink;

/// What an install came to, and whether all its notes were put whole.
#[derive(Drop)]
pub struct Told {
    pub end: InstallEnd,
    pub whole: bool,
}

// The end that stands before an install has one.
fn nothing_done() -> InstallEnd {
    InstallEnd {
        result: Err(Stop::NoMemory),
        closing: Closing::NotMounted,
        book_unread: false,
        line: None,
    }
}

// Installs a bundle, with its notes on a sink that is lent, and gives the sink back, with whether all
// notes are whole. What it came to takes the place of `end`: a result that owns memory would keep the
// loan of the sink from ending.
fn install_at<'a, M: Machine, O: Sink, K: Home>(
    alloc: Global,
    m: &mut M,
    system: &System,
    request: &Request,
    at: Lent<'a, O>,
    end: &mut InstallEnd,
) -> (Lent<'a, O>, bool)
    requires { at.sink.ghost_name ≡ K.home }
    ensures same { result.0.sink.ghost_name ≡ at.entry.sink.ghost_name }
    ensures told { let c = system_configuration system.now in
        Tells M.tells c request.now (M.past m.old) (M.past m.new) (O.shown at.entry.sink.now) (O.shown result.0.sink.now) result.1 end.new }
    ensures done { let c = system_configuration system.now in
        DoneAtSuccess M.tells c request.now (M.past m.old) end.new }
    ensures untouched { let c = system_configuration system.now in
        LeavesUntouched M.tells c request.now (M.past m.old) (M.past m.new) end.new }
    ensures crash_safe { IsCrashSafe M.tells (system_configuration system.now) request.now (M.past m.old) (M.past m.new) }
    ensures fails { FaultTold M.tells (M.past m.old) (M.past m.new) end.new }
    ensures counts { StopCounted (M.faults m.old) (M.faults m.new) (M.wants m.old) (M.wants m.new) end.new.result }
    ensures unmount { UnmountCounted (M.faults m.old) (M.faults m.new) (M.wants m.old) (M.wants m.new) end.new.closing }
{
    let mut lines: NoteLines<O, K> = NoteLines::new(at);
    *end = install(alloc, m, system, request, &mut lines);
    lines.into_parts()
}

/// Installs a bundle as `install` does, and puts each of its notes on the sink as it comes: a line of
/// its percent and its text. After a put that failed nothing more is put, and the install goes on.
/// Clause `told`: how it went, in order, with the lines of its notes on the sink. The other clauses
/// are those of `install`.
pub fn install_noting<M: Machine, O: Sink>(
    alloc: Global,
    m: &mut M,
    system: &System,
    request: &Request,
    out: &mut O,
) -> Told
    ensures told { let c = system_configuration system.now in
        Tells M.tells c request.now (M.past m.old) (M.past m.new) (O.shown out.old) (O.shown out.new) result.whole result.end }
    ensures done { let c = system_configuration system.now in
        DoneAtSuccess M.tells c request.now (M.past m.old) result.end }
    ensures untouched { let c = system_configuration system.now in
        LeavesUntouched M.tells c request.now (M.past m.old) (M.past m.new) result.end }
    ensures crash_safe { IsCrashSafe M.tells (system_configuration system.now) request.now (M.past m.old) (M.past m.new) }
    ensures fails { FaultTold M.tells (M.past m.old) (M.past m.new) result.end }
    ensures counts { StopCounted (M.faults m.old) (M.faults m.new) (M.wants m.old) (M.wants m.new) result.end.result }
    ensures unmount { UnmountCounted (M.faults m.old) (M.faults m.new) (M.wants m.old) (M.wants m.new) result.end.closing }
{
    let mut end = nothing_done();
    let at = Lent { sink: out };
    let (_, whole) = install_at::<M, O, Brand>(alloc, m, system, request, at, &mut end);
    Told { end, whole }
}
