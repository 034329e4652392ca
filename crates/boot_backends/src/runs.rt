ghost use Rattle.std.specs.Prelude.{◌≡◌, ◌∷◌, IsTrue, IfOk};
ghost use Rattle.std.specs.FinMap as fin;
ghost use Rattle.boot_outputs.specs.Texts.{Takes};
ghost use Rattle.machine.specs.Past.{Fails};
ghost use Rattle.machine.specs.Stops.{StopCounted, stop_fault};
ghost use Rattle.boot_backends.specs.Ends.{Finishes, Judged, OneEnds, run_stop};
ghost use Rattle.boot_backends.specs.Runs as spec;
ghost use Rattle.boot_backends.specs.declared.refusal.BootRefusal.TheVariants as refusal;

use crate::BootRefusal;
use boot_commands::{Command, arguments_of, program_of};
use boot_model::Vars;
use boot_outputs::take_output;
use machine::{Child, ChildClass, Ended, Exit, Fault, Machine, RunStop, Spares, Stop, words_of};
use std::alloc::Global;
use updater_text::{Items, NoMemory, Text};

// The child that runs a command.
fn child_of(alloc: Global, command: &Command) -> Result<Child, NoMemory>
    ensures { IfOk result (λ child. child ≡ spec.boot_child command.now) }
{
    let program = Text::new(alloc, program_of(command))?;
    let args = arguments_of(alloc, command)?;
    Ok(Child {
        class: ChildClass::Boot,
        program,
        args,
        env: Items::new(alloc),
        spares: Spares {
            disks: Items::new(alloc),
            files: Items::new(alloc),
            boot: false,
        },
    })
}

// Whether a command asks for one variable, which may not be set.
fn asks_one(command: &Command) -> bool
    ensures { result ≡ spec.asks_one command.now }
{
    matches!(command, Command::PrintVariable { .. })
}

fn is_done(exit: &Exit) -> bool
    ensures { result ≡ spec.is_code 0 exit.now.ended }
{
    exit.ended == Ended::Code(0)
}

// Whether a command may end so.
fn is_stated(command: &Command, exit: &Exit) -> bool
    ensures { result ≡ spec.is_stated command.now exit.now }
{
    is_done(exit) || asks_one(command) && exit.ended == Ended::Code(1) && exit.out.is_empty()
}

// Whether a command prints variables.
fn is_reading(command: &Command) -> bool
    ensures { result ≡ spec.is_reading command.now }
{
    matches!(
        command,
        Command::ListVariables { .. }
            | Command::PrintVariable { .. }
            | Command::PrintState { .. }
            | Command::ListEntries
            | Command::GetPrimary { .. }
            | Command::GetState { .. }
    )
}

// Takes up what a command printed that ended as it may. Answers whether its text serves.
fn take_up(alloc: Global, command: &Command, exit: &Exit, read: &mut Vars) -> Result<bool, NoMemory>
    ensures { Takes result read.old read.new (spec.taken command.now exit.now read.old) }
{
    if !is_reading(command) {
        return Ok(true);
    }
    if exit.cut {
        return Ok(false);
    }
    let Ok(out) = str::from_utf8(exit.out.as_slice()) else {
        return Ok(false);
    };
    if is_done(exit) {
        take_output(alloc, command, out, read)
    } else {
        Ok(true)
    }
}

fn bad_end(alloc: Global, child: &Child, ended: Ended) -> Result<BootRefusal, NoMemory>
    ensures { IfOk result (λ why. why ≡ refusal.Program (child.now.program ∷ child.now.args) ended) }
{
    let argv = words_of(alloc, child)?;
    Ok(BootRefusal::Program { argv, ended })
}

fn bad_output(alloc: Global, child: &Child) -> Result<BootRefusal, NoMemory>
    ensures { IfOk result (λ why. why ≡ refusal.Output (child.now.program ∷ child.now.args)) }
{
    let argv = words_of(alloc, child)?;
    Ok(BootRefusal::Output { argv })
}

// Takes up what a command printed, or refuses its end or its text.
fn judge(
    alloc: Global,
    command: &Command,
    child: &Child,
    exit: &Exit,
    read: &mut Vars,
) -> Result<(), Stop<BootRefusal>>
    requires { child.now ≡ spec.boot_child command.now }
    ensures { Judged command.now exit.now read.old read.new result }
{
    if !is_stated(command, exit) {
        return Err(Stop::Refused(bad_end(alloc, child, exit.ended)?));
    }
    if !take_up(alloc, command, exit, read)? {
        return Err(Stop::Refused(bad_output(alloc, child)?));
    }
    Ok(())
}

// A stop of a child that gave no end.
fn run_stop(stop: RunStop) -> Stop<BootRefusal>
    ensures { result ≡ run_stop stop }
{
    match stop {
        RunStop::Failed => Stop::Outside(Fault::Run),
        RunStop::NoMemory => Stop::NoMemory,
    }
}

// Runs one command, and takes up what it printed beside the variables that were read before.
fn run_one<M: Machine>(
    alloc: Global,
    m: &mut M,
    command: &Command,
    read: &mut Vars,
) -> Result<(), Stop<BootRefusal>>
    ensures ends { IsTrue M.tells → OneEnds command.now read.old read.new (M.past m.old) (M.past m.new) result }
    ensures fails { Fails M.tells (M.past m.old) (M.past m.new) (stop_fault result) }
    ensures counts { StopCounted (M.faults m.old) (M.faults m.new) (M.wants m.old) (M.wants m.new) result }
{
    let child = child_of(alloc, command)?;
    match m.run(alloc, &child) {
        Ok(exit) => judge(alloc, command, &child, &exit, read),
        Err(stop) => Err(run_stop(stop)),
    }
}

/// Runs commands in order, up to the first that does not end as it must, and gives the variables that
/// they printed.
pub fn run_commands<M: Machine>(
    alloc: Global,
    m: &mut M,
    commands: &[Command],
) -> Result<Vars, Stop<BootRefusal>>
    ensures ends { IsTrue M.tells → Finishes commands.now fin.empty (M.past m.old) (M.past m.new) result }
    ensures fails { Fails M.tells (M.past m.old) (M.past m.new) (stop_fault result) }
    ensures counts { StopCounted (M.faults m.old) (M.faults m.new) (M.wants m.old) (M.wants m.new) result }
{
    let mut read = Vars::new(alloc);
    for command in commands {
        run_one(alloc, m, command, &mut read)?;
    }
    Ok(read)
}
