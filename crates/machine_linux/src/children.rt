ghost use Rattle.std.specs.Prelude.{◌≡◌, ◌≤◌, ◌++◌, ◌↔◌, ◌||◌, ℕ, List, Some, pos, false, IfSome, IsTrue, length, take, option_map, vec_len, IfOk, OnOk};
ghost use Rattle.std.specs.Option.{option_or};
ghost use Rattle.std.specs.Process.{SameEnv, SameOtherVars, SameProgramAndArgs, clears_env, command_args, command_program, command_var, exit_code};
ghost use Rattle.machine_linux.specs.Started.{last_var};
ghost use Rattle.machine_linux.specs.Fronts.{IsFront};
ghost use Rattle.machine.specs.Calls.{IsKept, is_cut, kept_output};
ghost use Rattle.machine.specs.declared.world.Ended.TheVariants.{Code};

use crate::whole::stop_of;
use machine::{CallStop, Child, Ended, EnvVar, Exit, KEPT_OUTPUT};
use std::alloc::{AllocError, Global};
use std::io::{PipeReader, Read, pipe, sink};
use std::process::{Command, ExitStatus, Processes, Stdio, SystemProcess};
use std::rt::Files;
use std::thread::{JoinHandle, Threads, spawn};
use std::{io, process};
use updater_text::{Items, Text};

// The front of what a stream of a child gave, and whether there was more.
#[derive(Drop)]
struct Front {
    bytes: Vec<u8>,
    cut: bool,
    ghost is_front: { IsFront bytes.items cut },
}

// The front of a stream. The rest is read to its end and dropped, so that the child never waits for
// room to write. An error comes where the stream cannot be read.
fn keep_front<S: Read + Drop>(mut stream: S, mut bytes: Vec<u8>) -> io::Result<Front>
    ensures full { IfOk result (λ front. IsFront front.bytes.items front.cut) }
    ensures front { IfOk result (λ front. IfSome (S.remaining stream) (λ xs. front.bytes.items ≡ take kept_output (bytes.items ++ xs))) }
    ensures cut { IfOk result (λ front. IfSome (S.remaining stream) (λ xs. front.cut ≡ is_cut (bytes.items ++ xs))) }
{
    (&mut stream)
        .take(KEPT_OUTPUT as u64 + 1)
        .read_to_end(&mut bytes)?;
    let cut = bytes.len() > KEPT_OUTPUT;
    if cut {
        bytes.truncate(KEPT_OUTPUT);
        io::copy(&mut stream, &mut sink())?;
    }
    Ok(Front { bytes, cut })
}

fn add_args(command: &mut Command, args: &[Text]) -> Result<(), AllocError>
    ensures args { OnOk result (command_args command.new ≡ command_args command.old ++ args.now) }
    ensures program { OnOk result (command_program command.new ≡ command_program command.old) }
    ensures env { OnOk result (SameEnv command.old command.new) }
{
    for arg in args {
        command.arg(arg.as_str())?;
    }
    Ok(())
}

// Adds a variable to those of this process, in the place of one of this name.
fn add_var(command: &mut Command, var: &EnvVar) -> Result<(), AllocError>
    ensures set { OnOk result (command_var command.new var.now.name ≡ Some (Some var.now.value)) }
    ensures others { OnOk result (SameOtherVars command.old command.new var.now.name) }
    ensures call { OnOk result (SameProgramAndArgs command.old command.new) }
    ensures inherits { OnOk result (clears_env command.new ≡ clears_env command.old) }
{
    command.env(var.name.as_str(), var.value.as_str())?;
    Ok(())
}

fn add_vars(command: &mut Command, vars: &[EnvVar]) -> Result<(), AllocError>
    ensures vars { OnOk result ((name : List ℕ) → command_var command.new name ≡ option_or (option_map (λ var. Some var.value) (last_var vars.now name)) (command_var command.old name)) }
    ensures call { OnOk result (SameProgramAndArgs command.old command.new) }
    ensures inherits { OnOk result (clears_env command.new ≡ clears_env command.old) }
{
    for var in vars {
        add_var(command, var)?;
    }
    Ok(())
}

// What starts a child, but for its streams.
fn command_of(alloc: Global, child: &Child) -> Result<Command, AllocError>
    ensures program { IfOk result (λ c. command_program c ≡ child.now.program) }
    ensures args { IfOk result (λ c. command_args c ≡ child.now.args) }
    ensures vars { IfOk result (λ c. (name : List ℕ) → command_var c name ≡ option_map (λ var. Some var.value) (last_var child.now.env name)) }
    ensures inherits { IfOk result (λ c. clears_env c ≡ false) }
{
    let mut command = Command::new(alloc, child.program.as_str())?;
    add_args(&mut command, child.args.as_slice())?;
    add_vars(&mut command, child.env.as_slice())?;
    Ok(command)
}

// Room for the front of a stream, for one byte more, and for the read that finds the end.
fn room(alloc: Global) -> Result<Vec<u8>, AllocError> {
    Vec::with_capacity(alloc, KEPT_OUTPUT + 2)
}

// What reads the two outputs of a child: a thread for the one, and for the other the pipe's end and room.
#[derive(Drop)]
struct Readers {
    out: JoinHandle<Option<Front>>,
    err: PipeReader,
    err_room: Vec<u8>,
}

// Gives a child no input and a pipe for each output, and starts the thread that reads the one. It is
// all that a thread, a pipe and memory are needed for, and comes before the child is started.
fn connect<R: Files + Threads>(
    rt: &R,
    alloc: Global,
    command: &mut Command,
) -> Result<Readers, CallStop>
    ensures call { SameProgramAndArgs command.old command.new }
    ensures env { SameEnv command.old command.new }
{
    let (Ok(out_room), Ok(err_room)) = (room(alloc), room(alloc)) else {
        return Err(CallStop::NoMemory);
    };
    let (Ok((out, child_out)), Ok((err, child_err))) = (pipe(rt), pipe(rt)) else {
        return Err(CallStop::Failed);
    };
    let Ok(out) = spawn(rt, move || keep_front(out, out_room).ok()) else {
        return Err(CallStop::Failed);
    };
    command
        .stdin(Stdio::null())
        .stdout(child_out)
        .stderr(child_err);
    Ok(Readers { out, err, err_room })
}

// Converts an exit status.
fn ended_of(status: ExitStatus) -> Ended
    ensures { (code : ℕ) → (result ≡ Code code) ↔ (exit_code status ≡ Some (pos code)) }
{
    let code = status.code().and_then(|code| u8::try_from(code).ok());
    match code {
        Some(code) => Ended::Code(code),
        None => Ended::Signal,
    }
}

// The exit of a child with this status and these fronts of its outputs.
fn exit_of(status: ExitStatus, out: Front, err: Front) -> Exit
    ensures ended { (code : ℕ) → (result.ended ≡ Code code) ↔ (exit_code status ≡ Some (pos code)) }
    ensures out { result.out ≡ out.bytes.items }
    ensures err { result.err ≡ err.bytes.items }
    ensures cut { result.cut ≡ (out.cut || err.cut) }
    ensures kept { IsKept result }
{
    Exit {
        ended: ended_of(status),
        out: Items::from_vec(out.bytes),
        err: Items::from_vec(err.bytes),
        cut: out.cut || err.cut,
    }
}

// Reads both outputs of a child at once, since it may fill the one while the other is waited for, and
// waits for its end. Where an output cannot be read its pipe is closed, and the child goes on: one that
// is killed may leave half of what it was to change, as a block of boot variables that it has emptied.
fn finish<R: Threads>(
    rt: &R,
    mut started: process::Child<SystemProcess>,
    readers: Readers,
) -> Result<Exit, CallStop>
    ensures { IfOk result IsKept }
{
    let err = keep_front(readers.err, readers.err_room);
    let out = readers.out.join(rt);
    match (started.wait(), out, err) {
        (Ok(status), Some(out), Ok(err)) => Ok(exit_of(status, out, err)),
        _ => Err(CallStop::Failed),
    }
}

// Runs a child to its end.
pub fn run_child<R: Files + Processes<Started = SystemProcess> + Threads>(
    rt: &R,
    alloc: Global,
    child: &Child,
) -> Result<Exit, CallStop>
    ensures { IfOk result IsKept }
{
    let Ok(mut command) = command_of(alloc, child) else {
        return Err(CallStop::NoMemory);
    };
    let readers = connect(rt, alloc, &mut command)?;
    let started = command.spawn(rt);
    // with it go this process's ends for writing, without which the readers find no end
    drop(command);
    match started {
        Ok(started) => finish(rt, started, readers),
        Err(error) => {
            let _ = readers.out.join(rt);
            Err(stop_of(&error))
        }
    }
}
