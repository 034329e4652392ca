//! The program `rauc`: the command over the real machine, standard output and standard error.
#![tactic(auto)]

use machine::Fault;
use machine_linux::Linux;
use rauc_cli::{Finish, Outcome, rauc};
use std::env::Env;
use std::io::ErrorKind;
use std::process::ExitCode;
use std::{env, io};
use updater_text::{Sink, Text, WriterSink};

// The words after the program's name. Words that are not UTF-8 are no command, as no words are.
fn words<R: Env + AllocGlobal>(rt: &R) -> io::Result<Vec<Text>> {
    let mut words = Vec::new(rt.alloc());
    let args = match env::args(rt) {
        Ok(args) => args,
        Err(error) if error.kind() == ErrorKind::InvalidData => return Ok(words),
        Err(error) => return Err(error),
    };
    for arg in args.skip(1) {
        words.push(Text::from_string(arg))?;
    }
    Ok(words)
}

// Tells why there are no words, and answers the exit status by the rule of every other end.
fn end_without_words<E: Sink>(err: &mut E, kind: ErrorKind) -> u8 {
    let (outcome, line) = match kind {
        ErrorKind::OutOfMemory => (Outcome::NoMemory, "rauc: out of memory\n"),
        _ => (Outcome::Outside(Fault::Read), "rauc: outside fault: read\n"),
    };
    let told = err.put(line.as_bytes()).is_ok();
    Finish { outcome, told }.status()
}

fn main(rt: HostRuntime) -> ExitCode {
    let alloc = rt.alloc();
    let mut out = WriterSink::new(rt.stdout());
    let mut err = WriterSink::new(rt.stderr());
    let words = match words(&rt) {
        Ok(words) => words,
        Err(error) => return ExitCode::from(end_without_words(&mut err, error.kind())),
    };
    let mut machine = Linux::new(rt, alloc);
    let finish = rauc(alloc, words.as_slice(), &mut machine, &mut out, &mut err);
    ExitCode::from(finish.status())
}
