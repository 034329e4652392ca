//! Runs commands of a boot loader's programs by their model, one after another, and prints how each ended
//! and the variables at the end. There are no variables at the start.
//!
//! Use: `boot_session [FILE]`; without a file it reads standard input. The words of a line have a tab
//! between each two. The first line names the boot loader: `grub` and its environment block, `custom` and
//! its program, or one of `uboot`, `barebox`, `efi` and `noop`. Each line after it is a command, with the
//! name of its program first; or it begins with a tab and gives a variable, by its name and its value, as
//! if that were set from elsewhere.
//!
//! Of each command it prints `status N, bytes M`, and then the M bytes that the command printed. At the end
//! come the variables in ascending order of their names, each as a line that gives it.
//!
//! The exit status is 0; 2 with a line on standard error where a line is bad, where the text cannot be read
//! or is not UTF-8, where there are more words, or where not all can be printed; 3 where memory runs out.
#![tactic(auto)]

mod kind;
mod session;
mod step;

use crate::session::session;
use std::io::{self, Error, ErrorKind, Write};
use std::process::ExitCode;
use std::{env, fs};
use updater_text::Lack;

const FAULTY: u8 = 2;

const NO_MEMORY: u8 = 3;

// The text of the file that the words name, or of standard input.
fn input(rt: &HostRuntime) -> io::Result<String> {
    let mut words = env::args(rt)?.skip(1);
    let Some(file) = words.next() else {
        return io::read_to_string(rt.alloc(), rt.stdin());
    };
    match words.next() {
        None => fs::read_to_string(rt, file.as_str()),
        Some(_) => Err(Error::from(ErrorKind::InvalidInput)),
    }
}

// Prints what is told of a session, and answers the exit status.
fn run(rt: &HostRuntime) -> io::Result<u8> {
    let text = input(rt)?;
    match session(rt.alloc(), text.as_str()) {
        Ok(page) => {
            rt.stdout().write_all(page.as_slice())?;
            Ok(0)
        }
        Err(Lack::Refused(number)) => {
            eprintln!(rt; "boot_session: line {number} is bad")?;
            Ok(FAULTY)
        }
        Err(Lack::NoMemory) => Err(Error::from(ErrorKind::OutOfMemory)),
    }
}

fn main(rt: HostRuntime) -> ExitCode {
    match run(&rt) {
        Ok(status) => ExitCode::from(status),
        Err(error) => {
            let _ = eprintln!(rt; "boot_session: {error}");
            ExitCode::from(match error.kind() {
                ErrorKind::OutOfMemory => NO_MEMORY,
                _ => FAULTY,
            })
        }
    }
}
