//! Runs the command `rauc` on a machine in memory, once for each case that files say, and prints what
//! came of it.
//!
//! Use: `program_cases FILE..`. The exit status is 0; 1 with a line on standard error where a file is
//! faulty or cannot be read; 3 where it is out of memory.
#![tactic(auto)]

mod changes;
mod content;
mod faults;
mod forms;
mod page;
mod runs;
mod scripts;
mod setups;

use crate::faults::{fault_at, first_fault};
use crate::forms::{cut, line_ends};
use crate::page::Page;
use crate::runs::tell_case;
use keyfile::{KeyFile, key_cause, read};
use std::alloc::Global;
use std::process::ExitCode;
use std::{env, fs};
use updater_text::{Lack, NoMemory, Text};

/// What a case begins with; its name and a bracket follow.
const HEADING: &str = "\n[case ";

const FAULTY: u8 = 1;

const NO_MEMORY: u8 = 3;

fn show_case(rt: &HostRuntime, file: &str, name: &str, case: &KeyFile) -> Result<(), Lack<Text>> {
    let mut page = Page::new(rt.alloc());
    page.begin_case(file, name)?;
    tell_case(&mut page, case)?;
    match rt.print(page.as_str()) {
        Ok(()) => Ok(()),
        Err(_) => Err(fault_at(rt.alloc(), "standard output", 0, "not written")),
    }
}

// Shows a case, whose lines have the numbers that they have in its file.
fn show_text(rt: &HostRuntime, file: &str, name: &str, text: &str) -> Result<(), Lack<Text>> {
    let alloc = rt.alloc();
    if let Some((line, what)) = first_fault(text) {
        return Err(fault_at(alloc, file, line, what));
    }
    match read(alloc, text.as_bytes()) {
        Ok(case) => show_case(rt, file, name, &case),
        Err(Lack::NoMemory) => Err(Lack::NoMemory),
        Err(Lack::Refused(fault)) => {
            let cause = key_cause(alloc, &fault)?;
            Err(fault_at(alloc, file, 0, cause.as_str()))
        }
    }
}

// The text of a case behind the front of its file, with so many ends of lines between. A heading that
// has no bracket stays as it is, and is told as a bad line.
fn case_text(alloc: Global, front: &str, ends: usize, case: &str) -> Result<String, NoMemory> {
    let (heading, rest) = match case.split_once(']') {
        Some((name, lines)) if !name.contains('\n') => ("[case]", lines),
        _ => ("[case ", case),
    };
    let gap = "\n".repeat(alloc, ends)?;
    let text = format!(in alloc; "{front}{gap}{heading}{rest}")?;
    Ok(text)
}

// Shows each case of a file. What stands before the first one holds for each.
fn show_cases(rt: &HostRuntime, file: &str, text: &str) -> Result<(), Lack<Text>> {
    let mut cases = text.split(HEADING);
    let front = cases.next().unwrap_or("");
    let mut ends: usize = 1;
    for case in cases {
        let (name, _) = cut(case, ']');
        let text = case_text(rt.alloc(), front, ends, case)?;
        show_text(rt, file, name, text.as_str())?;
        ends = ends.saturating_add(line_ends(case)).saturating_add(1);
    }
    match ends {
        1 => Err(fault_at(rt.alloc(), file, 0, "no case below its first line")),
        _ => Ok(()),
    }
}

fn show_file(rt: &HostRuntime, file: &str) -> Result<(), Lack<Text>> {
    match fs::read_to_string(rt, file) {
        Ok(text) => show_cases(rt, file, text.as_str()),
        Err(_) => Err(fault_at(rt.alloc(), file, 0, "not readable")),
    }
}

fn show_files(rt: &HostRuntime) -> Result<(), Lack<Text>> {
    let Ok(files) = env::args(rt) else {
        return Err(Lack::NoMemory);
    };
    for file in files.skip(1) {
        show_file(rt, file.as_str())?;
    }
    Ok(())
}

fn main(rt: HostRuntime) -> ExitCode {
    match show_files(&rt) {
        Ok(()) => ExitCode::from(0),
        Err(Lack::Refused(fault)) => {
            let _ = rt.eprintln(fault.as_str());
            ExitCode::from(FAULTY)
        }
        Err(Lack::NoMemory) => {
            let _ = rt.eprintln("program_cases: out of memory");
            ExitCode::from(NO_MEMORY)
        }
    }
}
