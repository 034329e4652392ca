ghost use Rattle.std.specs.Prelude.{◌≡◌, true, IsTrue};
ghost use Rattle.boot_backends.specs.Marked.{is_boot_name};

use crate::cases::{Answer, Call};
use boot_backends::{BootRefusal, make_primary, mark_bad, mark_good, primary, read_vars};
use boot_model::Vars;
use boot_state::has_name;
use machine::{Fault, Stop};
use machine_bench::Bench;
use std::alloc::Global;
use system_conf::System;
use updater_text::Text;

// Whether these are the words, which have a bar between them.
pub fn are_words(texts: &[Text], words: &str) -> bool {
    let mut left = words.split('|');
    for text in texts {
        if left.next() != Some(text.as_str()) {
            return false;
        }
    }
    left.next().is_none()
}

// Whether the variables are those of the lines, and no others.
pub fn are_vars(vars: &Vars, lines: &str) -> bool {
    for line in lines.split('\n') {
        if let Some((name, value)) = line.split_once('=') {
            if vars.get(name) != Some(value) {
                return false;
            }
        }
    }
    vars.len() == lines.lines().count()
}

fn is_refusal(why: &BootRefusal, answer: &Answer) -> bool {
    match (why, answer) {
        (BootRefusal::Program { argv, ended }, Answer::Ended(words, end)) => {
            *ended == *end && are_words(argv.as_slice(), words)
        }
        (BootRefusal::Output { argv }, Answer::Output(words)) => are_words(argv.as_slice(), words),
        (BootRefusal::Unlisted { name }, Answer::Unlisted(wanted)) => name.as_str() == *wanted,
        _ => false,
    }
}

fn is_stop(stop: &Stop<BootRefusal>, answer: &Answer) -> bool {
    match stop {
        Stop::Refused(why) => is_refusal(why, answer),
        Stop::Outside(kind) => *kind == Fault::Run && matches!(answer, Answer::Fault),
        Stop::NoMemory => false,
    }
}

fn is_marked(marked: Result<(), Stop<BootRefusal>>, answer: &Answer) -> bool {
    match marked {
        Ok(()) => matches!(answer, Answer::Done),
        Err(stop) => is_stop(&stop, answer),
    }
}

fn is_listed(alloc: Global, system: &System, name: &str) -> bool
    ensures { IsTrue result → is_boot_name system.now.slots name.now ≡ true }
{
    match system.boot_names(alloc) {
        Ok(names) => has_name(&names, name.as_bytes()),
        Err(_) => false,
    }
}

fn reads(alloc: Global, m: &mut Bench, system: &System, answer: &Answer) -> bool {
    match read_vars(alloc, m, system) {
        Ok(vars) => match answer {
            Answer::Read(lines) => are_vars(&vars, lines),
            _ => false,
        },
        Err(stop) => is_stop(&stop, answer),
    }
}

fn boots(alloc: Global, m: &mut Bench, system: &System, answer: &Answer) -> bool {
    match primary(alloc, m, system) {
        Ok(at) => match answer {
            Answer::Slot(wanted) => at == *wanted,
            _ => false,
        },
        Err(stop) => is_stop(&stop, answer),
    }
}

fn marks_bad(alloc: Global, m: &mut Bench, system: &System, name: &str, answer: &Answer) -> bool {
    is_listed(alloc, system, name) && is_marked(mark_bad(alloc, m, system, name), answer)
}

fn marks_good(alloc: Global, m: &mut Bench, system: &System, name: &str, answer: &Answer) -> bool {
    is_listed(alloc, system, name) && is_marked(mark_good(alloc, m, system, name), answer)
}

fn makes_primary(
    alloc: Global,
    m: &mut Bench,
    system: &System,
    name: &str,
    answer: &Answer,
) -> bool {
    is_listed(alloc, system, name) && is_marked(make_primary(alloc, m, system, name), answer)
}

// Whether the call answers so.
pub fn answers(
    alloc: Global,
    m: &mut Bench,
    system: &System,
    call: &Call,
    answer: &Answer,
) -> bool {
    match call {
        Call::Bad(name) => marks_bad(alloc, m, system, name, answer),
        Call::Good(name) => marks_good(alloc, m, system, name, answer),
        Call::Primary(name) => makes_primary(alloc, m, system, name, answer),
        Call::ReadVars => reads(alloc, m, system, answer),
        Call::PrimarySlot => boots(alloc, m, system, answer),
    }
}
