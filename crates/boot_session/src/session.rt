ghost use Rattle.std.specs.Prelude.{◌≡◌, ◌++◌, [], OnOk, unwrap_or};
ghost use Rattle.std.specs.FinMap.{empty, entries, get};
ghost use Rattle.std.specs.Str.Lines.{lines};
ghost use Rattle.updater_text.specs.Answers.{Gives};
ghost use Rattle.boot_session.specs.Session as spec;

use crate::kind::kind_of;
use crate::step::Step;
use boot_model::{BootKind, Vars};
use std::alloc::{AllocError, Global};
use updater_text::{Items, Lack, NoMemory};

/// What is told of a session: how each command ended, and the variables at the end. Else the number,
/// counted from 1, of the first line that is bad: the first one where it names no boot loader, another
/// where it is no command and gives no variable.
pub fn session(alloc: Global, text: &str) -> Result<Items<u8>, Lack<u64>>
    ensures { Gives result (spec.session_of text.now) }
{
    let (first, rest) = match text.split_once('\n') {
        Some((first, rest)) => (first, rest),
        None => (text, ""),
    };
    match kind_of(alloc, first)? {
        Some(kind) => tell(alloc, &kind, rest),
        None => Err(Lack::Refused(1)),
    }
}

// What is told of the lines behind the first.
fn tell(alloc: Global, kind: &BootKind, text: &str) -> Result<Items<u8>, Lack<u64>>
    ensures { Gives result (spec.told kind.now 2 (lines text.now) empty) }
{
    let mut page = Vec::new(alloc);
    let mut vars = Vars::new(alloc);
    let mut number: u64 = 1;
    for line in text.lines() {
        number += 1;
        let Some(done) = Step::new(alloc, kind, line, &vars)? else {
            return Err(Lack::Refused(number));
        };
        append(&mut page, &done)?;
        vars = done.vars;
    }
    write_variables(&mut page, &vars)?;
    Ok(Items::from_vec(page))
}

fn append(page: &mut Vec<u8>, done: &Step) -> Result<(), NoMemory>
    ensures { OnOk result (page.new.items ≡ page.old.items ++ done.now.text) }
{
    page.extend_from_slice(done.text.as_slice())?;
    Ok(())
}

fn write_variables(page: &mut Vec<u8>, vars: &Vars) -> Result<(), NoMemory>
    ensures { OnOk result (page.new.items ≡ page.old.items ++ spec.variable_lines (entries vars.now)) }
{
    for at in 0..vars.len() {
        if let Some(name) = vars.name(at) {
            write_variable(page, vars, name)?;
        }
    }
    Ok(())
}

// Writes a variable as a line that gives it.
fn write_variable(page: &mut Vec<u8>, vars: &Vars, name: &str) -> Result<(), AllocError>
    ensures { OnOk result (page.new.items ≡ page.old.items ++ spec.variable_line (name.now, unwrap_or (get vars.now name.now) [])) }
{
    page.push(b'\t')?;
    page.extend_from_slice(name.as_bytes())?;
    page.push(b'\t')?;
    page.extend_from_slice(vars.get(name).unwrap_or("").as_bytes())?;
    page.push(b'\n')?;
    Ok(())
}
