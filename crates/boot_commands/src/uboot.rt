ghost use Rattle.std.specs.Prelude.{◌≡◌, ◌≤◌, IfOk};
ghost use Rattle.boot_state.specs.Uboot.{left_name};
ghost use Rattle.boot_commands.specs.Uboot as spec;

use crate::lists::{one, two};
use crate::order::{order_text, put_first, without_word, words_at};
use crate::texts::{digit, joined_text};
use crate::{Command, Mark};
use boot_model::Vars;
use boot_state::has_name;
use std::alloc::Global;
use updater_text::{Items, NoMemory, Text};

/// What is read before a name is marked.
pub fn looks(alloc: Global) -> Result<Items<Command>, NoMemory>
    ensures { IfOk result (λ commands. commands ≡ spec.looks) }
{
    let name = Text::new(alloc, "BOOT_ORDER")?;
    one(alloc, Command::PrintVariable { name })
}

/// What reads all variables.
pub fn readings(alloc: Global, names: &[Text]) -> Result<Items<Command>, NoMemory>
    ensures { IfOk result (λ commands. commands ≡ spec.readings names.now) }
{
    let mut commands = looks(alloc)?;
    for name in names {
        let command = print_attempts(alloc, name.as_str())?;
        commands.push(command)?;
    }
    Ok(commands)
}

fn print_attempts(alloc: Global, name: &str) -> Result<Command, NoMemory>
    ensures { IfOk result (λ command. command ≡ Command.PrintVariable (left_name name.now)) }
{
    let name = joined_text(alloc, "BOOT_", name, "_LEFT")?;
    Ok(Command::PrintVariable { name })
}

/// What is written to mark a name.
pub fn plan(
    alloc: Global,
    attempts: u8,
    primary_attempts: u8,
    names: &[Text],
    mark: Mark,
    name: &str,
    read: &Vars,
) -> Result<Items<Command>, NoMemory>
    requires usual { attempts ≤ 9 }
    requires primary { primary_attempts ≤ 9 }
    ensures { IfOk result (λ commands. commands ≡ spec.plan attempts primary_attempts names.now mark name.now read.now) }
{
    let order = words_at(alloc, read, "BOOT_ORDER")?;
    match mark {
        Mark::Bad => bad_plan(alloc, name, order.as_slice()),
        Mark::Good => good_plan(alloc, attempts, name, order),
        Mark::Primary => primary_plan(alloc, primary_attempts, names, name, order.as_slice()),
    }
}

fn bad_plan(alloc: Global, name: &str, order: &[Text]) -> Result<Items<Command>, NoMemory>
    ensures { IfOk result (λ commands. commands ≡ spec.bad_plan name.now order.now) }
{
    let none = Text::new(alloc, "0")?;
    let attempts = store_attempts(alloc, name, none)?;
    let mut commands = one(alloc, attempts)?;
    if has_name(order, name.as_bytes()) {
        let rest = without_word(alloc, order, name)?;
        let command = write_order(alloc, rest.as_slice())?;
        commands.push(command)?;
    }
    Ok(commands)
}

fn good_plan(
    alloc: Global,
    attempts: u8,
    name: &str,
    mut order: Items<Text>,
) -> Result<Items<Command>, NoMemory>
    requires { attempts ≤ 9 }
    ensures { IfOk result (λ commands. commands ≡ spec.good_plan attempts name.now order) }
{
    let count = digit(alloc, attempts)?;
    let attempts = store_attempts(alloc, name, count)?;
    let mut commands = one(alloc, attempts)?;
    if !has_name(order.as_slice(), name.as_bytes()) {
        let last = Text::new(alloc, name)?;
        order.push(last)?;
        let command = write_order(alloc, order.as_slice())?;
        commands.push(command)?;
    }
    Ok(commands)
}

fn primary_plan(
    alloc: Global,
    attempts: u8,
    names: &[Text],
    name: &str,
    order: &[Text],
) -> Result<Items<Command>, NoMemory>
    requires { attempts ≤ 9 }
    ensures { IfOk result (λ commands. commands ≡ spec.primary_plan attempts names.now name.now order.now) }
{
    let count = digit(alloc, attempts)?;
    let words = put_first(alloc, names, name, order)?;
    let attempts = store_attempts(alloc, name, count)?;
    let order = write_order(alloc, words.as_slice())?;
    two(alloc, attempts, order)
}

fn store_attempts(alloc: Global, name: &str, value: Text) -> Result<Command, NoMemory>
    ensures { IfOk result (λ command. command ≡ Command.StoreVariable (left_name name.now) value) }
{
    let name = joined_text(alloc, "BOOT_", name, "_LEFT")?;
    Ok(Command::StoreVariable { name, value })
}

fn write_order(alloc: Global, words: &[Text]) -> Result<Command, NoMemory>
    ensures { IfOk result (λ command. command ≡ spec.write_order words.now) }
{
    let name = Text::new(alloc, "BOOT_ORDER")?;
    let value = order_text(alloc, words)?;
    Ok(Command::StoreVariable { name, value })
}
