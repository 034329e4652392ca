ghost use Rattle.std.specs.Prelude.{◌≡◌, ◌≤◌, ◌∷◌, ◌++◌, [], IfOk, OnOk};
ghost use Rattle.boot_commands.specs.Barebox as spec;

use crate::lists::{one, push_two};
use crate::texts::{digit, joined_text, setting_of};
use crate::{Command, Mark, Setting};
use boot_model::Vars;
use boot_state::barebox::priority_of;
use std::alloc::Global;
use updater_text::{Items, NoMemory, Text};

/// What reads all variables.
pub fn readings(
    alloc: Global,
    state: &Option<Text>,
    names: &[Text],
) -> Result<Items<Command>, NoMemory>
    ensures { IfOk result (λ commands. commands ≡ spec.readings state.now names.now) }
{
    if names.is_empty() {
        return Ok(Items::new(alloc));
    }
    let state = copied(alloc, state)?;
    let names = variables_of(alloc, names)?;
    one(alloc, Command::PrintState { state, names })
}

/// What is read before a name is marked.
pub fn looks(
    alloc: Global,
    state: &Option<Text>,
    names: &[Text],
    mark: Mark,
) -> Result<Items<Command>, NoMemory>
    ensures { IfOk result (λ commands. commands ≡ spec.looks state.now names.now mark) }
{
    match mark {
        Mark::Bad => Ok(Items::new(alloc)),
        Mark::Good | Mark::Primary => readings(alloc, state, names),
    }
}

fn copied(alloc: Global, state: &Option<Text>) -> Result<Option<Text>, NoMemory>
    ensures { IfOk result (λ copy. copy ≡ state.now) }
{
    match state {
        Some(state) => Ok(Some(state.copy(alloc)?)),
        None => Ok(None),
    }
}

fn variables_of(alloc: Global, names: &[Text]) -> Result<Items<Text>, NoMemory>
    ensures { IfOk result (λ variables. variables ≡ spec.variables_of names.now) }
{
    let mut variables = Items::new(alloc);
    for name in names {
        push_variables(&mut variables, alloc, name.as_str())?;
    }
    Ok(variables)
}

// Puts the names of both variables of a name at the end.
fn push_variables(variables: &mut Items<Text>, alloc: Global, name: &str) -> Result<(), NoMemory>
    ensures { OnOk result (variables.new ≡ variables.old ++ spec.both_names name.now) }
{
    let priority = joined_text(alloc, "bootstate.", name, ".priority")?;
    let attempts = joined_text(alloc, "bootstate.", name, ".remaining_attempts")?;
    push_two(variables, priority, attempts)?;
    Ok(())
}

/// The command that gives variables these values.
pub fn store(
    alloc: Global,
    state: &Option<Text>,
    settings: Items<Setting>,
) -> Result<Items<Command>, NoMemory>
    ensures { IfOk result (λ commands. commands ≡ Command.StoreState state.now settings ∷ []) }
{
    let state = copied(alloc, state)?;
    one(alloc, Command::StoreState { state, settings })
}

/// What is written to mark a name.
pub fn settings_of(
    alloc: Global,
    attempts: u8,
    primary_attempts: u8,
    names: &[Text],
    mark: Mark,
    name: &str,
    read: &Vars,
) -> Result<Items<Setting>, NoMemory>
    requires usual { attempts ≤ 9 }
    requires primary { primary_attempts ≤ 9 }
    ensures { IfOk result (λ settings. settings ≡ spec.settings_of attempts primary_attempts names.now mark name.now read.now) }
{
    match mark {
        Mark::Bad => bad_settings(alloc, name),
        Mark::Good => good_settings(alloc, attempts, name, read),
        Mark::Primary => ranks(alloc, primary_attempts, names, name, read),
    }
}

fn bad_settings(alloc: Global, name: &str) -> Result<Items<Setting>, NoMemory>
    ensures { IfOk result (λ settings. settings ≡ spec.bad_settings name.now) }
{
    let priority = priority_setting(alloc, "0", name)?;
    let attempts = attempts_setting(alloc, "0", name)?;
    let mut settings = Items::new(alloc);
    push_two(&mut settings, priority, attempts)?;
    Ok(settings)
}

fn good_settings(
    alloc: Global,
    attempts: u8,
    name: &str,
    read: &Vars,
) -> Result<Items<Setting>, NoMemory>
    requires { attempts ≤ 9 }
    ensures { IfOk result (λ settings. settings ≡ spec.good_settings attempts name.now read.now) }
{
    let attempts = digit(alloc, attempts)?;
    let attempts = attempts_setting(alloc, attempts.as_str(), name)?;
    let mut settings = Items::new(alloc);
    settings.push(attempts)?;
    if priority_of(read, name.as_bytes()) == 0 {
        let priority = priority_setting(alloc, "10", name)?;
        settings.push(priority)?;
    }
    Ok(settings)
}

fn ranks(
    alloc: Global,
    attempts: u8,
    names: &[Text],
    name: &str,
    read: &Vars,
) -> Result<Items<Setting>, NoMemory>
    requires { attempts ≤ 9 }
    ensures { IfOk result (λ settings. settings ≡ spec.ranks attempts names.now name.now read.now) }
{
    let attempts = digit(alloc, attempts)?;
    let mut settings = Items::new(alloc);
    for other in names {
        push_rank(
            &mut settings,
            alloc,
            attempts.as_str(),
            name,
            read,
            other.as_str(),
        )?;
    }
    Ok(settings)
}

// Puts what becomes of one of the names at the end.
fn push_rank(
    settings: &mut Items<Setting>,
    alloc: Global,
    attempts: &str,
    name: &str,
    read: &Vars,
    other: &str,
) -> Result<(), NoMemory>
    ensures { OnOk result (settings.new ≡ settings.old ++ spec.rank attempts.now name.now read.now other.now) }
{
    if other == name {
        let priority = priority_setting(alloc, "20", name)?;
        let attempts = attempts_setting(alloc, attempts, name)?;
        push_two(settings, priority, attempts)
    } else if priority_of(read, other.as_bytes()) > 0 {
        let priority = priority_setting(alloc, "10", other)?;
        settings.push(priority)
    } else {
        Ok(())
    }
}

fn priority_setting(alloc: Global, priority: &str, name: &str) -> Result<Setting, NoMemory>
    ensures { IfOk result (λ s. s ≡ spec.priority_setting priority.now name.now) }
{
    let priority = Text::new(alloc, priority)?;
    setting_of(alloc, "bootstate.", name, ".priority", priority)
}

fn attempts_setting(alloc: Global, attempts: &str, name: &str) -> Result<Setting, NoMemory>
    ensures { IfOk result (λ s. s ≡ spec.attempts_setting attempts.now name.now) }
{
    let attempts = Text::new(alloc, attempts)?;
    setting_of(alloc, "bootstate.", name, ".remaining_attempts", attempts)
}
