ghost use Rattle.std.specs.Prelude.{◌≡◌, ◌∷◌, IfOk, codes, map};
ghost use Rattle.boot_programs.specs.Settings.{spelled};
ghost use Rattle.boot_commands.specs.Commands as spec;

use crate::lists::push_two;
use crate::{Command, Setting};
use std::alloc::Global;
use updater_text::{Items, NoMemory, Text};

/// The name of a command's program. It has no path, but where the program is the system's own.
pub fn program_of(command: &Command) -> &str
    ensures { result.now ≡ spec.program_of command.now }
{
    match command {
        Command::ListVariables { .. } | Command::SetVariables { .. } => "grub-editenv",
        Command::PrintVariable { .. } => "fw_printenv",
        Command::StoreVariable { .. } => "fw_setenv",
        Command::PrintState { .. } | Command::StoreState { .. } => "barebox-state",
        Command::ListEntries
        | Command::SetNext { .. }
        | Command::RemoveNext
        | Command::SetOrder { .. }
        | Command::RemoveOrder => "efibootmgr",
        Command::GetPrimary { program }
        | Command::GetState { program, .. }
        | Command::SetState { program, .. }
        | Command::SetPrimary { program, .. } => program.as_str(),
    }
}

/// The words of a command that follow the name of its program.
pub fn arguments_of(alloc: Global, command: &Command) -> Result<Items<Text>, NoMemory>
    ensures { IfOk result (λ words. words ≡ spec.arguments_of command.now) }
{
    match command {
        Command::ListVariables { file } => words_of(alloc, &[file.as_str(), "list"]),
        Command::SetVariables { file, settings } => {
            set_words(alloc, file.as_str(), settings.as_slice())
        }
        Command::PrintVariable { name } => words_of(alloc, &[name.as_str()]),
        Command::StoreVariable { name, value } => {
            words_of(alloc, &[name.as_str(), value.as_str()])
        }
        Command::PrintState { state, names } => print_words(alloc, state, names.as_slice()),
        Command::StoreState { state, settings } => store_words(alloc, state, settings.as_slice()),
        Command::ListEntries => Ok(Items::new(alloc)),
        Command::SetNext { number } => words_of(alloc, &["-n", number.as_str()]),
        Command::RemoveNext => words_of(alloc, &["-N"]),
        Command::SetOrder { order } => words_of(alloc, &["-o", order.as_str()]),
        Command::RemoveOrder => words_of(alloc, &["-O"]),
        Command::GetPrimary { .. } => words_of(alloc, &["get-primary"]),
        Command::GetState { name, .. } => words_of(alloc, &["get-state", name.as_str()]),
        Command::SetState { name, state, .. } => {
            words_of(alloc, &["set-state", name.as_str(), state.as_str()])
        }
        Command::SetPrimary { name, .. } => words_of(alloc, &["set-primary", name.as_str()]),
    }
}

// These words, owned.
fn words_of(alloc: Global, words: &[&str]) -> Result<Items<Text>, NoMemory>
    ensures { IfOk result (λ copies. copies ≡ map (λ word. word.now) words.now) }
{
    let mut copies = Items::new(alloc);
    for word in words {
        let copy = Text::new(alloc, word)?;
        copies.push(copy)?;
    }
    Ok(copies)
}

// `name=value`.
fn spelled(alloc: Global, setting: &Setting) -> Result<Text, NoMemory>
    ensures { IfOk result (λ text. text ≡ spelled setting.now.name setting.now.value) }
{
    let mut text = String::from_str(alloc, setting.name.as_str())?;
    text.push('=')?;
    text.push_str(setting.value.as_str())?;
    Ok(Text::from_string(text))
}

fn set_words(alloc: Global, file: &str, settings: &[Setting]) -> Result<Items<Text>, NoMemory>
    ensures { IfOk result (λ words. words ≡ file.now ∷ codes "set" ∷ spec.spellings settings.now) }
{
    let mut words = words_of(alloc, &[file, "set"])?;
    for setting in settings {
        let word = spelled(alloc, setting)?;
        words.push(word)?;
    }
    Ok(words)
}

// `-n` and the name of the state, where it has one.
fn state_words(alloc: Global, state: &Option<Text>) -> Result<Items<Text>, NoMemory>
    ensures { IfOk result (λ words. words ≡ spec.state_words state.now) }
{
    match state {
        Some(state) => words_of(alloc, &["-n", state.as_str()]),
        None => Ok(Items::new(alloc)),
    }
}

fn print_words(alloc: Global, state: &Option<Text>, names: &[Text]) -> Result<Items<Text>, NoMemory>
    ensures { IfOk result (λ words. words ≡ spec.print_words state.now names.now) }
{
    let mut words = state_words(alloc, state)?;
    for name in names {
        let option = Text::new(alloc, "-g")?;
        let name = name.copy(alloc)?;
        push_two(&mut words, option, name)?;
    }
    Ok(words)
}

fn store_words(
    alloc: Global,
    state: &Option<Text>,
    settings: &[Setting],
) -> Result<Items<Text>, NoMemory>
    ensures { IfOk result (λ words. words ≡ spec.store_words state.now settings.now) }
{
    let mut words = state_words(alloc, state)?;
    for setting in settings {
        let option = Text::new(alloc, "-s")?;
        let word = spelled(alloc, setting)?;
        push_two(&mut words, option, word)?;
    }
    Ok(words)
}
