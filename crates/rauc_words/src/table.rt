ghost use Rattle.std.specs.Prelude.{◌≡◌, IfOk};
ghost use Rattle.rauc_words.specs.Table.{action_of, are_allowed, are_usable, build, command_in, command_of, command_row, extra_names, form_of, info_command, install_command, is_usable, mark_command, positional_count, request_in, row_if, status_command, write_slot_command};

use crate::command_line::{CommandLine, Extras, Positionals, parse};
use crate::{Asked, Command, Run};
use slot_marks::Action;
use std::alloc::Global;
use updater_text::{Form, NoMemory, Text};

/// Which of the options that not every command allows.
#[derive(Clone, Copy)]
pub struct ExtraNames {
    pub output_format: bool,
    pub socket: bool,
    pub connections: bool,
    pub ignore_compatible: bool,
    pub detailed: bool,
}

/// The commands that there are.
#[derive(Clone, Copy)]
pub enum CommandKind {
    Install,
    WriteSlot,
    Info,
    Status,
    Mark,
}

/// What a command takes: its positionals, from the fewest to the most, and the options that it
/// allows beside those of every command, `-c`, `--conf` and `--override-boot-slot`.
#[derive(Clone, Copy)]
pub struct CommandRow {
    pub kind: CommandKind,
    pub fewest: usize,
    pub most: usize,
    pub allowed: ExtraNames,
}

const NO_EXTRAS: ExtraNames = ExtraNames {
    output_format: false,
    socket: false,
    connections: false,
    ignore_compatible: false,
    detailed: false,
};

const INSTALL: CommandRow = CommandRow {
    kind: CommandKind::Install,
    fewest: 1,
    most: 1,
    allowed: ExtraNames {
        ignore_compatible: true,
        ..NO_EXTRAS
    },
};

const WRITE_SLOT: CommandRow = CommandRow {
    kind: CommandKind::WriteSlot,
    fewest: 2,
    most: 2,
    allowed: NO_EXTRAS,
};

const INFO: CommandRow = CommandRow {
    kind: CommandKind::Info,
    fewest: 1,
    most: 1,
    allowed: ExtraNames {
        output_format: true,
        ..NO_EXTRAS
    },
};

const STATUS: CommandRow = CommandRow {
    kind: CommandKind::Status,
    fewest: 0,
    most: 0,
    allowed: ExtraNames {
        output_format: true,
        detailed: true,
        ..NO_EXTRAS
    },
};

const MARK: CommandRow = CommandRow {
    kind: CommandKind::Mark,
    fewest: 1,
    most: 2,
    allowed: NO_EXTRAS,
};

// The row, where it takes so many positionals.
fn row_if(row: CommandRow, count: usize) -> Option<CommandRow>
    ensures { result ≡ row_if row count }
{
    if row.fewest <= count && count <= row.most {
        Some(row)
    } else {
        None
    }
}

// The table of the commands, by their names and by how many positionals follow.
fn command_row(name: &str, count: usize) -> Option<CommandRow>
    ensures { result ≡ command_row name.now count }
{
    match name {
        "install" => row_if(INSTALL, count),
        "write-slot" => row_if(WRITE_SLOT, count),
        "info" => row_if(INFO, count),
        "status" if count == 0 => Some(STATUS),
        "status" => row_if(MARK, count),
        _ => None,
    }
}

// `install BUNDLE`.
fn install_command(first: Option<Text>, ignore_compatible: bool) -> Option<Command>
    ensures { result ≡ install_command first ignore_compatible }
{
    let bundle = first?;
    Some(Command::Install {
        bundle,
        ignore_compatible,
    })
}

// `write-slot SLOT IMAGE`.
fn write_slot_command(first: Option<Text>, second: Option<Text>) -> Option<Command>
    ensures { result ≡ write_slot_command first second }
{
    let slot = first?;
    let image = second?;
    Some(Command::WriteSlot { slot, image })
}

// The form that the value of `--output-format` names; without one it is readable.
fn form_of(format: &Option<Text>) -> Option<Form>
    ensures { result ≡ form_of format.now }
{
    match format {
        None => Some(Form::Readable),
        Some(name) => match name.as_str() {
            "readable" => Some(Form::Readable),
            "shell" => Some(Form::Shell),
            _ => None,
        },
    }
}

// `info BUNDLE`, in the form of `--output-format`.
fn info_command(first: Option<Text>, format: &Option<Text>) -> Option<Command>
    ensures { result ≡ info_command first format.now }
{
    let bundle = first?;
    let form = form_of(format)?;
    Some(Command::Info { bundle, form })
}

// `status`, in the form of `--output-format`.
fn status_command(format: &Option<Text>, detailed: bool) -> Option<Command>
    ensures { result ≡ status_command format.now detailed }
{
    let form = form_of(format)?;
    Some(Command::Status { form, detailed })
}

// What this word does to a slot.
fn action_of(word: &str) -> Option<Action>
    ensures { result ≡ action_of word.now }
{
    match word {
        "mark-good" => Some(Action::Good),
        "mark-bad" => Some(Action::Bad),
        "mark-active" => Some(Action::Active),
        _ => None,
    }
}

// `status ACTION [SLOT]`.
fn mark_command(first: Option<Text>, second: Option<Text>) -> Option<Command>
    ensures { result ≡ mark_command first second }
{
    let word = first?;
    let action = action_of(word.as_str())?;
    Some(Command::Mark {
        action,
        who: second,
    })
}

// The command of this kind with its positionals and its options.
fn build(
    kind: CommandKind,
    first: Option<Text>,
    second: Option<Text>,
    extras: &Extras,
) -> Option<Command>
    ensures { result ≡ build kind first second extras.now }
{
    match kind {
        CommandKind::Install => install_command(first, extras.ignore_compatible),
        CommandKind::WriteSlot => write_slot_command(first, second),
        CommandKind::Info => info_command(first, &extras.output_format),
        CommandKind::Status => status_command(&extras.output_format, extras.detailed),
        CommandKind::Mark => mark_command(first, second),
    }
}

fn positional_count(positionals: &Positionals) -> usize
    ensures { result ≡ positional_count positionals.now }
{
    usize::from(positionals.first.is_some()) + usize::from(positionals.second.is_some())
}

fn extra_names(extras: &Extras) -> ExtraNames
    ensures { result ≡ extra_names extras.now }
{
    ExtraNames {
        output_format: extras.output_format.is_some(),
        socket: extras.socket.is_some(),
        connections: extras.connections.is_some(),
        ignore_compatible: extras.ignore_compatible,
        detailed: extras.detailed,
    }
}

// Each option that is given is allowed.
fn are_allowed(given: ExtraNames, allowed: ExtraNames) -> bool
    ensures { result ≡ are_allowed given allowed }
{
    (!given.output_format || allowed.output_format)
        && (!given.socket || allowed.socket)
        && (!given.connections || allowed.connections)
        && (!given.ignore_compatible || allowed.ignore_compatible)
        && (!given.detailed || allowed.detailed)
}

fn command_in(line: CommandLine) -> Option<Run>
    ensures { result ≡ command_in line }
{
    let name = line.positionals.command.as_ref()?.as_str();
    let row = command_row(name, positional_count(&line.positionals))?;
    if !are_allowed(extra_names(&line.extras), row.allowed) {
        return None;
    }
    let CommandLine {
        positionals,
        place,
        extras,
        ..
    } = line;
    let command = build(row.kind, positionals.first, positionals.second, &extras)?;
    Some(Run { place, command })
}

// There is no value, or one that is not empty and has no NUL.
fn is_usable(text: &Option<Text>) -> bool
    ensures { result ≡ is_usable text.now }
{
    match text {
        None => true,
        Some(text) => {
            let bytes = text.as_bytes();
            !bytes.is_empty() && !bytes.contains(&0)
        }
    }
}

// Each value that is given is usable.
fn are_usable(line: &CommandLine) -> bool
    ensures { result ≡ are_usable line.now }
{
    is_usable(&line.positionals.command)
        && is_usable(&line.positionals.first)
        && is_usable(&line.positionals.second)
        && is_usable(&line.place.conf)
        && is_usable(&line.place.given)
        && is_usable(&line.extras.output_format)
        && is_usable(&line.extras.socket)
        && is_usable(&line.extras.connections)
}

fn request_in(line: CommandLine) -> Option<Asked>
    ensures { result ≡ request_in line }
{
    if line.help {
        return Some(Asked::Help);
    }
    if !are_usable(&line) {
        return None;
    }
    Some(Asked::Run(command_in(line)?))
}

/// What the words ask for: help, wherever they are read and `--help` or `-h` is among them, else the
/// command of the table. None where they are refused or no command of the table.
pub fn read_words(alloc: Global, words: &[Text]) -> Result<Option<Asked>, NoMemory>
    ensures { IfOk result (λ asked. asked ≡ command_of words.now) }
{
    match parse(alloc, words)? {
        Some(line) => Ok(request_in(line)),
        None => Ok(None),
    }
}
