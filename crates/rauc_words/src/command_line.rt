ghost use Rattle.std.specs.Prelude.{◌≡◌, IfOk, false};
ghost use Rattle.clap.specs.Words.{app_of, first_of, found_of, rows_of, rule_of};
ghost use Rattle.rauc_words.specs.Rules.{flag_rule, is_flag_set, option_rule, rauc_app};
ghost use Rattle.rauc_words.specs.Reading.{extras_in, line_in, command_line_of, place_in, positionals_in};

use crate::Place;
use clap::error::ErrorKind;
use clap::{Arg, ArgAction, ArgMatches};
use std::alloc::{AllocError, Global};
use updater_text::{NoMemory, Text};

/// The words that stand for themselves: the name of a command, and what follows it.
#[derive(Drop)]
pub struct Positionals {
    pub command: Option<Text>,
    pub first: Option<Text>,
    pub second: Option<Text>,
}

/// The options that not every command allows.
#[derive(Drop)]
pub struct Extras {
    pub output_format: Option<Text>,
    pub socket: Option<Text>,
    pub connections: Option<Text>,
    pub ignore_compatible: bool,
    pub detailed: bool,
}

/// The positionals and options that some words give.
#[derive(Drop)]
pub struct CommandLine {
    pub positionals: Positionals,
    pub place: Place,
    pub extras: Extras,
    pub help: bool,
}

// `--name VALUE`.
fn option_arg<'a>(alloc: Global, name: &'a str) -> Arg<'a>
    ensures rule { rule_of result ≡ option_rule name.entry.now }
    ensures local { result.global ≡ false }
{
    Arg::new(alloc, name).long(name)
}

// `--name`, which takes no value.
fn flag_arg<'a>(alloc: Global, name: &'a str) -> Arg<'a>
    ensures rule { rule_of result ≡ flag_rule name.entry.now }
    ensures local { result.global ≡ false }
{
    Arg::new(alloc, name).long(name).action(ArgAction::SetTrue)
}

// The simple command by which the words are read. `--help` is a flag as any other, since clap's own
// would hide what is wrong with the words behind it.
fn reader<'a>(alloc: Global) -> Result<clap::Command<'a>, AllocError>
    ensures { IfOk result (λ c. app_of c ≡ rauc_app) }
{
    clap::Command::new(alloc, "rauc")
        .no_binary_name(true)
        .disable_help_flag(true)
        .arg(Arg::new(alloc, "COMMAND"))?
        .arg(Arg::new(alloc, "FIRST"))?
        .arg(Arg::new(alloc, "SECOND"))?
        .arg(option_arg(alloc, "conf").short('c'))?
        .arg(option_arg(alloc, "override-boot-slot"))?
        .arg(option_arg(alloc, "output-format"))?
        .arg(option_arg(alloc, "socket"))?
        .arg(option_arg(alloc, "connections"))?
        .arg(flag_arg(alloc, "ignore-compatible"))?
        .arg(flag_arg(alloc, "detailed"))?
        .arg(flag_arg(alloc, "help").short('h'))
}

// Whether the flag of this name is given.
fn is_flag_set(matches: &ArgMatches, id: &str) -> bool
    ensures { result ≡ is_flag_set id.now (rows_of (found_of matches.now)) }
{
    match matches.get_str(id) {
        Some(text) => text == "true",
        None => false,
    }
}

// The value of this name.
fn text_at(alloc: Global, matches: &ArgMatches, id: &str) -> Result<Option<Text>, NoMemory>
    ensures { IfOk result (λ v. v ≡ first_of id.now (rows_of (found_of matches.now))) }
{
    match matches.get_str(id) {
        Some(text) => Ok(Some(Text::new(alloc, text)?)),
        None => Ok(None),
    }
}

fn read_positionals(alloc: Global, matches: &ArgMatches) -> Result<Positionals, NoMemory>
    ensures { IfOk result (λ p. p ≡ positionals_in (rows_of (found_of matches.now))) }
{
    let command = text_at(alloc, matches, "COMMAND")?;
    let first = text_at(alloc, matches, "FIRST")?;
    let second = text_at(alloc, matches, "SECOND")?;
    Ok(Positionals {
        command,
        first,
        second,
    })
}

fn read_place(alloc: Global, matches: &ArgMatches) -> Result<Place, NoMemory>
    ensures { IfOk result (λ p. p ≡ place_in (rows_of (found_of matches.now))) }
{
    let conf = text_at(alloc, matches, "conf")?;
    let given = text_at(alloc, matches, "override-boot-slot")?;
    Ok(Place { conf, given })
}

fn read_extras(alloc: Global, matches: &ArgMatches) -> Result<Extras, NoMemory>
    ensures { IfOk result (λ e. e ≡ extras_in (rows_of (found_of matches.now))) }
{
    let output_format = text_at(alloc, matches, "output-format")?;
    let socket = text_at(alloc, matches, "socket")?;
    let connections = text_at(alloc, matches, "connections")?;
    Ok(Extras {
        output_format,
        socket,
        connections,
        ignore_compatible: is_flag_set(matches, "ignore-compatible"),
        detailed: is_flag_set(matches, "detailed"),
    })
}

fn read_line(alloc: Global, matches: &ArgMatches) -> Result<CommandLine, NoMemory>
    ensures { IfOk result (λ l. l ≡ line_in (rows_of (found_of matches.now))) }
{
    let positionals = read_positionals(alloc, matches)?;
    let place = read_place(alloc, matches)?;
    let extras = read_extras(alloc, matches)?;
    Ok(CommandLine {
        positionals,
        place,
        extras,
        help: is_flag_set(matches, "help"),
    })
}

/// What the words give, or None where `clap` refuses them.
pub fn parse(alloc: Global, words: &[Text]) -> Result<Option<CommandLine>, NoMemory>
    ensures { IfOk result (λ l. l ≡ command_line_of words.now) }
{
    match reader(alloc)?.try_get_matches_from(words) {
        Ok(matches) => Ok(Some(read_line(alloc, &matches)?)),
        Err(error) => match error.kind() {
            ErrorKind::OutOfMemory => Err(NoMemory),
            _ => Ok(None),
        },
    }
}
