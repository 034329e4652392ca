ghost use Rattle.std.specs.Prelude.{◌≡◌, ◌++◌, IfOk, OnOk};
ghost use Rattle.std.specs.List.{flat_map};
ghost use Rattle.boot_programs.specs.Barebox as spec;

use crate::ProgramEnd;
use crate::settings::with_settings;
use boot_model::Vars;
use std::alloc::{AllocError, Global};
use updater_text::{Items, NoMemory, Text};

/// What `barebox-state` of dt-utils does (`barebox-state --help`): `-g NAME`, once or more, prints
/// variables, and one that is not set as `0`; `-s NAME=VALUE`, once or more, sets variables. Before
/// these may stand `-n` and the name of a state.
pub fn barebox_state(alloc: Global, words: &[Text], vars: &Vars) -> Result<ProgramEnd, NoMemory>
    ensures { IfOk result (λ end. end ≡ spec.barebox_state words.now vars.now) }
{
    match words {
        [option, _, rest @ ..] if option.as_str() == "-n" => on_state(alloc, rest, vars),
        _ => on_state(alloc, words, vars),
    }
}

fn on_state(alloc: Global, words: &[Text], vars: &Vars) -> Result<ProgramEnd, NoMemory>
    ensures { IfOk result (λ end. end ≡ spec.on_state words.now vars.now) }
{
    match words {
        [option, ..] if option.as_str() == "-g" => get_variables(alloc, words, vars),
        [option, ..] if option.as_str() == "-s" => set_variables(alloc, words, vars),
        _ => ProgramEnd::refused(alloc, vars),
    }
}

fn get_variables(alloc: Global, words: &[Text], vars: &Vars) -> Result<ProgramEnd, NoMemory>
    ensures { IfOk result (λ end. end ≡ spec.got words.now vars.now) }
{
    let Some(names) = operands(alloc, "-g", words)? else {
        return ProgramEnd::refused(alloc, vars);
    };
    let mut out = Vec::new(alloc);
    write_values(&mut out, names.as_slice(), vars)?;
    ProgramEnd::printed(out, vars)
}

fn set_variables(alloc: Global, words: &[Text], vars: &Vars) -> Result<ProgramEnd, NoMemory>
    ensures { IfOk result (λ end. end ≡ spec.stored words.now vars.now) }
{
    let Some(settings) = operands(alloc, "-s", words)? else {
        return ProgramEnd::refused(alloc, vars);
    };
    match with_settings(vars, settings.as_slice())? {
        Some(after) => Ok(ProgramEnd::changed(alloc, after)),
        None => ProgramEnd::refused(alloc, vars),
    }
}

// Writes the value of each variable, or `0`, on a line of its own.
fn write_values(out: &mut Vec<u8>, names: &[Text], vars: &Vars) -> Result<(), AllocError>
    ensures { OnOk result (out.new.items ≡ out.old.items ++ flat_map (spec.value_line vars.now) names.now) }
{
    for name in names {
        let value = vars.get(name.as_str()).unwrap_or("0");
        out.extend_from_slice(value.as_bytes())?;
        out.push(b'\n')?;
    }
    Ok(())
}

// The words that each follow this option; None where another word stands in its place.
fn operands(alloc: Global, option: &str, words: &[Text]) -> Result<Option<Items<Text>>, NoMemory>
    ensures { IfOk result (λ found. found ≡ spec.operands option.now words.now) }
{
    let mut found = Items::new(alloc);
    let mut left = words;
    while let [word, operand, rest @ ..] = left {
        if word.as_str() != option {
            return Ok(None);
        }
        let operand = operand.copy(alloc)?;
        found.push(operand)?;
        left = rest;
    }
    if left.is_empty() {
        Ok(Some(found))
    } else {
        Ok(None)
    }
}
