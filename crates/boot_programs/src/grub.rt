ghost use Rattle.std.specs.Prelude.{◌≡◌, ◌++◌, IfOk, OnOk};
ghost use Rattle.std.specs.FinMap.{entries};
ghost use Rattle.boot_programs.specs.Ends.{printed, changed_if};
ghost use Rattle.boot_programs.specs.Settings.{with_settings};
ghost use Rattle.boot_programs.specs.Grub as spec;

use crate::ProgramEnd;
use crate::entry::entry_at;
use crate::settings::{with_settings, write_setting};
use boot_model::Vars;
use std::alloc::{AllocError, Global};
use updater_text::{NoMemory, Text};

/// What `grub-editenv` does (grub-editenv(1)): `FILE list` prints the variables, `FILE set
/// NAME=VALUE ..` sets some. FILE has to be the environment block of the system.
pub fn grub_editenv(
    alloc: Global,
    file: &str,
    words: &[Text],
    vars: &Vars,
) -> Result<ProgramEnd, NoMemory>
    ensures { IfOk result (λ end. end ≡ spec.grub_editenv file.now words.now vars.now) }
{
    match words {
        [block, verb] if block.as_str() == file && verb.as_str() == "list" => {
            list_variables(alloc, vars)
        }
        [block, verb, _, ..] if block.as_str() == file && verb.as_str() == "set" => {
            set_variables(alloc, &words[2..], vars)
        }
        _ => ProgramEnd::refused(alloc, vars),
    }
}

fn list_variables(alloc: Global, vars: &Vars) -> Result<ProgramEnd, NoMemory>
    ensures { IfOk result (λ end. end ≡ printed vars.now (spec.listing (entries vars.now))) }
{
    let mut out = Vec::new(alloc);
    write_variables(&mut out, vars)?;
    ProgramEnd::printed(out, vars)
}

// Writes each variable as `name=value`, on a line of its own.
fn write_variables(out: &mut Vec<u8>, vars: &Vars) -> Result<(), AllocError>
    ensures { OnOk result (out.new.items ≡ out.old.items ++ spec.listing (entries vars.now)) }
{
    for at in 0..vars.len() {
        if let Some((name, value)) = entry_at(vars, at) {
            write_setting(out, name, value)?;
        }
    }
    Ok(())
}

fn set_variables(alloc: Global, settings: &[Text], vars: &Vars) -> Result<ProgramEnd, NoMemory>
    ensures { IfOk result (λ end. end ≡ changed_if vars.now (with_settings vars.now settings.now)) }
{
    match with_settings(vars, settings)? {
        Some(after) => Ok(ProgramEnd::changed(alloc, after)),
        None => ProgramEnd::refused(alloc, vars),
    }
}
