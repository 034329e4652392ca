ghost use Rattle.std.specs.Prelude.{◌≡◌, IfOk};
ghost use Rattle.boot_programs.specs.Ends.{changed};
ghost use Rattle.boot_state.specs.Orders.{put};
ghost use Rattle.boot_programs.specs.Uboot as spec;

use crate::ProgramEnd;
use crate::settings::write_setting;
use boot_model::Vars;
use std::alloc::Global;
use updater_text::{NoMemory, Text};

/// What `fw_printenv` does (U-Boot, tools/env/README): `NAME` prints a variable, where it is set.
pub fn fw_printenv(alloc: Global, words: &[Text], vars: &Vars) -> Result<ProgramEnd, NoMemory>
    ensures { IfOk result (λ end. end ≡ spec.fw_printenv words.now vars.now) }
{
    match words {
        [name] => print_variable(alloc, name.as_str(), vars),
        _ => ProgramEnd::refused(alloc, vars),
    }
}

fn print_variable(alloc: Global, name: &str, vars: &Vars) -> Result<ProgramEnd, NoMemory>
    ensures { IfOk result (λ end. end ≡ spec.variable_end name.now vars.now) }
{
    let Some(value) = vars.get(name) else {
        return ProgramEnd::refused(alloc, vars);
    };
    let mut out = Vec::new(alloc);
    write_setting(&mut out, name, value)?;
    ProgramEnd::printed(out, vars)
}

/// What `fw_setenv` does (U-Boot, tools/env/README): `NAME VALUE` sets a variable, and takes it away
/// where the value is empty.
pub fn fw_setenv(alloc: Global, words: &[Text], vars: &Vars) -> Result<ProgramEnd, NoMemory>
    ensures { IfOk result (λ end. end ≡ spec.fw_setenv words.now vars.now) }
{
    match words {
        [name, value] => set_variable(alloc, name.as_str(), value.as_str(), vars),
        _ => ProgramEnd::refused(alloc, vars),
    }
}

fn set_variable(alloc: Global, name: &str, value: &str, vars: &Vars) -> Result<ProgramEnd, NoMemory>
    ensures { IfOk result (λ end. end ≡ changed (put vars.now name.now value.now)) }
{
    if value.is_empty() {
        ProgramEnd::removed(alloc, name, vars)
    } else {
        ProgramEnd::set(alloc, name, value, vars)
    }
}
