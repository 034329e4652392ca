ghost use Rattle.std.specs.Prelude.{◌≡◌, ◌++◌, IfOk, OnOk};
ghost use Rattle.std.specs.FinMap.{entries, get};
ghost use Rattle.boot_programs.specs.Ends.{printed};
ghost use Rattle.boot_programs.specs.Efi as spec;

use crate::ProgramEnd;
use crate::entry::entry_at;
use boot_model::Vars;
use boot_state::is_entry_number;
use std::alloc::{AllocError, Global};
use updater_text::{NoMemory, Text};

/// What `efibootmgr` does (efibootmgr(8)): alone it prints the next boot, the order and the entries;
/// `-n NUMBER` sets the next boot and `-N` takes it away, `-o NUMBERS` and `-O` the order.
pub fn efibootmgr(alloc: Global, words: &[Text], vars: &Vars) -> Result<ProgramEnd, NoMemory>
    ensures { IfOk result (λ end. end ≡ spec.efibootmgr words.now vars.now) }
{
    match words {
        [] => print_boot(alloc, vars),
        [option] => remove_variable(alloc, option.as_str(), vars),
        [option, value] => set_variable(alloc, option.as_str(), value.as_str(), vars),
        _ => ProgramEnd::refused(alloc, vars),
    }
}

fn remove_variable(alloc: Global, option: &str, vars: &Vars) -> Result<ProgramEnd, NoMemory>
    ensures { IfOk result (λ end. end ≡ spec.remove_variable option.now vars.now) }
{
    match option {
        "-N" => ProgramEnd::removed(alloc, "BootNext", vars),
        "-O" => ProgramEnd::removed(alloc, "BootOrder", vars),
        _ => ProgramEnd::refused(alloc, vars),
    }
}

fn set_variable(
    alloc: Global,
    option: &str,
    value: &str,
    vars: &Vars,
) -> Result<ProgramEnd, NoMemory>
    ensures { IfOk result (λ end. end ≡ spec.set_variable option.now value.now vars.now) }
{
    match option {
        "-n" => ProgramEnd::set(alloc, "BootNext", value, vars),
        "-o" => ProgramEnd::set(alloc, "BootOrder", value, vars),
        _ => ProgramEnd::refused(alloc, vars),
    }
}

fn print_boot(alloc: Global, vars: &Vars) -> Result<ProgramEnd, NoMemory>
    ensures { IfOk result (λ end. end ≡ printed vars.now (spec.efi_listing vars.now)) }
{
    let mut out = Vec::new(alloc);
    write_if_set(&mut out, "BootNext: ", "BootNext", vars)?;
    write_if_set(&mut out, "BootOrder: ", "BootOrder", vars)?;
    write_entries(&mut out, vars)?;
    ProgramEnd::printed(out, vars)
}

// Writes a variable behind a heading, where it is set.
fn write_if_set(out: &mut Vec<u8>, heading: &str, name: &str, vars: &Vars) -> Result<(), AllocError>
    ensures { OnOk result (out.new.items ≡ out.old.items ++ spec.line_if_set heading.now (get vars.now name.now)) }
{
    if let Some(value) = vars.get(name) {
        out.extend_from_slice(heading.as_bytes())?;
        out.extend_from_slice(value.as_bytes())?;
        out.push(b'\n')?;
    }
    Ok(())
}

fn write_entries(out: &mut Vec<u8>, vars: &Vars) -> Result<(), AllocError>
    ensures { OnOk result (out.new.items ≡ out.old.items ++ spec.entry_lines (entries vars.now)) }
{
    for at in 0..vars.len() {
        if let Some((name, label)) = entry_at(vars, at) {
            write_entry(out, name, label)?;
        }
    }
    Ok(())
}

// Writes an entry's name and label; other variables have no line.
fn write_entry(out: &mut Vec<u8>, name: &str, label: &str) -> Result<(), AllocError>
    ensures { OnOk result (out.new.items ≡ out.old.items ++ spec.entry_line (name.now, label.now)) }
{
    if is_entry(name) {
        out.extend_from_slice(name.as_bytes())?;
        out.extend_from_slice(b"* ")?;
        out.extend_from_slice(label.as_bytes())?;
        out.push(b'\n')?;
    }
    Ok(())
}

// Whether a variable is an entry: `Boot` and its number.
fn is_entry(name: &str) -> bool
    ensures { result ≡ spec.is_entry name.now }
{
    let bytes = name.as_bytes();
    bytes.len() == 8 && bytes.starts_with(b"Boot") && is_entry_number(&bytes[4..])
}
