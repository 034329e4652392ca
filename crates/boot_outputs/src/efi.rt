ghost use Rattle.std.specs.Prelude.{◌≡◌, IfOk, OnOk};
ghost use Rattle.std.specs.Char.{is_ascii_hexdigit};
ghost use Rattle.std.specs.FinMap.{insert};
ghost use Rattle.std.specs.List.{list_all, slice_split};
ghost use Rattle.std.specs.Option.{option_copied, option_map};
ghost use Rattle.std.specs.Str.{str_to_ascii_uppercase};
ghost use Rattle.boot_state.specs.Efi.{entry_name};
ghost use Rattle.boot_state.specs.Orders.{is_blank, is_comma};
ghost use Rattle.boot_outputs.specs.Efi as spec;
ghost use Rattle.boot_outputs.specs.Texts.{Takes, lines_of, with_setting};

use crate::texts::{before, behind};
use boot_model::Vars;
use std::alloc::Global;
use updater_text::{NoMemory, Text};

fn are_hex_digits(text: &str) -> bool
    ensures { result ≡ list_all is_ascii_hexdigit text.now }
{
    text.as_bytes().iter().all(|byte| byte.is_ascii_hexdigit())
}

// Whether a text is the number of an entry: four hexadecimal digits, in either case.
fn is_number(text: &str) -> bool
    ensures { result ≡ spec.is_number text.now }
{
    text.len() == 4 && are_hex_digits(text)
}

fn are_numbers(text: &str) -> bool
    ensures { result ≡ list_all spec.is_number (slice_split is_comma text.now) }
{
    text.split(',').all(|number| is_number(number))
}

// Whether a text is an order: numbers with a comma between each two, or nothing.
fn is_order(text: &str) -> bool
    ensures { result ≡ spec.is_order text.now }
{
    text.is_empty() || are_numbers(text)
}

// The number of the next boot that a line tells.
fn next_in(line: &str) -> Option<&str>
    ensures { option_copied result ≡ spec.next_in line.entry.now }
{
    let number = behind(line, "BootNext: ")?;
    if is_number(number) {
        Some(number)
    } else {
        None
    }
}

// The order that a line tells.
fn order_in(line: &str) -> Option<&str>
    ensures { option_copied result ≡ spec.order_in line.entry.now }
{
    let order = behind(line, "BootOrder: ")?;
    if is_order(order) { Some(order) } else { None }
}

// What follows a space or a tab.
fn behind_blank(text: &str) -> Option<&str>
    ensures { option_copied result ≡ spec.behind_byte is_blank text.entry.now }
{
    match text.strip_prefix(' ') {
        Some(rest) => Some(rest),
        None => text.strip_prefix('\t'),
    }
}

// What follows `*`, a space or a tab.
fn behind_mark(text: &str) -> Option<&str>
    ensures { option_copied result ≡ spec.behind_byte spec.is_mark text.entry.now }
{
    match text.strip_prefix('*') {
        Some(rest) => Some(rest),
        None => behind_blank(text),
    }
}

// The label of an entry, by what follows the number.
fn label_in(text: &str) -> Option<&str>
    ensures { option_copied result ≡ spec.label_from text.entry.now }
{
    let label = behind_blank(behind_mark(text)?)?;
    Some(before(label, '\t'))
}

// The number and the label of the entry that a line tells.
fn entry_in(line: &str) -> Option<(&str, &str)>
    ensures { option_map (λ e. (e.0.now, e.1.now)) result ≡ spec.entry_in line.entry.now }
{
    let (number, rest) = behind(line, "Boot")?.split_at_checked(4)?;
    if !is_number(number) {
        return None;
    }
    let label = label_in(rest)?;
    Some((number, label))
}

// Whether a line of the next boot or of the order has its form.
fn is_formed(line: &str) -> bool
    ensures { result ≡ spec.is_formed line.now }
{
    if line.starts_with("BootNext: ") {
        return next_in(line).is_some();
    }
    if line.starts_with("BootOrder: ") {
        return order_in(line).is_some();
    }
    true
}

fn are_formed(out: &str) -> bool
    ensures { result ≡ list_all spec.is_formed (lines_of out.now) }
{
    out.split('\n').all(|line| is_formed(line))
}

// Gives a variable this value in upper case.
fn set_upper(alloc: Global, name: &str, value: &str, read: &mut Vars) -> Result<(), NoMemory>
    ensures { OnOk result (read.new ≡ insert read.old name.now (str_to_ascii_uppercase value.now)) }
{
    let mut upper = String::from_str(alloc, value)?;
    upper.make_ascii_uppercase();
    read.set(name, upper.as_str())
}

// The name of the variable of the entry with this number.
fn entry_variable(alloc: Global, number: &str) -> Result<Text, NoMemory>
    ensures { IfOk result (λ name. name ≡ entry_name (str_to_ascii_uppercase number.now)) }
{
    let mut upper = String::from_str(alloc, number)?;
    upper.make_ascii_uppercase();
    let mut name = String::from_str(alloc, "Boot")?;
    name.push_str(upper.as_str())?;
    Ok(Text::from_string(name))
}

// Takes the variable of a line, where it has one.
fn take_line(alloc: Global, line: &str, read: &mut Vars) -> Result<(), NoMemory>
    ensures { OnOk result (read.new ≡ with_setting read.old (spec.variable_in line.now)) }
{
    if let Some(number) = next_in(line) {
        return set_upper(alloc, "BootNext", number, read);
    }
    if let Some(order) = order_in(line) {
        return set_upper(alloc, "BootOrder", order, read);
    }
    if let Some((number, label)) = entry_in(line) {
        let name = entry_variable(alloc, number)?;
        return read.set(name.as_str(), label);
    }
    Ok(())
}

fn take_lines(alloc: Global, out: &str, read: &mut Vars) -> Result<(), NoMemory>
    ensures { OnOk result (read.new ≡ spec.with_lines out.now read.old) }
{
    for line in out.split('\n') {
        take_line(alloc, line, read)?;
    }
    Ok(())
}

/// Takes the next boot, the order and the entries. The answer is whether the text is in its form;
/// where it is not, the variables stay.
pub fn take_entries(alloc: Global, out: &str, read: &mut Vars) -> Result<bool, NoMemory>
    ensures { Takes result read.old read.new (spec.entered out.now read.old) }
{
    if !are_formed(out) {
        return Ok(false);
    }
    take_lines(alloc, out, read)?;
    Ok(true)
}
