ghost use Rattle.std.specs.Prelude.{◌≡◌, find, is_some};
ghost use Rattle.std.specs.List.{list_all, list_any};
ghost use Rattle.std.specs.Option.{option_copied};
ghost use Rattle.boot_state.specs.Efi as spec;
ghost use Rattle.boot_state.specs.Orders.{is_comma, words_between};

use crate::named::has_name;
use crate::variable::value_of;
use boot_model::Vars;
use updater_text::Text;

fn is_hex_digit(byte: u8) -> bool
    ensures { result ≡ spec.is_hex_digit byte }
{
    matches!(byte, b'0'..=b'9' | b'A'..=b'F')
}

fn are_hex_digits(text: &[u8]) -> bool
    ensures { result ≡ list_all spec.is_hex_digit text.now }
{
    text.iter().all(|byte| is_hex_digit(*byte))
}

/// Whether a text is the number of an entry of EFI: four hexadecimal digits in upper case.
pub fn is_entry_number(text: &[u8]) -> bool
    ensures { result ≡ spec.is_number text.now }
{
    text.len() == 4 && are_hex_digits(text)
}

// The label of the entry with this number.
fn label_of<'a>(vars: &'a Vars, number: &[u8]) -> Option<&'a [u8]>
    ensures { option_copied result ≡ spec.label_of vars.entry.now number.now }
{
    if !is_entry_number(number) {
        return None;
    }
    let label = value_of(vars, b"Boot", number, b"")?;
    Some(label.as_bytes())
}

/// Whether the entry with this number has the name as its label. It takes no memory.
pub fn is_number_of(vars: &Vars, name: &[u8], number: &[u8]) -> bool
    ensures { result ≡ spec.is_number_of vars.now name.now number.now }
{
    match label_of(vars, number) {
        Some(label) => label == name,
        None => false,
    }
}

// Whether an order has a number of the name.
fn has_number_of(vars: &Vars, name: &[u8], order: &[u8]) -> bool
    ensures { result ≡ list_any (spec.is_number_of vars.now name.now) (words_between is_comma order.now) }
{
    order
        .split(|byte| *byte == b',')
        .filter(|number| !number.is_empty())
        .any(|number| is_number_of(vars, name, number))
}

/// Whether a number of the name is in the order.
pub fn is_good(vars: &Vars, name: &[u8]) -> bool
    ensures { result ≡ spec.is_good vars.now name.now }
{
    match vars.get("BootOrder") {
        Some(order) => has_number_of(vars, name, order.as_bytes()),
        None => false,
    }
}

// The label of the entry with this number, where it is one of the names.
fn name_at<'a>(vars: &'a Vars, names: &[Text], number: &[u8]) -> Option<&'a [u8]>
    ensures { option_copied result ≡ spec.name_at vars.entry.now names.now number.now }
{
    let label = label_of(vars, number)?;
    if has_name(names, label) {
        Some(label)
    } else {
        None
    }
}

fn is_named(vars: &Vars, names: &[Text], number: &[u8]) -> bool
    ensures { result ≡ is_some (spec.name_at vars.now names.now number.now) }
{
    name_at(vars, names, number).is_some()
}

// The first number of an order whose entry has a name.
fn first_named<'a>(vars: &Vars, names: &[Text], order: &'a [u8]) -> Option<&'a [u8]>
    ensures { option_copied result ≡ find (λ number. is_some (spec.name_at vars.now names.now number)) (words_between is_comma order.entry.now) }
{
    order
        .split(|byte| *byte == b',')
        .filter(|number| !number.is_empty())
        .find(|number| is_named(vars, names, number))
}

// The name of the next boot's number.
fn next_of<'a>(vars: &'a Vars, names: &[Text]) -> Option<&'a [u8]>
    ensures { option_copied result ≡ spec.next_of vars.entry.now names.now }
{
    let number = vars.get("BootNext")?;
    name_at(vars, names, number.as_bytes())
}

// The name of the first number in the order that has one.
fn first_of<'a>(vars: &'a Vars, names: &[Text]) -> Option<&'a [u8]>
    ensures { option_copied result ≡ spec.first_of vars.entry.now names.now }
{
    let order = vars.get("BootOrder")?;
    let number = first_named(vars, names, order.as_bytes())?;
    name_at(vars, names, number)
}

/// The name of the next boot, or else the first of the order.
pub fn primary<'a>(vars: &'a Vars, names: &[Text]) -> Option<&'a [u8]>
    ensures { option_copied result ≡ spec.primary vars.entry.now names.now }
{
    match next_of(vars, names) {
        Some(name) => Some(name),
        None => first_of(vars, names),
    }
}
