ghost use Rattle.std.specs.Prelude.{◌≡◌, ◌++◌, IfOk, OnOk};
ghost use Rattle.std.specs.Option.{option_copied};
ghost use Rattle.boot_state.specs.Efi as state;
ghost use Rattle.boot_state.specs.Orders.{joined};
ghost use Rattle.boot_commands.specs.Efi as spec;

use crate::lists::one;
use crate::order::push_words;
use crate::{Command, Mark};
use boot_model::Vars;
use boot_state::efi::{is_good, is_number_of};
use boot_state::is_entry_number;
use std::alloc::Global;
use updater_text::{Items, NoMemory, Text};

/// What reads all variables.
pub fn readings(alloc: Global) -> Result<Items<Command>, NoMemory>
    ensures { IfOk result (λ commands. commands ≡ spec.readings) }
{
    one(alloc, Command::ListEntries)
}

/// What is written to mark a name; None where it has no number.
pub fn plan(
    alloc: Global,
    use_next: bool,
    mark: Mark,
    name: &str,
    read: &Vars,
) -> Result<Option<Items<Command>>, NoMemory>
    ensures { IfOk result (λ commands. commands ≡ spec.plan use_next mark name.now read.now) }
{
    let Some(first) = first_number(read, name) else {
        return Ok(None);
    };
    let commands = plan_with(alloc, use_next, mark, name, read, first)?;
    Ok(Some(commands))
}

fn plan_with(
    alloc: Global,
    use_next: bool,
    mark: Mark,
    name: &str,
    read: &Vars,
    first: &str,
) -> Result<Items<Command>, NoMemory>
    ensures { IfOk result (λ commands. commands ≡ spec.plan_with use_next mark name.now read.now first.now) }
{
    match mark {
        Mark::Bad => bad_plan(alloc, name, read),
        Mark::Good => good_plan(alloc, first, name, read),
        Mark::Primary => primary_plan(alloc, use_next, first, name, read),
    }
}

// The number in the name of an entry's variable.
fn number_in(variable: &str) -> Option<&str>
    ensures { option_copied result ≡ state.number_in variable.now }
{
    let number = variable.strip_prefix("Boot")?;
    if is_entry_number(number.as_bytes()) {
        Some(number)
    } else {
        None
    }
}

// The least number of a name.
fn first_number<'a>(read: &'a Vars, name: &str) -> Option<&'a str>
    ensures { option_copied result ≡ spec.first_number read.entry.now name.now }
{
    for at in 0..read.len() {
        let variable = read.name(at)?;
        if let Some(number) = number_in(variable) {
            if is_number_of(read, name.as_bytes(), number.as_bytes()) {
                return Some(number);
            }
        }
    }
    None
}

fn bad_plan(alloc: Global, name: &str, read: &Vars) -> Result<Items<Command>, NoMemory>
    ensures { IfOk result (λ commands. commands ≡ spec.bad_plan name.now read.now) }
{
    let mut commands = Items::new(alloc);
    if is_next(read, name) {
        commands.push(Command::RemoveNext)?;
    }
    if is_good(read, name.as_bytes()) {
        let rest = rest_of(alloc, name, read)?;
        let order = numbers_text(alloc, rest.as_slice())?;
        let command = write_order(order);
        commands.push(command)?;
    }
    Ok(commands)
}

fn good_plan(
    alloc: Global,
    first: &str,
    name: &str,
    read: &Vars,
) -> Result<Items<Command>, NoMemory>
    ensures { IfOk result (λ commands. commands ≡ spec.good_plan first.now name.now read.now) }
{
    let order = led_order(alloc, first, name, read)?;
    if is_order(read, order.as_str()) {
        Ok(Items::new(alloc))
    } else {
        one(alloc, Command::SetOrder { order })
    }
}

fn primary_plan(
    alloc: Global,
    use_next: bool,
    first: &str,
    name: &str,
    read: &Vars,
) -> Result<Items<Command>, NoMemory>
    ensures { IfOk result (λ commands. commands ≡ spec.primary_plan use_next first.now name.now read.now) }
{
    if use_next {
        let number = Text::new(alloc, first)?;
        return one(alloc, Command::SetNext { number });
    }
    let order = led_order(alloc, first, name, read)?;
    let mut commands = Items::new(alloc);
    if read.get("BootNext").is_some() {
        commands.push(Command::RemoveNext)?;
    }
    commands.push(Command::SetOrder { order })?;
    Ok(commands)
}

// Whether a number of the name is the next boot's.
fn is_next(read: &Vars, name: &str) -> bool
    ensures { result ≡ state.is_next read.now name.now }
{
    match read.get("BootNext") {
        Some(number) => is_number_of(read, name.as_bytes(), number.as_bytes()),
        None => false,
    }
}

// Whether the order has this text.
fn is_order(read: &Vars, text: &str) -> bool
    ensures { result ≡ spec.is_order read.now text.now }
{
    match read.get("BootOrder") {
        Some(order) => order == text,
        None => false,
    }
}

// An order is written, and one without numbers taken away.
fn write_order(order: Text) -> Command
    ensures { result ≡ spec.write_order order }
{
    if order.as_str().is_empty() {
        Command::RemoveOrder
    } else {
        Command::SetOrder { order }
    }
}

// A number, and behind it those of the order that are none of the name.
fn led_order(alloc: Global, first: &str, name: &str, read: &Vars) -> Result<Text, NoMemory>
    ensures { IfOk result (λ text. text ≡ spec.led_order first.now name.now read.now) }
{
    let first = Text::new(alloc, first)?;
    let order = order_of(alloc, read)?;
    let mut numbers = Items::new(alloc);
    numbers.push(first)?;
    push_rest(&mut numbers, alloc, name, read, order.as_slice())?;
    numbers_text(alloc, numbers.as_slice())
}

// The numbers of the order that are none of the name.
fn rest_of(alloc: Global, name: &str, read: &Vars) -> Result<Items<Text>, NoMemory>
    ensures { IfOk result (λ numbers. numbers ≡ state.rest_of read.now name.now) }
{
    let order = order_of(alloc, read)?;
    let mut numbers = Items::new(alloc);
    push_rest(&mut numbers, alloc, name, read, order.as_slice())?;
    Ok(numbers)
}

// Puts these numbers but those of the name at the end.
fn push_rest(
    numbers: &mut Items<Text>,
    alloc: Global,
    name: &str,
    read: &Vars,
    order: &[Text],
) -> Result<(), NoMemory>
    ensures { OnOk result (numbers.new ≡ numbers.old ++ spec.others_in read.now name.now order.now) }
{
    for number in order {
        if !is_number_of(read, name.as_bytes(), number.as_bytes()) {
            let number = number.copy(alloc)?;
            numbers.push(number)?;
        }
    }
    Ok(())
}

// The numbers of the order.
fn order_of(alloc: Global, read: &Vars) -> Result<Items<Text>, NoMemory>
    ensures { IfOk result (λ numbers. numbers ≡ state.order_of read.now) }
{
    let mut numbers = Items::new(alloc);
    if let Some(order) = read.get("BootOrder") {
        push_words(&mut numbers, alloc, order, ',')?;
    }
    Ok(numbers)
}

// Numbers as text, with a comma between each two.
fn numbers_text(alloc: Global, numbers: &[Text]) -> Result<Text, NoMemory>
    ensures { IfOk result (λ text. text ≡ joined 44 numbers.now) }
{
    let text = numbers.join(alloc, ",")?;
    Ok(Text::from_string(text))
}
