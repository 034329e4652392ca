ghost use Rattle.std.specs.Prelude.{◌≡◌, IfOk};
ghost use Rattle.keyfile.specs.Causes.{key_cause, number_between};

use crate::KeyFault;
use std::alloc::Global;
use updater_text::{NoMemory, Text};

// A number between two texts.
fn number_between(alloc: Global, before: &str, number: u64, after: &str) -> Result<Text, NoMemory>
    ensures { IfOk result (λ t. t ≡ number_between before.now number after.now) }
{
    let text = format!(in alloc; "{before}{number}{after}")?;
    Ok(Text::from_string(text))
}

/// What is wrong with a text that is no key file, in words, without the name of the file.
pub fn key_cause(alloc: Global, fault: &KeyFault) -> Result<Text, NoMemory>
    ensures { IfOk result (λ t. t ≡ key_cause fault.now) }
{
    match *fault {
        KeyFault::TooLong { length } => number_between(alloc, "", length, " bytes are too long"),
        KeyFault::NotUtf8 { at } => number_between(alloc, "byte ", at, " is not UTF-8"),
        KeyFault::BadLine { number } => number_between(alloc, "line ", number, " is bad"),
        KeyFault::KeyBeforeGroup { number } => {
            number_between(alloc, "line ", number, " stands before a group")
        }
        KeyFault::BadEscape { number } => {
            number_between(alloc, "line ", number, " has a bad escape")
        }
    }
}
