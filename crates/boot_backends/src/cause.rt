ghost use Rattle.std.specs.Prelude.{◌≡◌, ◌++◌, IfOk, codes};
ghost use Rattle.machine.specs.Endings.{ended_text};
ghost use Rattle.boot_backends.specs.Words as spec;

use crate::BootRefusal;
use machine::{Ended, ended_text};
use std::alloc::Global;
use updater_text::{NoMemory, Text};

// A program by its words, with a blank between each two.
fn program_text(alloc: Global, argv: &[Text]) -> Result<Text, NoMemory>
    ensures { IfOk result (λ t. t ≡ spec.program_text argv.now) }
{
    let words = argv.join(alloc, " ")?;
    Ok(Text::from_string(words))
}

fn program_cause(alloc: Global, argv: &[Text], ended: Ended) -> Result<Text, NoMemory>
    ensures { IfOk result (λ t. t ≡ spec.program_text argv.now ++ (codes " failed: " ++ ended_text ended)) }
{
    let program = program_text(alloc, argv)?;
    let ended = ended_text(alloc, ended)?;
    let program = program.as_str();
    let ended = ended.as_str();
    let cause = format!(in alloc; "{program} failed: {ended}")?;
    Ok(Text::from_string(cause))
}

fn output_cause(alloc: Global, argv: &[Text]) -> Result<Text, NoMemory>
    ensures { IfOk result (λ t. t ≡ spec.program_text argv.now ++ codes ": bad output") }
{
    let program = program_text(alloc, argv)?;
    let program = program.as_str();
    let cause = format!(in alloc; "{program}: bad output")?;
    Ok(Text::from_string(cause))
}

fn unlisted_cause(alloc: Global, name: &Text) -> Result<Text, NoMemory>
    ensures { IfOk result (λ t. t ≡ codes "no boot entry " ++ name.now) }
{
    let name = name.as_str();
    let cause = format!(in alloc; "no boot entry {name}")?;
    Ok(Text::from_string(cause))
}

/// Why the programs of a boot loader did not do what they were to, in one line without its end. The
/// only error is out of memory.
pub fn boot_cause(alloc: Global, refusal: &BootRefusal) -> Result<Text, NoMemory>
    ensures { IfOk result (λ t. t ≡ spec.boot_cause refusal.now) }
{
    match refusal {
        BootRefusal::Program { argv, ended } => program_cause(alloc, argv.as_slice(), *ended),
        BootRefusal::Output { argv } => output_cause(alloc, argv.as_slice()),
        BootRefusal::Unlisted { name } => unlisted_cause(alloc, name),
    }
}
