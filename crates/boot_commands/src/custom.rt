ghost use Rattle.std.specs.Prelude.{◌≡◌, IfOk, codes};
ghost use Rattle.boot_commands.specs.Custom as spec;

use crate::lists::one;
use crate::{Command, Mark};
use std::alloc::Global;
use updater_text::{Items, NoMemory, Text};

/// What reads all variables.
pub fn readings(alloc: Global, program: &Text, names: &[Text]) -> Result<Items<Command>, NoMemory>
    ensures { IfOk result (λ commands. commands ≡ spec.readings program.now names.now) }
{
    let primary = program.copy(alloc)?;
    let mut commands = one(alloc, Command::GetPrimary { program: primary })?;
    for name in names {
        let command = get_state(alloc, program, name)?;
        commands.push(command)?;
    }
    Ok(commands)
}

fn get_state(alloc: Global, program: &Text, name: &Text) -> Result<Command, NoMemory>
    ensures { IfOk result (λ command. command ≡ Command.GetState program.now name.now) }
{
    let program = program.copy(alloc)?;
    let name = name.copy(alloc)?;
    Ok(Command::GetState { program, name })
}

/// What is written to mark a name.
pub fn plan(
    alloc: Global,
    program: &Text,
    mark: Mark,
    name: &str,
) -> Result<Items<Command>, NoMemory>
    ensures { IfOk result (λ commands. commands ≡ spec.plan program.now mark name.now) }
{
    let command = command_for(alloc, program, mark, name)?;
    one(alloc, command)
}

fn command_for(alloc: Global, program: &Text, mark: Mark, name: &str) -> Result<Command, NoMemory>
    ensures { IfOk result (λ command. command ≡ spec.command_for program.now mark name.now) }
{
    match mark {
        Mark::Bad => set_state(alloc, program, name, "bad"),
        Mark::Good => set_state(alloc, program, name, "good"),
        Mark::Primary => set_primary(alloc, program, name),
    }
}

fn set_state(alloc: Global, program: &Text, name: &str, state: &str) -> Result<Command, NoMemory>
    ensures { IfOk result (λ command. command ≡ Command.SetState program.now name.now state.now) }
{
    let program = program.copy(alloc)?;
    let name = Text::new(alloc, name)?;
    let state = Text::new(alloc, state)?;
    Ok(Command::SetState {
        program,
        name,
        state,
    })
}

fn set_primary(alloc: Global, program: &Text, name: &str) -> Result<Command, NoMemory>
    ensures { IfOk result (λ command. command ≡ Command.SetPrimary program.now name.now) }
{
    let program = program.copy(alloc)?;
    let name = Text::new(alloc, name)?;
    Ok(Command::SetPrimary { program, name })
}
