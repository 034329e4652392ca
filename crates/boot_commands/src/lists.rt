ghost use Rattle.std.specs.Prelude.{◌≡◌, ◌∷◌, ◌++◌, [], IfOk, OnOk};

use crate::Command;
use std::alloc::Global;
use updater_text::{Items, NoMemory};

/// One command.
pub fn one(alloc: Global, command: Command) -> Result<Items<Command>, NoMemory>
    ensures { IfOk result (λ commands. commands ≡ command ∷ []) }
{
    let mut commands = Items::new(alloc);
    commands.push(command)?;
    Ok(commands)
}

/// Two commands, in this order.
pub fn two(alloc: Global, first: Command, second: Command) -> Result<Items<Command>, NoMemory>
    ensures { IfOk result (λ commands. commands ≡ first ∷ second ∷ []) }
{
    let mut commands = Items::new(alloc);
    push_two(&mut commands, first, second)?;
    Ok(commands)
}

/// Puts two items at the end.
pub fn push_two<T: Drop>(items: &mut Items<T>, first: T, second: T) -> Result<(), NoMemory>
    ensures { OnOk result (items.new ≡ items.old ++ first ∷ second ∷ []) }
{
    items.push(first)?;
    items.push(second)
}
