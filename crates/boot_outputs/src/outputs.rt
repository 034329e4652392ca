ghost use Rattle.boot_outputs.specs.Outputs.{spelled};
ghost use Rattle.boot_outputs.specs.Texts.{Takes};

use crate::{barebox, custom, efi, grub, uboot};
use boot_commands::Command;
use boot_model::Vars;
use std::alloc::Global;
use updater_text::NoMemory;

/// Takes what a command printed into the variables that were read before: each variable of the text
/// is set there. The answer is whether the text has the form below; where it has not, the variables
/// stay as they are. Out of memory, some of the text's variables may be set.
///
/// A line ends with a line feed, which the last one may lack; a carriage return is a byte like
/// others. What a writing command prints is not looked at.
///
/// GRUB, `grub-editenv FILE list` (grub-editenv(1)): each line with `=` is a variable, whose name
/// ends at the first `=`. Other lines are passed over, and of a variable that is repeated the last
/// value counts.
///
/// U-Boot, `fw_printenv NAME` (U-Boot, tools/env/README): the first line begins with the name and
/// `=`, and the rest of it is the value.
///
/// barebox, `barebox-state -g NAME ..` (dt-utils): one line for each name, in order, and no other.
///
/// EFI, `efibootmgr` (efibootmgr(8)): a line `BootNext: ` has a number, a line `BootOrder: ` has
/// numbers with a comma between each two, or nothing. The line of an entry begins with `Boot`, its
/// number, `*` or a blank, and one blank; its label ends at a tab. A number is four hexadecimal
/// digits, and is kept in upper case. Other lines are passed over, and of what is repeated the last
/// counts.
///
/// A program of the system's own (RAUC's manual, on custom backends): the first line of
/// `get-primary` is the primary name, that of `get-state NAME` is `good` or `bad`.
pub fn take_output(
    alloc: Global,
    command: &Command,
    out: &str,
    read: &mut Vars,
) -> Result<bool, NoMemory>
    ensures { Takes result read.old read.new (spelled command.now out.now read.old) }
{
    match command {
        Command::ListVariables { .. } => grub::take_list(out, read),
        Command::PrintVariable { name } => uboot::take_variable(name.as_str(), out, read),
        Command::PrintState { names, .. } => barebox::take_values(names.as_slice(), out, read),
        Command::ListEntries => efi::take_entries(alloc, out, read),
        Command::GetPrimary { .. } => custom::take_primary(out, read),
        Command::GetState { name, .. } => custom::take_state(alloc, name.as_str(), out, read),
        Command::SetVariables { .. }
        | Command::StoreVariable { .. }
        | Command::StoreState { .. }
        | Command::SetNext { .. }
        | Command::RemoveNext
        | Command::SetOrder { .. }
        | Command::RemoveOrder
        | Command::SetState { .. }
        | Command::SetPrimary { .. } => Ok(true),
    }
}
