ghost use Rattle.std.specs.Prelude.{◌≡◌, IfOk};
ghost use Rattle.boot_commands.specs.Plans as spec;

use crate::{Command, Mark, barebox, custom, efi, grub, uboot};
use boot_model::{BootKind, Vars};
use std::alloc::Global;
use updater_text::{Items, NoMemory, Text};

/// What is read before a name is marked.
pub fn looks_of(
    alloc: Global,
    kind: &BootKind,
    names: &[Text],
    mark: Mark,
) -> Result<Items<Command>, NoMemory>
    ensures { IfOk result (λ commands. commands ≡ spec.looks kind.now names.now mark) }
{
    match kind {
        BootKind::Grub { file } => grub::looks(alloc, file, mark),
        BootKind::Uboot { .. } => uboot::looks(alloc),
        BootKind::Barebox { state, .. } => barebox::looks(alloc, state, names, mark),
        BootKind::Efi { .. } => efi::readings(alloc),
        BootKind::Custom { .. } | BootKind::Noop => Ok(Items::new(alloc)),
    }
}

/// What is written then to mark a name, by the variables that were read; None exactly where EFI has
/// no entry with this name. Each count of attempts of the boot loader has to be one digit.
pub fn plan_of(
    alloc: Global,
    kind: &BootKind,
    names: &[Text],
    mark: Mark,
    name: &str,
    read: &Vars,
) -> Result<Option<Items<Command>>, NoMemory>
    requires { spec.HasDigits kind.now }
    ensures { IfOk result (λ commands. commands ≡ spec.plan kind.now names.now mark name.now read.now) }
{
    let commands = match kind {
        BootKind::Grub { file } => grub::plan(alloc, file, names, mark, name, read)?,
        BootKind::Uboot {
            attempts,
            primary_attempts,
        } => uboot::plan(alloc, *attempts, *primary_attempts, names, mark, name, read)?,
        BootKind::Barebox {
            state,
            attempts,
            primary_attempts,
        } => {
            let (usual, primary) = (*attempts, *primary_attempts);
            let settings = barebox::settings_of(alloc, usual, primary, names, mark, name, read)?;
            barebox::store(alloc, state, settings)?
        }
        BootKind::Efi { use_next } => return efi::plan(alloc, *use_next, mark, name, read),
        BootKind::Custom { program } => custom::plan(alloc, program, mark, name)?,
        BootKind::Noop => Items::new(alloc),
    };
    Ok(Some(commands))
}

/// What reads all variables.
pub fn readings_of(
    alloc: Global,
    kind: &BootKind,
    names: &[Text],
) -> Result<Items<Command>, NoMemory>
    ensures { IfOk result (λ commands. commands ≡ spec.readings kind.now names.now) }
{
    match kind {
        BootKind::Grub { file } => grub::readings(alloc, file),
        BootKind::Uboot { .. } => uboot::readings(alloc, names),
        BootKind::Barebox { state, .. } => barebox::readings(alloc, state, names),
        BootKind::Efi { .. } => efi::readings(alloc),
        BootKind::Custom { program } => custom::readings(alloc, program, names),
        BootKind::Noop => Ok(Items::new(alloc)),
    }
}
