ghost use Rattle.std.specs.Prelude.{◌≡◌, IfOk};
ghost use Rattle.boot_programs.specs.Programs as spec;

use crate::ProgramEnd;
use crate::barebox::barebox_state;
use crate::custom::custom_backend;
use crate::efi::efibootmgr;
use crate::grub::grub_editenv;
use crate::uboot::{fw_printenv, fw_setenv};
use boot_model::{BootKind, Vars};
use std::alloc::Global;
use updater_text::{NoMemory, Text};

/// What a program of a boot loader of this kind does when it is run with these words, of which the
/// first is its name, over these variables. Words that no such program knows are refused: it ends
/// with 1, prints nothing and leaves the variables.
pub fn program(
    alloc: Global,
    kind: &BootKind,
    argv: &[Text],
    vars: &Vars,
) -> Result<ProgramEnd, NoMemory>
    ensures { IfOk result (λ end. end ≡ spec.program kind.now argv.now vars.now) }
{
    match argv {
        [name, words @ ..] => named_program(alloc, kind, name.as_str(), words, vars),
        [] => ProgramEnd::refused(alloc, vars),
    }
}

// A program with this name, by the words after it.
fn named_program(
    alloc: Global,
    kind: &BootKind,
    name: &str,
    words: &[Text],
    vars: &Vars,
) -> Result<ProgramEnd, NoMemory>
    ensures { IfOk result (λ end. end ≡ spec.named_program kind.now name.now words.now vars.now) }
{
    match kind {
        BootKind::Grub { file } if name == "grub-editenv" => {
            grub_editenv(alloc, file.as_str(), words, vars)
        }
        BootKind::Uboot { .. } if name == "fw_printenv" => fw_printenv(alloc, words, vars),
        BootKind::Uboot { .. } if name == "fw_setenv" => fw_setenv(alloc, words, vars),
        BootKind::Barebox { .. } if name == "barebox-state" => barebox_state(alloc, words, vars),
        BootKind::Efi { .. } if name == "efibootmgr" => efibootmgr(alloc, words, vars),
        BootKind::Custom { program } if name == program.as_str() => {
            custom_backend(alloc, words, vars)
        }
        _ => ProgramEnd::refused(alloc, vars),
    }
}
