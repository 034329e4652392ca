use updater_text::Text;

/// The boot loader of a system, with the settings that its variables and programs are used by. A
/// count of attempts is 1 to 9: how often a slot may be tried after it was marked good, and after it
/// was made primary.
#[derive(Debug, Drop)]
pub enum BootKind {
    /// GRUB. Its variables lie in the environment block `file`, which `grub-editenv` reads and
    /// writes.
    Grub {
        file: Text,
    },
    /// U-Boot, by `fw_printenv` and `fw_setenv`.
    Uboot {
        attempts: u8,
        primary_attempts: u8,
    },
    /// barebox, by `barebox-state`, which is given the name of the state where there is one.
    Barebox {
        state: Option<Text>,
        attempts: u8,
        primary_attempts: u8,
    },
    /// EFI, by `efibootmgr`. With `use_next` the slot for the next boot is told by `BootNext`, else
    /// by the order.
    Efi {
        use_next: bool,
    },
    /// A program of the system's own, at this path.
    Custom {
        program: Text,
    },
    /// No boot loader that is told anything.
    Noop,
}
