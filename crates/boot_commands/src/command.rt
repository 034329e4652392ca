use updater_text::{Items, Text};

/// What is to become of a name.
#[derive(Clone, Copy, Debug, PartialEq, Eq)]
pub enum Mark {
    /// It is not to be booted.
    Bad,
    /// It works.
    Good,
    /// It is to be booted next.
    Primary,
}

/// A variable and the value that it is to have.
#[derive(Drop)]
pub struct Setting {
    pub name: Text,
    pub value: Text,
}

/// A command of a boot loader's program.
#[derive(Drop)]
pub enum Command {
    /// GRUB: prints all variables. `grub-editenv FILE list`
    ListVariables {
        file: Text,
    },
    /// GRUB: sets variables. `grub-editenv FILE set NAME=VALUE ..`
    SetVariables {
        file: Text,
        settings: Items<Setting>,
    },
    /// U-Boot: prints a variable. `fw_printenv NAME`
    PrintVariable {
        name: Text,
    },
    /// U-Boot: sets a variable, and takes it away where the value is empty. `fw_setenv NAME VALUE`
    StoreVariable {
        name: Text,
        value: Text,
    },
    /// barebox: prints the values of variables. `barebox-state -g NAME ..`, with `-n STATE` before
    /// it where the state has a name.
    PrintState {
        state: Option<Text>,
        names: Items<Text>,
    },
    /// barebox: sets variables. `barebox-state -s NAME=VALUE ..`, with `-n STATE` as above.
    StoreState {
        state: Option<Text>,
        settings: Items<Setting>,
    },
    /// EFI: prints the next boot, the order and the entries. `efibootmgr`
    ListEntries,
    /// EFI: sets the next boot. `efibootmgr -n NUMBER`
    SetNext {
        number: Text,
    },
    /// EFI: takes the next boot away. `efibootmgr -N`
    RemoveNext,
    /// EFI: sets the order, numbers with commas between them. `efibootmgr -o NUMBERS`
    SetOrder {
        order: Text,
    },
    /// EFI: takes the order away. `efibootmgr -O`
    RemoveOrder,
    /// A program of the system's own: prints the primary name. `PROGRAM get-primary`
    GetPrimary {
        program: Text,
    },
    /// The same: prints the state of a name. `PROGRAM get-state NAME`
    GetState {
        program: Text,
        name: Text,
    },
    /// The same: sets the state of a name. `PROGRAM set-state NAME STATE`
    SetState {
        program: Text,
        name: Text,
        state: Text,
    },
    /// The same: sets the primary name. `PROGRAM set-primary NAME`
    SetPrimary {
        program: Text,
        name: Text,
    },
}
