use machine::Ended;
use updater_text::{Items, Text};

/// Why a boot loader's programs did not mark a name or tell the variables.
#[derive(Debug, Drop)]
pub enum BootRefusal {
    /// The program with these words ended so. It ends with status 0, or `fw_printenv`, for a variable
    /// that is not set, with 1 and without output.
    Program { argv: Items<Text>, ended: Ended },
    /// What the program with these words printed is longer than what is kept of it, no UTF-8, or not
    /// in its form.
    Output { argv: Items<Text> },
    /// EFI has no entry with the name as its label.
    Unlisted { name: Text },
}
