ghost use Rattle.std.specs.Prelude.{◌≡◌};
ghost use Rattle.rauc_cli.specs.Lines.{status_of};

use crate::BadConf;
use boot_backends::BootRefusal;
use install_core::InstallRefusal;
use machine::Fault;
use mark_report::InfoRefusal;
use slot_marks::MarkRefusal;
use slot_writer::SlotRefusal;
use updater_text::{Items, NoMemory, Text};

/// How a call of the program ended.
#[derive(Debug, Drop)]
pub enum Outcome {
    /// The command did its work.
    Done,
    /// The words ask for help.
    Help,
    /// The words are no command.
    Usage,
    /// The configuration file is not there.
    NoConfig,
    /// The configuration is refused.
    BadConfig(BadConf),
    /// An install is refused.
    Install(InstallRefusal),
    /// `info` is refused.
    Info(InfoRefusal),
    /// A slot is not marked.
    Mark(MarkRefusal),
    /// The programs of the boot loader did not tell its variables.
    Boot(BootRefusal),
    /// `write-slot` is refused.
    Slot(SlotRefusal),
    /// A call of the machine failed.
    Outside(Fault),
    /// Out of memory.
    NoMemory,
}

/// How a call of the program ended, and what is put on its two sinks: of an install, what is left to
/// put behind its notes.
#[derive(Debug, Drop)]
pub struct Report {
    pub outcome: Outcome,
    pub out: Items<u8>,
    pub err: Text,
}

/// What came of a command: its report, and whether all was put whole that it put as it went.
#[derive(Drop)]
pub struct Ran {
    pub report: Result<Report, NoMemory>,
    pub whole: bool,
}

/// How a call of the program ended, and whether it could tell all of it.
#[derive(Debug, Drop)]
pub struct Finish {
    pub outcome: Outcome,
    pub told: bool,
}

impl Finish {
    /// The exit status: 0 where the work was done or help was asked for; 1 for a refusal; 2 where the
    /// outside failed, also where not all could be told; 3 out of memory. It takes no memory.
    pub fn status(&self) -> u8
        ensures { result ≡ status_of self.now.outcome self.now.told }
    {
        if !self.told {
            return 2;
        }
        match &self.outcome {
            Outcome::Done | Outcome::Help => 0,
            Outcome::Outside(_) => 2,
            Outcome::NoMemory => 3,
            _ => 1,
        }
    }
}
