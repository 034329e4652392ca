ghost use Rattle.std.specs.Prelude.{◌≡◌};
ghost use Rattle.rauc_words.specs.Table.{conf_path, slot_word};

use slot_marks::Action;
use updater_text::{Form, Text};

/// Where a configuration stands that no word names.
const CONF: &str = "/etc/rauc/system.conf";

/// Where a command finds the system that it works on.
#[derive(Debug, Drop)]
pub struct Place {
    /// The path of the configuration, where the words name one.
    pub conf: Option<Text>,
    /// The slot that counts as booted, where the words name one.
    pub given: Option<Text>,
}

impl Place {
    /// The path of the configuration: the one that the words name, or `/etc/rauc/system.conf`.
    pub fn conf_path(&self) -> &str
        ensures { result.now ≡ conf_path self.now }
    {
        match &self.conf {
            Some(conf) => conf.as_str(),
            None => CONF,
        }
    }
}

/// A command with its values, of which none is empty or has a NUL.
#[derive(Debug, Drop)]
pub enum Command {
    /// Installs the bundle at a path, also one that is for another system where `ignore_compatible`
    /// says so.
    Install {
        bundle: Text,
        ignore_compatible: bool,
    },
    /// Writes the image at a path into the slot of this name.
    WriteSlot {
        slot: Text,
        image: Text,
    },
    /// Tells what the manifest of the bundle at a path says.
    Info {
        bundle: Text,
        form: Form,
    },
    /// Tells what is booted and in what state the slots are, and what the status file has of them where
    /// `detailed` says so.
    Status {
        form: Form,
        detailed: bool,
    },
    /// Marks a slot: the one that the word means, or the booted one where there is no word.
    Mark {
        action: Action,
        who: Option<Text>,
    },
}

/// The slot that is marked, as a word: the one that is given, or `booted`.
pub fn slot_word(who: &Option<Text>) -> &str
    ensures { result.now ≡ slot_word who.entry.now }
{
    match who {
        Some(who) => who.as_str(),
        None => "booted",
    }
}

/// A command, and where it finds the system that it works on.
#[derive(Debug, Drop)]
pub struct Run {
    pub place: Place,
    pub command: Command,
}

/// What some words ask for.
#[derive(Debug, Drop)]
pub enum Asked {
    /// The help text.
    Help,
    /// A command.
    Run(Run),
}
