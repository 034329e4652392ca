use boot_model::{BootKind, Vars};
use machine::{Ended, Named};
use undo_log::Effect;
use updater_text::{Items, Text};

/// What a child does: one that runs `program` with arguments that begin with `args`. It puts `out`
/// and `err` out on its two streams, has the effects in turn, and ends as `ended` says. A boot program
/// has no effects but on the boot variables.
#[derive(Drop)]
pub struct Script {
    pub program: Text,
    pub args: Items<Text>,
    pub ended: Ended,
    pub out: Items<u8>,
    pub err: Items<u8>,
    pub effects: Items<Effect>,
}

/// What a bench starts with: its disks and files, its boot loader and the variables of that, what
/// children do, the numbers of the calls that fail, the number of the call at which the power stops,
/// if any, and what the clock says, in seconds since 1970.
#[derive(Drop)]
pub struct Setup {
    pub disks: Items<Named>,
    pub files: Items<Named>,
    pub boot: BootKind,
    pub vars: Vars,
    pub scripts: Items<Script>,
    pub fails: Items<u64>,
    pub stop: Option<u64>,
    pub now: i64,
}
