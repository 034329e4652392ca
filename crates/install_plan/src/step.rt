use child_steps::{HandlerKind, HookKind};
use install_facts::Note;
use machine::Child;
use raw_writer::PutJob;

/// For what a step runs a program.
#[derive(Clone, Copy, Debug, PartialEq, Eq)]
pub enum Caller {
    /// It is a handler of the system.
    Handler(HandlerKind),
    /// It is a hook of the bundle, for the slot at this place.
    Hook { which: HookKind, slot: usize },
}

/// A step of an install from its first change on. Slots, roots and jobs are told by their places.
#[derive(Drop)]
pub enum Step {
    /// A program is run, and has to end with status 0.
    Run { child: Child, caller: Caller },
    /// The bootname of a root is marked bad.
    Bad { root: usize },
    /// The status file notes that an update of a slot has begun.
    Begin { slot: usize },
    /// An image is put on the device of its slot.
    Put { job: usize, put: PutJob },
    /// What is pending on the device of a slot is made to last.
    Settle { slot: usize },
    /// The block index of an image is kept.
    Index { job: usize },
    /// The status file notes that the slot of a job was installed.
    Done { job: usize },
    /// The bootname of a root is made primary.
    Primary { root: usize },
    /// The status file notes that a root was activated.
    Activated { root: usize },
}

/// What an install does next: a step, or a note that it tells.
#[derive(Drop)]
pub enum Act {
    Do(Step),
    Tell(Note),
}
