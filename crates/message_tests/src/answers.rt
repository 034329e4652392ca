use dbus_wire::{Progress, WireRefusal, is_valid, read_message};
use std::alloc::Global;
use updater_text::Lack;

/// What is answered of a text, by its kind.
#[derive(Clone, Copy, PartialEq, Eq)]
pub enum Answer {
    Got(u64),
    Bad,
    Need(u64),
    Large(u64),
    NoMemory,
}

pub fn answer_of(alloc: Global, bytes: &[u8]) -> Answer {
    match read_message(alloc, bytes) {
        Ok(Progress::Got { message, used }) => {
            if is_valid(&message) {
                Answer::Got(used)
            } else {
                Answer::NoMemory
            }
        }
        Ok(Progress::Need { more }) => Answer::Need(more),
        Err(Lack::Refused(WireRefusal::Bad)) => Answer::Bad,
        Err(Lack::Refused(WireRefusal::TooLarge { length })) => Answer::Large(length),
        Err(Lack::NoMemory) => Answer::NoMemory,
    }
}

/// How many texts are which.
#[derive(Clone, Copy, PartialEq, Eq)]
pub struct Counts {
    pub got: u32,
    pub bad: u32,
    pub need: u32,
    pub large: u32,
}

pub const NONE: Counts = Counts {
    got: 0,
    bad: 0,
    need: 0,
    large: 0,
};

/// These counts with one text more.
pub fn with(counts: Counts, answer: Answer) -> Counts {
    let Counts {
        got,
        bad,
        need,
        large,
    } = counts;
    match answer {
        Answer::Got(_) => Counts {
            got: got.saturating_add(1),
            ..counts
        },
        Answer::Bad => Counts {
            bad: bad.saturating_add(1),
            ..counts
        },
        Answer::Need(_) => Counts {
            need: need.saturating_add(1),
            ..counts
        },
        Answer::Large(_) => Counts {
            large: large.saturating_add(1),
            ..counts
        },
        Answer::NoMemory => counts,
    }
}
