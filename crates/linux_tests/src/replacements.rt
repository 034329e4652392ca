// How a file is replaced.
use crate::paths::Deed::{Give, Has, HasRightsOf, IsGone, IsLink, Link, Put, Remove};
use crate::steps::Place::{At, New};
use crate::steps::Step::{Beside, Count, Replace};
use crate::steps::Trace::Asks;
use crate::steps::Trouble::{Nothing, Step};
use crate::steps::{Case, DONE, FAILED, Watch, first_wrong, first_wrong_watched};
use crate::watched::{MADE, OPENED, RENAMED, SYNCED, WRITTEN};

static CASES: [Case<'static>; 4] = [
    // it touches no file of another name
    Case {
        place: New("named", "old"),
        steps: &[
            Beside(".other", Put("theirs")),
            Beside(".0.new", Link(".other")),
            Beside(".1.new", Put("taken")),
            Beside(".2.new", Link(".nothing")),
            Beside(".new", Put("plain")),
            Replace("new", DONE),
            Beside("", Has("new")),
            Beside(".0.new", Has("theirs")),
            Beside(".1.new", Has("taken")),
            Beside(".2.new", IsLink),
            Beside(".new", Has("plain")),
            Beside(".other", Remove),
            Beside(".0.new", Remove),
            Beside(".1.new", Remove),
            Beside(".2.new", Remove),
            Beside(".new", Remove),
        ],
    },
    // it keeps owner and mode
    Case {
        place: New("owned", "old"),
        steps: &[
            Beside(".like", Put("like")),
            Beside("", Give),
            Beside(".like", Give),
            Beside("", HasRightsOf(".like")),
            Replace("new", DONE),
            Beside("", HasRightsOf(".like")),
            Beside(".like", Remove),
        ],
    },
    // it keeps the old file where none can be made
    Case {
        place: At("/proc/self/cmdline"),
        steps: &[Replace("new", FAILED), Count(0, Ok(4))],
    },
    Case {
        place: At("/proc/none/below"),
        steps: &[Replace("new", FAILED)],
    },
];

const KEPT: Case<'static> = Case {
    place: New("kept", "old"),
    steps: &[
        Replace("new", FAILED),
        Beside("", Has("old")),
        Beside(".0.new", IsGone),
    ],
};

const MADE_ANEW: Case<'static> = Case {
    place: New("made", "old"),
    steps: &[
        Beside("", Remove),
        Replace("new", DONE),
        Beside("", Has("new")),
    ],
};

const REPLACED: Case<'static> = Case {
    place: New("replaced", "old"),
    steps: &[Replace("new", DONE), Beside("", Has("new"))],
};

// Its name may not last.
const UNSYNCED: Case<'static> = Case {
    place: New("unsynced", "old"),
    steps: &[Replace("new", FAILED), Beside("", Has("new"))],
};

// It syncs before it renames, and its folder after.
static WATCHED: [Watch<'static>; 7] = [
    (Nothing, MADE_ANEW, Asks(123_453)),
    (Nothing, REPLACED, Asks(17_823_453)),
    (Step(MADE), KEPT, Asks(1)),
    (Step(WRITTEN), KEPT, Asks(17_826)),
    (Step(SYNCED), KEPT, Asks(178_236)),
    (Step(RENAMED), KEPT, Asks(1_782_346)),
    (Step(OPENED), UNSYNCED, Asks(1_782_345)),
];

#[test]
fn asks_in_turn_for_a_replacement(rt: HostRuntime) {
    assert_eq!(rt;
        first_wrong_watched(rt, &rt, &WATCHED, None),
        None,
        "row and step of the replacements"
    );
}

#[test]
fn keeps_what_it_does_not_replace(rt: HostRuntime) {
    assert_eq!(rt;
        first_wrong(rt, &rt, &CASES),
        None,
        "row and step of what is kept"
    );
}
