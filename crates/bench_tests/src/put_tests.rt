use crate::setups::{Case, DISK, FILE, PLAIN, first_wrong};
use crate::steps::{PutEnd, Step};
use machine::Fault;
use std::alloc::Global;

// The SHA-256 of the bytes 5, 6 and 7, which the file has.
const STATED: &str = "3774fed6f81e6d77fb664109f8ac3e35088e89722c6c8747166afe631cfcf43a";

// The SHA-256 of no bytes.
const EMPTY: &str = "e3b0c44298fc1c149afbf4c8996fb92427ae41e4649b934ca495991b7852b855";

// Two calls ask for lengths, two pieces are read and written, and one call syncs.
const WHOLE: &[Step] = &[
    Step::Put(FILE, STATED, PutEnd::Whole),
    Step::See(
        &[(DISK, Some(&[5, 6, 7, 4]))],
        &[(FILE, Some(&[5, 6, 7]))],
        [0, 2, 0, 7, 0],
    ),
];

const OTHER_DIGEST: &[Step] = &[
    Step::Put(FILE, EMPTY, PutEnd::Differs(STATED)),
    Step::See(&[(DISK, Some(&[5, 6, 7, 4]))], &[], [0, 2, 0, 7, 0]),
];

// The second piece is not written, and nothing is synced.
const FAILING_WRITE: &[Step] = &[
    Step::Put(FILE, STATED, PutEnd::Fails(Fault::Write)),
    Step::See(&[(DISK, Some(&[5, 6, 3, 4]))], &[], [1, 1, 0, 6, 1]),
];

const FAILING_SYNC: &[Step] = &[
    Step::Put(FILE, STATED, PutEnd::Fails(Fault::Sync)),
    Step::See(&[(DISK, Some(&[5, 6, 7, 4]))], &[], [2, 2, 0, 7, 1]),
];

// No write, and one sync.
const NO_BYTES: &[Step] = &[
    Step::Replace(FILE, &[], true),
    Step::Put(FILE, EMPTY, PutEnd::Whole),
    Step::See(&[(DISK, Some(&[1, 2, 3, 4]))], &[], [0, 0, 0, 4, 0]),
];

static PUTS: [Case; 5] = [
    Case {
        steps: WHOLE,
        ..PLAIN
    },
    Case {
        steps: OTHER_DIGEST,
        ..PLAIN
    },
    Case {
        fails: &[6],
        steps: FAILING_WRITE,
        ..PLAIN
    },
    Case {
        fails: &[7],
        steps: FAILING_SYNC,
        ..PLAIN
    },
    Case {
        steps: NO_BYTES,
        ..PLAIN
    },
];

fn wrong_put(alloc: Global) -> Option<usize> {
    first_wrong(alloc, &PUTS)
}

#[test]
fn images_are_put_on_disks(rt: HostRuntime) {
    assert_eq!(rt; wrong_put(rt.alloc()), None);
}
