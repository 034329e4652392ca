// Children.
use crate::paths::Deed::Has;
use crate::steps::Place::{At, New};
use crate::steps::Step::{Beside, Ends, Piece, Puts, Refused, Write};
use crate::steps::{Case, DONE, Trace, Trouble, Watch, first_wrong, first_wrong_watched};
use crate::watched::PIPED;
use machine::{Child, ChildClass, Ended, EnvVar, Exit, Machine, RunStop, Spares};
use std::alloc::Global;
use updater_text::{Items, NoMemory, Text};

// Among arguments, the path of the case.
const PATH: &str = "PATH";

// How a script ends, how many bytes of each stream are kept, and whether that is not all.
pub type End = (Ended, [usize; 2], bool);

static CASES: [Case<'static>; 4] = [
    // it runs a program
    Case {
        place: At(""),
        steps: &[
            Puts("echo", &["a  b", "c"], "a  b c\n"),
            Puts("/bin/sh", &["-c", "cat; pwd >/dev/null"], ""),
            Puts(
                "sh",
                &["-c", "test -n \"$PATH\" && echo \"$RAUC_TEST\""],
                "a value\n",
            ),
        ],
    },
    // it tells how a child ended, and keeps the front of each stream
    Case {
        place: At(""),
        steps: &[
            Ends(
                "echo a; echo bc >&2; exit 7",
                (Ended::Code(7), [2, 3], false),
            ),
            Ends("exit 255", (Ended::Code(255), [0, 0], false)),
            Ends("echo a; kill -9 $$", (Ended::Signal, [2, 0], false)),
            Ends(
                "head -c 65536 /dev/zero",
                (Ended::Code(0), [65_536, 0], false),
            ),
            Ends(
                "head -c 1048576 /dev/zero; head -c 1048576 /dev/zero >&2; exit 1",
                (Ended::Code(1), [65_536, 65_536], true),
            ),
            Ends(
                "head -c 1048576 /dev/zero >&2; head -c 1048576 /dev/zero; exit 1",
                (Ended::Code(1), [65_536, 65_536], true),
            ),
            Ends(
                "echo a; head -c 65537 /dev/zero >&2",
                (Ended::Code(0), [2, 65_536], true),
            ),
        ],
    },
    // it starts no program that is not there, and none with a NUL in a word
    Case {
        place: At(""),
        steps: &[
            Refused("/proc/self/missing", &[]),
            Refused("rauc-has-no-such-program", &["a"]),
            Refused("/tmp", &[]),
            Refused("echo", &["a\0b"]),
        ],
    },
    // it lets its files go before a child
    Case {
        place: New("replaced-by-child", "old bytes"),
        steps: &[
            Piece(0, b"old "),
            Write(0, "OLD", DONE),
            Puts(
                "sh",
                &[
                    "-c",
                    "echo new bytes >\"$0.next\" && mv \"$0.next\" \"$0\"",
                    PATH,
                ],
                "",
            ),
            Piece(0, b"new "),
            Write(0, "NEW", DONE),
            Puts("cat", &[PATH], "NEW bytes\n"),
        ],
    },
];

fn texts(alloc: Global, words: &[&str], path: &str) -> Result<Items<Text>, NoMemory> {
    let mut texts = Items::new(alloc);
    for word in words {
        let word = if *word == PATH { path } else { *word };
        texts.push(Text::new(alloc, word)?)?;
    }
    Ok(texts)
}

// One variable.
fn test_var(alloc: Global) -> Result<Items<EnvVar>, NoMemory> {
    let name = Text::new(alloc, "RAUC_TEST")?;
    let value = Text::new(alloc, "a value")?;
    let mut env = Items::new(alloc);
    env.push(EnvVar { name, value })?;
    Ok(env)
}

// A child that need leave nothing alone.
fn helper_of(alloc: Global, program: Text, args: Items<Text>, env: Items<EnvVar>) -> Child {
    Child {
        class: ChildClass::Helper,
        program,
        args,
        env,
        spares: Spares {
            disks: Items::new(alloc),
            files: Items::new(alloc),
            boot: false,
        },
    }
}

// A child with one variable, which need leave nothing alone.
fn helper(alloc: Global, program: &str, args: &[&str], path: &str) -> Result<Child, NoMemory> {
    let program = Text::new(alloc, program)?;
    let args = texts(alloc, args, path)?;
    let env = test_var(alloc)?;
    Ok(helper_of(alloc, program, args, env))
}

// The end of a child of the machine.
fn end_of<M: Machine>(
    m: &mut M,
    alloc: Global,
    program: &str,
    args: &[&str],
    path: &str,
) -> Result<Exit, RunStop> {
    match helper(alloc, program, args, path) {
        Ok(child) => m.run(alloc, &child),
        Err(NoMemory) => Err(RunStop::NoMemory),
    }
}

// Whether a script of the shell ends like this.
pub fn ends<M: Machine>(m: &mut M, alloc: Global, line: &str, wanted: &End) -> bool {
    match end_of(m, alloc, "sh", &["-c", line], "") {
        Ok(exit) => (exit.ended, [exit.out.len(), exit.err.len()], exit.cut) == *wanted,
        Err(_) => false,
    }
}

// Whether the program ends with 0, puts this out, and nothing on its other stream.
pub fn puts<M: Machine>(
    m: &mut M,
    alloc: Global,
    program: &str,
    args: &[&str],
    path: &str,
    text: &str,
) -> bool {
    match end_of(m, alloc, program, args, path) {
        Ok(exit) => {
            exit.ended == Ended::Code(0)
                && exit.out.as_slice() == text.as_bytes()
                && exit.err.is_empty()
                && !exit.cut
        }
        Err(_) => false,
    }
}

pub fn is_refused<M: Machine>(
    m: &mut M,
    alloc: Global,
    program: &str,
    args: &[&str],
    path: &str,
) -> bool {
    match end_of(m, alloc, program, args, path) {
        Ok(_) => false,
        Err(stop) => stop == RunStop::Failed,
    }
}

#[test]
fn runs_children(rt: HostRuntime) {
    assert_eq!(rt;
        first_wrong(rt, &rt, &CASES),
        None,
        "row and step of the children"
    );
}

static WATCHED: [Watch<'static>; 3] = [
    // it starts no child without pipes
    (
        Trouble::Step(PIPED),
        Case {
            place: At(""),
            steps: &[Refused("true", &[])],
        },
        Trace::NoChild,
    ),
    // a child of which one stream cannot be read goes on, and is waited for: it has made its file
    (
        Trouble::Pipe(1),
        Case {
            place: New("no-out", ""),
            steps: &[
                Refused(
                    "sh",
                    &["-c", "exec 2>&-; sleep 1; echo done >\"$0.late\"", PATH],
                ),
                Beside(".late", Has("done\n")),
            ],
        },
        Trace::Child,
    ),
    (
        Trouble::Pipe(2),
        Case {
            place: New("no-err", ""),
            steps: &[
                Refused("sh", &["-c", "sleep 1; echo done >\"$0.late\"", PATH]),
                Beside(".late", Has("done\n")),
            ],
        },
        Trace::Child,
    ),
];

#[test]
fn ends_children_that_it_cannot_read(rt: HostRuntime) {
    assert_eq!(rt;
        first_wrong_watched(rt, &rt, &WATCHED, None),
        None,
        "row and step of the children that cannot be read"
    );
}
