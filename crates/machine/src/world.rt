use boot_model::Vars;
use updater_text::{Items, Text};

/// The bytes under a path.
#[derive(Drop)]
pub struct Named {
    pub path: Text,
    pub bytes: Items<u8>,
}

/// A range of a disk: `length` bytes from byte `at` on.
#[derive(Drop)]
pub struct Span {
    pub path: Text,
    pub at: u64,
    pub length: u64,
}

/// What a child is run for.
#[derive(Clone, Copy, Debug, PartialEq, Eq)]
pub enum ChildClass {
    Boot,
    Helper,
    Handler,
    Hook,
}

/// A variable of a child's environment.
#[derive(Drop)]
pub struct EnvVar {
    pub name: Text,
    pub value: Text,
}

/// What a child must leave alone: these disks, these files and what lies below them, and with `boot`
/// the boot variables.
#[derive(Drop)]
pub struct Spares {
    pub disks: Items<Text>,
    pub files: Items<Text>,
    pub boot: bool,
}

/// A program to run, with its arguments and what it adds to the environment.
#[derive(Drop)]
pub struct Child {
    pub class: ChildClass,
    pub program: Text,
    pub args: Items<Text>,
    pub env: Items<EnvVar>,
    pub spares: Spares,
}

/// How a child ended: with a status, or by a signal.
#[derive(Clone, Copy, Debug, PartialEq, Eq)]
pub enum Ended {
    Code(u8),
    Signal,
}

/// How many bytes are kept of each stream of a child.
pub const KEPT_OUTPUT: usize = 65_536;

/// The end of a child and the front of what it put out on each stream; `cut` tells whether there was
/// more in one of them.
#[derive(Drop)]
pub struct Exit {
    pub ended: Ended,
    pub out: Items<u8>,
    pub err: Items<u8>,
    pub cut: bool,
}

/// A child that was run, and its end.
#[derive(Drop)]
pub struct RunNote {
    pub child: Child,
    pub exit: Exit,
}

/// All that the updater can see or change: the bytes of disks and files, the ranges that were
/// written and not yet synced, every write and every child so far, the boot variables, and the
/// number of bytes that were read from files at an offset.
#[derive(Drop)]
pub struct World {
    pub disks: Items<Named>,
    pub pending: Items<Span>,
    pub writes: Items<Span>,
    pub files: Items<Named>,
    pub vars: Vars,
    pub runs: Items<RunNote>,
    pub fetched: u128,
}
