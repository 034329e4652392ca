ghost use Rattle.std.specs.Prelude.{◌≡◌, ◌+◌, ℕ, Bool, pos, length, IsTrue, IfOk};
ghost use Rattle.std.specs.Result.{result_unwrap_or};
ghost use Rattle.machine.specs.World.{file, readable, length_under, with_write};
ghost use Rattle.machine.specs.Past.{Clock, Past, Read, Replace, Size, Sync, Write, world_now};
ghost use Rattle.machine.specs.Calls.{Counted, Ends, FileCounted, FileEnds, WriteFits, IsKept, IsLong, ReadSome, ReadsFile, RunCounted, RunEnds};

use crate::{Child, Exit};
use std::alloc::Global;
use updater_text::Items;

/// Why a call gave no value: it failed, or it was out of memory and did nothing.
#[derive(Clone, Copy, Debug, PartialEq, Eq)]
pub enum CallStop {
    Failed,
    NoMemory,
}

/// Why a file was not read: the call failed, the file is longer than asked for (`length` bytes), or
/// out of memory.
#[derive(Clone, Copy, Debug, PartialEq, Eq)]
pub enum ReadStop {
    Failed,
    TooLong { length: u64 },
    NoMemory,
}

/// Why a child gave no end: the call failed, or it was out of memory and began no child.
#[derive(Clone, Copy, Debug, PartialEq, Eq)]
pub enum RunStop {
    Failed,
    NoMemory,
}

/// The calls through which the updater reaches the outside: each is one read, write, sync or
/// replacement, the asking for a length, one child, or a look at the clock. A machine may tell its
/// world and its past, which names its boot loader; what a call does to them, and the worlds in which
/// the power may stop inside it, are its contract.
pub trait Machine {
    /// Whether it tells its world and its past. It is of the type, so nothing changes it.
    ghost tells: { Bool };

    /// Its past, where it tells it.
    ghost past: { Self → Past };

    /// How often a call has failed.
    ghost faults: { Self → ℕ };

    /// How often a call has wanted memory.
    ghost wants: { Self → ℕ };

    /// The bytes of a file of at most `limit` bytes; None where there is no file. `TooLong` comes
    /// exactly where it is longer.
    fn file_read(
        &mut self,
        alloc: Global,
        path: &str,
        limit: u64,
    ) -> Result<Option<Items<u8>>, ReadStop>
        ensures past { IsTrue tells → FileEnds (past self.old) (past self.new) path.now result }
        ensures counts { FileCounted (faults self.old) (faults self.new) (wants self.old) (wants self.new) result }
        ensures answer { ReadsFile tells (file (world_now (past self.old)) path.now) limit result };

    /// The length in bytes of the disk or, where `disk` is false, of the disk or file; None where
    /// there is none. It is below 2^63.
    fn size(&mut self, path: &str, disk: bool) -> Result<Option<u64>, CallStop>
        ensures past { IsTrue tells → Ends (past self.old) (past self.new) (Size path.now) result }
        ensures counts { Counted (faults self.old) (faults self.new) (wants self.old) (wants self.new) result }
        ensures answer { IfOk result (IsLong tells (length_under (world_now (past self.old)) path.now disk)) };

    /// Reads bytes of a disk or file from byte `at` on into the front of `into`, and answers how
    /// many: 0 only at the end or for an empty `into`. A path that names nothing counts as empty.
    fn read_at(&mut self, path: &str, at: u64, into: &mut [u8]) -> Result<usize, CallStop>
        ensures past { IsTrue tells → Ends (past self.old) (past self.new) (Read path.now (result_unwrap_or result 0)) result }
        ensures counts { Counted (faults self.old) (faults self.new) (wants self.old) (wants self.new) result }
        ensures answer { IfOk result (ReadSome tells (readable (world_now (past self.old)) path.now) at into.old into.new) };

    /// Writes the bytes to a disk from byte `at` on. They are pending until a `sync`.
    fn write_at(&mut self, path: &str, at: u64, from: &[u8]) -> Result<(), CallStop>
        requires { WriteFits tells (past self.old) path.now (at + length from.now) }
        ensures past { IsTrue tells → Ends (past self.old) (past self.new) (Write path.now at (length from.now)) result }
        ensures counts { Counted (faults self.old) (faults self.new) (wants self.old) (wants self.new) result }
        ensures answer { IsTrue tells → IfOk result (λ _. world_now (past self.new) ≡ with_write (world_now (past self.old)) path.now at from.now) };

    /// Makes what was written to a disk last through a crash.
    fn sync(&mut self, path: &str) -> Result<(), CallStop>
        ensures past { IsTrue tells → Ends (past self.old) (past self.new) (Sync path.now) result }
        ensures counts { Counted (faults self.old) (faults self.new) (wants self.old) (wants self.new) result };

    /// Puts a file with these bytes in the place of the one at the path, or makes it. It is the old
    /// file or the new one at each moment, and after Ok the new one lasts through a crash.
    fn file_replace(&mut self, path: &str, bytes: &[u8]) -> Result<(), CallStop>
        ensures past { IsTrue tells → Ends (past self.old) (past self.new) (Replace path.now bytes.now) result }
        ensures counts { Counted (faults self.old) (faults self.new) (wants self.old) (wants self.new) result };

    /// Runs a program to its end, and keeps the first 65,536 bytes of what it puts out on each
    /// stream; `cut` of its exit tells whether there was more. It leaves alone what it must spare. A
    /// boot program leaves all but the boot variables alone, which it changes as its words say, wholly
    /// or not at all; one that ended with 0 changed them wholly.
    /// `Failed` tells that it gave no end: it may have been started all the same, and killed in the
    /// middle, so what it need not spare may have changed; it does not stand in the runs.
    fn run(&mut self, alloc: Global, child: &Child) -> Result<Exit, RunStop>
        ensures past { IsTrue tells → RunEnds (past self.old) (past self.new) child.now result }
        ensures counts { RunCounted (faults self.old) (faults self.new) (wants self.old) (wants self.new) result }
        ensures kept { IfOk result IsKept };

    /// What the clock says, in seconds since 1970.
    fn now(&mut self) -> Result<i64, CallStop>
        ensures past { IsTrue tells → Ends (past self.old) (past self.new) (Clock (result_unwrap_or result (pos 0))) result }
        ensures counts { Counted (faults self.old) (faults self.new) (wants self.old) (wants self.new) result };
}
