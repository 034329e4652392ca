ghost use Rattle.std.specs.Prelude.{◌≡◌, ◌+◌, ◌↔◌, [], ◌∷◌, true, false, pos, length, vec_len, IsTrue, IsOk, IfOk, OnOk, OnErr, if◌then◌else◌};
ghost use Rattle.std.specs.Result.{result_unwrap_or};
ghost use Rattle.machine.specs.World.{HoldsUpTo, file, readable, length_under, with_write};
ghost use Rattle.machine.specs.Spares.{is_boot};
ghost use Rattle.machine.specs.Past.{Clock, Read, Replace, Run, Size, Sync, Write, world_now};
ghost use Rattle.machine.specs.Calls.{Counted, Ends, FileCounted, FileEnds, WriteFits, IsKept, IsLong, ReadSome, ReadsFile, RunCounted, RunEnds};
ghost use Rattle.undo_log.specs.Logged.{past_of_log};

use crate::scripts::{boot_exit, effects_of, exit_of, script_for};
use crate::setup::{Script, Setup};
use boot_model::{BootKind, Vars};
use boot_programs::{ProgramEnd, program};
use machine::{
    CallStop, Child, ChildClass, Exit, Machine, Named, ReadStop, RunStop, TryClone, World, words_of,
};
use std::alloc::Global;
use undo_log::{NotedCall, UndoLog, Whole, has_room};
use updater_text::{Items, NoMemory, Text};

/// A machine in memory, which tells its world and its past.
///
/// A call takes its memory first: without it, it does nothing and has no number. The
/// other calls are numbered from 1. A call fails exactly where its number is named by the setup, or
/// there is a stop at it or before. It does nothing then, but for a write at the stop whose number is
/// not named: its range is pending, and its first half is written.
///
/// A child takes the first script of its program whose arguments are a front of the child's; one
/// without a script ends with 127. What it must leave alone stays as it is, whatever its script says.
/// A boot program without a script does over the boot variables what its words say. One with a script
/// ends and prints as that says; where that is status 0, it changes the variables as its words say,
/// and else it leaves them. Of each stream 65,536 bytes are kept.
///
/// It keeps what takes its calls back, and no copy of the world that it began with.
#[derive(Drop)]
pub struct Bench {
    pub(crate) alloc: Global,
    pub(crate) log: UndoLog,
    pub(crate) scripts: Items<Script>,
    pub(crate) fails: Items<u64>,
    pub(crate) stop: Option<u64>,
    pub(crate) clock: i64,
    pub(crate) faults: u64,
    pub(crate) wants: u64,
}

// A world with nothing pending, no writes and no runs, and its empty log.
fn start(
    alloc: Global,
    boot: BootKind,
    disks: Items<Named>,
    files: Items<Named>,
    vars: Vars,
) -> UndoLog
    ensures world { result.world ≡ record { disks = disks; pending = []; writes = []; files = files; vars = vars; runs = []; fetched = 0 } }
    ensures notes { result.notes.items ≡ [] }
    ensures boot { result.boot ≡ boot }
{
    UndoLog {
        world: World {
            disks,
            pending: Items::new(alloc),
            writes: Items::new(alloc),
            files,
            vars,
            runs: Items::new(alloc),
            fetched: 0,
        },
        notes: Vec::new(alloc),
        boot,
    }
}

impl Bench {
    ghost use Rattle.machine_bench.specs.Numbered.{IsSetUp};

    /// A bench with this setup, on which nothing is pending and no call was made. Of equal paths the
    /// first one counts.
    pub fn new(alloc: Global, setup: Setup) -> Result<Bench, NoMemory>
        ensures made { IsOk result }
        ensures past { IfOk result (λ b. past_of_log b.log ≡ record { boot = setup.boot; first = record { disks = setup.disks; pending = []; writes = []; files = setup.files; vars = setup.vars; runs = []; fetched = 0 }; moments = [] }) }
        ensures setup { IfOk result (λ b. IsSetUp setup b) }
    {
        let Setup {
            disks,
            files,
            boot,
            vars,
            scripts,
            fails,
            stop,
            now,
        } = setup;
        Ok(Bench {
            alloc,
            log: start(alloc, boot, disks, files, vars),
            scripts,
            fails,
            stop,
            clock: now,
            faults: 0,
            wants: 0,
        })
    }

    /// The world as it is now, once more.
    pub fn world(&self) -> Result<World, NoMemory>
        ensures { IfOk result (λ w. w ≡ world_now (past_of_log self.now.log)) }
    {
        self.log.world.try_clone(self.alloc)
    }

    /// Whether the disk has room for a write up to this end.
    pub fn has_room(&self, path: &str, end: u64) -> bool
        ensures { IsTrue result ↔ HoldsUpTo (world_now (past_of_log self.now.log)) path.now end }
    {
        has_room(&self.log.world, path, end, 0)
    }

    /// How often a call has failed.
    pub fn faults(&self) -> u64
        ensures { result ≡ self.now.faults }
    {
        self.faults
    }

    /// How many calls were numbered.
    pub fn calls(&self) -> u64
        ensures { result ≡ vec_len self.now.log.notes }
    {
        self.log.notes.len() as u64
    }
}

impl Bench {
    ghost use Rattle.machine.specs.Past.{Broken, Done, Run};
    ghost use Rattle.undo_log.specs.Logged.{SameLog, NotesCall, end_if};
    ghost use Rattle.undo_log.specs.Halves.{with_half_write};
    ghost use Rattle.boot_programs.specs.Programs.{program};
    ghost use Rattle.machine_bench.specs.Scripts as scripts;
    ghost use Rattle.machine_bench.specs.Numbered.{SameBench, SameSetup, IsAnswer, fails_next, halves_next, is_failing_number};

    // The number of the next call.
    fn number(&self) -> u64
        ensures { result ≡ vec_len self.now.log.notes + 1 }
    {
        self.calls() + 1
    }

    // Whether the next call is one of those that are named to fail.
    fn is_failing_number(&self) -> bool
        ensures { result ≡ is_failing_number self.now.fails (vec_len self.now.log.notes + 1) }
    {
        self.fails.as_slice().contains(&self.number())
    }

    // Whether the next call fails.
    fn is_failing(&self) -> bool
        ensures { result ≡ fails_next self.now }
    {
        self.is_failing_number() || self.stop.is_some_and(|stop| stop <= self.number())
    }

    // Whether the next call, if it is a write, is half done.
    fn is_halving(&self) -> bool
        ensures { result ≡ halves_next self.now }
    {
        !self.is_failing_number() && self.stop == Some(self.number())
    }

    // The answer to a call, which counts what failed or wanted memory.
    fn settle<T: Drop>(&mut self, noted: Result<T, NoMemory>, fails: bool) -> Result<T, CallStop>
        ensures log { self.new.log ≡ self.old.log }
        ensures setup { SameSetup self.old self.new }
        ensures counts { Counted self.old.faults self.new.faults self.old.wants self.new.wants result }
        ensures answer { IsAnswer noted fails self.old.faults self.new.faults self.old.wants self.new.wants result }
    {
        match noted {
            Ok(_) if fails => {
                self.faults = self.faults.saturating_add(1);
                Err(CallStop::Failed)
            }
            Ok(value) => Ok(value),
            Err(NoMemory) => {
                self.wants = self.wants.saturating_add(1);
                Err(CallStop::NoMemory)
            }
        }
    }

    // Writes, or is stopped at it, or fails by its number.
    fn write_noted(&mut self, path: &str, at: u64, from: &[u8], fails: bool) -> Result<(), NoMemory>
        requires room { HoldsUpTo self.old.log.world path.now (at + length from.now) }
        requires fails { fails ≡ fails_next self.old }
        ensures ok { OnOk result (NotesCall self.old.log self.new.log (Write path.now at (length from.now)) (end_if fails)) }
        ensures left { fails ≡ false → OnOk result (self.new.log.world ≡ with_write self.old.log.world path.now at from.now) }
        ensures failed { fails ≡ true → OnOk result (self.new.log.world ≡ (if halves_next self.old then with_half_write self.old.log.world path.now at from.now else self.old.log.world)) }
        ensures err { OnErr result (SameLog self.old.log self.new.log) }
        ensures same { SameBench self.old self.new }
    {
        if !fails {
            return self.log.write(self.alloc, path, at, from);
        }
        if self.is_halving() {
            return self.log.write_half(self.alloc, path, at, from);
        }
        let path = Text::new(self.alloc, path)?;
        let count = from.len() as u64;
        self.log
            .refuse(self.alloc, NotedCall::Write { path, at, count })
    }

    // Runs a child, which is no boot program, by its script, or fails by its number.
    fn run_scripted(&mut self, alloc: Global, child: &Child, fails: bool) -> Result<Exit, NoMemory>
        requires { is_boot child.now.class ≡ false }
        ensures ok { OnOk result (NotesCall self.old.log self.new.log (Run child.now) (end_if fails)) }
        ensures exit { IfOk result (λ exit. exit ≡ scripts.exit_of (scripts.script_for self.old.scripts child.now)) }
        ensures ran { fails ≡ false → OnOk result (self.new.log.world ≡ scripts.after_script (scripts.script_for self.old.scripts child.now) child.now self.old.log.world) }
        ensures failed { fails ≡ true → self.new.log.world ≡ self.old.log.world }
        ensures kept { IfOk result IsKept }
        ensures err { OnErr result (SameLog self.old.log self.new.log) }
        ensures same { SameBench self.old self.new }
    {
        let script = script_for(self.scripts.as_slice(), child);
        let exit = exit_of(alloc, script)?;
        self.log
            .run(alloc, child, &exit, effects_of(script), fails)?;
        Ok(exit)
    }

    // What a boot program does over the variables as they are.
    fn program_end(&self, alloc: Global, child: &Child) -> Result<ProgramEnd, NoMemory>
        ensures { IfOk result (λ end. end ≡ program self.now.log.boot (child.now.program ∷ child.now.args) self.now.log.world.vars) }
    {
        let words = words_of(alloc, child)?;
        program(
            alloc,
            &self.log.boot,
            words.as_slice(),
            &self.log.world.vars,
        )
    }

    // Runs a boot program by what it does, of which a script says how it ends and what it puts out, or
    // fails by its number.
    fn run_boot(&mut self, alloc: Global, child: &Child, fails: bool) -> Result<Exit, NoMemory>
        requires { is_boot child.now.class ≡ true }
        ensures ok { OnOk result (NotesCall self.old.log self.new.log (Run child.now) (end_if fails)) }
        ensures exit { IfOk result (λ exit. exit ≡ scripts.child_exit (scripts.script_for self.old.scripts child.now) self.old.log.boot child.now self.old.log.world) }
        ensures ran { fails ≡ false → OnOk result (self.new.log.world ≡ scripts.after_child (scripts.script_for self.old.scripts child.now) self.old.log.boot child.now self.old.log.world) }
        ensures failed { fails ≡ true → self.new.log.world ≡ self.old.log.world }
        ensures kept { IfOk result IsKept }
        ensures err { OnErr result (SameLog self.old.log self.new.log) }
        ensures same { SameBench self.old self.new }
    {
        let end = self.program_end(alloc, child)?;
        let script = script_for(self.scripts.as_slice(), child);
        let exit = boot_exit(alloc, script, &end)?;
        self.log.run_boot(alloc, child, &exit, end.vars, fails)?;
        Ok(exit)
    }

    // Runs a child, or fails by its number.
    fn run_noted(&mut self, alloc: Global, child: &Child, fails: bool) -> Result<Exit, NoMemory>
        ensures ok { OnOk result (NotesCall self.old.log self.new.log (Run child.now) (end_if fails)) }
        ensures exit { IfOk result (λ exit. exit ≡ scripts.child_exit (scripts.script_for self.old.scripts child.now) self.old.log.boot child.now self.old.log.world) }
        ensures ran { fails ≡ false → OnOk result (self.new.log.world ≡ scripts.after_child (scripts.script_for self.old.scripts child.now) self.old.log.boot child.now self.old.log.world) }
        ensures failed { fails ≡ true → self.new.log.world ≡ self.old.log.world }
        ensures kept { IfOk result IsKept }
        ensures err { OnErr result (SameLog self.old.log self.new.log) }
        ensures same { SameBench self.old self.new }
    {
        if child.class == ChildClass::Boot {
            self.run_boot(alloc, child, fails)
        } else {
            self.run_scripted(alloc, child, fails)
        }
    }
}

impl Machine for Bench {
    ghost use Rattle.undo_log.specs.Halves.{with_half_write};
    ghost use Rattle.machine_bench.specs.Numbered.{FileObeys, Obeys, RunObeys, SameSetup, halves_next};

    ghost tells = { true };

    ghost past = { λ b. past_of_log b.log };

    ghost faults = { λ b. b.faults };

    ghost wants = { λ b. b.wants };

    fn file_read(
        &mut self,
        alloc: Global,
        path: &str,
        limit: u64,
    ) -> Result<Option<Items<u8>>, ReadStop>
        ensures past { IsTrue true → FileEnds (past_of_log self.old.log) (past_of_log self.new.log) path.now result }
        ensures counts { FileCounted self.old.faults self.new.faults self.old.wants self.new.wants result }
        ensures answer { ReadsFile true (file (world_now (past_of_log self.old.log)) path.now) limit result }
        ensures obeys { FileObeys self.old self.new result }
        ensures setup { SameSetup self.old self.new }
    {
        let fails = self.is_failing();
        let noted = self.log.file(alloc, path, limit, fails);
        match self.settle(noted, fails) {
            Ok(Whole::Bytes(bytes)) => Ok(bytes),
            Ok(Whole::TooLong(length)) => Err(ReadStop::TooLong { length }),
            Err(CallStop::Failed) => Err(ReadStop::Failed),
            Err(CallStop::NoMemory) => Err(ReadStop::NoMemory),
        }
    }

    fn size(&mut self, path: &str, disk: bool) -> Result<Option<u64>, CallStop>
        ensures past { IsTrue true → Ends (past_of_log self.old.log) (past_of_log self.new.log) (Size path.now) result }
        ensures counts { Counted self.old.faults self.new.faults self.old.wants self.new.wants result }
        ensures answer { IfOk result (IsLong true (length_under (world_now (past_of_log self.old.log)) path.now disk)) }
        ensures obeys { Obeys self.old self.new self.old.log.world result }
        ensures setup { SameSetup self.old self.new }
    {
        let fails = self.is_failing();
        let noted = self.log.size(self.alloc, path, disk, fails);
        self.settle(noted, fails)
    }

    fn read_at(&mut self, path: &str, at: u64, into: &mut [u8]) -> Result<usize, CallStop>
        ensures past { IsTrue true → Ends (past_of_log self.old.log) (past_of_log self.new.log) (Read path.now (result_unwrap_or result 0)) result }
        ensures counts { Counted self.old.faults self.new.faults self.old.wants self.new.wants result }
        ensures answer { IfOk result (ReadSome true (readable (world_now (past_of_log self.old.log)) path.now) at into.old into.new) }
        ensures obeys { Obeys self.old self.new self.old.log.world result }
        ensures unread { OnErr result (into.new ≡ into.old) }
        ensures setup { SameSetup self.old self.new }
    {
        let fails = self.is_failing();
        let noted = self.log.read(self.alloc, path, at, into, fails);
        self.settle(noted, fails)
    }

    fn write_at(&mut self, path: &str, at: u64, from: &[u8]) -> Result<(), CallStop>
        requires { WriteFits true (past_of_log self.old.log) path.now (at + length from.now) }
        ensures past { IsTrue true → Ends (past_of_log self.old.log) (past_of_log self.new.log) (Write path.now at (length from.now)) result }
        ensures counts { Counted self.old.faults self.new.faults self.old.wants self.new.wants result }
        ensures answer { IsTrue true → IfOk result (λ _. world_now (past_of_log self.new.log) ≡ with_write (world_now (past_of_log self.old.log)) path.now at from.now) }
        ensures obeys { Obeys self.old self.new (if halves_next self.old then with_half_write self.old.log.world path.now at from.now else self.old.log.world) result }
        ensures setup { SameSetup self.old self.new }
    {
        let fails = self.is_failing();
        let noted = self.write_noted(path, at, from, fails);
        self.settle(noted, fails)
    }

    fn sync(&mut self, path: &str) -> Result<(), CallStop>
        ensures past { IsTrue true → Ends (past_of_log self.old.log) (past_of_log self.new.log) (Sync path.now) result }
        ensures counts { Counted self.old.faults self.new.faults self.old.wants self.new.wants result }
        ensures obeys { Obeys self.old self.new self.old.log.world result }
        ensures setup { SameSetup self.old self.new }
    {
        let fails = self.is_failing();
        let noted = self.log.sync(self.alloc, path, fails);
        self.settle(noted, fails)
    }

    fn file_replace(&mut self, path: &str, bytes: &[u8]) -> Result<(), CallStop>
        ensures past { IsTrue true → Ends (past_of_log self.old.log) (past_of_log self.new.log) (Replace path.now bytes.now) result }
        ensures counts { Counted self.old.faults self.new.faults self.old.wants self.new.wants result }
        ensures obeys { Obeys self.old self.new self.old.log.world result }
        ensures setup { SameSetup self.old self.new }
    {
        let fails = self.is_failing();
        let noted = self.log.replace(self.alloc, path, bytes, fails);
        self.settle(noted, fails)
    }

    fn run(&mut self, alloc: Global, child: &Child) -> Result<Exit, RunStop>
        ensures past { IsTrue true → RunEnds (past_of_log self.old.log) (past_of_log self.new.log) child.now result }
        ensures counts { RunCounted self.old.faults self.new.faults self.old.wants self.new.wants result }
        ensures kept { IfOk result IsKept }
        ensures obeys { RunObeys self.old self.new child.now result }
        ensures setup { SameSetup self.old self.new }
    {
        let fails = self.is_failing();
        let noted = self.run_noted(alloc, child, fails);
        match self.settle(noted, fails) {
            Ok(exit) => Ok(exit),
            Err(CallStop::Failed) => Err(RunStop::Failed),
            Err(CallStop::NoMemory) => Err(RunStop::NoMemory),
        }
    }

    fn now(&mut self) -> Result<i64, CallStop>
        ensures past { IsTrue true → Ends (past_of_log self.old.log) (past_of_log self.new.log) (Clock (result_unwrap_or result (pos 0))) result }
        ensures counts { Counted self.old.faults self.new.faults self.old.wants self.new.wants result }
        ensures said { IfOk result (λ seconds. seconds ≡ self.old.clock) }
        ensures obeys { Obeys self.old self.new self.old.log.world result }
        ensures setup { SameSetup self.old self.new }
    {
        let fails = self.is_failing();
        let noted = self.log.clock(self.alloc, self.clock, fails);
        self.settle(noted, fails)
    }
}
