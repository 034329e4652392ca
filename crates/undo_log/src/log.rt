ghost use Rattle.std.specs.Prelude.{◌≡◌, ◌+◌, ◌++◌, ◌<◌, [], ◌∷◌, true, false, pos, length, vec_len, IfOk, OnOk, OnErr};
ghost use Rattle.std.specs.Vec.{vec_capacity};
ghost use Rattle.machine.specs.World.{HoldsUpTo, file, readable, length_under, with_write};
ghost use Rattle.machine.specs.Past.{Broken, Clock, Done, File, Read, Replace, Run, Size, Sync, Write};
ghost use Rattle.machine.specs.Calls.{IsLong, ReadSome};
ghost use Rattle.machine.specs.Leaves.{program_vars};
ghost use Rattle.machine.specs.Spares.{is_boot};
ghost use Rattle.undo_log.specs.Effects.{after_effects, with_boot_run, with_run};
ghost use Rattle.undo_log.specs.Logged.{end_if};
ghost use Rattle.undo_log.specs.Undo.{past_call, past_end, changes_of_read};
ghost use Rattle.undo_log.specs.Whole.{WholeFound, end_whole};

use crate::changes::{copy_range, count_read, half_new, put_change, spans_besides, write_change};
use crate::effect::Effect;
use crate::effects;
use crate::lookup::{bytes_of, bytes_read, copy_at, count_at, size_under, whole_file};
use crate::notes::{Change, Note, NotedCall, NotedEnd, Whole};
use boot_model::{BootKind, Vars};
use machine::{Child, Exit, Span, TryClone, World, copy_bytes};
use std::alloc::Global;
use std::mem;
use updater_text::{Items, NoMemory, Text};

// How a call ends that is to fail, or not.
fn end_if(fails: bool) -> NotedEnd
    ensures { past_end result ≡ end_if fails }
{
    if fails {
        NotedEnd::Failed
    } else {
        NotedEnd::Done
    }
}

// How the reading of a whole file ends that found this.
fn whole_end(found: &Whole) -> NotedEnd
    ensures { past_end result ≡ end_whole false found.now }
{
    match found {
        Whole::Bytes(_) => NotedEnd::Done,
        Whole::TooLong(_) => NotedEnd::TooLong,
    }
}

/// A world, its calls so far with what takes them back, and the boot loader that its past tells.
///
/// A call that `fails` is noted as failed and does nothing, and what it answers means nothing. The only
/// error is out of memory. A call takes its memory first: without it, nothing is changed and nothing
/// noted.
#[derive(Drop)]
pub struct UndoLog {
    pub world: World,
    pub notes: Vec<Note>,
    pub boot: BootKind,
}

impl UndoLog {
    ghost use Rattle.undo_log.specs.Logged.{SameLog, NotesCall};

    // Makes room for one note more, and for one change in it. It leaves nothing to fail after it.
    fn room_for_note(&mut self, alloc: Global) -> Result<Vec<Change>, NoMemory>
        ensures notes { self.new.notes.items ≡ self.old.notes.items }
        ensures world { self.new.world ≡ self.old.world }
        ensures boot { self.new.boot ≡ self.old.boot }
        ensures room { OnOk result (vec_len self.new.notes < vec_capacity self.new.notes) }
        ensures empty { IfOk result (λ changes. changes.items ≡ []) }
        ensures change { IfOk result (λ changes. 0 < vec_capacity changes) }
    {
        self.notes.reserve(1)?;
        Ok(Vec::with_capacity(alloc, 1)?)
    }

    // Adds a note, for which there is room.
    fn push_note(&mut self, call: NotedCall, end: NotedEnd, changes: Items<Change>)
        requires { vec_len self.old.notes < vec_capacity self.old.notes }
        ensures notes { self.new.notes.items ≡ self.old.notes.items ++ record { call = call; end = end; changes = changes } ∷ [] }
        ensures world { self.new.world ≡ self.old.world }
        ensures boot { self.new.boot ≡ self.old.boot }
    {
        self.notes.push_reserved(Note { call, end, changes });
    }

    // Adds a note with one change, for both of which there is room.
    fn push_change(
        &mut self,
        call: NotedCall,
        end: NotedEnd,
        mut changes: Vec<Change>,
        change: Change,
    )
        requires notes { vec_len self.old.notes < vec_capacity self.old.notes }
        requires change { 0 < vec_capacity changes }
        requires empty { changes.items ≡ [] }
        ensures notes { self.new.notes.items ≡ self.old.notes.items ++ record { call = call; end = end; changes = change ∷ [] } ∷ [] }
        ensures world { self.new.world ≡ self.old.world }
        ensures boot { self.new.boot ≡ self.old.boot }
    {
        changes.push_reserved(change);
        self.push_note(call, end, Items::from_vec(changes));
    }

    // Notes a call that changed nothing.
    fn note(&mut self, alloc: Global, call: NotedCall, end: NotedEnd) -> Result<(), NoMemory>
        ensures ok { OnOk result (self.new.notes.items ≡ self.old.notes.items ++ record { call = call; end = end; changes = [] } ∷ []) }
        ensures err { OnErr result (self.new.notes.items ≡ self.old.notes.items) }
        ensures world { self.new.world ≡ self.old.world }
        ensures boot { self.new.boot ≡ self.old.boot }
    {
        let changes = Items::new(alloc);
        self.notes.push(Note { call, end, changes })?;
        Ok(())
    }

    /// A call that fails and does nothing.
    pub fn refuse(&mut self, alloc: Global, call: NotedCall) -> Result<(), NoMemory>
        ensures ok { OnOk result (NotesCall self.old self.new (past_call call) Broken) }
        ensures world { self.new.world ≡ self.old.world }
        ensures err { OnErr result (SameLog self.old self.new) }
    {
        self.note(alloc, call, NotedEnd::Failed)
    }

    /// The reading of a whole file of at most `limit` bytes.
    pub fn file(
        &mut self,
        alloc: Global,
        path: &str,
        limit: u64,
        fails: bool,
    ) -> Result<Whole, NoMemory>
        ensures ok { IfOk result (λ found. NotesCall self.old self.new (File path.now) (end_whole fails found)) }
        ensures found { fails ≡ false → IfOk result (WholeFound (file self.old.world path.now) limit) }
        ensures world { self.new.world ≡ self.old.world }
        ensures err { OnErr result (SameLog self.old self.new) }
    {
        if fails {
            let path = Text::new(alloc, path)?;
            self.refuse(alloc, NotedCall::File { path })?;
            return Ok(Whole::Bytes(None));
        }
        let found = whole_file(alloc, self.world.files.as_slice(), path, limit)?;
        let path = Text::new(alloc, path)?;
        self.note(alloc, NotedCall::File { path }, whole_end(&found))?;
        Ok(found)
    }

    /// The asking of a length.
    pub fn size(
        &mut self,
        alloc: Global,
        path: &str,
        disk: bool,
        fails: bool,
    ) -> Result<Option<u64>, NoMemory>
        ensures ok { OnOk result (NotesCall self.old self.new (Size path.now) (end_if fails)) }
        ensures size { fails ≡ false → IfOk result (IsLong true (length_under self.old.world path.now disk)) }
        ensures world { self.new.world ≡ self.old.world }
        ensures err { OnErr result (SameLog self.old self.new) }
    {
        let size = size_under(&self.world, path, disk);
        let path = Text::new(alloc, path)?;
        self.note(alloc, NotedCall::Size { path }, end_if(fails))?;
        Ok(size)
    }

    /// A look at the clock, which says these seconds.
    pub fn clock(&mut self, alloc: Global, seconds: i64, fails: bool) -> Result<i64, NoMemory>
        ensures done { fails ≡ false → IfOk result (λ said. NotesCall self.old self.new (Clock said) Done) }
        ensures said { IfOk result (λ said. said ≡ seconds) }
        ensures failed { fails ≡ true → OnOk result (NotesCall self.old self.new (Clock (pos 0)) Broken) }
        ensures world { self.new.world ≡ self.old.world }
        ensures err { OnErr result (SameLog self.old self.new) }
    {
        if fails {
            self.refuse(alloc, NotedCall::Clock { seconds: 0 })?;
            return Ok(seconds);
        }
        self.note(alloc, NotedCall::Clock { seconds }, NotedEnd::Done)?;
        Ok(seconds)
    }
}

impl UndoLog {
    ghost use Rattle.undo_log.specs.Logged.{SameLog, NotesCall, NotesWrite};
    ghost use Rattle.undo_log.specs.Halves.{with_half_write};
    ghost use Rattle.undo_log.specs.declared.notes.Change.TheVariants.{Synced};
    ghost use Rattle.undo_log.specs.declared.notes.NotedCall.TheVariants as noted;
    ghost use Rattle.undo_log.specs.declared.notes.NotedEnd.TheVariants as noted_end;

    /// A sync of a disk.
    pub fn sync(&mut self, alloc: Global, path: &str, fails: bool) -> Result<(), NoMemory>
        ensures ok { OnOk result (NotesCall self.old self.new (Sync path.now) (end_if fails)) }
        ensures failed { fails ≡ true → self.new.world ≡ self.old.world }
        ensures err { OnErr result (SameLog self.old self.new) }
    {
        let path_copy = Text::new(alloc, path)?;
        if fails {
            return self.refuse(alloc, NotedCall::Sync { path: path_copy });
        }
        self.sync_path(alloc, path_copy)
    }

    // A sync of a disk that is done.
    fn sync_path(&mut self, alloc: Global, path: Text) -> Result<(), NoMemory>
        ensures ok { OnOk result (NotesCall self.old self.new (Sync path) Done) }
        ensures err { OnErr result (SameLog self.old self.new) }
    {
        let others = spans_besides(alloc, &self.world, path.as_str())?;
        let changes = self.room_for_note(alloc)?;
        self.push_sync(path, others, changes);
        Ok(())
    }

    // Leaves only these ranges pending, and notes a sync, for which there is room.
    fn push_sync(&mut self, path: Text, others: Items<Span>, changes: Vec<Change>)
        requires notes { vec_len self.old.notes < vec_capacity self.old.notes }
        requires change { 0 < vec_capacity changes }
        requires empty { changes.items ≡ [] }
        ensures notes { self.new.notes.items ≡ self.old.notes.items ++ record { call = noted.Sync path; end = noted_end.Done; changes = Synced self.old.world.pending ∷ [] } ∷ [] }
        ensures world { self.new.world ≡ record self.old.world { pending = others } }
        ensures boot { self.new.boot ≡ self.old.boot }
    {
        let pending = mem::replace(&mut self.world.pending, others);
        let change = Change::Synced { pending };
        self.push_change(NotedCall::Sync { path }, NotedEnd::Done, changes, change);
    }

    // A write of a range of a disk, which ends so.
    fn write_bytes(
        &mut self,
        alloc: Global,
        path: &str,
        at: u64,
        bytes: &[u8],
        end: NotedEnd,
    ) -> Result<(), NoMemory>
        requires { HoldsUpTo self.old.world path.now (at + length bytes.now) }
        ensures ok { OnOk result (NotesWrite self.old self.new path.now at bytes.now end) }
        ensures err { OnErr result (SameLog self.old self.new) }
    {
        let count = bytes.len() as u64;
        let path_copy = Text::new(alloc, path)?;
        let changes = self.room_for_note(alloc)?;
        let change = write_change(alloc, &mut self.world, path, at, bytes)?;
        let path = path_copy;
        self.push_change(NotedCall::Write { path, at, count }, end, changes, change);
        Ok(())
    }

    /// A write of a range of a disk.
    pub fn write(&mut self, alloc: Global, path: &str, at: u64, from: &[u8]) -> Result<(), NoMemory>
        requires { HoldsUpTo self.old.world path.now (at + length from.now) }
        ensures ok { OnOk result (NotesCall self.old self.new (Write path.now at (length from.now)) Done) }
        ensures left { OnOk result (self.new.world ≡ with_write self.old.world path.now at from.now) }
        ensures err { OnErr result (SameLog self.old self.new) }
    {
        self.write_bytes(alloc, path, at, from, NotedEnd::Done)
    }

    /// A write that the power stops: it is half done, and fails.
    pub fn write_half(
        &mut self,
        alloc: Global,
        path: &str,
        at: u64,
        from: &[u8],
    ) -> Result<(), NoMemory>
        requires { HoldsUpTo self.old.world path.now (at + length from.now) }
        ensures ok { OnOk result (NotesCall self.old self.new (Write path.now at (length from.now)) Broken) }
        ensures half { OnOk result (self.new.world ≡ with_half_write self.old.world path.now at from.now) }
        ensures err { OnErr result (SameLog self.old self.new) }
    {
        let disks = self.world.disks.as_slice();
        let old = copy_range(alloc, disks, path, at as usize, from.len())?;
        let half = half_new(alloc, from, old.as_slice())?;
        self.write_bytes(alloc, path, at, half.as_slice(), NotedEnd::Failed)
    }

    /// A read at an offset, which answers how many bytes it gave. What cannot be counted any more
    /// is not read: it is out of memory.
    pub fn read(
        &mut self,
        alloc: Global,
        path: &str,
        at: u64,
        into: &mut [u8],
        fails: bool,
    ) -> Result<usize, NoMemory>
        ensures ok { IfOk result (λ count. NotesCall self.old self.new (Read path.now count) (end_if fails)) }
        ensures failed { fails ≡ true → IfOk result (λ count. count ≡ 0) }
        ensures unread { fails ≡ true → into.new ≡ into.old }
        ensures same { fails ≡ true → self.new.world ≡ self.old.world }
        ensures read { fails ≡ false → IfOk result (ReadSome true (readable self.old.world path.now) at into.old into.new) }
        ensures err { OnErr result (SameLog self.old self.new) }
        ensures untouched { OnErr result (into.new ≡ into.old) }
    {
        let path_copy = Text::new(alloc, path)?;
        if fails {
            let path = path_copy;
            self.refuse(alloc, NotedCall::Read { path, count: 0 })?;
            return Ok(0);
        }
        let count = count_at(bytes_read(&self.world, path), at, into.len());
        self.note_read(alloc, path_copy, count as u64)?;
        copy_at(bytes_read(&self.world, path), at, into);
        Ok(count)
    }

    // Counts the bytes of a read, and notes it.
    fn note_read(&mut self, alloc: Global, path: Text, count: u64) -> Result<(), NoMemory>
        ensures ok { OnOk result (NotesCall self.old self.new (Read path count) Done) }
        ensures found { OnOk result (readable self.new.world path ≡ readable self.old.world path) }
        ensures err { OnErr result (SameLog self.old self.new) }
    {
        if u128::from(count) > u128::MAX - self.world.fetched {
            return Err(NoMemory);
        }
        let changes = self.room_for_note(alloc)?;
        let changes = count_read(&mut self.world, path.as_str(), count, changes);
        self.push_note(NotedCall::Read { path, count }, NotedEnd::Done, changes);
        Ok(())
    }
}

impl UndoLog {
    ghost use Rattle.undo_log.specs.Logged.{SameLog, NotesCall};

    /// A replacement of a file.
    pub fn replace(
        &mut self,
        alloc: Global,
        path: &str,
        bytes: &[u8],
        fails: bool,
    ) -> Result<(), NoMemory>
        ensures ok { OnOk result (NotesCall self.old self.new (Replace path.now bytes.now) (end_if fails)) }
        ensures failed { fails ≡ true → self.new.world ≡ self.old.world }
        ensures err { OnErr result (SameLog self.old self.new) }
    {
        let path = Text::new(alloc, path)?;
        let bytes = copy_bytes(alloc, bytes)?;
        if fails {
            return self.refuse(alloc, NotedCall::Replace { path, bytes });
        }
        self.replace_file(alloc, path, bytes)
    }

    // A replacement of a file that is done.
    fn replace_file(&mut self, alloc: Global, path: Text, bytes: Items<u8>) -> Result<(), NoMemory>
        ensures ok { OnOk result (NotesCall self.old self.new (Replace path bytes) Done) }
        ensures err { OnErr result (SameLog self.old self.new) }
    {
        let changes = self.room_for_note(alloc)?;
        let change = put_change(alloc, &mut self.world, path.as_str(), bytes.as_slice())?;
        self.push_change(
            NotedCall::Replace { path, bytes },
            NotedEnd::Done,
            changes,
            change,
        );
        Ok(())
    }

    /// The run of a child, which is no boot program, that ends so, with these effects.
    pub fn run(
        &mut self,
        alloc: Global,
        child: &Child,
        exit: &Exit,
        effects: &[Effect],
        fails: bool,
    ) -> Result<(), NoMemory>
        requires { is_boot child.now.class ≡ false }
        ensures ok { OnOk result (NotesCall self.old self.new (Run child.now) (end_if fails)) }
        ensures ran { fails ≡ false → OnOk result (self.new.world ≡ after_effects child.now effects.now (with_run self.old.world child.now exit.now)) }
        ensures failed { fails ≡ true → self.new.world ≡ self.old.world }
        ensures err { OnErr result (SameLog self.old self.new) }
    {
        if fails {
            let child = child.try_clone(alloc)?;
            return self.refuse(alloc, NotedCall::Run { child });
        }
        self.run_child(alloc, child, exit, effects)
    }

    // The run of a child that is done.
    fn run_child(
        &mut self,
        alloc: Global,
        child: &Child,
        exit: &Exit,
        effects: &[Effect],
    ) -> Result<(), NoMemory>
        requires { is_boot child.now.class ≡ false }
        ensures ok { OnOk result (NotesCall self.old self.new (Run child.now) Done) }
        ensures ran { OnOk result (self.new.world ≡ after_effects child.now effects.now (with_run self.old.world child.now exit.now)) }
        ensures err { OnErr result (SameLog self.old self.new) }
    {
        self.notes.reserve(1)?;
        let child_copy = child.try_clone(alloc)?;
        let changes = effects::run(alloc, &mut self.world, child, exit, effects)?;
        let child = child_copy;
        self.push_note(NotedCall::Run { child }, NotedEnd::Done, changes);
        Ok(())
    }

    /// The run of a boot program that ends so. These are the variables that it makes of those of the
    /// world, and it leaves them where it ends with 0.
    pub fn run_boot(
        &mut self,
        alloc: Global,
        child: &Child,
        exit: &Exit,
        vars: Vars,
        fails: bool,
    ) -> Result<(), NoMemory>
        requires class { is_boot child.now.class ≡ true }
        requires vars { vars ≡ program_vars self.old.boot child.now self.old.world.vars }
        ensures ok { OnOk result (NotesCall self.old self.new (Run child.now) (end_if fails)) }
        ensures ran { fails ≡ false → OnOk result (self.new.world ≡ with_boot_run self.old.world child.now exit.now vars) }
        ensures failed { fails ≡ true → self.new.world ≡ self.old.world }
        ensures err { OnErr result (SameLog self.old self.new) }
    {
        if fails {
            let child = child.try_clone(alloc)?;
            return self.refuse(alloc, NotedCall::Run { child });
        }
        self.run_program(alloc, child, exit, vars)
    }

    // The run of a boot program that is done.
    fn run_program(
        &mut self,
        alloc: Global,
        child: &Child,
        exit: &Exit,
        vars: Vars,
    ) -> Result<(), NoMemory>
        requires class { is_boot child.now.class ≡ true }
        requires vars { vars ≡ program_vars self.old.boot child.now self.old.world.vars }
        ensures ok { OnOk result (NotesCall self.old self.new (Run child.now) Done) }
        ensures ran { OnOk result (self.new.world ≡ with_boot_run self.old.world child.now exit.now vars) }
        ensures err { OnErr result (SameLog self.old self.new) }
    {
        self.notes.reserve(1)?;
        let child_copy = child.try_clone(alloc)?;
        let changes = effects::run_boot(alloc, &mut self.world, child, exit, vars)?;
        let child = child_copy;
        self.push_note(NotedCall::Run { child }, NotedEnd::Done, changes);
        Ok(())
    }
}
