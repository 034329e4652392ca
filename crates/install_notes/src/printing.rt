ghost use Rattle.std.specs.Prelude.{ℕ, ◌≡◌, ◌≤◌, [], length};
ghost use Rattle.install_facts.specs.Notes.{AddsNote, note};
ghost use Rattle.install_notes.specs.Lines.{Stands, note_line};
ghost use Rattle.updater_text.specs.Sinks.{WritesText};

use crate::line::line_of;
use install_facts::Report;
use std::marker::{Brand, PhantomData};
use updater_text::{Sink, say};

/// Which loan of a sink a report holds. It is for proofs alone: who calls a function that is generic
/// over it knows that the report still holds the sink that was lent to it.
pub trait Home {
    ghost home: { ℕ };
}

impl Home for Brand {
    ghost home = { 0 };
}

/// A sink that is lent, as a value of its own, so that it is moved and not lent anew.
#[derive(Drop)]
pub struct Lent<'a, O: Sink> {
    pub sink: &'a mut O,
}

/// Puts the notes of an install on a sink that is lent to it, each as it comes: a line of its percent
/// and its text, by one put, and nothing more once a put failed. It takes no memory.
#[derive(Drop)]
pub struct NoteLines<'a, O: Sink, K: Home> {
    sink: &'a mut O,
    whole: bool,
    of: PhantomData<K>,
    ghost same_sink: { sink.ghost_name ≡ K.home },
}

impl<'a, O: Sink, K: Home> NoteLines<'a, O, K> {
    /// A report over the sink, with no note yet.
    pub fn new(at: Lent<'a, O>) -> NoteLines<'a, O, K>
        requires { at.sink.ghost_name ≡ K.home }
        ensures same { result.sink.ghost_name ≡ at.entry.sink.ghost_name }
        ensures stands { Stands (O.shown result.sink.now) result.whole (O.shown at.entry.sink.now) [] }
    {
        let Lent { sink } = at;
        NoteLines {
            sink,
            whole: true,
            of: PhantomData,
        }
    }

    /// Gives the sink back, with whether all notes were put whole.
    pub fn into_parts(self) -> (Lent<'a, O>, bool)
        ensures same { result.0.sink.ghost_name ≡ self.entry.sink.ghost_name }
        ensures now { result.0.sink.now ≡ self.entry.sink.now }
        ensures whole { result.1 ≡ self.entry.whole }
    {
        let NoteLines { sink, whole, of: _ } = self;
        (Lent { sink }, whole)
    }

    // Puts the line of a note, where all before it were whole.
    fn put(&mut self, percent: u8, text: &str)
        requires { length text.now ≤ 279 }
        ensures puts { WritesText (O.shown self.old.sink.now) (O.shown self.new.sink.now)
            (note_line (note percent text.now)) self.old.whole self.new.whole }
    {
        let line = line_of(percent, text);
        let whole = self.whole;
        self.whole = say(&mut *self.sink, whole, line.as_str().as_bytes());
    }
}

impl<O: Sink, K: Home> Report for NoteLines<'_, O, K> {
    ghost stands = { λ r. Stands (O.shown r.sink.now) r.whole };

    /// A put that fails is told by `into_parts` alone.
    fn note(&mut self, percent: u8, text: &str)
        requires { length text.now ≤ 279 }
        ensures adds { AddsNote (Stands (O.shown self.old.sink.now) self.old.whole)
            (Stands (O.shown self.new.sink.now) self.new.whole) percent text.now }
        ensures puts { WritesText (O.shown self.old.sink.now) (O.shown self.new.sink.now)
            (note_line (note percent text.now)) self.old.whole self.new.whole }
    {
        self.put(percent, text);
    }
}
