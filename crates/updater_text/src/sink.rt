ghost use Rattle.std.specs.Prelude.{is_ok};
ghost use Rattle.updater_text.specs.Sinks.{Put, WritesText, Shown, WritesBoth};

/// A call of the outside that failed.
#[derive(Clone, Copy, Debug, PartialEq, Eq)]
pub struct Failed;

/// What takes bytes, as standard output does.
pub trait Sink {
    /// The bytes that it holds, where it tells them, and its count of failed puts.
    ghost shown: { Self → Shown };

    /// Appends the bytes. `Failed` comes only where the count of faults rose, and then a part of
    /// their front was appended.
    fn put(&mut self, bytes: &[u8]) -> Result<(), Failed>
        ensures { Put (shown self.old) (shown self.new) bytes.now (is_ok result) };
}

/// Puts a line more where all before it were whole, and answers whether all are whole now. Nothing
/// is put for an empty line, and nothing after a failed put.
pub fn say<S: Sink>(sink: &mut S, whole: bool, line: &[u8]) -> bool
    ensures { WritesText (S.shown sink.old) (S.shown sink.new) line.now whole result }
{
    if line.is_empty() || !whole {
        return whole;
    }
    sink.put(line).is_ok()
}

/// Puts a text on each of two sinks, by one put at most, and answers whether both are whole.
pub fn tell<O: Sink, E: Sink>(out: &mut O, err: &mut E, text_out: &[u8], text_err: &[u8]) -> bool
    ensures { WritesBoth (O.shown out.old) (O.shown out.new) (E.shown err.old) (E.shown err.new) text_out.now text_err.now result }
{
    let out_whole = say(out, true, text_out);
    let err_whole = say(err, true, text_err);
    out_whole && err_whole
}
