ghost use Rattle.std.specs.Prelude.{◌≡◌, ◌≤◌, length};
ghost use Rattle.install_facts.specs.Notes.{note};
ghost use Rattle.install_notes.specs.Lines.{note_line};

use arrayvec::ArrayString;
use itoa::Buffer;

// The line of a note, on the stack: beside the text it has three digits at most, and three bytes.
pub(crate) fn line_of(percent: u8, text: &str) -> ArrayString<288>
    requires { length text.now ≤ 279 }
    ensures { result.bytes ≡ note_line (note percent text.now) }
{
    let mut digits = Buffer::new();
    let mut line = ArrayString::new();
    line.push_str(digits.format(percent));
    line.push_str("% ");
    line.push_str(text);
    line.push_str("\n");
    line
}
