ghost use Rattle.std.specs.Prelude.{◌≡◌, IsTrue, length, map};
ghost use Rattle.std.specs.Str.Lines.{lines};
ghost use Rattle.std.specs.List.{list_all};
ghost use Rattle.keyfile.specs.Escapes.{unescape};
ghost use Rattle.keyfile.specs.Groups.{is_key, is_line_byte};
ghost use Rattle.keyfile.specs.Lines.{has_line_form, line_of, line_meaning};
ghost use Rattle.updater_text.specs.Answers.{Gives};
ghost use Rattle.keyfile.specs.Reading.{read_lines_of, read_of};
ghost use Rattle.keyfile.specs.Steps.{GivesState, after_entry, after_line};

use crate::escape::unescape;
use crate::line::{Line, line_of};
use crate::{KeyFault, KeyFile};
use std::alloc::Global;
use updater_text::Lack;

/// The longest key file, in bytes.
const LIMIT: usize = 1_048_576;

/// Reads a key file, as RAUC's chapter Reference describes `system.conf` and the manifest. Lines end
/// with a line feed, and a carriage return before it is dropped. Blanks (spaces and tabs) at a line's
/// front are skipped. An empty line and a line that begins with `#` say nothing; `[name]` opens a
/// group; `key=value` gives a key of the last group a value, with the blanks around `=` dropped and
/// the escapes `\s`, `\n`, `\t`, `\r` and `\\` read. A repeated group goes on where it stands, and a
/// repeated key keeps its place and takes the last value.
///
/// The length is looked at first, then whether all bytes are UTF-8, and then line by line the first
/// fault: `BadLine`, `KeyBeforeGroup` or `BadEscape`, in this order within a line.
pub fn read(alloc: Global, bytes: &[u8]) -> Result<KeyFile, Lack<KeyFault>>
    ensures { Gives result (read_of bytes.now) }
{
    if bytes.len() > LIMIT {
        return Err(Lack::Refused(KeyFault::TooLong {
            length: bytes.len() as u64,
        }));
    }
    match str::from_utf8(bytes) {
        Ok(text) => read_lines(alloc, text),
        Err(error) => Err(Lack::Refused(KeyFault::NotUtf8 {
            at: error.valid_up_to() as u64,
        })),
    }
}

// Reads the lines of a text from the first on.
fn read_lines(alloc: Global, text: &str) -> Result<KeyFile, Lack<KeyFault>>
    ensures { Gives result (read_lines_of (map line_of (lines text.now))) }
{
    let Ok(mut file) = KeyFile::new(alloc) else {
        return Err(Lack::NoMemory);
    };
    let mut group = None;
    let mut number: u64 = 0;
    for line in text.lines() {
        number += 1;
        match take_line(alloc, &mut file, group, number, line_of(line)) {
            Ok(next) => group = next,
            Err(lack) => return Err(lack),
        }
    }
    Ok(file)
}

// Adds what a line of this number says to the group at a place, and answers the place where the next
// line stands.
fn take_line(
    alloc: Global,
    file: &mut KeyFile,
    group: Option<usize>,
    number: u64,
    line: Line<'_>,
) -> Result<Option<usize>, Lack<KeyFault>>
    requires { IsTrue (has_line_form (line_meaning line)) }
    ensures { GivesState result file.new (after_line file.old group number (line_meaning line.entry)) }
{
    match line {
        Line::Nothing => Ok(group),
        Line::Heading(name) => match file.open(name) {
            Ok(at) => Ok(Some(at)),
            Err(_) => Err(Lack::NoMemory),
        },
        Line::Entry(key, value) => match group {
            Some(at) => take_entry(alloc, file, at, number, key, value),
            None => Err(Lack::Refused(KeyFault::KeyBeforeGroup { number })),
        },
        Line::Bad => Err(Lack::Refused(KeyFault::BadLine { number })),
    }
}

// Gives a key of the group at a place the value that is written so.
fn take_entry(
    alloc: Global,
    file: &mut KeyFile,
    at: usize,
    number: u64,
    key: &str,
    written: &str,
) -> Result<Option<usize>, Lack<KeyFault>>
    requires key { IsTrue (is_key key.now) }
    requires value { IsTrue (list_all is_line_byte written.now) }
    ensures { GivesState result file.new (after_entry file.old at number key.now (unescape written.now)) }
{
    match unescape(alloc, written) {
        Ok(Some(value)) => match file.put_at(at, key, value) {
            Ok(()) => Ok(Some(at)),
            Err(_) => Err(Lack::NoMemory),
        },
        Ok(None) => Err(Lack::Refused(KeyFault::BadEscape { number })),
        Err(_) => Err(Lack::NoMemory),
    }
}
