ghost use Rattle.std.specs.Prelude.{◌≡◌, ◌<◌, MatchOption, length, option_copied, option_map};
ghost use Rattle.keyfile.specs.Lines.{after_blanks, before_blanks, bracket_name, entry_of, heading_of, is_silent, line_of, unindented_line, line_meaning};

use crate::forms::{has_line_bytes, is_key, is_name};

/// What a line says: nothing, the name of a group, a key and its written value, or it is bad.
#[derive(Clone, Copy)]
pub enum Line<'a> {
    Nothing,
    Heading(&'a str),
    Entry(&'a str, &'a str),
    Bad,
}

// What follows a space or a tab.
fn strip_blank(text: &str) -> Option<&str>
    ensures { MatchOption result (after_blanks text.now ≡ text.now) (λ rest. (after_blanks text.now ≡ after_blanks rest.now) × (length rest.now < length text.now)) }
{
    if let Some(rest) = text.strip_prefix(' ') {
        return Some(rest);
    }
    if let Some(rest) = text.strip_prefix('\t') {
        return Some(rest);
    }
    None
}

// A text without the blanks at its front.
fn after_blanks(text: &str) -> &str
    ensures { result.now ≡ after_blanks text.now }
{
    let mut left = text;
    while let Some(rest) = strip_blank(left) {
        left = rest;
    }
    left
}

// What stands before a space or a tab at the end.
fn strip_last_blank(text: &str) -> Option<&str>
    ensures { MatchOption result (before_blanks text.now ≡ text.now) (λ front. (before_blanks text.now ≡ before_blanks front.now) × (length front.now < length text.now)) }
{
    if let Some(front) = text.strip_suffix(' ') {
        return Some(front);
    }
    if let Some(front) = text.strip_suffix('\t') {
        return Some(front);
    }
    None
}

// A text without the blanks at its end.
fn before_blanks(text: &str) -> &str
    ensures { result.now ≡ before_blanks text.now }
{
    let mut left = text;
    while let Some(front) = strip_last_blank(left) {
        left = front;
    }
    left
}

// Whether a line is empty or a comment.
fn is_silent(text: &str) -> bool
    ensures { result ≡ is_silent text.now }
{
    match text.as_bytes() {
        [] => true,
        [first, ..] => *first == b'#',
    }
}

// The name in `[name]`.
fn bracket_name(text: &str) -> Option<&str>
    ensures { option_copied result ≡ bracket_name text.now }
{
    let name = text.strip_prefix('[')?.strip_suffix(']')?;
    if is_name(name) { Some(name) } else { None }
}

// The key and the written value in `key=value`.
fn entry_of(text: &str) -> Option<(&str, &str)>
    ensures { option_map (λ e. (e.0.now, e.1.now)) result ≡ entry_of text.now }
{
    let (front, back) = text.split_once('=')?;
    let key = before_blanks(front);
    let value = after_blanks(back);
    if is_key(key) && has_line_bytes(value) {
        Some((key, value))
    } else {
        None
    }
}

// What a line says that begins with no blank.
fn unindented_line(text: &str) -> Line<'_>
    ensures { line_meaning result ≡ unindented_line text.now }
{
    if is_silent(text) {
        return Line::Nothing;
    }
    if let Some(name) = bracket_name(before_blanks(text)) {
        return Line::Heading(name);
    }
    match entry_of(text) {
        Some((key, value)) => Line::Entry(key, value),
        None => Line::Bad,
    }
}

/// What a line says.
pub fn line_of(text: &str) -> Line<'_>
    ensures { line_meaning result ≡ line_of text.now }
{
    unindented_line(after_blanks(text))
}
