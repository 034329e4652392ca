use std::alloc::{AllocError, Global};
use updater_text::read_number;

const UNKNOWN: &str = "an unknown key";

/// What stands before a sign, and what behind it.
pub fn cut(text: &str, sign: char) -> (&str, &str) {
    match text.split_once(sign) {
        Some((front, back)) => (front, back),
        None => (text, ""),
    }
}

/// How many lines of a text have an end.
pub fn line_ends(text: &str) -> usize {
    text.split('\n').skip(1).count()
}

/// The word of a key, which may have a dot and a name of its own behind it.
pub fn word_of(key: &str) -> &str {
    let (word, _) = cut(key, '.');
    word
}

/// The number that a text spells, else 0.
pub fn number_of(text: &str) -> u64 {
    read_number(text.as_bytes()).unwrap_or(0)
}

/// The seconds that a text spells, which may begin with a minus, else 0.
pub fn seconds_of(text: &str) -> i64 {
    let digits = text.strip_prefix('-').unwrap_or(text);
    let seconds = i64::try_from(number_of(digits)).unwrap_or(i64::MAX);
    if text.starts_with('-') {
        0_i64.saturating_sub(seconds)
    } else {
        seconds
    }
}

/// The first and the last number of `FIRST-LAST`.
pub fn range_of(value: &str) -> Option<(u64, u64)> {
    let (first, last) = value.split_once('-')?;
    let first = read_number(first.as_bytes())?;
    Some((first, read_number(last.as_bytes())?))
}

/// How often `COUNT:WHAT` says that something is repeated, and what.
pub fn repeated(value: &str) -> Option<(usize, &str)> {
    let (count, what) = value.split_once(':')?;
    let count = read_number(count.as_bytes())?;
    Some((usize::try_from(count).ok()?, what))
}

/// The text with another in each place of one.
pub fn replaced(alloc: Global, text: &str, old: &str, new: &str) -> Result<String, AllocError> {
    let mut pieces = Vec::new(alloc);
    for piece in text.split(old) {
        pieces.push(piece)?;
    }
    pieces.join(alloc, new)
}

fn is_number(text: &str) -> bool {
    read_number(text.as_bytes()).is_some()
}

fn are_seconds(text: &str) -> bool {
    is_number(text.strip_prefix('-').unwrap_or(text))
}

// Whether a text is KIND, or KIND:PLACE where the kind takes a place.
fn is_loader(text: &str) -> bool {
    match cut(text, ':') {
        ("grub" | "custom", place) => !place.is_empty(),
        ("uboot" | "barebox" | "efi" | "noop", place) => place.is_empty(),
        _ => false,
    }
}

fn are_numbers(text: &str) -> bool {
    text.split(';').all(is_number)
}

fn is_status(text: &str) -> bool {
    is_number(text) && number_of(text) < 256
}

fn is_hex(text: &str) -> bool {
    text.len() % 2 == 0 && text.as_bytes().iter().all(|byte| byte.is_ascii_hexdigit())
}

fn unless(is_good: bool, fault: &'static str) -> Option<&'static str> {
    if is_good { None } else { Some(fault) }
}

fn run_fault(key: &str, value: &str) -> Option<&'static str> {
    match key {
        "shows" | "words" => None,
        "fails" | "out-fails" | "err-fails" => unless(are_numbers(value), "no list of numbers"),
        "now" => unless(are_seconds(value), "no number"),
        "boot" => unless(is_loader(value), "no boot loader"),
        "stop" => unless(value == "each" || is_number(value), "no number"),
        "picks" => unless(range_of(value).is_some(), "not FIRST-LAST"),
        _ => Some(UNKNOWN),
    }
}

fn content_fault(key: &str, value: &str) -> Option<&'static str> {
    let what = repeated(value);
    let has_digits = what.is_some_and(|(_, digits)| is_hex(digits));
    match word_of(key) {
        "text" => None,
        "missing" => unless(value == "true", "not true"),
        "lines" => unless(what.is_some(), "not COUNT:TEXT"),
        "bytes" => unless(has_digits, "not COUNT:DIGITS"),
        _ => Some(UNKNOWN),
    }
}

fn script_fault(key: &str, value: &str) -> Option<&'static str> {
    let (_, rest) = cut(value, ':');
    let (at, _) = cut(rest, ':');
    match word_of(key) {
        "program" | "args" | "out" | "err" | "put" | "drop" => None,
        "ended" => unless(value == "signal" || is_status(value), "no status"),
        "write" => unless(is_number(at), "not DISK:AT:TEXT"),
        _ => Some(UNKNOWN),
    }
}

/// What is wrong with a key of a group of a case, if anything.
pub fn value_fault(group: &str, key: &str, value: &str) -> Option<&'static str> {
    match cut(group, ' ') {
        ("case", "") => run_fault(key, value),
        ("disk" | "file", _) => content_fault(key, value),
        ("script", _) => script_fault(key, value),
        ("vars", "") => None,
        _ => Some("a key of an unknown group"),
    }
}
