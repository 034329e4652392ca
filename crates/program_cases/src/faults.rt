use crate::forms::{cut, line_ends, value_fault};
use std::alloc::Global;
use updater_text::{Lack, Text};

/// A fault at a line of a file, or in a whole file where the line is 0.
pub fn fault_at(alloc: Global, file: &str, line: usize, what: &str) -> Lack<Text> {
    let text = match line {
        0 => format!(in alloc; "{file}: {what}"),
        _ => format!(in alloc; "{file}:{line}: {what}"),
    };
    match text {
        Ok(text) => Lack::Refused(Text::from_string(text)),
        Err(_) => Lack::NoMemory,
    }
}

fn line_fault(group: &str, line: &str) -> Option<&'static str> {
    let (key, value) = line.split_once('=')?;
    if key.starts_with('#') {
        return None;
    }
    value_fault(group, key.trim(), value.trim_start())
}

// The first line of a group whose key is unknown or has a bad value, counted from 0.
fn fault_in(group: &str, lines: &str) -> Option<(usize, &'static str)> {
    for (at, line) in lines.lines().enumerate() {
        if let Some(what) = line_fault(group, line.trim_start()) {
            return Some((at, what));
        }
    }
    None
}

/// The first line of a case whose key is unknown or has a bad value, and which of these it is.
pub fn first_fault(text: &str) -> Option<(usize, &'static str)> {
    let mut line: usize = 1;
    for section in text.split("\n[") {
        let (group, lines) = cut(section.trim_start_matches('['), ']');
        if let Some((at, what)) = fault_in(group, lines) {
            return Some((line.saturating_add(at), what));
        }
        line = line.saturating_add(line_ends(section)).saturating_add(1);
    }
    None
}
