use crate::forms::{repeated, replaced, word_of};
use keyfile::KeyFile;
use std::alloc::Global;
use updater_text::NoMemory;

/// The key at a place of a group, and its value.
pub fn entry_of(case: &KeyFile, group: usize, at: usize) -> (&str, &str) {
    let key = case.key(group, at).unwrap_or("");
    (key, case.value(group, at).unwrap_or(""))
}

// A text so many times, with the numbers from 0 on in each place of `@`.
fn lines_of(alloc: Global, count: usize, text: &str) -> Result<Vec<u8>, NoMemory> {
    let mut bytes = Vec::new(alloc);
    for number in 0..count {
        let number = format!(in alloc; "{number}")?;
        let line = replaced(alloc, text, "@", number.as_str())?;
        bytes.extend_from_slice(line.as_bytes())?;
    }
    Ok(bytes)
}

// The bytes of these digits so many times.
fn bytes_of(alloc: Global, count: usize, digits: &str) -> Result<Vec<u8>, NoMemory> {
    let Ok(bytes) = hex::decode(alloc, digits) else {
        return Err(NoMemory);
    };
    let all = bytes.as_slice().repeat(alloc, count)?;
    Ok(all)
}

// The bytes that a key says, which has its form.
fn piece_of(alloc: Global, key: &str, value: &str) -> Result<Vec<u8>, NoMemory> {
    let (count, rest) = repeated(value).unwrap_or((0, ""));
    match word_of(key) {
        "lines" => lines_of(alloc, count, rest),
        "bytes" => bytes_of(alloc, count, rest),
        _ => {
            let bytes = Vec::from_slice(alloc, value.as_bytes())?;
            Ok(bytes)
        }
    }
}

/// The bytes that the keys of a group say, one after the other.
pub fn content_of(alloc: Global, case: &KeyFile, group: usize) -> Result<Vec<u8>, NoMemory> {
    let mut bytes = Vec::new(alloc);
    for at in 0..case.keys(group) {
        let (key, value) = entry_of(case, group, at);
        let piece = piece_of(alloc, key, value)?;
        bytes.extend_from_slice(piece.as_slice())?;
    }
    Ok(bytes)
}
