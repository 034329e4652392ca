use crate::forms::replaced;
use sha2::{Digest, Sha256};
use std::alloc::Global;
use updater_text::NoMemory;

/// How many bytes are shown as they are.
const SHOWN: usize = 64;

/// The text that is printed of a case.
#[derive(Drop)]
pub struct Page {
    alloc: Global,
    text: String,
}

// Whether a byte can be shown as text.
fn is_shown(byte: u8) -> bool {
    (32 <= byte && byte < 127) || byte == b'\n'
}

impl Page {
    /// An empty page.
    pub fn new(alloc: Global) -> Page {
        Page {
            alloc,
            text: String::new(alloc),
        }
    }

    pub fn alloc(&self) -> Global {
        self.alloc
    }

    pub fn as_str(&self) -> &str {
        self.text.as_str()
    }

    /// Adds a text.
    pub fn say(&mut self, text: &str) -> Result<(), NoMemory> {
        self.text.push_str(text)?;
        Ok(())
    }

    /// Adds a text and the end of a line.
    pub fn line(&mut self, text: &str) -> Result<(), NoMemory> {
        self.say(text)?;
        self.say("\n")
    }

    /// Begins what is told of a case.
    pub fn begin_case(&mut self, file: &str, name: &str) -> Result<(), NoMemory> {
        let text = format!(in self.alloc; "== {file} {name}: ")?;
        self.say(text.as_str())
    }

    /// Adds a word and a number.
    pub fn count(&mut self, word: &str, number: u64) -> Result<(), NoMemory> {
        let text = format!(in self.alloc; "{word}{number}")?;
        self.say(text.as_str())
    }

    /// Adds where something begins and ends.
    pub fn range(&mut self, first: u64, end: u64) -> Result<(), NoMemory> {
        self.count(" ", first)?;
        self.count("..", end)
    }

    /// Begins one of several things, the first of which stands behind a colon.
    pub fn begin_item(&mut self, word: &str, name: &str) -> Result<(), NoMemory> {
        let sign = if self.text.ends_with(':') { " " } else { "; " };
        self.say(sign)?;
        self.say(word)?;
        self.say(name)
    }

    fn hex(&mut self, word: &str, bytes: &[u8]) -> Result<(), NoMemory> {
        let digits = hex::encode(self.alloc, bytes)?;
        self.say(word)?;
        self.say(digits.as_str())
    }

    fn quoted(&mut self, text: &str) -> Result<(), NoMemory> {
        let text = replaced(self.alloc, text, "\n", "\\n")?;
        self.say(" \"")?;
        self.say(text.as_str())?;
        self.say("\"")
    }

    /// Adds bytes: few as text or in hexadecimal digits, and of others the length and the SHA-256.
    pub fn content(&mut self, bytes: &[u8]) -> Result<(), NoMemory> {
        if bytes.len() > SHOWN {
            self.count(" ", bytes.len() as u64)?;
            return self.hex(" bytes, sha256 ", Sha256::digest(bytes).as_slice());
        }
        match str::from_utf8(bytes) {
            Ok(text) if bytes.iter().all(|byte| is_shown(*byte)) => self.quoted(text),
            _ => self.hex(" hex ", bytes),
        }
    }

    /// Adds each line of a stream behind a word. A last line without an end is followed by a mark.
    pub fn stream(&mut self, word: &str, bytes: &[u8]) -> Result<(), NoMemory> {
        let text = str::from_utf8(bytes).unwrap_or("not UTF-8");
        for line in text.split_inclusive('\n') {
            self.say(word)?;
            self.say(line)?;
        }
        if text.is_empty() || text.ends_with('\n') {
            return Ok(());
        }
        self.line(" (no end of the line)")
    }
}
