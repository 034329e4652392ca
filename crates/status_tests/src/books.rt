ghost use Rattle.std.specs.Prelude.{◌≡◌, ◌∷◌, [], IfOk, IfSome, codes, length};

use slot_status::{StatusBook, StatusRefusal, read_book, status_cause};
use std::alloc::Global;
use updater_text::{Lack, NoMemory, Text};

/// The names of two slots.
pub fn names(alloc: Global) -> Result<Vec<Text>, NoMemory>
    ensures { IfOk result (λ v. v.items ≡ codes "rootfs.0" ∷ codes "rootfs.1" ∷ []) }
{
    let first = Text::new(alloc, "rootfs.0")?;
    let second = Text::new(alloc, "rootfs.1")?;
    let mut names = Vec::new(alloc);
    names.push(first)?;
    names.push(second)?;
    Ok(names)
}

/// The book that a text holds of them; None where it holds none.
pub fn book_in(alloc: Global, text: &[u8]) -> Option<StatusBook>
    ensures { IfSome result (λ book. length book ≡ 2) }
{
    let names = names(alloc).ok()?;
    match read_book(alloc, names.as_slice(), text) {
        Ok(book) => Some(book),
        Err(_) => None,
    }
}

/// Whether this is the text of a book of them.
pub fn has_text(alloc: Global, book: &StatusBook, text: &str) -> bool
    requires { length book.now ≡ 2 }
{
    let Ok(names) = names(alloc) else {
        return false;
    };
    match book.text(names.as_slice()) {
        Ok(written) => written.as_slice() == text.as_bytes(),
        Err(_) => false,
    }
}

/// Whether a refusal is told in these words.
pub fn is_cause(alloc: Global, refusal: &StatusRefusal, cause: &str) -> bool {
    let Ok(names) = names(alloc) else {
        return false;
    };
    match status_cause(alloc, names.as_slice(), refusal) {
        Ok(text) => text.as_str() == cause,
        Err(_) => false,
    }
}

/// Whether a change was made, where no cause is given, or was refused for this cause.
pub fn is_answer(alloc: Global, answer: Result<(), Lack<StatusRefusal>>, cause: &str) -> bool {
    match answer {
        Ok(()) => cause.is_empty(),
        Err(Lack::Refused(refusal)) => is_cause(alloc, &refusal, cause),
        Err(Lack::NoMemory) => false,
    }
}
