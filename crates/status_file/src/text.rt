ghost use Rattle.std.specs.Prelude.{◌≡◌, IfOk, Ok, length};
ghost use Rattle.slot_status.specs.Records.{book_of};
ghost use Rattle.slot_status.specs.Texts.{book_text};
ghost use Rattle.status_file.specs.Status.{names_in};

use slot_status::StatusBook;
use std::alloc::Global;
use system_conf::System;
use updater_text::{Items, NoMemory};

/// The text of the status file that holds this book of a system's slots. It is short enough to be read
/// again. The only error is out of memory.
pub fn status_text(alloc: Global, system: &System, book: &StatusBook) -> Result<Items<u8>, NoMemory>
    requires { length book.now ≡ length system.now.slots }
    ensures text { IfOk result (λ text. text ≡ book_text (names_in system.now.slots) book.now) }
    ensures reads_back { IfOk result (λ text. book_of (names_in system.now.slots) text ≡ Ok book.now) }
{
    let names = system.slot_names(alloc)?;
    let text = book.text(&names)?;
    Ok(Items::from_vec(text))
}
