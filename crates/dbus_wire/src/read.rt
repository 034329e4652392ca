//! Messages, read as their bytes come.

ghost use Rattle.std.specs.Prelude.{◌≡◌, ◌+◌, ◌≤◌, ◌↔◌, ℕ, Ok, Err, length};
ghost use Rattle.updater_text.specs.declared.stops.Lack.TheVariants as lack;
ghost use Rattle.dbus_wire.specs.Answers.{Answers, AnswersWhole, Lacks, StatesTooMuch, NoMessage, HasAll, GotIsSpelled, GetsSpelled, NeedsRest, Refuses, RefusedOrNoMemory};
ghost use Rattle.dbus_wire.specs.Reading.{message_at, whole};
ghost use Rattle.dbus_wire.specs.declared.refusal.WireRefusal.TheVariants as refusal;
ghost use Rattle.dbus_wire.specs.declared.read.Progress.TheVariants as progress;

use crate::message::Message;
use crate::reading::{message_of, order_of, stated_length};
use crate::refusal::WireRefusal;
use std::alloc::Global;
use updater_text::Lack;
use wire_value::ReadError;

/// What bytes come to that may be the beginning of a message.
#[derive(Drop)]
pub enum Progress {
    /// Not the whole of a message: at least so many bytes more are needed.
    Need { more: u64 },
    /// A message, which has so many of the bytes.
    Got { message: Message, used: u64 },
}

fn whole_message(alloc: Global, little: bool, bytes: &[u8]) -> Result<Progress, Lack<WireRefusal>>
    requires long { 16 ≤ length bytes.now }
    requires short { length bytes.now ≤ 1048576 }
    ensures { AnswersWhole (whole (message_at little bytes.now) (length bytes.now)) result }
{
    match message_of(alloc, little, bytes) {
        Ok(message) => Ok(Progress::Got {
            message,
            used: bytes.len() as u64,
        }),
        Err(ReadError::Malformed) => Err(Lack::Refused(WireRefusal::Bad)),
        Err(ReadError::NoMemory) => Err(Lack::NoMemory),
    }
}

#[tactic(auto, unfolding(crate::specs::Reading::answer))]
fn read(alloc: Global, bytes: &[u8]) -> Result<Progress, Lack<WireRefusal>>
    ensures { Answers bytes.now result }
{
    let length = bytes.len() as u64;
    if length < 16 {
        return Ok(Progress::Need { more: 16 - length });
    }
    let Some(little) = order_of(bytes) else {
        return Err(Lack::Refused(WireRefusal::Bad));
    };
    let stated = stated_length(little, bytes);
    if stated > 1_048_576 {
        return Err(Lack::Refused(WireRefusal::TooLarge { length: stated }));
    }
    if length < stated {
        return Ok(Progress::Need {
            more: stated - length,
        });
    }
    whole_message(alloc, little, bytes.split_at(stated as usize).0)
}

/// The message that the bytes begin with, or how many bytes more are needed to tell: with fewer than
/// 16 those that are missing of them, and then what is missing of the whole, which the first 16
/// state. Bad comes exactly where no message begins so, as soon as all that it states is there, and
/// at once where the byte order or the version is none; TooLarge comes where a message of more than
/// 1 MiB is stated. What stands behind the message is not looked at. It takes memory in proportion
/// to the message, and only once all of it is there.
pub fn read_message(alloc: Global, bytes: &[u8]) -> Result<Progress, Lack<WireRefusal>>
    // What was got is spelled by as many bytes as it used.
    ensures got { GotIsSpelled bytes.now result }
    // A message of at most 1 MiB that the bytes begin with is got, whatever follows it.
    ensures whole { GetsSpelled bytes.now result }
    // Of one that is not all there, more is needed, and never more than is missing.
    ensures part { NeedsRest bytes.now result }
    ensures need { (more : ℕ) → (result ≡ Ok (progress.Need more)) ↔ Lacks bytes.now more }
    ensures large { (n : ℕ) → Refuses result (refusal.TooLarge n) ↔ StatesTooMuch bytes.now n }
    ensures bad { Refuses result refusal.Bad → NoMessage bytes.now }
    ensures refuses { HasAll bytes.now → NoMessage bytes.now → RefusedOrNoMemory result }
    // Memory runs out only where all is there.
    ensures memory { result ≡ Err lack.NoMemory → HasAll bytes.now }
{
    read(alloc, bytes)
}
