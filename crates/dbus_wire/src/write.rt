//! Messages, written.

ghost use Rattle.std.specs.Prelude.{◌≤◌, ℕ, length, IfOk};
ghost use Rattle.dbus_wire.specs.InOrder.{HasSpelling, SpellsInOrder};
ghost use Rattle.dbus_wire.specs.MessageView.{plain};
ghost use Rattle.dbus_wire.specs.Written.{TooLong, RefusesLength};

use crate::message::Message;
use crate::refusal::WriteRefusal;
use crate::valid::layout_of;
use crate::writing::spelled;
use std::alloc::Global;
use updater_text::Lack;

/// The spelling of a message whose fields stand in the order of their codes, with none above 9, and
/// that of the signature only where it is not empty; `read_message` gives the message again. The
/// condition is what `is_valid` tells. TooLarge comes exactly where it has more than 1 MiB.
pub fn write_message(alloc: Global, message: &Message) -> Result<Vec<u8>, Lack<WriteRefusal>>
    requires { HasSpelling (plain message.now) }
    ensures written { IfOk result (λ b. SpellsInOrder b.items (plain message.now)) }
    ensures short { IfOk result (λ b. length b.items ≤ 1048576) }
    // Refused only where its spelling has so many bytes, and they are too many.
    ensures large { (n : ℕ) → RefusesLength result n → TooLong (plain message.now) n }
    // A spelling that has too many is refused.
    ensures refused { (n : ℕ) → TooLong (plain message.now) n → RefusesLength result n }
{
    let layout = layout_of(message).unwrap();
    if layout.end > 1_048_576 {
        return Err(Lack::Refused(WriteRefusal::TooLarge {
            length: layout.end as u64,
        }));
    }
    Ok(spelled(alloc, message, layout)?)
}
