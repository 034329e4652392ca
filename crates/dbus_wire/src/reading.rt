//! A message, read from the bytes that it is stated to have.

ghost use Rattle.std.specs.Prelude.{◌≡◌, ◌+◌, ◌≤◌, ◌<◌, ℕ, length, IfSome, slice_index};
ghost use Rattle.wire_value.specs.Gives.{Gives, GivesItems, at};
ghost use Rattle.wire_value.specs.View.{views};
ghost use Rattle.dbus_wire.specs.Fields as field_spec;
ghost use Rattle.dbus_wire.specs.Fields.{text_of};
ghost use Rattle.dbus_wire.specs.FieldsView.{plain_fields, GivesFields};
ghost use Rattle.dbus_wire.specs.StartView.{joined_by};
ghost use Rattle.dbus_wire.specs.MessageView.{plain};
ghost use Rattle.dbus_wire.specs.Reading as spec;

use crate::fields::{Fields, has_needed};
use crate::message::Message;
use crate::said::said;
use byteorder::{BigEndian, ByteOrder, LittleEndian};
use std::alloc::Global;
use updater_text::Text;
use wire_value::parts::{bytes_of, gap_before, gap_of};
use wire_value::{Place, ReadError, Value, is_signature, read_items, read_values};

// What the header says beside its fields.
#[derive(Clone, Copy)]
struct Start {
    little: bool,
    kind: u8,
    flags: u8,
    serial: u32,
}

/// Whether numbers have their lowest byte first, where the first four bytes are those of a message.
pub fn order_of(bytes: &[u8]) -> Option<bool>
    requires { 16 ≤ length bytes.now }
    ensures { result ≡ spec.order_of bytes.now }
{
    if bytes[3] != 1 {
        return None;
    }
    match bytes[0] {
        b'l' => Some(true),
        b'B' => Some(false),
        _ => None,
    }
}

// The number of four bytes at an offset.
#[tactic(auto, unfolding(crate::specs::Reading::word_in, wire_value::specs::Reading::from_word))]
fn word_in(little: bool, offset: usize, bytes: &[u8]) -> u32
    requires { offset + 4 ≤ length bytes.now }
    ensures { result ≡ spec.word_in little offset bytes.now }
{
    let word = bytes.split_at(offset).1.split_at(4).0;
    if little {
        LittleEndian::read_u32(word)
    } else {
        BigEndian::read_u32(word)
    }
}

/// The length that a message states: its header, padded to 8, and its body.
#[tactic(auto, unfolding(crate::specs::Reading::stated))]
pub fn stated_length(little: bool, bytes: &[u8]) -> u64
    requires { 16 ≤ length bytes.now }
    ensures { result ≡ spec.stated little bytes.now }
{
    let head = 16 + word_in(little, 12, bytes) as usize;
    let start = head + gap_before(8, head);
    start as u64 + u64::from(word_in(little, 4, bytes))
}

fn is_enough(kind: u8, fields: &Fields) -> bool
    ensures { result ≡ field_spec.has_needed kind (plain_fields fields.now) }
{
    has_needed(
        kind,
        &fields.path,
        &fields.interface,
        &fields.member,
        &fields.error_name,
        fields.reply_serial,
    )
}

// What the fields say that stand behind the first 16 bytes, and the place behind them.
#[tactic(auto, using(crate::proofs::Headers::field_is), unfolding(crate::specs::Reading::fields_at))]
fn fields_of<'a>(
    alloc: Global,
    kind: u8,
    little: bool,
    size: usize,
    bytes: &'a [u8],
) -> Result<(Fields, Place<'a>), ReadError>
    requires long { 16 ≤ length bytes.now }
    requires short { length bytes.now ≤ 1048576 }
    ensures { GivesFields result (spec.fields_at kind little size bytes.now) }
{
    let place = Place {
        offset: 16,
        bytes: bytes.split_at(16).1,
    };
    let (front, rest) = bytes_of(place, size)?;
    let inside = Place {
        offset: 16,
        bytes: front,
    };
    let list = read_items(alloc, little, 63, b"(yv)", inside)?;
    let fields = said(alloc, &list)?;
    if is_enough(kind, &fields) {
        Ok((fields, rest))
    } else {
        Err(ReadError::Malformed)
    }
}

// The body behind its padding, which all that is left is.
#[tactic(auto, unfolding(crate::specs::Reading::body_at))]
fn body_of(
    alloc: Global,
    little: bool,
    signature: &[u8],
    place: Place<'_>,
) -> Result<Vec<Value>, ReadError>
    ensures { GivesItems result (spec.body_at little signature.now (at place.entry)) }
{
    let rest = gap_of(8, place)?;
    if !is_signature(signature) {
        return Err(ReadError::Malformed);
    }
    let (values, left) = read_values(alloc, little, 64, signature, rest)?;
    if left.bytes.is_empty() {
        Ok(values)
    } else {
        Err(ReadError::Malformed)
    }
}

/// The message that all the bytes are, which state as many.
#[tactic(auto, unfolding(crate::specs::Reading::message_at))]
pub fn message_of(alloc: Global, little: bool, bytes: &[u8]) -> Result<Message, ReadError>
    requires long { 16 ≤ length bytes.now }
    requires short { length bytes.now ≤ 1048576 }
    ensures { Gives plain result (spec.message_at little bytes.now) }
{
    let start = Start {
        little,
        kind: bytes[1],
        flags: bytes[2],
        serial: word_in(little, 8, bytes),
    };
    if start.kind == 0 || start.serial == 0 {
        return Err(ReadError::Malformed);
    }
    let size = word_in(little, 12, bytes) as usize;
    let (fields, rest) = fields_of(alloc, start.kind, little, size, bytes)?;
    let body = body_of(alloc, little, fields.signature(), rest)?;
    Ok(joined(alloc, start, fields, body))
}

// The message of a start, of what the fields say and of a body.
fn joined(alloc: Global, start: Start, fields: Fields, body: Vec<Value>) -> Message
    ensures { plain result ≡ joined_by start (plain_fields fields) (views body.items) }
{
    Message {
        little: start.little,
        kind: start.kind,
        flags: start.flags,
        serial: start.serial,
        path: fields.path,
        interface: fields.interface,
        member: fields.member,
        error_name: fields.error_name,
        reply_serial: fields.reply_serial,
        destination: fields.destination,
        sender: fields.sender,
        signature: text_or_empty(alloc, fields.signature),
        fds: fields.fds,
        body,
    }
}

fn text_or_empty(alloc: Global, text: Option<Text>) -> Text
    ensures { result ≡ text_of text }
{
    match text {
        Some(text) => text,
        None => Text::empty(alloc),
    }
}
